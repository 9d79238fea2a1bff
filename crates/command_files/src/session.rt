//! The commands on files.

ghost use Rattle.std.specs.Prelude.{◌≡◌, ◌≢◌, ◌⊎◌, ◌+◌, ◌-◌, ◌^◌, ◌<◌, ℕ, true, false, List, Option, Some, codes, length};
ghost use Rattle.std.specs.Prelude.{Ok, IfNone, IfSome, IfOk, IfErr, OnOk};
ghost use Rattle.grouping_model.specs.Replies.{known_list};
ghost use Rattle.replica_merge.specs.Replicas.{told};
ghost use Rattle.hash_agg.specs.Means.{AreMeans};
ghost use Rattle.script_io.specs.Fused.{written};
ghost use Rattle.replies.specs.KnownTables.{known_in};
ghost use Rattle.replies.specs.declared.ending.ExitKind.TheVariants.{BadUsage, Done, Fault};
ghost use Rattle.refusals.specs.declared.refusal.Refusal.TheVariants.{BadCommand, NoMemory};
ghost use Rattle.replies.specs.declared.reply.Reply.TheVariants.{Refused};
ghost use Rattle.command_replicas.specs.Commands.{IsTooLong};
ghost use Rattle.command_streams.specs.Disks.{is_in_memory};
ghost use Rattle.command_streams.specs.Stopping.{ending_of, EndsRefused};
ghost use Rattle.command_words.specs.Told.{is_flag_told, is_out_stream, limit_told, values_told};
ghost use Rattle.command_files.specs.Causes.{HasNoReplica, IsDoneOrStopped, IsFailure, IsRefusedFor, RefusesOut, StopsCommand};
ghost use Rattle.command_files.specs.Causes.{StopsAtOut, StopsTaking, StopsWork};
ghost use Rattle.command_files.specs.Ending.{ending_beside, lacking, lacking_of};
ghost use Rattle.out_files.specs.Standing.{stops};
ghost use Rattle.command_files.specs.Fates.{is_stopped, IsUnforced};
ghost use Rattle.command_files.specs.Formats.{format_told, known_format_told};
ghost use Rattle.command_files.specs.Limits.{limit_of};
ghost use Rattle.command_files.specs.Reporting.{output_of, file_on_output, reply_on_output, OnlySays, Prints, PrintsTable, Saves, StopsBy};
ghost use Rattle.command_files.specs.Running.{format_name, session_failed, session_output, session_shown, standpoint_of};
ghost use Rattle.command_files.specs.Running.{BeginsWith, IsDone, Performs, RunsCommand, StandsAsTold, TakesAndSaves};
ghost use Rattle.command_files.specs.Taking.{manner_of, state_of, taken, RanFile, StopsAt, TakesFile, TakesAll};

use crate::limit::{means_of, said_of_limit};
use crate::replicas::{new_replica, open_replica, summary_of, take};
use crate::reporter::Reporter;
use crate::target::Target;
use clap::ArgMatches;
use command_replicas::SummaryFile;
use command_streams::{
    Inputs, OutputStatus, Problem, Streams, open_disk, reason_of, system_seed, tape_reason,
};
use command_words::{
    BATCH, COMPLETE, EXPLAIN, FORMAT, IN, OUT, PROGRESS, Subcommand, input_name, is_flag_told,
    is_stream, output_name, value, values,
};
use file_sentences::{Explained, FileKind, PassedOver, file_reason};
use hash_agg::{Executor, Fnv1a, Means};
use holding_sentences::{answer_line, holding_lines, waiting_lines};
use out_files::{Standing, WrittenOver};
use replica_merge::Replica;
use replies::{ExitKind, Format, KnownFormat, Refusal, Reply, known_table, table};
use spill_tapes::{MemDisk, SpillDisk, SystemFile};
use std::io::{Read, Write};
use std::random::RandomSource;
use std::rt::Files;

/// The format of a table, by its name on the command line.
fn format_named(text: &str) -> Format
    ensures { result ≡ format_told text.now }
{
    match text {
        "aligned" => Format::Aligned,
        "tsv" => Format::Tsv,
        "json" => Format::Json,
        _ => Format::Csv,
    }
}

/// The format of what is known, by its name on the command line.
fn known_format_named(text: &str) -> KnownFormat
    ensures { result ≡ known_format_told text.now }
{
    match text {
        "tsv" => KnownFormat::Tsv,
        "json" => KnownFormat::Json,
        _ => KnownFormat::Lines,
    }
}

/// The format of the answer that a command line tells.
fn format_of(matches: &ArgMatches<'_>) -> Format
    ensures { result ≡ format_told (format_name matches.now) }
{
    format_named(value(matches, FORMAT))
}

/// The format of what is known that a command line tells.
fn known_format_of(matches: &ArgMatches<'_>) -> KnownFormat
    ensures { result ≡ known_format_told (format_name matches.now) }
{
    known_format_named(value(matches, FORMAT))
}

/// The batch files that a command line names.
fn batches_of<'m, 'p>(matches: &'m ArgMatches<'p>) -> &'m [&'p str]
    ensures { length result.now ≡ length (values_told matches.now (codes "BATCH")) }
{
    values(matches, BATCH)
}

/// The summary files that a command line names, but for the first.
fn others_of<'m, 'p>(matches: &'m ArgMatches<'p>) -> &'m [&'p str]
    ensures { length result.now ≡ length (values_told matches.now (codes "IN")) - 1 }
{
    let paths = values(matches, IN);
    &paths[paths.len().min(1)..]
}

/// Whether OUT is standard output.
fn is_out_stream(subcommand: Subcommand, matches: &ArgMatches<'_>) -> bool
    ensures { result ≡ is_out_stream subcommand matches.now }
{
    match subcommand.out(matches) {
        Some(out) => is_stream(out),
        None => false,
    }
}

/// How many answers lack batches that they are told to have: one where all are wanted, and lines tell of some that are not counted.
fn lacking(matches: &ArgMatches<'_>, lines: &[String]) -> usize
    ensures { result ≡ lacking_of (is_flag_told matches.now (codes "complete")) (length lines.now) }
{
    if is_flag_told(matches, COMPLETE) && !lines.is_empty() {
        1
    } else {
        0
    }
}

/// What was found in the place of OUT, if it stops a command.
fn stopping<'p>(looked: &Result<Option<Standing<'p>>, Problem<'p>>) -> Option<Standing<'p>>
    ensures stays { IfSome result (λ standing. (looked.now ≡ Ok (Some standing)) × (stops standing.fate ≡ true)) }
    ensures goes_on { IfNone result (is_stopped looked.now ≡ false) }
{
    match looked {
        Ok(Some(standing)) => {
            if standing.fate.stops() {
                Some(*standing)
            } else {
                None
            }
        }
        Ok(None) | Err(_) => None,
    }
}

/// That there was no memory for what the summary IN has.
fn no_memory_for<'p>(matches: &ArgMatches<'p>) -> Problem<'p>
    ensures { result.why ≡ NoMemory }
{
    Problem::refused(input_name(value(matches, IN)), Refusal::NoMemory)
}

/// A running command: its files, what it replies and says, its tape disk and whether that is in a file. It counts what its aggregations
/// took and how many files were passed over; an answer that lacks batches which it should have counts as one. It has its OUT, and whether
/// that was written.
#[derive(Drop)]
pub struct Session<'c, R: Files, I, W, E> {
    inputs: Inputs<'c, R, I>,
    reporter: Reporter<'c, W, E>,
    disk: SpillDisk<SystemFile<R::File>>,
    in_file: bool,
    executor: Executor,
    passed: usize,
    target: Target,
    is_written: bool,
}

impl<'c, R: Files + AllocGlobal + RandomSource, I: Read, W: Write, E: Write> Session<
    'c,
    R,
    I,
    W,
    E,
> {
    /// A command that has done nothing yet. It spills to memory.
    pub fn new(inputs: Inputs<'c, R, I>, streams: Streams<'c, W, E>) -> Session<'c, R, I, W, E>
        ensures output { session_output W.contents result ≡ written W.contents streams.entry.writer.now }
        ensures shown { session_shown result ≡ streams.entry.terminals.output }
    {
        let alloc = inputs.rt.alloc();
        Session {
            inputs,
            reporter: Reporter::new(streams),
            disk: SpillDisk::Memory(MemDisk::new(alloc)),
            in_file: false,
            executor: Executor::new(),
            passed: 0,
            target: Target::new(),
            is_written: false,
        }
    }

    /// Goes on behind the file of a place that was refused. A file that failed ends the command, and so does one that is OUT, which stays.
    fn pass_over<'p>(&mut self, problem: Problem<'p>, place: usize) -> Result<(), Problem<'p>>
        ensures goes_on { OnOk result (ending_of problem.entry.why ≢ Fault) }
        ensures spares { OnOk result (self.old.target.listed ≢ Some place) }
        ensures counted { OnOk result (self.old.passed + 1 < 2 ^ 64 → self.new.passed ≡ self.old.passed + 1) }
        ensures some { OnOk result (self.new.passed ≢ 0) }
        ensures stops { IfErr result (λ stopped. StopsAt self.old.target.listed place stopped.why) }
        ensures told { OnOk result (Prints W.contents self.old.reporter self.new.reporter
            (reply_on_output self.old.reporter.is_piped (Refused problem.entry.why))) }
        ensures disk { self.new.disk ≡ self.old.disk }
        ensures work { self.new.executor ≡ self.old.executor }
        ensures target { self.new.target ≡ self.old.target }
        ensures why { IfErr result (λ stopped. ending_of stopped.why ≢ Fault → (stopped.why ≡ problem.entry.why)
            × OnlySays self.old.reporter self.new.reporter) }
    {
        if problem.is_fault() || self.target.is_at(place) {
            return Err(problem);
        }
        self.passed = self.passed.saturating_add(1);
        self.reporter.complain(&problem, None);
        self.reporter
            .reply_to(problem.subject, &Reply::Refused(problem.why))?;
        Ok(())
    }

    /// Removes the file in which the tapes lay, when nothing is spilled any more.
    fn remove_spill(&mut self, subcommand: Subcommand, matches: &ArgMatches<'_>)
        ensures says { OnlySays self.old.reporter self.new.reporter }
        ensures passed { self.new.passed ≡ self.old.passed }
    {
        if !self.in_file {
            return;
        }
        self.in_file = false;
        let spill = subcommand.spill(matches);
        self.reporter.remove_disk(self.inputs.rt, spill);
    }

    /// Writes a summary file to OUT.
    fn put_file<'p>(&mut self, file: &SummaryFile, path: &'p str) -> Result<(), Problem<'p>>
        ensures put { OnOk result (Prints W.contents self.old.reporter self.new.reporter
            (file_on_output self.old.reporter.is_piped file.now)) }
        ensures passed { self.new.passed ≡ self.old.passed }
        ensures why { IfErr result (λ problem. ending_of problem.why ≢ Fault → (problem.why ≡ NoMemory)
            × OnlySays self.old.reporter self.new.reporter) }
    {
        if self.reporter.is_piped() {
            self.reporter.print_summary(file)?;
            return Ok(());
        }
        if !self.target.write(self.inputs.rt, path, file)? {
            return Ok(());
        }
        self.reporter.say(&WrittenOver { out: path });
        Ok(())
    }

    /// Writes the summary file of a replica, and replies how long it is.
    fn save<'p>(&mut self, replica: &Replica, path: &'p str) -> Result<(), Problem<'p>>
        ensures saves { OnOk result (Saves W.contents replica.now self.old.reporter self.new.reporter) }
        ensures passed { self.new.passed ≡ self.old.passed }
        ensures why { IfErr result (λ problem. ending_of problem.why ≢ Fault → IsTooLong replica.now problem.why
            × OnlySays self.old.reporter self.new.reporter) }
    {
        let file = summary_of(self.inputs.rt.alloc(), replica, path)?;
        self.put_file(&file, path)?;
        self.is_written = true;
        let length = file.bytes().len();
        self.reporter.reply(&Reply::Saved(length))?;
        Ok(())
    }

    /// Says why a file is refused: of its bytes, or of the file of tapes.
    fn refused<'p>(
        &self,
        kind: FileKind,
        replica: &Replica,
        path: &'p str,
        file: &[u8],
        why: Refusal,
        spill: Option<&str>,
    ) -> Problem<'p>
        ensures { result.why ≡ why }
    {
        let reason = match (why, spill) {
            (Refusal::TapeFault, Some(spill)) => tape_reason(self.inputs.rt, spill),
            _ => file_reason(self.inputs.rt.alloc(), kind, replica, file, why),
        };
        Problem::because(input_name(path), why, reason)
    }

    /// Takes the file of a place into a replica, and gives the reply.
    fn take_file<'p>(
        &mut self,
        kind: FileKind,
        replica: &mut Replica,
        path: &'p str,
        place: usize,
        means: &Means<Fnv1a>,
        spill: Option<&str>,
    ) -> Result<Reply<'static>, Problem<'p>>
        ensures takes { (file : Option (List ℕ))
            × TakesFile kind (is_in_memory self.old.disk) file replica.old replica.new (taken result)
            × RanFile kind file replica.old means.now (taken result) self.old.disk self.old.executor self.new.disk self.new.executor }
        ensures passed { self.new.passed ≡ self.old.passed }
        ensures disk { is_in_memory self.new.disk ≡ is_in_memory self.old.disk }
        ensures says { OnlySays self.old.reporter self.new.reporter }
        ensures listed { self.new.target.listed ≡ self.old.target.listed }
    {
        let file = match self.inputs.read(path) {
            Ok(file) => file,
            Err(problem) => return Err(problem),
        };
        let alloc = self.inputs.rt.alloc();
        let (disk, executor) = (&mut self.disk, &mut self.executor);
        match take(alloc, kind, replica, &file, means, disk, executor) {
            Ok(reply) => {
                self.reporter.tell_cut(input_name(path), &file, &reply);
                self.target.keep_old(place, file);
                Ok(reply)
            }
            Err(why) => Err(self.refused(kind, replica, path, &file, why, spill)),
        }
    }

    /// Takes the file of a place into a replica, and replies to it. One that is refused is passed over.
    fn take_or_pass<'p>(
        &mut self,
        kind: FileKind,
        replica: &mut Replica,
        path: &'p str,
        place: usize,
        means: &Means<Fnv1a>,
        spill: Option<&str>,
    ) -> Result<(), Problem<'p>>
        ensures takes { OnOk result (TakesAll (manner_of kind means.now self.old.disk
            self.old.reporter.is_piped self.old.target.listed) place 1
            (state_of replica.old self.old.disk self.old.executor (output_of W.contents self.old.reporter))
            (state_of replica.new self.new.disk self.new.executor (output_of W.contents self.new.reporter))
            self.old.passed self.new.passed) }
        ensures disk { is_in_memory self.new.disk ≡ is_in_memory self.old.disk }
        ensures piped { OnOk result (self.new.reporter.is_piped ≡ self.old.reporter.is_piped) }
        ensures listed { self.new.target.listed ≡ self.old.target.listed }
        ensures why { IfErr result (λ stopped. ending_of stopped.why ≢ Fault → RefusesOut (manner_of kind means.now self.old.disk
            self.old.reporter.is_piped self.old.target.listed) place replica.old stopped.why
            × OnlySays self.old.reporter self.new.reporter) }
    {
        let reply = match self.take_file(kind, replica, path, place, means, spill) {
            Ok(reply) => reply,
            Err(problem) => return self.pass_over(problem, place),
        };
        self.reporter.reply_to(input_name(path), &reply)?;
        Ok(())
    }

    /// Takes files into a replica, those behind the first that is read, each with its reply.
    fn take_files<'p>(
        &mut self,
        kind: FileKind,
        replica: &mut Replica,
        paths: &[&'p str],
        means: &Means<Fnv1a>,
        spill: Option<&str>,
    ) -> Result<(), Problem<'p>>
        ensures takes { OnOk result (TakesAll (manner_of kind means.now self.old.disk
            self.old.reporter.is_piped self.old.target.listed) 1 (length paths.now)
            (state_of replica.old self.old.disk self.old.executor (output_of W.contents self.old.reporter))
            (state_of replica.new self.new.disk self.new.executor (output_of W.contents self.new.reporter))
            self.old.passed self.new.passed) }
        ensures piped { OnOk result (self.new.reporter.is_piped ≡ self.old.reporter.is_piped) }
        ensures why { IfErr result (λ stopped. ending_of stopped.why ≢ Fault
            → (self.new.reporter.is_piped ≡ self.old.reporter.is_piped) × StopsAtOut (manner_of kind means.now self.old.disk
            self.old.reporter.is_piped self.old.target.listed) (length paths.now)
            (state_of replica.old self.old.disk self.old.executor (output_of W.contents self.old.reporter))
            self.old.passed (output_of W.contents self.new.reporter) stopped.why) }
    {
        self.reporter.set_files(paths.len());
        let mut place: usize = 0;
        for path in paths {
            place = place.saturating_add(1);
            self.take_or_pass(kind, replica, path, place, means, spill)?;
        }
        Ok(())
    }

    /// Tells what a replica holds, where that is asked for. Nothing is told where there is no memory for that.
    fn explain_holding(&mut self, replica: &Replica, is_told: bool)
        ensures says { OnlySays self.old.reporter self.new.reporter }
        ensures passed { self.new.passed ≡ self.old.passed }
    {
        if !is_told {
            return;
        }
        let Ok(lines) = holding_lines(self.inputs.rt.alloc(), replica) else {
            return;
        };
        for line in &lines {
            self.reporter.say(line);
        }
    }

    /// Tells what an answer was made of, where that is asked for. Nothing is told where there is no memory for that.
    fn explain_answer(&mut self, replica: &Replica, is_told: bool)
        ensures says { OnlySays self.old.reporter self.new.reporter }
    {
        if !is_told {
            return;
        }
        let Ok(Some(line)) = answer_line(self.inputs.rt.alloc(), replica) else {
            return;
        };
        self.reporter.say(&line);
    }

    /// Lists what a replica knows, and tells what it holds, where that is asked for.
    fn list<'p>(
        &mut self,
        replica: &Replica,
        format: KnownFormat,
        matches: &ArgMatches<'p>,
        is_told: bool,
    ) -> Result<(), Problem<'p>>
        ensures listed { OnOk result (Prints W.contents self.old.reporter self.new.reporter
            (known_in format (known_list (told replica.now.parts)))) }
        ensures passed { self.new.passed ≡ self.old.passed }
        ensures why { IfErr result (λ problem. ending_of problem.why ≢ Fault → (problem.why ≡ NoMemory)
            × OnlySays self.old.reporter self.new.reporter) }
    {
        let Ok(lines) = known_table(self.inputs.rt.alloc(), replica, format) else {
            return Err(no_memory_for(matches));
        };
        self.reporter.print(&lines)?;
        self.explain_holding(replica, is_told);
        Ok(())
    }

    /// Prints the answer of a replica, and tells what it was made of, where that is asked for.
    fn answer<'p>(
        &mut self,
        replica: &Replica,
        format: Format,
        matches: &ArgMatches<'p>,
        is_told: bool,
    ) -> Result<(), Problem<'p>>
        ensures answered { OnOk result (PrintsTable W.contents format replica.now self.old.reporter self.new.reporter) }
        ensures lacking { OnOk result (self.new.passed ≡ lacking matches.now replica.now) }
        ensures why { IfErr result (λ problem. ending_of problem.why ≢ Fault → (problem.why ≡ NoMemory)
            × OnlySays self.old.reporter self.new.reporter) }
    {
        let alloc = self.inputs.rt.alloc();
        // Nothing is printed before there was memory for all.
        match (waiting_lines(alloc, replica), table(alloc, replica, format)) {
            (Ok(lines), Ok(found)) => {
                self.reporter.print(&found.1)?;
                self.reporter.tell_waiting(&lines);
                self.explain_answer(replica, is_told);
                self.passed = lacking(matches, &lines);
                Ok(())
            }
            _ => Err(no_memory_for(matches)),
        }
    }

    /// Takes files into a replica, and saves it.
    fn take_and_save<'p>(
        &mut self,
        kind: FileKind,
        replica: &mut Replica,
        paths: &[&'p str],
        subcommand: Subcommand,
        matches: &ArgMatches<'p>,
        means: &Means<Fnv1a>,
    ) -> Result<(), Problem<'p>>
        ensures saves { OnOk result (TakesAndSaves (manner_of kind means.now self.old.disk
            self.old.reporter.is_piped self.old.target.listed) (length paths.now) (state_of replica.old self.old.disk self.old.executor
            (output_of W.contents self.old.reporter))
            self.old.passed self.new.passed (output_of W.contents self.new.reporter)) }
        ensures why { IfErr result (λ problem. ending_of problem.why ≢ Fault
            → (self.new.reporter.is_piped ≡ self.old.reporter.is_piped) × StopsTaking (manner_of kind means.now self.old.disk
            self.old.reporter.is_piped self.old.target.listed) (length paths.now)
            (state_of replica.old self.old.disk self.old.executor (output_of W.contents self.old.reporter))
            self.old.passed (output_of W.contents self.new.reporter) problem.why) }
    {
        let spill = subcommand.spill(matches);
        self.take_files(kind, replica, paths, means, spill)?;
        // OUT may have the path of the file for what is spilled, which is no longer wanted.
        self.remove_spill(subcommand, matches);
        self.save(replica, value(matches, OUT))?;
        Ok(())
    }

    /// Does what a command asks of its replica.
    fn perform<'p>(
        &mut self,
        replica: &mut Replica,
        subcommand: Subcommand,
        matches: &ArgMatches<'p>,
        means: &Means<Fnv1a>,
    ) -> Result<(), Problem<'p>>
        ensures performs { OnOk result (Performs subcommand matches.now means.now replica.old
            (standpoint_of W.contents self.old.disk self.old.executor self.old.target.listed self.old.passed self.old.reporter)
            self.new.passed (output_of W.contents self.new.reporter)) }
        ensures why { IfErr result (λ problem. ending_of problem.why ≢ Fault
            → (self.new.reporter.is_piped ≡ self.old.reporter.is_piped) × StopsWork subcommand matches.now means.now replica.old
            (standpoint_of W.contents self.old.disk self.old.executor self.old.target.listed self.old.passed self.old.reporter)
            (output_of W.contents self.new.reporter) problem.why) }
    {
        let is_told = is_flag_told(matches, EXPLAIN);
        match subcommand {
            Subcommand::Known => self.list(replica, known_format_of(matches), matches, is_told),
            Subcommand::Answer => self.answer(replica, format_of(matches), matches, is_told),
            Subcommand::Feed => {
                let paths = batches_of(matches);
                self.take_and_save(FileKind::Batch, replica, paths, subcommand, matches, means)
            }
            Subcommand::Merge => {
                // The replica is that of the first.
                let paths = others_of(matches);
                self.take_and_save(
                    FileKind::Summary,
                    replica,
                    paths,
                    subcommand,
                    matches,
                    means,
                )
            }
            Subcommand::New => self.save(replica, value(matches, OUT)),
        }
    }

    /// The replica that a command begins with.
    fn first_replica<'p>(
        &mut self,
        subcommand: Subcommand,
        matches: &ArgMatches<'p>,
    ) -> Result<Replica, Problem<'p>>
        ensures begins { IfOk result (BeginsWith subcommand matches.now) }
        ensures why { IfErr result (λ problem. IsFailure problem.why ⊎ HasNoReplica subcommand matches.now problem.why) }
        ensures says { OnlySays self.old.reporter self.new.reporter }
        ensures disk { self.new.disk ≡ self.old.disk }
        ensures work { self.new.executor ≡ self.old.executor }
        ensures listed { self.new.target.listed ≡ self.old.target.listed }
        ensures passed { self.new.passed ≡ self.old.passed }
    {
        if matches!(subcommand, Subcommand::New) {
            let replica = new_replica(&mut self.inputs, matches)?;
            return match self.try_first(subcommand, matches) {
                Ok(()) => Ok(replica),
                Err(problem) => Err(problem),
            };
        }
        let (replica, file) = open_replica(&mut self.inputs, value(matches, IN))?;
        self.target.keep_old(0, file);
        Ok(replica)
    }

    /// Runs a command on files: each begins with one replica.
    fn run_command<'p>(
        &mut self,
        subcommand: Subcommand,
        matches: &ArgMatches<'p>,
        means: &Means<Fnv1a>,
    ) -> Result<(), Problem<'p>>
        ensures ran { OnOk result (RunsCommand subcommand matches.now means.now
            (standpoint_of W.contents self.old.disk self.old.executor self.old.target.listed self.old.passed self.old.reporter)
            self.new.passed (output_of W.contents self.new.reporter)) }
        ensures why { IfErr result (λ problem. ending_of problem.why ≢ Fault
            → (self.new.reporter.is_piped ≡ self.old.reporter.is_piped) × StopsCommand subcommand matches.now means.now
            (standpoint_of W.contents self.old.disk self.old.executor self.old.target.listed self.old.passed self.old.reporter)
            (output_of W.contents self.new.reporter) problem.why) }
    {
        let mut replica = self.first_replica(subcommand, matches)?;
        let done = self.perform(&mut replica, subcommand, matches, means);
        drop(replica);
        done
    }

    /// Tells what the grouping took, beside the limit, where that is asked for.
    fn explain(&mut self, is_told: bool, limit: u64)
        ensures says { OnlySays self.old.reporter self.new.reporter }
        ensures passed { self.new.passed ≡ self.old.passed }
    {
        if !is_told {
            return;
        }
        self.reporter.say(&Explained {
            passes: self.executor.work().passes,
            spilled: self.executor.work().spilled,
            pages: self.disk.writes(),
            held: self.executor.work().most_held,
            limit,
        });
    }

    /// What became of OUT, if a command writes one.
    fn output_status<'p>(
        &self,
        subcommand: Subcommand,
        matches: &ArgMatches<'p>,
    ) -> Option<OutputStatus<'p>> {
        match subcommand.out(matches) {
            Some(out) => Some(OutputStatus {
                out: output_name(out),
                is_written: self.is_written,
            }),
            None => None,
        }
    }

    /// Ends a command whose limit was refused. A text that is no number of bytes is no command line.
    fn refuse_limit(
        &mut self,
        subcommand: Subcommand,
        matches: &ArgMatches<'_>,
        why: Refusal,
    ) -> ExitKind
        ensures ends { result ≢ Done }
        ensures stops { result ≢ Fault → ((why ≢ BadCommand) × StopsBy W.contents why result self.old.reporter self.new.reporter)
            ⊎ ((result ≡ BadUsage) × (why ≡ BadCommand) × OnlySays self.old.reporter self.new.reporter) }
    {
        let alloc = self.inputs.rt.alloc();
        let reason = match said_of_limit(alloc, matches, why) {
            Ok(said) => Ok(reason_of(alloc, Some(said))),
            Err(error) => Err(error),
        };
        let problem = Problem::because("--limit", why, reason);
        let output = self.output_status(subcommand, matches);
        match why {
            Refusal::BadCommand => {
                self.reporter.complain(&problem, output);
                ExitKind::BadUsage
            }
            _ => self.reporter.stop(problem, output),
        }
    }

    /// Ends a command that stopped.
    fn refuse(
        &mut self,
        subcommand: Subcommand,
        matches: &ArgMatches<'_>,
        problem: Problem<'_>,
    ) -> ExitKind
        ensures ends { EndsRefused problem.entry.why result }
        ensures stops { result ≢ Fault → StopsBy W.contents problem.entry.why result self.old.reporter self.new.reporter }
    {
        let output = self.output_status(subcommand, matches);
        self.reporter.stop(problem, output)
    }

    /// Runs a command on files which may write OUT, and tells how it ended.
    fn run_beside(
        &mut self,
        subcommand: Subcommand,
        matches: &ArgMatches<'_>,
        standing: Option<Standing<'_>>,
    ) -> ExitKind
        requires piped { self.old.reporter.is_piped ≡ is_out_stream subcommand matches.now }
        requires fresh { self.old.passed ≡ 0 }
        ensures done { result ≡ Done → IsDone R.File subcommand matches.now 0 (output_of W.contents self.old.reporter)
            (output_of W.contents self.new.reporter) }
        ensures stopped { result ≢ Fault → IsDoneOrStopped R.File subcommand matches.now result
            (output_of W.contents self.old.reporter) (output_of W.contents self.new.reporter) }
    {
        match means_of(subcommand, matches) {
            Ok(means) => self.run_with(subcommand, matches, means, standing),
            Err(why) => self.refuse_limit(subcommand, matches, why),
        }
    }

    /// Runs a command on files whose OUT was looked at, and tells how it ended.
    fn run_looked(
        &mut self,
        subcommand: Subcommand,
        matches: &ArgMatches<'_>,
        looked: Result<Option<Standing<'_>>, Problem<'_>>,
    ) -> ExitKind
        requires failed { IfErr looked (λ problem. IsFailure problem.why) }
        requires piped { self.old.reporter.is_piped ≡ is_out_stream subcommand matches.now }
        requires fresh { self.old.passed ≡ 0 }
        ensures done { result ≡ Done → IsDone R.File subcommand matches.now 0 (output_of W.contents self.old.reporter)
            (output_of W.contents self.new.reporter) }
        ensures stopped { result ≢ Fault → IsDoneOrStopped R.File subcommand matches.now result
            (output_of W.contents self.old.reporter) (output_of W.contents self.new.reporter) }
    {
        match looked {
            Ok(standing) => self.run_beside(subcommand, matches, standing),
            Err(problem) => self.refuse(subcommand, matches, problem),
        }
    }

    /// Runs a command on files, and answers how it ended.
    pub fn run(&mut self, subcommand: Subcommand, matches: &ArgMatches<'_>) -> ExitKind
        ensures done { result ≡ Done → IsDone R.File subcommand matches.now 0 (session_output W.contents self.old)
            (session_output W.contents self.new) }
        ensures sent { result ≡ Done → session_failed self.new ≡ false }
        // No summary is written to a terminal, unless by force.
        ensures shown { is_out_stream subcommand matches.now ≡ true → session_shown self.old ≡ true → IsUnforced matches.now
            → result ≡ BadUsage }
        ensures stopped { result ≢ Fault → IsDoneOrStopped R.File subcommand matches.now result
            (session_output W.contents self.old) (session_output W.contents self.new) }
    {
        let rt = self.inputs.rt;
        self.passed = 0;
        let is_terminal = self.reporter.terminals().output;
        let is_piped = is_out_stream(subcommand, matches);
        self.reporter.set_piped(is_piped);
        let looked = self.target.look(rt, subcommand, matches, is_terminal);
        if let Some(standing) = stopping(&looked) {
            self.reporter.say(&standing);
            return ExitKind::BadUsage;
        }
        let exit = self.run_looked(subcommand, matches, looked);
        let output = self.output_status(subcommand, matches);
        self.reporter.finish(exit, output)
    }

    /// The means of a command that aggregates, with a seed of the system's.
    fn seeded(
        &self,
        subcommand: Subcommand,
        means: Means<Fnv1a>,
    ) -> Result<Means<Fnv1a>, Problem<'static>>
        ensures limit { IfOk result (λ seeded. seeded.limit ≡ means.limit) }
        ensures why { IfErr result (λ problem. IsFailure problem.why) }
    {
        if !subcommand.aggregates() {
            return Ok(means);
        }
        let seed = system_seed(self.inputs.rt)?;
        Ok(means.with_seed(seed))
    }

    /// Tries whether the files of a command that writes OUT can be read and written: before the work, which `new` has none of. It is told
    /// where OUT is to be written over.
    fn try_first<'p>(
        &mut self,
        subcommand: Subcommand,
        matches: &ArgMatches<'p>,
    ) -> Result<(), Problem<'p>>
        ensures says { OnlySays self.old.reporter self.new.reporter }
        ensures disk { self.new.disk ≡ self.old.disk }
        ensures work { self.new.executor ≡ self.old.executor }
        ensures listed { self.new.target.listed ≡ self.old.target.listed }
        ensures passed { self.new.passed ≡ self.old.passed }
        ensures why { IfErr result (λ problem. IsFailure problem.why) }
    {
        let Some(out) = subcommand.out(matches) else {
            return Ok(());
        };
        if self
            .target
            .try_first(self.inputs.rt, subcommand, matches, out)?
        {
            self.reporter.say(&WrittenOver { out });
        }
        Ok(())
    }

    /// Tries the files of a command that aggregates: before its work.
    fn try_before<'p>(
        &mut self,
        subcommand: Subcommand,
        matches: &ArgMatches<'p>,
    ) -> Result<(), Problem<'p>>
        ensures says { OnlySays self.old.reporter self.new.reporter }
        ensures passed { self.new.passed ≡ self.old.passed }
        ensures why { IfErr result (λ problem. IsFailure problem.why) }
    {
        if !subcommand.aggregates() {
            return Ok(());
        }
        self.try_first(subcommand, matches)
    }

    /// Says what becomes of what is there in the place of OUT, if that is to be told.
    fn tell_standing(&mut self, standing: Option<Standing<'_>>)
        ensures says { OnlySays self.old.reporter self.new.reporter }
        ensures disk { self.new.disk ≡ self.old.disk }
        ensures passed { self.new.passed ≡ self.old.passed }
    {
        match standing {
            Some(standing) => self.reporter.say(&standing),
            None => {}
        }
    }

    /// Runs a command on files by means, with a seed if it aggregates, and tells how it ended.
    fn run_seeded(
        &mut self,
        subcommand: Subcommand,
        matches: &ArgMatches<'_>,
        means: Means<Fnv1a>,
    ) -> ExitKind
        requires limited { limit_of (limit_told subcommand matches.now) ≡ Some means.limit }
        requires stands { StandsAsTold subcommand matches.now
            (standpoint_of W.contents self.old.disk self.old.executor self.old.target.listed self.old.passed self.old.reporter) }
        ensures done { result ≡ Done → IsDone R.File subcommand matches.now 0 (output_of W.contents self.old.reporter)
            (output_of W.contents self.new.reporter) }
        ensures stopped { result ≢ Fault → IsDoneOrStopped R.File subcommand matches.now result
            (output_of W.contents self.old.reporter) (output_of W.contents self.new.reporter) }
    {
        match self.seeded(subcommand, means) {
            Ok(means) => self.run_by(subcommand, matches, &means),
            Err(problem) => self.refuse(subcommand, matches, problem),
        }
    }

    /// Runs a command on files by means, with the disk of tapes that it tells, and tells how it ended.
    fn run_with(
        &mut self,
        subcommand: Subcommand,
        matches: &ArgMatches<'_>,
        means: Means<Fnv1a>,
        standing: Option<Standing<'_>>,
    ) -> ExitKind
        requires limited { limit_of (limit_told subcommand matches.now) ≡ Some means.limit }
        requires piped { self.old.reporter.is_piped ≡ is_out_stream subcommand matches.now }
        requires fresh { self.old.passed ≡ 0 }
        ensures done { result ≡ Done → IsDone R.File subcommand matches.now 0 (output_of W.contents self.old.reporter)
            (output_of W.contents self.new.reporter) }
        ensures stopped { result ≢ Fault → IsDoneOrStopped R.File subcommand matches.now result
            (output_of W.contents self.old.reporter) (output_of W.contents self.new.reporter) }
    {
        let is_asked = is_flag_told(matches, PROGRESS);
        self.reporter.set_progress(is_asked);
        if let Err(problem) = self.try_before(subcommand, matches) {
            return self.refuse(subcommand, matches, problem);
        }
        let spill = subcommand.spill(matches);
        let disk = match open_disk(self.inputs.rt, spill) {
            Ok(disk) => disk,
            Err(problem) => return self.refuse(subcommand, matches, problem),
        };
        self.disk = disk;
        self.in_file = spill.is_some();
        self.tell_standing(standing);
        let exit = self.run_seeded(subcommand, matches, means);
        self.remove_spill(subcommand, matches);
        exit
    }

    /// Says that files were passed over, though OUT was written.
    fn tell_passed(&mut self, subcommand: Subcommand, matches: &ArgMatches<'_>)
        ensures says { OnlySays self.old.reporter self.new.reporter }
        ensures passed { self.new.passed ≡ self.old.passed }
    {
        if let Some(out) = subcommand.out(matches) {
            let (passed, files) = (self.passed, self.reporter.files());
            self.reporter.say(&PassedOver {
                out: output_name(out),
                passed,
                files,
            });
        }
    }

    /// Tells how a command ended, by whether it did its work.
    fn end(
        &mut self,
        subcommand: Subcommand,
        matches: &ArgMatches<'_>,
        done: Result<(), Problem<'_>>,
    ) -> ExitKind
        ensures done { OnOk done.entry (result ≡ ending_beside self.old.passed) }
        ensures refused { IfErr done.entry (λ problem. EndsRefused problem.why result) }
        ensures stays { result ≡ Done → self.new ≡ self.old }
        ensures told { OnOk done.entry (OnlySays self.old.reporter self.new.reporter) }
        ensures passed { self.new.passed ≡ self.old.passed }
        ensures stops { IfErr done.entry (λ problem. result ≢ Fault
            → StopsBy W.contents problem.why result self.old.reporter self.new.reporter) }
    {
        match done {
            Ok(()) if self.passed > 0 => {
                self.tell_passed(subcommand, matches);
                ExitKind::Refused
            }
            Ok(()) => ExitKind::Done,
            Err(problem) => {
                let output = self.output_status(subcommand, matches);
                self.reporter.stop(problem, output)
            }
        }
    }

    /// Runs a command on files by means, and tells how it ended.
    fn run_by(
        &mut self,
        subcommand: Subcommand,
        matches: &ArgMatches<'_>,
        means: &Means<Fnv1a>,
    ) -> ExitKind
        ensures ran { result ≡ Done → RunsCommand subcommand matches.now means.now
            (standpoint_of W.contents self.old.disk self.old.executor self.old.target.listed self.old.passed self.old.reporter)
            0 (output_of W.contents self.new.reporter) }
        ensures passed { result ≡ Done → self.new.passed ≡ 0 }
        ensures within { AreMeans means.now.limit }
        ensures stopped { result ≢ Fault → RunsCommand subcommand matches.now means.now
            (standpoint_of W.contents self.old.disk self.old.executor self.old.target.listed self.old.passed self.old.reporter)
            self.new.passed (output_of W.contents self.new.reporter) × (result ≡ ending_beside self.new.passed)
            ⊎ IsRefusedFor (StopsCommand subcommand matches.now means.now
            (standpoint_of W.contents self.old.disk self.old.executor self.old.target.listed self.old.passed self.old.reporter))
            self.old.reporter.is_piped result (output_of W.contents self.new.reporter) }
    {
        let done = self.run_command(subcommand, matches, means);
        let is_told = done.is_ok() && subcommand.aggregates() && is_flag_told(matches, EXPLAIN);
        self.explain(is_told, means.limit());
        self.end(subcommand, matches, done)
    }
}
