//! What a command replies and says while it runs.

ghost use Rattle.std.specs.Prelude.{◌≡◌, ◌≢◌, true, false, IfErr, OnOk};
ghost use Rattle.std.specs.Io.KnownBytes.{Keeps};
ghost use Rattle.script_io.specs.Fused.{has_failed};
ghost use Rattle.replies.specs.Text.{said_text};
ghost use Rattle.replies.specs.declared.ending.ExitKind.TheVariants.{Fault};
ghost use Rattle.refusals.specs.declared.error.RunError.TheVariants.{WriteFault};
ghost use Rattle.refusals.specs.declared.refusal.Refusal.TheVariants.{Run};
ghost use Rattle.replies.specs.declared.reply.Reply.TheVariants.{Refused};
ghost use Rattle.command_streams.specs.Stopping.{ending_of, EndsRefused, RepliesRefused};
ghost use Rattle.command_files.specs.Reporting.{output_of, reply_on_output, OnlySays, Prints, StopsBy};

use command_replicas::SummaryFile;
use command_streams::{
    Diagnostic, OutputStatus, Problem, Streams, Terminals, ending_of, remove_disk, reply_refused,
};
use file_sentences::Progress;
use out_files::CutShort;
use replica_merge::Delivered;
use replies::{ExitKind, Reply, put_reply};
use script_io::{Fused, put_all};
use std::alloc::{AllocError, Global};
use std::fmt::Display;
use std::io::Write;
use std::rt::Files;
use std::str;

/// Writes a reply to standard error.
fn put_beside<E: Write>(errors: &mut E, reply: &Reply<'_>) {
    // If it can't be written, nothing is left to do.
    let _ = put_reply(&mut Fused::new(&mut *errors), reply);
}

/// A reply as a text without the end of its line.
fn text_of(alloc: Global, reply: &Reply<'_>) -> Result<String, AllocError> {
    let mut bytes = Vec::new(alloc);
    if put_reply(&mut Fused::new(&mut bytes), reply).is_err() {
        return Err(AllocError);
    }
    let text = str::from_utf8(&bytes).unwrap_or("").trim_end();
    String::from_str(alloc, text)
}

/// Whether the last line of a batch file has no end, where a reply tells that it was taken.
fn is_cut(file: &[u8], reply: &Reply<'_>) -> bool {
    let is_taken = matches!(
        reply,
        Reply::Delivered(Delivered::Folded { .. } | Delivered::Early)
    );
    is_taken && !matches!(file.last(), Some(b'\n' | b'\r'))
}

/// The streams of a running command, whether OUT is standard output, how many files were taken of how many, and whether that is told.
#[derive(Drop)]
pub(crate) struct Reporter<'c, W, E> {
    streams: Streams<'c, W, E>,
    is_piped: bool,
    taken: usize,
    files: usize,
    tells_progress: bool,
}

impl<'c, W: Write, E: Write> Reporter<'c, W, E> {
    /// Nothing was said yet.
    pub(crate) fn new(streams: Streams<'c, W, E>) -> Reporter<'c, W, E>
        ensures streams { result.streams ≡ streams.entry }
        ensures piped { result.is_piped ≡ false }
    {
        Reporter {
            streams,
            is_piped: false,
            taken: 0,
            files: 0,
            tells_progress: false,
        }
    }

    /// Whether OUT is standard output.
    pub(crate) fn is_piped(&self) -> bool
        ensures { result ≡ self.now.is_piped }
    {
        self.is_piped
    }

    /// OUT is standard output, or not.
    pub(crate) fn set_piped(&mut self, is_piped: bool)
        ensures piped { self.new.is_piped ≡ is_piped }
        ensures output { self.new.streams.writer.now ≡ self.old.streams.writer.now }
    {
        self.is_piped = is_piped;
    }

    /// Which streams are terminals.
    pub(crate) fn terminals(&self) -> Terminals
        ensures { result ≡ self.now.streams.terminals }
    {
        self.streams.terminals
    }

    /// How many files there are to take.
    pub(crate) fn files(&self) -> usize {
        self.files
    }

    /// So many files are to be taken.
    pub(crate) fn set_files(&mut self, files: usize)
        ensures says { OnlySays self.old self.new }
    {
        self.files = files;
    }

    /// Progress is told where it was asked for, or where standard error is a terminal and the replies are not seen there.
    pub(crate) fn set_progress(&mut self, is_asked: bool)
        ensures says { OnlySays self.old self.new }
    {
        let terminals = self.streams.terminals;
        // Replies on the same terminal tell as much.
        let are_replies_seen = terminals.output || self.is_piped;
        self.tells_progress = is_asked || (terminals.errors && !are_replies_seen);
    }

    /// Writes a sentence.
    pub(crate) fn say<T: Display>(&mut self, sentence: &T)
        ensures says { OnlySays self.old self.new }
    {
        self.streams.say(sentence);
    }

    /// Writes a reply: to standard error, where OUT is standard output.
    pub(crate) fn reply(&mut self, reply: &Reply<'_>) -> Result<(), Problem<'static>>
        ensures replied { OnOk result (Prints W.contents self.old self.new (reply_on_output self.old.is_piped reply.now)) }
        ensures fault { IfErr result (λ problem. problem.why ≡ Run WriteFault) }
        ensures silent { self.old.is_piped ≡ true → OnlySays self.old self.new }
    {
        if self.is_piped {
            put_beside(self.streams.errors, reply);
            return Ok(());
        }
        match put_reply(self.streams.writer, reply) {
            Ok(()) => Ok(()),
            Err(_) => Err(self.streams.output_fault()),
        }
    }

    /// Writes a text.
    pub(crate) fn print(&mut self, text: &[u8]) -> Result<(), Problem<'static>>
        ensures printed { OnOk result (Prints W.contents self.old self.new text.now) }
        ensures fault { IfErr result (λ problem. problem.why ≡ Run WriteFault) }
    {
        match put_all(self.streams.writer, text) {
            Ok(()) => Ok(()),
            Err(_) => Err(self.streams.output_fault()),
        }
    }

    /// Writes a summary file to standard output, and sends it out.
    pub(crate) fn print_summary(&mut self, file: &SummaryFile) -> Result<(), Problem<'static>>
        ensures printed { OnOk result (Prints W.contents self.old self.new file.now) }
        ensures fault { IfErr result (λ problem. problem.why ≡ Run WriteFault) }
    {
        self.print(file.bytes())?;
        match self.streams.writer.flush() {
            Ok(()) => Ok(()),
            Err(_) => Err(self.streams.output_fault()),
        }
    }

    /// Says what was refused, and what became of OUT.
    pub(crate) fn complain<'t>(
        &mut self,
        problem: &'t Problem<'_>,
        output: Option<OutputStatus<'t>>,
    )
        ensures says { OnlySays self.old self.new }
    {
        if problem.is_unread() {
            return;
        }
        self.streams.say(&Diagnostic { problem, output });
    }

    /// Says that the last line of a batch file has no end, where a reply tells that it was taken.
    pub(crate) fn tell_cut(&mut self, path: &str, file: &[u8], reply: &Reply<'_>)
        ensures says { OnlySays self.old self.new }
    {
        if !is_cut(file, reply) {
            return;
        }
        self.streams.say(&CutShort { path });
    }

    /// Tells how far the command is: the reply to a file.
    fn tell_progress(&mut self, path: &str, reply: &Reply<'_>)
        ensures says { OnlySays self.old self.new }
    {
        self.taken = self.taken.saturating_add(1);
        if !self.tells_progress {
            return;
        }
        let Ok(text) = text_of(self.streams.alloc, reply) else {
            // Nothing is left to do where there is no memory for the line.
            return;
        };
        self.streams.say(&Progress {
            place: self.taken,
            files: self.files,
            path,
            reply: &text,
        });
    }

    /// Replies to a file, and tells how far the command is.
    pub(crate) fn reply_to(&mut self, path: &str, reply: &Reply<'_>) -> Result<(), Problem<'static>>
        ensures replied { OnOk result (Prints W.contents self.old self.new (reply_on_output self.old.is_piped reply.now)) }
        ensures fault { IfErr result (λ problem. problem.why ≡ Run WriteFault) }
        ensures silent { self.old.is_piped ≡ true → OnlySays self.old self.new }
    {
        self.reply(reply)?;
        self.tell_progress(path, reply);
        Ok(())
    }

    /// Tells on standard error which batches an answer does not count, since they wait for others.
    pub(crate) fn tell_waiting(&mut self, lines: &[String])
        ensures says { OnlySays self.old self.new }
    {
        for line in lines {
            self.say(line);
        }
    }

    /// Removes the file in which the tapes lay. If it can't be removed, a sentence says so.
    pub(crate) fn remove_disk<R: Files>(&mut self, rt: &R, spill: Option<&str>)
        ensures says { OnlySays self.old self.new }
    {
        remove_disk(rt, self.streams.alloc, spill, self.streams.errors);
    }

    /// Ends a command that stopped.
    pub(crate) fn stop(
        &mut self,
        problem: Problem<'_>,
        output: Option<OutputStatus<'_>>,
    ) -> ExitKind
        ensures ends { EndsRefused problem.entry.why result }
        ensures piped { self.old.is_piped ≡ true → result ≡ ending_of problem.entry.why }
        ensures replied { self.old.is_piped ≡ false → RepliesRefused (said_text (Refused problem.entry.why))
            (output_of W.contents self.old) (output_of W.contents self.new) problem.entry.why result }
        ensures stops { result ≢ Fault → StopsBy W.contents problem.entry.why result self.old self.new }
    {
        self.complain(&problem, output);
        if self.is_piped {
            if !problem.is_unread() {
                let _ = self.reply(&Reply::Refused(problem.why));
            }
            return ending_of(problem.why);
        }
        reply_refused(self.streams.writer, problem.why)
    }

    /// Sends out what was gathered, and tells how the command ended.
    pub(crate) fn finish(&mut self, exit: ExitKind, output: Option<OutputStatus<'_>>) -> ExitKind
        ensures sent { has_failed self.new.streams.writer.now ≡ false → result ≡ exit }
        ensures failed { has_failed self.new.streams.writer.now ≡ true → result ≡ Fault }
        ensures keeps { Keeps (output_of W.contents self.old) (output_of W.contents self.new) }
    {
        match self.streams.writer.flush() {
            Ok(()) => exit,
            Err(_) => {
                if exit == ExitKind::Fault {
                    return ExitKind::Fault;
                }
                let problem = self.streams.output_fault();
                self.complain(&problem, output);
                ExitKind::Fault
            }
        }
    }
}
