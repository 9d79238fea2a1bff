//! OUT, beside the files that a command reads.

ghost use Rattle.std.specs.Prelude.{◌≡◌, ◌≢◌, ◌↔◌, ◌⊎◌, ℕ, None, Some, true, false, codes, Result, Ok};
ghost use Rattle.std.specs.Prelude.{IfErr, IfOk, IfSome, IsOkAnd, IsSome, IsTrue};
ghost use Rattle.out_files.specs.Standing.{is_foreign, stops};
ghost use Rattle.out_files.specs.declared.out.Fate.TheVariants.{Forced, Kept, Replaced, Shown, Spared};
ghost use Rattle.out_files.specs.declared.occupant.Occupant.TheVariants.{Another, Listed, Nothing, Special};
ghost use Rattle.out_files.specs.declared.out.FrontKind.{FrontKind};
ghost use Rattle.command_streams.specs.declared.problem.Problem.{Problem};
ghost use Rattle.command_words.specs.Told.{is_flag_told, is_out_stream, out_told};
ghost use Rattle.command_files.specs.Causes.{IsFailure};
ghost use Rattle.command_files.specs.Fates.{fate_by, fate_by_force, fate_where_read, IsFateBy, IsFile, IsUnforced, KeepsFiles};

use crate::files::{front_kind, occupant_of_out, try_files, write_out};
use clap::ArgMatches;
use command_replicas::SummaryFile;
use command_streams::Problem;
use command_words::{FORCE, NO_CLOBBER, Subcommand, is_flag_told, is_stream, output_name};
use out_files::{Fate, FrontKind, Occupant, Place, Standing};
use replies::Refusal;
use std::rt::Files;

/// What OUT is to a command: whether it is to be a new file, and which of the files that are read it is. Then the bytes that were read of
/// it, and whether it is told that it is written over.
#[derive(Drop)]
pub(crate) struct Target {
    is_new: bool,
    listed: Option<usize>,
    bytes: Option<Vec<u8>>,
    is_over: bool,
}

/// What becomes of a file in the place of OUT that is no foreign one: it is told of where it is none of those that are read.
fn fate_where_read(listed: Option<usize>) -> Option<Fate>
    ensures fate { result ≡ fate_where_read listed }
    ensures read { (place : ℕ) → listed ≡ Some place → result ≢ Some Replaced }
    ensures goes_on { IfSome result (λ fate. stops fate ≡ false) }
{
    match listed {
        Some(_) => None,
        None => Some(Fate::Replaced),
    }
}

/// What becomes of a foreign file in the place of OUT by force. The first of the files that are read is to be a summary: where it is
/// none, nothing is written.
fn fate_by_force(listed: Option<usize>) -> Option<Fate>
    ensures fate { result ≡ fate_by_force listed }
    ensures forced { result ≢ Some Replaced }
    ensures goes_on { IfSome result (λ fate. stops fate ≡ false) }
{
    match listed {
        Some(place) => { if place == 0 { None } else { Some(Fate::Forced) } }
        None => Some(Fate::Forced),
    }
}

/// What becomes of a file in the place of OUT. It depends on what its first bytes tell, on whether the command is forced, and on its place
/// among the files that are read.
fn fate_by(kind: FrontKind, is_forced: bool, listed: Option<usize>) -> Option<Fate>
    ensures spared { IsTrue (is_foreign kind) → is_forced ≡ false → result ≡ Some (Spared kind) }
    ensures forced { IsTrue (is_foreign kind) → is_forced ≡ true → listed ≢ Some 0 → result ≡ Some Forced }
    ensures first { is_forced ≡ true → listed ≡ Some 0 → result ≡ None }
    ensures replaced { is_foreign kind ≡ false → result ≡ fate_where_read listed }
    ensures unforced { is_forced ≡ false → result ≢ Some Forced }
    ensures read { (place : ℕ) → listed ≡ Some place → result ≢ Some Replaced }
    ensures goes_on { is_forced ≡ true → IfSome result (λ fate. stops fate ≡ false) }
    ensures fate { result ≡ fate_by kind is_forced listed }
{
    if !kind.is_foreign() {
        return fate_where_read(listed);
    }
    if is_forced {
        fate_by_force(listed)
    } else {
        Some(Fate::Spared(kind))
    }
}

impl Target {
    /// Nothing is known of it yet.
    pub(crate) fn new() -> Target
        ensures listed { result.listed ≡ None }
    {
        Target {
            is_new: false,
            listed: None,
            bytes: None,
            is_over: false,
        }
    }

    /// Whether it is the file of a place among those that are read.
    pub(crate) fn is_at(&self, place: usize) -> bool
        ensures { IsTrue result ↔ (self.now.listed ≡ Some place) }
    {
        self.listed == Some(place)
    }

    /// Keeps the bytes that were read of the file of a place, where it is OUT.
    pub(crate) fn keep_old(&mut self, place: usize, file: Vec<u8>)
        ensures kept { self.old.listed ≡ Some place → self.new ≡ record self.old { bytes = Some file } }
        ensures others { self.old.listed ≢ Some place → self.new ≡ self.old }
        ensures listed { self.new.listed ≡ self.old.listed }
    {
        if self.is_at(place) {
            self.bytes = Some(file);
        }
    }

    /// What becomes of a file in the place of OUT by what its first bytes tell, where they could be read.
    fn fate_by_front<'p>(
        &self,
        front: Result<FrontKind, Problem<'p>>,
        is_forced: bool,
    ) -> Result<Option<Fate>, Problem<'p>>
        ensures fate { IsFateBy front.entry is_forced self.now.listed result }
        ensures why { IfErr front.entry (λ problem. IsFailure problem.why) → IfErr result (λ problem. IsFailure problem.why) }
        ensures unforced { is_forced ≡ false → IfOk result (λ fate. fate ≢ Some Forced) }
        ensures read { (place : ℕ) → self.now.listed ≡ Some place → IfOk result (λ fate. fate ≢ Some Replaced) }
        ensures goes_on { is_forced ≡ true → IfOk result (λ found. IfSome found (λ fate. stops fate ≡ false)) }
    {
        match front {
            Ok(kind) => Ok(fate_by(kind, is_forced, self.listed)),
            Err(problem) if !is_forced => Err(problem),
            Err(_) => Ok(fate_where_read(self.listed)),
        }
    }

    /// What becomes of what is there in the place of OUT, where that is to be told. The command may have to keep a file that it does not
    /// read, or be forced to replace a foreign one.
    fn fate_of<'p, R: Files>(
        &mut self,
        rt: &R,
        keeps: bool,
        is_forced: bool,
        out: &'p str,
        occupant: Occupant,
    ) -> Result<Option<Fate>, Problem<'p>>
        ensures kept { occupant ≡ Another → IsTrue keeps → IfOk result (λ fate. fate ≡ Some Kept) }
        ensures unforced { is_forced ≡ false → IfOk result (λ fate. fate ≢ Some Forced) }
        ensures unreplaced { IsTrue keeps → IfOk result (λ fate. fate ≢ Some Replaced) }
        ensures goes_on { keeps ≡ false → is_forced ≡ true → IfOk result (λ found. IfSome found (λ fate. stops fate ≡ false)) }
        ensures listed { (place : ℕ) → occupant ≡ Listed place → self.new ≡ record self.old { listed = Some place } }
        ensures unlisted { ((place : ℕ) → occupant ≢ Listed place) → self.new.listed ≡ self.old.listed }
        ensures new { occupant ≡ Nothing → self.new ≡ record self.old { is_new = keeps } }
        ensures untold { (occupant ≡ Nothing) ⊎ (occupant ≡ Special) → result ≡ Ok None }
        ensures found { IsFile occupant keeps → (front : Result FrontKind Problem) × IsFateBy front is_forced self.new.listed result }
        ensures bytes { self.new.bytes ≡ self.old.bytes }
        ensures why { IfErr result (λ problem. IsFailure problem.why) }
    {
        match occupant {
            Occupant::Nothing => {
                self.is_new = keeps;
                Ok(None)
            }
            Occupant::Special => Ok(None),
            Occupant::Another if keeps => Ok(Some(Fate::Kept)),
            Occupant::Another => self.fate_by_front(front_kind(rt, out), is_forced),
            Occupant::Listed(place) => {
                self.listed = Some(place);
                self.fate_by_front(front_kind(rt, out), is_forced)
            }
        }
    }

    /// Looks at what is there in the place of OUT, which is no stream.
    fn look_at<'p, R: Files + AllocGlobal>(
        &mut self,
        rt: &R,
        subcommand: Subcommand,
        matches: &ArgMatches<'p>,
        out: &'p str,
    ) -> Result<Option<Standing<'p>>, Problem<'p>>
        ensures unforced { IsUnforced matches.now → IfOk result (λ found. IfSome found (λ standing. standing.fate ≢ Forced)) }
        ensures kept { KeepsFiles matches.now → IfOk result (λ found. IfSome found (λ standing. standing.fate ≢ Replaced)) }
        ensures goes_on { is_flag_told matches.now (codes "no-clobber") ≡ false → is_flag_told matches.now (codes "force") ≡ true
            → IfOk result (λ found. IfSome found (λ standing. stops standing.fate ≡ false)) }
        ensures bytes { self.new.bytes ≡ self.old.bytes }
        ensures why { IfErr result (λ problem. IsFailure problem.why) }
    {
        let keeps = is_flag_told(matches, NO_CLOBBER);
        let occupant = match occupant_of_out(rt, subcommand, matches, out) {
            Ok(occupant) => occupant,
            Err(problem) if keeps || problem.why == Refusal::NoMemory => return Err(problem),
            Err(_) => return Ok(None),
        };
        let is_forced = is_flag_told(matches, FORCE);
        match self.fate_of(rt, keeps, is_forced, out, occupant)? {
            Some(fate) => Ok(Some(Standing { out, fate })),
            None => Ok(None),
        }
    }

    /// Looks at what is there in the place of OUT, before anything else is read, and answers what is to be told of it. Where that can't be
    /// found out, it is a problem to a command that keeps a file, and for want of memory to all; else OUT can't be written either, which
    /// is found out when that is tried. Of standard output it is asked alone whether it is a terminal.
    pub(crate) fn look<'p, R: Files + AllocGlobal>(
        &mut self,
        rt: &R,
        subcommand: Subcommand,
        matches: &ArgMatches<'p>,
        is_terminal: bool,
    ) -> Result<Option<Standing<'p>>, Problem<'p>>
        ensures none { out_told subcommand matches.now ≡ None → result ≡ Ok None }
        ensures stream { is_out_stream subcommand matches.now ≡ true → is_terminal ≡ false → result ≡ Ok None }
        ensures shown { is_out_stream subcommand matches.now ≡ true
            → IfOk result (λ found. IfSome found (λ standing. standing.fate ≡ Shown)) }
        ensures terminal { is_out_stream subcommand matches.now ≡ true → is_terminal ≡ true → IsUnforced matches.now
            → IsOkAnd result (λ found. IsSome found) }
        ensures unforced { IsUnforced matches.now → IfOk result (λ found. IfSome found (λ standing. standing.fate ≢ Forced)) }
        ensures kept { KeepsFiles matches.now → IfOk result (λ found. IfSome found (λ standing. standing.fate ≢ Replaced)) }
        ensures goes_on { is_flag_told matches.now (codes "no-clobber") ≡ false → is_flag_told matches.now (codes "force") ≡ true
            → IfOk result (λ found. IfSome found (λ standing. stops standing.fate ≡ false)) }
        ensures why { IfErr result (λ problem. IsFailure problem.why) }
    {
        let Some(out) = subcommand.out(matches) else {
            return Ok(None);
        };
        if !is_stream(out) {
            return self.look_at(rt, subcommand, matches, out);
        }
        if !is_terminal {
            return Ok(None);
        }
        if is_flag_told(matches, FORCE) {
            return Ok(None);
        }
        Ok(Some(Standing {
            out: output_name(out),
            fate: Fate::Shown,
        }))
    }

    /// Tries whether the files of a command can be read and OUT written. It answers whether it is to be told that OUT is written over.
    pub(crate) fn try_first<'p, R: Files + AllocGlobal>(
        &mut self,
        rt: &R,
        subcommand: Subcommand,
        matches: &ArgMatches<'p>,
        out: &'p str,
    ) -> Result<bool, Problem<'p>>
        ensures listed { self.new.listed ≡ self.old.listed }
        ensures why { IfErr result (λ problem. IsFailure problem.why) }
    {
        self.is_over = try_files(rt, subcommand, matches, out)? == Place::Over;
        Ok(self.is_over)
    }

    /// Writes OUT, and answers whether it is to be told, and was not yet, that it was written over.
    pub(crate) fn write<'p, R: Files + AllocGlobal>(
        &mut self,
        rt: &R,
        path: &'p str,
        file: &SummaryFile,
    ) -> Result<bool, Problem<'p>>
        ensures why { IfErr result (λ problem. IsFailure problem.why) }
    {
        let place = write_out(rt, path, file, self.is_new, self.bytes.as_deref())?;
        Ok(place == Place::Over && !self.is_over)
    }
}
