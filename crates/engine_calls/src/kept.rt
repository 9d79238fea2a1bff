//! What is kept between calls.

ghost use Rattle.std.specs.Prelude.{◌≡◌, [], None, Some, IfOk, IfErr, IfSome, OnOk, OnErr, option_map};
ghost use Rattle.engine.specs.Calls.{Creates, Loads, FeedsFile, FeedsRows, MergesFileSession, IsFileOf, IsTooLong, IsTableOf};
ghost use Rattle.engine.specs.Calls.{IsKnownText, IsQueryText, IsColumnsText, IsAnswerColumnsText, NoMemory};
ghost use Rattle.engine.specs.Statuses.{status_of};
ghost use Rattle.engine_calls.specs.Calls.{OnSession, OpensBy, Asks, ForMemory, MergesWith, last_place};
ghost use Rattle.engine_calls.specs.Keeping.{Unchanged, nothing, reason_made, reason_state};
ghost use Rattle.engine_calls.specs.Keeping.{ReasonOnAsking, ReasonOnClosed, ReasonOnMerge, ReasonOnOpen};
ghost use Rattle.engine_calls.specs.declared.last.Asked.TheVariants.{Create, Feed, Load, Merge, Save};

use crate::last::{Asked, CallReason, Last};
use crate::reasons::{merging_reason, opening_reason, rows_reason, sentence};
use engine::{Delivered, Format, Place, Refusal, Seed, Session, Status};
use file_sentences::{FileKind, file_reason, saving_reason, summary_reason};
use sentences::Reason;
use std::alloc::{AllocError, Global};
use std::marker::Model;

/// What is kept between calls: a session, if one is open, the last result, and the last refusal with its reason.
#[derive(Drop)]
pub struct Kept {
    alloc: Global,
    session: Option<Session>,
    told: Vec<u8>,
    last: Option<Last>,
}

impl Model for Kept {
    ghost use Rattle.engine_calls.specs.Keeping.{KeptState, reason_of, why_of};
    ghost use Rattle.engine_calls.specs.Coding.{coded_kept};

    ghost Value = { KeptState };

    ghost coded = { coded_kept };

    ghost view = { λ k. record { session = k.session; told = k.told.items; why = why_of k.last; reason = reason_of k.last } };
}

/// The bytes of a text.
fn bytes_of(alloc: Global, text: &str) -> Result<Vec<u8>, AllocError>
    ensures { IfOk result (λ bytes. bytes.items ≡ text.now) }
{
    text.as_bytes().to_vec(alloc)
}

/// The reason of a call that asked this, if there was memory for it.
fn call_reason(asked: Asked, reason: Result<Option<Reason>, AllocError>) -> Option<CallReason>
    ensures { option_map reason_state result ≡ reason_made asked reason }
{
    match reason {
        Ok(Some(reason)) => Some(CallReason { asked, reason }),
        Ok(None) => None,
        Err(_) => None,
    }
}

impl Kept {
    /// Nothing: no session is open.
    pub fn new(alloc: Global) -> Kept
        ensures { result ≡ nothing }
    {
        Kept {
            alloc,
            session: None,
            told: Vec::new(alloc),
            last: None,
        }
    }

    /// Keeps why a call was refused.
    fn keep(&mut self, why: Refusal, reason: Option<CallReason>) -> Status
        ensures status { result ≡ status_of why }
        ensures last { self.new.why ≡ Some why }
        ensures reason { self.new.reason ≡ option_map reason_state reason }
        ensures session { self.new.session ≡ self.old.session }
        ensures told { self.new.told ≡ self.old.told }
    {
        self.last = Some(Last { why, reason });
        Status::from(why)
    }

    /// Keeps why a call was refused that asked this, and the reason, if there was memory for it.
    fn refuse(
        &mut self,
        asked: Asked,
        why: Refusal,
        reason: Result<Option<Reason>, AllocError>,
    ) -> Status
        ensures status { result ≡ status_of why }
        ensures last { self.new.why ≡ Some why }
        ensures reason { self.new.reason ≡ reason_made asked reason }
        ensures session { self.new.session ≡ self.old.session }
        ensures told { self.new.told ≡ self.old.told }
    {
        self.keep(why, call_reason(asked, reason))
    }

    /// Keeps that memory ran out.
    fn refuse_for_memory(&mut self) -> Status
        ensures status { result ≡ status_of NoMemory }
        ensures last { self.new.why ≡ Some NoMemory }
        ensures reason { self.new.reason ≡ None }
        ensures session { self.new.session ≡ self.old.session }
        ensures told { self.new.told ≡ self.old.told }
    {
        self.keep(Refusal::NoMemory, None)
    }

    /// Opens an empty session, as [`Session::create`] makes it.
    ///
    /// # Errors
    ///
    /// `AlreadyOpen`, and then those of [`Session::create`].
    pub fn create(
        &mut self,
        columns: &[u8],
        query: &[u8],
        limit: u64,
        seed: Seed,
    ) -> Result<(), Status>
        ensures opens { OpensBy (Creates columns.now query.now limit seed) self.old self.new result }
        ensures told { self.new.told ≡ self.old.told }
        ensures reason { ReasonOnClosed Create self.old.session self.old.reason self.new.reason result }
        ensures same { OnErr result (Unchanged self.old self.new) }
    {
        if self.session.is_some() {
            return Err(Status::AlreadyOpen);
        }
        let session = match Session::create(self.alloc, columns, query, limit, seed) {
            Ok(session) => session,
            Err(why) => {
                let reason = opening_reason(self.alloc, columns, query, why);
                return Err(self.refuse(Asked::Create, why, reason));
            }
        };
        self.session = Some(session);
        Ok(())
    }

    /// Opens a session of the replica of a summary file.
    ///
    /// # Errors
    ///
    /// `AlreadyOpen`, and then those of [`Session::load`].
    pub fn load(&mut self, file: &[u8], limit: u64, seed: Seed) -> Result<(), Status>
        ensures opens { OpensBy (Loads file.now limit seed) self.old self.new result }
        ensures told { self.new.told ≡ self.old.told }
        ensures reason { ReasonOnClosed Load self.old.session self.old.reason self.new.reason result }
        ensures same { OnErr result (Unchanged self.old self.new) }
    {
        if self.session.is_some() {
            return Err(Status::AlreadyOpen);
        }
        let session = match Session::load(self.alloc, file, limit, seed) {
            Ok(session) => session,
            Err(why) => {
                let reason = summary_reason(self.alloc, file, why);
                return Err(self.refuse(Asked::Load, why, reason));
            }
        };
        self.session = Some(session);
        Ok(())
    }

    /// Feeds a batch file.
    ///
    /// # Errors
    ///
    /// `NotOpen`, and then those of [`Session::feed`]. Nothing changes then.
    pub fn feed(&mut self, file: &[u8]) -> Result<Delivered, Status>
        ensures feeds { OnSession (FeedsFile file.now) self.old self.new result }
        ensures told { self.new.told ≡ self.old.told }
        ensures reason { ReasonOnOpen Feed self.old.session self.old.reason self.new.reason result }
        ensures same { OnErr result (Unchanged self.old self.new) }
    {
        let Some(session) = &mut self.session else {
            return Err(Status::NotOpen);
        };
        let why = match session.feed(file) {
            Ok(delivered) => return Ok(delivered),
            Err(why) => why,
        };
        let reason = file_reason(self.alloc, FileKind::Batch, session.replica(), file, why);
        Err(self.refuse(Asked::Feed, why, reason))
    }

    /// Feeds the batch of an origin and a number, with rows in CSV, as many as declared.
    ///
    /// # Errors
    ///
    /// `NotOpen`, and then those of [`Session::feed_rows`]. Nothing changes then.
    pub fn feed_rows(
        &mut self,
        origin: u32,
        number: u32,
        count: u32,
        rows: &[u8],
    ) -> Result<Delivered, Status>
        ensures feeds { OnSession (FeedsRows origin number count rows.now) self.old self.new result }
        ensures told { self.new.told ≡ self.old.told }
        ensures reason { ReasonOnOpen Feed self.old.session self.old.reason self.new.reason result }
        ensures same { OnErr result (Unchanged self.old self.new) }
    {
        let Some(session) = &mut self.session else {
            return Err(Status::NotOpen);
        };
        let why = match session.feed_rows(origin, number, count, rows) {
            Ok(delivered) => return Ok(delivered),
            Err(why) => why,
        };
        let replica = session.replica();
        let reason = rows_reason(self.alloc, replica, origin, number, count, rows, why);
        Err(self.refuse(Asked::Feed, why, reason))
    }

    /// Merges the replica of another session.
    ///
    /// # Errors
    ///
    /// `NotOpen` if this or the other has no session, and then those of [`Session::merge`]. Nothing changes then.
    pub fn merge(&mut self, other: &Kept) -> Result<(), Status>
        ensures merges { MergesWith other.now.session self.old self.new result }
        ensures told { self.new.told ≡ self.old.told }
        ensures reason { ReasonOnMerge other.now.session self.old.session self.old.reason self.new.reason result }
        ensures same { OnErr result (Unchanged self.old self.new) }
    {
        let Some(theirs) = &other.session else {
            return Err(Status::NotOpen);
        };
        let Some(session) = &mut self.session else {
            return Err(Status::NotOpen);
        };
        let why = match session.merge(theirs) {
            Ok(()) => return Ok(()),
            Err(why) => why,
        };
        let reason = merging_reason(self.alloc, session.replica(), &[], why);
        Err(self.refuse(Asked::Merge, why, reason))
    }

    /// Merges the replica of a summary file.
    ///
    /// # Errors
    ///
    /// `NotOpen`, and then those of [`Session::merge_file`]. Nothing changes then.
    pub fn merge_file(&mut self, file: &[u8]) -> Result<(), Status>
        ensures merges { OnSession (MergesFileSession file.now) self.old self.new result }
        ensures told { self.new.told ≡ self.old.told }
        ensures reason { ReasonOnOpen Merge self.old.session self.old.reason self.new.reason result }
        ensures same { OnErr result (Unchanged self.old self.new) }
    {
        let Some(session) = &mut self.session else {
            return Err(Status::NotOpen);
        };
        let why = match session.merge_file(file) {
            Ok(()) => return Ok(()),
            Err(why) => why,
        };
        let reason = merging_reason(self.alloc, session.replica(), file, why);
        Err(self.refuse(Asked::Merge, why, reason))
    }

    /// Keeps the summary file as the result.
    ///
    /// # Errors
    ///
    /// `NotOpen`, and then those of [`Session::save`]. Nothing changes then.
    pub fn save(&mut self) -> Result<(), Status>
        ensures asks { OnSession (Asks (λ held file _. IsFileOf held file) IsTooLong self.new.told) self.old self.new result }
        ensures reason { ReasonOnOpen Save self.old.session self.old.reason self.new.reason result }
        ensures same { OnErr result (Unchanged self.old self.new) }
    {
        let Some(session) = &self.session else {
            return Err(Status::NotOpen);
        };
        let file = match session.save() {
            Ok(file) => file,
            Err(why) => {
                let reason = saving_reason(self.alloc, session.replica(), why);
                return Err(self.refuse(Asked::Save, why, reason));
            }
        };
        self.told = file;
        Ok(())
    }

    /// Keeps the table of the answer in a format as the result, and gives its number of rows.
    ///
    /// # Errors
    ///
    /// `NotOpen`, and `NoMemory`. Nothing changes then.
    pub fn answer(&mut self, format: Format) -> Result<usize, Status>
        ensures asks { OnSession (Asks (λ held text rows. IsTableOf format held rows text) ForMemory self.new.told) self.old self.new
            result }
        ensures reason { ReasonOnAsking self.old.session self.old.reason self.new.reason result }
        ensures same { OnErr result (Unchanged self.old self.new) }
    {
        let Some(session) = &self.session else {
            return Err(Status::NotOpen);
        };
        let (rows, table) = match session.answer(format) {
            Ok(found) => found,
            Err(_) => return Err(self.refuse_for_memory()),
        };
        self.told = table;
        Ok(rows)
    }

    /// Keeps what is known as the result, a line for each origin.
    ///
    /// # Errors
    ///
    /// `NotOpen`, and `NoMemory`. Nothing changes then.
    pub fn known(&mut self) -> Result<(), Status>
        ensures asks { OnSession (Asks (λ held text _. IsKnownText held text) ForMemory self.new.told)
            self.old self.new result }
        ensures reason { ReasonOnAsking self.old.session self.old.reason self.new.reason result }
        ensures same { OnErr result (Unchanged self.old self.new) }
    {
        let Some(session) = &self.session else {
            return Err(Status::NotOpen);
        };
        let lines = match session.known() {
            Ok(lines) => lines,
            Err(_) => return Err(self.refuse_for_memory()),
        };
        self.told = lines;
        Ok(())
    }

    /// Keeps the canonical text of the query as the result.
    ///
    /// # Errors
    ///
    /// `NotOpen`, and `NoMemory`. Nothing changes then.
    pub fn query(&mut self) -> Result<(), Status>
        ensures asks { OnSession (Asks (λ held text _. IsQueryText held text) ForMemory self.new.told)
            self.old self.new result }
        ensures reason { ReasonOnAsking self.old.session self.old.reason self.new.reason result }
        ensures same { OnErr result (Unchanged self.old self.new) }
    {
        let Some(session) = &self.session else {
            return Err(Status::NotOpen);
        };
        let text = match bytes_of(self.alloc, session.query()) {
            Ok(text) => text,
            Err(_) => return Err(self.refuse_for_memory()),
        };
        self.told = text;
        Ok(())
    }

    /// Keeps the canonical text of the columns as the result.
    ///
    /// # Errors
    ///
    /// `NotOpen`, and `NoMemory`. Nothing changes then.
    pub fn columns(&mut self) -> Result<(), Status>
        ensures asks { OnSession (Asks (λ held text _. IsColumnsText held text) ForMemory self.new.told)
            self.old self.new result }
        ensures reason { ReasonOnAsking self.old.session self.old.reason self.new.reason result }
        ensures same { OnErr result (Unchanged self.old self.new) }
    {
        let Some(session) = &self.session else {
            return Err(Status::NotOpen);
        };
        let text = match session.columns() {
            Ok(text) => text,
            Err(_) => return Err(self.refuse_for_memory()),
        };
        self.told = text.into_bytes();
        Ok(())
    }

    /// Keeps the columns of the answer with their types as the result.
    ///
    /// # Errors
    ///
    /// `NotOpen`, and `NoMemory`. Nothing changes then.
    pub fn answer_columns(&mut self) -> Result<(), Status>
        ensures asks { OnSession (Asks (λ held text _. IsAnswerColumnsText held text) ForMemory self.new.told)
            self.old self.new result }
        ensures reason { ReasonOnAsking self.old.session self.old.reason self.new.reason result }
        ensures same { OnErr result (Unchanged self.old self.new) }
    {
        let Some(session) = &self.session else {
            return Err(Status::NotOpen);
        };
        let text = match session.answer_columns() {
            Ok(text) => text,
            Err(_) => return Err(self.refuse_for_memory()),
        };
        self.told = text;
        Ok(())
    }

    /// Keeps the sentence of the last refusal as the result, empty if there was none, and gives its place. The only error is out of memory,
    /// and nothing changes then.
    pub fn explain(&mut self) -> Result<Place, Status>
        ensures place { IfOk result (λ place. place ≡ last_place self.old.why) }
        ensures none { self.old.why ≡ None → OnOk result (self.new.told ≡ []) }
        ensures text { OnOk result (IfSome self.old.reason (λ reason. self.new.told ≡ reason.text)) }
        ensures session { self.new.session ≡ self.old.session }
        ensures last { self.new.why ≡ self.old.why }
        ensures reason { self.new.reason ≡ self.old.reason }
        ensures why { IfErr result (λ status. status ≡ status_of NoMemory) }
        ensures same { OnErr result (self.new ≡ self.old) }
    {
        let Some(last) = &self.last else {
            self.told.clear();
            return Ok(Place::NONE);
        };
        let why = last.why;
        match sentence(self.alloc, last) {
            Ok(text) => {
                self.told = text.into_bytes();
                Ok(Place::of(why))
            }
            Err(_) => Err(Status::NoMemory),
        }
    }

    /// The last result.
    pub fn told(&self) -> &[u8]
        ensures { result.now ≡ self.now.told }
    {
        &self.told
    }
}
