//! One tape: pages on a disk, and a buffer of one page.
ghost use Rattle.std.specs.Prelude.{◌≡◌, ◌≢◌, ◌&&◌, ◌||◌, ◌==◌, nat_lt, nat_le, ◌+◌, ◌-◌, ◌*◌, ◌/◌, ◌<◌, ◌≤◌, ◌^◌, ◌∷◌, ◌++◌, [], ℕ, List};
ghost use Rattle.std.specs.Prelude.{Some, None, IsTrue, IfOk, IfErr, OnOk, OnErr, length, take, drop};
ghost use Rattle.tape_disks.specs.Disk.{DiskFrame, OnlyReads};
ghost use Rattle.tape_disks.specs.Calls.{failed};
ghost use Rattle.tape_disks.specs.Errors.{disk_faults};
ghost use Rattle.spill_tapes.specs.Errors.{tape_faults};
ghost use Rattle.spill_tapes.specs.Records.{Record, IsRecord};
ghost use Rattle.spill_tapes.specs.Pages.{pages_for, HavePages, TakesPages, GivesBack, KeepsPages};
ghost use Rattle.spill_tapes.specs.Tape.{TapeState, new_tape, no_tape, tape_len, ahead, HasWritten, HasAhead, IsSameTape, IsGood};
ghost use Rattle.spill_tapes.specs.Tape.{IsGoodRead, ReadsPart, IsAfterHeader, Gives, IsGiven, spent, ended, AreWritten, AreAhead};
ghost use Rattle.spill_tapes.specs.declared.error.TapeError.TheVariants.{TapeDamaged, TapesDead};
ghost use Rattle.spill_tapes.specs.declared.tape.Phase.TheVariants as phase;

use crate::error::TapeError;
use crate::header::Header;
use crate::limits::{FRONT, MAX_RECORD_LEN, PAGE};
use crate::pool::PagePool;
use std::alloc::{AllocError, Global};
use std::collections::VecDeque;
use std::marker::Model;
use tape_disks::{DiskError, TapeDisk};

/// What is done with a tape.
#[derive(Clone, Copy, PartialEq, Eq)]
pub(crate) enum Phase {
    /// Nothing: it is not open.
    Closed,
    /// It is written.
    Written,
    /// It is read.
    Read,
}

/// A tape: the pages that are to be read, and a buffer for one of them.
#[derive(Drop)]
pub(crate) struct Tape {
    phase: Phase,
    pages: VecDeque<u64>,
    buffer: Vec<u8>,
    read: usize,
    left: u64,
    records: u64,
}

impl Model for Tape {
    ghost use Rattle.spill_tapes.specs.Tape.{TapeState};

    ghost Value = { TapeState };

    ghost use Rattle.std.specs.Prelude.{vec_capacity};

    ghost view = { λ t. record {
      phase = t.phase;
      pages = t.pages.items;
      buffer = t.buffer.items;
      room = vec_capacity t.buffer;
      read = t.read;
      left = t.left;
      records = t.records;
    } };
}

impl Tape {
    /// A tape with nothing in it, to be written.
    pub(crate) fn new(alloc: Global) -> Tape
        ensures { result ≡ new_tape }
    {
        Tape {
            phase: Phase::Written,
            pages: VecDeque::new(alloc),
            buffer: Vec::new(alloc),
            read: 0,
            left: 0,
            records: 0,
        }
    }

    /// Writes the buffer, which is full, to a page more.
    fn flush<D: TapeDisk>(&mut self, disk: &mut D, pool: &mut PagePool) -> Result<(), DiskError>
        requires pages { HavePages pool.old self.old.pages }
        requires full { length self.old.buffer ≡ PAGE }
        ensures pages { TakesPages pool.old self.old.pages pool.new self.new.pages }
        ensures same { IsSameTape self.old self.new }
        ensures read { self.new.read ≡ self.old.read }
        ensures keeps { KeepsPages pool.old (D.last disk.old) (D.last disk.new) }
        ensures empty { OnOk result (self.new.buffer ≡ []) }
        ensures longer { OnOk result (length self.new.pages ≡ length self.old.pages + 1) }
        ensures written { OnOk result ((bytes : List ℕ) → HasWritten (D.last disk.old) self.old bytes
            → HasWritten (D.last disk.new) self.new bytes) }
        ensures counted { OnOk result (D.writes disk.new ≡ D.writes disk.old + 1) }
        ensures disk { DiskFrame D.TapeDisk (failed disk_faults result) disk.old disk.new }
    {
        let page = pool.take(&mut self.pages)?;
        disk.write_at(page * PAGE as u64, &self.buffer)?;
        self.buffer.clear();
        Ok(())
    }

    /// Puts bytes after those that were written.
    fn put<D: TapeDisk>(
        &mut self,
        disk: &mut D,
        pool: &mut PagePool,
        bytes: &[u8],
    ) -> Result<(), DiskError>
        requires pages { HavePages pool.old self.old.pages }
        requires small { length self.old.buffer < PAGE }
        ensures pages { TakesPages pool.old self.old.pages pool.new self.new.pages }
        ensures same { IsSameTape self.old self.new }
        ensures keeps { KeepsPages pool.old (D.last disk.old) (D.last disk.new) }
        ensures small { OnOk result (length self.new.buffer < PAGE) }
        ensures longer { OnOk result (tape_len self.new ≡ tape_len self.old + length bytes.now) }
        ensures written { OnOk result ((before : List ℕ) → HasWritten (D.last disk.old) self.old before
            → HasWritten (D.last disk.new) self.new (before ++ bytes.now)) }
        ensures counted { OnOk result (D.writes disk.new + length self.old.pages ≡ D.writes disk.old + length self.new.pages) }
        ensures disk { DiskFrame D.TapeDisk (failed disk_faults result) disk.old disk.new }
    {
        let n = bytes.len().min(PAGE - self.buffer.len());
        self.buffer.extend_from_slice(&bytes[..n])?;
        if self.buffer.len() < PAGE {
            return Ok(());
        }
        self.flush(disk, pool)?;
        self.put(disk, pool, &bytes[n..])
    }

    /// Puts a record after those that were written.
    pub(crate) fn append<D: TapeDisk>(
        &mut self,
        disk: &mut D,
        pool: &mut PagePool,
        header: Header,
        bytes: &[u8],
    ) -> Result<(), DiskError>
        requires pages { HavePages pool.old self.old.pages }
        requires phase { self.old.phase ≡ phase.Written }
        requires good { IsGood self.old }
        requires record { IsRecord (record { hash = header.hash; tag = header.tag; bytes = bytes.now }) }
        requires len { header.len ≡ length bytes.now }
        ensures pages { TakesPages pool.old self.old.pages pool.new self.new.pages }
        ensures keeps { KeepsPages pool.old (D.last disk.old) (D.last disk.new) }
        ensures phase { self.new.phase ≡ phase.Written }
        ensures good { OnOk result (IsGood self.new) }
        ensures longer { OnOk result (tape_len self.new ≡ tape_len self.old + (FRONT + length bytes.now)) }
        ensures appended { OnOk result ((rs : List Record) → AreWritten (D.last disk.old) self.old rs
            → AreWritten (D.last disk.new) self.new (rs ++ record { hash = header.hash; tag = header.tag; bytes = bytes.now } ∷ [])) }
        ensures counted { OnOk result (D.writes disk.new + tape_len self.old / PAGE ≡ D.writes disk.old + tape_len self.new / PAGE) }
        ensures disk { DiskFrame D.TapeDisk (failed disk_faults result) disk.old disk.new }
    {
        self.buffer.reserve_exact(PAGE - self.buffer.len())?;
        self.put(disk, pool, &header.to_bytes())?;
        self.put(disk, pool, bytes)?;
        self.records += 1;
        Ok(())
    }

    /// Fills up the page that has begun with zeros and writes it, if one has begun.
    fn finish<D: TapeDisk>(&mut self, disk: &mut D, pool: &mut PagePool) -> Result<(), DiskError>
        requires pages { HavePages pool.old self.old.pages }
        requires small { length self.old.buffer < PAGE }
        ensures pages { TakesPages pool.old self.old.pages pool.new self.new.pages }
        ensures keeps { KeepsPages pool.old (D.last disk.old) (D.last disk.new) }
        ensures same { IsSameTape self.old self.new }
        ensures read { self.new.read ≡ self.old.read }
        ensures empty { OnOk result (self.new.buffer ≡ []) }
        ensures longer { OnOk result (tape_len self.old ≤ tape_len self.new) }
        ensures page { OnOk result (tape_len self.new < tape_len self.old + PAGE) }
        ensures written { OnOk result ((bytes : List ℕ) → HasWritten (D.last disk.old) self.old bytes
            → ((rest : List ℕ) × HasWritten (D.last disk.new) self.new (bytes ++ rest))) }
        ensures counted { OnOk result (D.writes disk.new + tape_len self.old / PAGE ≡ D.writes disk.old + pages_for (tape_len self.old)) }
        ensures disk { DiskFrame D.TapeDisk (failed disk_faults result) disk.old disk.new }
    {
        if self.buffer.is_empty() {
            return Ok(());
        }
        self.buffer.resize(PAGE, 0)?;
        self.flush(disk, pool)
    }

    /// Ends the writing of the tape, and begins to read it. It has no buffer until a record of it is read.
    pub(crate) fn rewind<D: TapeDisk>(
        &mut self,
        alloc: Global,
        disk: &mut D,
        pool: &mut PagePool,
    ) -> Result<(), DiskError>
        requires pages { HavePages pool.old self.old.pages }
        requires phase { self.old.phase ≡ phase.Written }
        requires good { IsGood self.old }
        ensures pages { TakesPages pool.old self.old.pages pool.new self.new.pages }
        ensures keeps { KeepsPages pool.old (D.last disk.old) (D.last disk.new) }
        ensures phase { self.new.phase ≡ phase.Read }
        ensures good { OnOk result (IsGood self.new) }
        ensures rewound { OnOk result ((rs : List Record) → AreWritten (D.last disk.old) self.old rs
            → AreAhead (D.last disk.new) self.new rs) }
        ensures counted { OnOk result (D.writes disk.new + tape_len self.old / PAGE ≡ D.writes disk.old + pages_for (tape_len self.old)) }
        ensures room { OnOk result (self.new.room ≡ 0) }
        ensures disk { DiskFrame D.TapeDisk (failed disk_faults result) disk.old disk.new }
    {
        self.phase = Phase::Read;
        self.read = 0;
        self.left = self.pages.len() as u64 * PAGE as u64 + self.buffer.len() as u64;
        self.finish(disk, pool)?;
        self.buffer = Vec::new(alloc); // No buffer waits.
        Ok(())
    }

    /// Reads the next page into the buffer, of which all was read. The page is free then.
    fn load<D: TapeDisk>(&mut self, disk: &mut D, pool: &mut PagePool) -> Result<(), DiskError>
        requires pages { HavePages pool.old self.old.pages }
        requires some { 0 < length self.old.pages }
        requires spent { self.old.read ≡ length self.old.buffer }
        ensures pages { GivesBack pool.old self.old.pages pool.new self.new.pages }
        ensures same { IsSameTape self.old self.new }
        ensures start { OnOk result (self.new.read ≡ 0) }
        ensures full { OnOk result (length self.new.buffer ≡ PAGE) }
        ensures shorter { OnOk result (length self.new.pages + 1 ≡ length self.old.pages) }
        ensures loaded { OnOk result (IsTrue (D.honest disk.old) → (bytes : List ℕ) → HasAhead (D.last disk.old) self.old bytes
            → HasAhead (D.last disk.new) self.new bytes) }
        ensures disk { OnlyReads D.TapeDisk (failed disk_faults result) disk.old disk.new }
    {
        self.buffer.resize(PAGE, 0)?;
        let page = self.pages.pop_front().unwrap();
        pool.give_back(page);
        self.read = 0;
        disk.read_at(page * PAGE as u64, &mut self.buffer)
    }

    /// Puts the next `n` bytes of the buffer after `bytes`.
    fn spend(&mut self, n: usize, bytes: &mut Vec<u8>) -> Result<(), AllocError>
        requires read { self.old.read ≤ length self.old.buffer }
        requires fits { n ≤ length self.old.buffer - self.old.read }
        ensures spent { OnOk result (self.new ≡ spent self.old n) }
        ensures refused { OnErr result (self.new ≡ self.old) }
        ensures bytes { OnOk result (bytes.new.items ≡ bytes.old.items ++ take n (drop self.old.read self.old.buffer)) }
    {
        bytes.extend_from_slice(&self.buffer[self.read..self.read + n])?;
        self.read += n;
        Ok(())
    }

    /// Puts the next `n` bytes of the tape after `bytes`.
    fn fill<D: TapeDisk>(
        &mut self,
        disk: &mut D,
        pool: &mut PagePool,
        n: usize,
        bytes: &mut Vec<u8>,
    ) -> Result<(), DiskError>
        requires pages { HavePages pool.old self.old.pages }
        requires read { self.old.read ≤ length self.old.buffer }
        requires ahead { n ≤ ahead self.old }
        ensures pages { GivesBack pool.old self.old.pages pool.new self.new.pages }
        ensures same { IsSameTape self.old self.new }
        ensures read { OnOk result (self.new.read ≤ length self.new.buffer) }
        ensures ahead { OnOk result (ahead self.new + n ≡ ahead self.old) }
        ensures len { OnOk result (length bytes.new.items ≡ length bytes.old.items + n) }
        ensures filled { OnOk result (IsTrue (D.honest disk.old) → (front rest : List ℕ) → length front ≡ n
            → HasAhead (D.last disk.old) self.old (front ++ rest) → (bytes.new.items ≡ bytes.old.items ++ front)
            × HasAhead (D.last disk.new) self.new rest) }
        ensures disk { OnlyReads D.TapeDisk (failed disk_faults result) disk.old disk.new }
    {
        let ahead = self.buffer.len() - self.read;
        if n <= ahead {
            self.spend(n, bytes)?;
            return Ok(());
        }
        self.spend(ahead, bytes)?;
        self.load(disk, pool)?;
        self.fill(disk, pool, n - ahead, bytes)
    }

    /// Reads the front of the next record.
    fn next_header<D: TapeDisk>(
        &mut self,
        disk: &mut D,
        pool: &mut PagePool,
        bytes: &mut Vec<u8>,
    ) -> Result<Header, DiskError>
        requires pages { HavePages pool.old self.old.pages }
        requires good { IsGoodRead self.old }
        requires left { FRONT ≤ self.old.left }
        requires some { 0 < self.old.records }
        requires empty { bytes.old.items ≡ [] }
        ensures part { ReadsPart D.TapeDisk pool.old self.old disk.old result pool.new self.new disk.new }
        ensures records { self.new.records ≡ self.old.records }
        ensures header { IfOk result (λ header. IsTrue (D.honest disk.old) → (rs : List Record) → AreAhead (D.last disk.old) self.old rs
            → IsAfterHeader (D.last disk.new) self.new header rs) }
    {
        self.fill(disk, pool, FRONT, bytes)?;
        self.left -= FRONT as u64;
        Ok(Header::read(bytes))
    }

    /// Reads the bytes of a record of which the front was read.
    fn next_bytes<D: TapeDisk>(
        &mut self,
        disk: &mut D,
        pool: &mut PagePool,
        header: Header,
        bytes: &mut Vec<u8>,
    ) -> Result<(), DiskError>
        requires pages { HavePages pool.old self.old.pages }
        requires good { IsGoodRead self.old }
        requires left { header.len ≤ self.old.left }
        requires some { 0 < self.old.records }
        requires last { self.old.records ≡ 1 → header.len ≡ self.old.left }
        ensures part { ReadsPart D.TapeDisk pool.old self.old disk.old result pool.new self.new disk.new }
        ensures records { OnOk result (self.old.records ≡ self.new.records + 1) }
        ensures len { OnOk result (length bytes.new.items ≡ header.len) }
        ensures gives { OnOk result (IsTrue (D.honest disk.old) → (rs : List Record) → IsAfterHeader (D.last disk.old) self.old header rs
            → Gives (AreAhead (D.last disk.new) self.new) rs bytes.new.items (Some (header.hash, header.tag))) }
    {
        bytes.clear();
        bytes.reserve(header.len as usize)?;
        self.fill(disk, pool, header.len as usize, bytes)?;
        self.left -= u64::from(header.len);
        self.records -= 1;
        Ok(())
    }

    /// Reads the next record: returns its hash and its tag, and puts its bytes into `bytes`.
    pub(crate) fn next<D: TapeDisk>(
        &mut self,
        alloc: Global,
        disk: &mut D,
        pool: &mut PagePool,
        bytes: &mut Vec<u8>,
    ) -> Result<Option<(u32, u8)>, TapeError>
        requires pages { HavePages pool.old self.old.pages }
        requires phase { self.old.phase ≡ phase.Read }
        requires good { IsGood self.old }
        requires empty { bytes.old.items ≡ [] }
        ensures pages { GivesBack pool.old self.old.pages pool.new self.new.pages }
        ensures phase { self.new.phase ≡ phase.Read }
        ensures given { IfOk result (IsGiven (D.honest disk.old) (D.last disk.old) self.old (D.last disk.new) self.new bytes.new.items) }
        ensures undamaged { IfErr result (λ error. IsTrue (D.honest disk.old) → (rs : List Record) → AreAhead (D.last disk.old) self.old rs
            → error ≢ TapeDamaged) }
        ensures alive { IfErr result (λ error. error ≢ TapesDead) }
        ensures disk { OnlyReads D.TapeDisk (failed tape_faults result) disk.old disk.new }
    {
        if self.records == 0 {
            return Ok(None);
        }
        if self.left < FRONT as u64 {
            return Err(TapeError::TapeDamaged);
        }
        let header = self.next_header(disk, pool, bytes)?;
        if !self.can_have(header) {
            return Err(TapeError::TapeDamaged);
        }
        self.next_bytes(disk, pool, header, bytes)?;
        self.end_reading(alloc);
        Ok(Some((header.hash, header.tag)))
    }

    /// Whether a record with this front can stand at the front of what is left. The last one takes all of it.
    fn can_have(&self, header: Header) -> bool
        ensures { result ≡ (nat_lt header.tag 2 && nat_le header.len MAX_RECORD_LEN && nat_le header.len self.now.left
            && (nat_lt 1 self.now.records || header.len == self.now.left)) }
    {
        let len = u64::from(header.len);
        header.tag < 2
            && len <= u64::from(MAX_RECORD_LEN)
            && len <= self.left
            && (self.records > 1 || len == self.left)
    }

    /// Gives up the buffer if there are no more records to be read.
    fn end_reading(&mut self, alloc: Global)
        ensures { self.new ≡ ended self.old }
    {
        if self.records == 0 {
            self.buffer = Vec::new(alloc);
            self.read = 0;
            self.left = 0;
        }
    }

    /// What is done with it.
    pub(crate) fn phase(&self) -> Phase
        ensures { result ≡ self.now.phase }
    {
        self.phase
    }

    /// Is no tape any more, and gives back its pages.
    pub(crate) fn close(&mut self, alloc: Global, pool: &mut PagePool)
        requires pages { HavePages pool.old self.old.pages }
        ensures pages { GivesBack pool.old self.old.pages pool.new [] }
        ensures closed { self.new ≡ no_tape }
    {
        pool.give_back_all(&mut self.pages);
        *self = Tape::new(alloc);
        self.phase = Phase::Closed;
    }
}
