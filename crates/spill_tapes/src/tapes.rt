//! Tapes over a disk.
ghost use Rattle.std.specs.Prelude.{◌≡◌, ◌≢◌, ◌+◌, ◌*◌, ◌/◌, ◌<◌, ◌≤◌, [], List, Some, Err, true, false, IfOk, IfErr};
ghost use Rattle.std.specs.Prelude.{OnOk, OnErr, length};
ghost use Rattle.tape_disks.specs.Calls.{failed};
ghost use Rattle.tape_disks.specs.Disk.{DiskFrame, OnlyReads};
ghost use Rattle.spill_tapes.specs.Errors.{tape_faults};
ghost use Rattle.spill_tapes.specs.Pages.{UsesAgain};
ghost use Rattle.spill_tapes.specs.Records.{Record, tape_bytes};
ghost use Rattle.spill_tapes.specs.Tape.{new_tape};
ghost use Rattle.spill_tapes.specs.Tapes.{tape_at, phase_of, is_open, is_written, is_read, written_len, AreOpenBefore};
ghost use Rattle.spill_tapes.specs.Tapes.{IsTape, KeepsOthers, DiesIfRefused, IsOpenRefusal, IsRefusal, IsReadRefusal, FreesPages};
ghost use Rattle.spill_tapes.specs.Tapes.{KeepsPhases, IsOpened, Appends, Rewinds, ReadsNext, TapesState, buffer_room};
ghost use Rattle.spill_tapes.specs.declared.error.TapeError.TheVariants.{TapesDead};
ghost use Rattle.spill_tapes.specs.declared.tape.Phase.TheVariants.{Closed, Written, Read};
ghost use Rattle.spill_tapes.specs.declared.tape_id.TapeId.{TapeId};
ghost use Rattle.spill_tapes.specs.TapesFields.{tapes_of, AreFields};

use crate::error::TapeError;
use crate::header::Header;
use crate::limits::{MAX_RECORD_LEN, PAGE};
use crate::pool::PagePool;
use crate::tape::{Phase, Tape};
use crate::tape_id::TapeId;
use std::alloc::{AllocError, Global};
use std::marker::Model;
use tape_disks::TapeDisk;

/// Tapes over a disk: lists of records, each of which is written and then read once, in order.
///
/// A record is a hash, a tag, which is 0 or 1, and up to 65,535 bytes. Each call that reads or writes takes the disk, which
/// nothing else may write to while the tapes are in use.
///
/// A call that reads or writes the disk fails if memory ran out, the disk failed, or its bytes are not those of a record. Then the tapes
/// are dead: every further call but `close` is refused.
#[derive(Drop)]
pub struct Tapes {
    alloc: Global,
    tapes: Vec<Tape>,
    pool: PagePool,
    is_dead: bool,
}

impl Model for Tapes {
    ghost Value = { TapesState };

    ghost view = { tapes_of };

    ghost invariant = { AreFields };
}

impl Tapes {
    /// Tapes of which none is open.
    pub fn new(alloc: Global) -> Tapes
        ensures alive { result.is_dead ≡ false }
        ensures none { (id : TapeId) → is_open result id ≡ false }
        ensures pages { result.pool.count ≡ 0 }
    {
        Tapes {
            alloc,
            tapes: Vec::new(alloc),
            pool: PagePool::new(alloc),
            is_dead: false,
        }
    }

    /// What is done with a tape.
    fn phase(&self, tape: TapeId) -> Phase
        ensures { result ≡ phase_of self.now tape }
    {
        match self.tapes.get(tape.index) {
            Some(tape) => tape.phase(),
            None => Phase::Closed,
        }
    }

    /// Whether a tape is open.
    pub fn is_open(&self, tape: TapeId) -> bool
        ensures { result ≡ is_open self.now tape }
    {
        self.phase(tape) != Phase::Closed
    }

    /// Whether a tape is being written.
    pub fn is_written(&self, tape: TapeId) -> bool
        ensures { result ≡ is_written self.now tape }
    {
        self.phase(tape) == Phase::Written
    }

    /// Whether a tape is being read.
    pub fn is_read(&self, tape: TapeId) -> bool
        ensures { result ≡ is_read self.now tape }
    {
        self.phase(tape) == Phase::Read
    }

    /// Whether a call failed, so that every call but `close` is refused.
    pub fn is_dead(&self) -> bool
        ensures { result ≡ self.now.is_dead }
    {
        let Tapes { is_dead, .. } = self;
        *is_dead
    }

    /// The first place where no tape is open: one of those that there are, or the next.
    #[tactic(auto, using(crate::proofs::TapesLaws::closed_past))]
    fn closed_place(&self) -> TapeId
        ensures closed { phase_of self.now result ≡ Closed }
        ensures near { result.index ≤ length self.now.tapes }
        ensures first { AreOpenBefore self.now result.index }
    {
        let mut index = 0;
        while index < self.tapes.len() && self.is_open(TapeId { index }) {
            index += 1;
        }
        TapeId { index }
    }

    /// Opens a tape with no record, to be written.
    ///
    /// It refuses `TapesDead` and `NoMemory`, and then nothing is changed.
    pub fn open<D: TapeDisk>(&mut self, _disk: &D) -> Result<TapeId, TapeError>
        ensures dead { self.old.is_dead ≡ true → result ≡ Err TapesDead }
        ensures refused { IfErr result (IsOpenRefusal self.old.is_dead) }
        ensures unchanged { OnErr result (self.new ≡ self.old) }
        ensures opened { IfOk result (IsOpened (D.last _disk.now) self.old self.new) }
        ensures alive { self.new.is_dead ≡ self.old.is_dead }
        ensures pages { self.new.pool ≡ self.old.pool }
    {
        if self.is_dead() {
            return Err(TapeError::TapesDead);
        }
        let tape = self.closed_place();
        self.place(tape, Tape::new(self.alloc))?;
        Ok(tape)
    }

    /// Puts a new tape where none is open.
    #[tactic(auto, using(crate::proofs::TapesLaws::none_past))]
    fn place(&mut self, at: TapeId, tape: Tape) -> Result<(), AllocError>
        requires closed { phase_of self.old at ≡ Closed }
        requires near { at.index ≤ length self.old.tapes }
        requires new { tape ≡ new_tape }
        ensures unchanged { OnErr result (self.new ≡ self.old) }
        ensures alive { self.new.is_dead ≡ self.old.is_dead }
        ensures placed { OnOk result (tape_at self.new at ≡ new_tape) }
        ensures others { OnOk result ((id : TapeId) → id ≢ at → tape_at self.new id ≡ tape_at self.old id) }
        ensures pages { self.new.pool ≡ self.old.pool }
    {
        if at.index < self.tapes.len() {
            self.tapes[at.index] = tape;
            return Ok(());
        }
        self.tapes.push(tape)?;
        Ok(())
    }

    /// Adds a record at the end of a tape. The errors are `TapesDead`, `NoMemory` and `TapeFault`; after one the tapes
    /// are dead.
    pub fn append<D: TapeDisk>(
        &mut self,
        disk: &mut D,
        tape: TapeId,
        hash: u32,
        tag: u8,
        bytes: &[u8],
    ) -> Result<(), TapeError>
        requires written { self.old.is_dead ≡ false → is_written self.old tape ≡ true }
        requires tag { tag < 2 }
        requires len { length bytes.now ≤ MAX_RECORD_LEN }
        ensures dies { DiesIfRefused IsRefusal result self.old self.new disk.old disk.new }
        ensures appended { OnOk result (Appends D.TapeDisk tape (record { hash = hash; tag = tag; bytes = bytes.now })
            self.old disk.old self.new disk.new) }
        ensures phases { KeepsPhases self.old self.new }
        ensures others { KeepsOthers (D.last disk.old) (D.last disk.new) self.old self.new tape }
        ensures again { UsesAgain self.old.pool self.new.pool }
        ensures disk { DiskFrame D.TapeDisk (failed tape_faults result) disk.old disk.new }
    {
        if self.is_dead() {
            return Err(TapeError::TapesDead);
        }
        let header = Header {
            hash,
            tag,
            len: bytes.len() as u32,
        };
        self.is_dead = true;
        self.tapes[tape.index].append(disk, &mut self.pool, header, bytes)?;
        self.is_dead = false;
        Ok(())
    }

    /// A law: as many bytes were written to a tape that is being written as its records have.
    #[tactic(auto, using(crate::proofs::TapesLaws::bytes_written))]
    pub fn bytes_written<D: TapeDisk>(&self, _disk: &D, _tape: TapeId)
        requires { is_written self.now _tape ≡ true }
        ensures { (rs : List Record) → IsTape (D.last _disk.now) self.now _tape rs → written_len self.now _tape ≡ length (tape_bytes rs) }
    {
        let _records = &self.tapes;
    }

    /// A law: a tape that is being read has no page more than what is left of it takes, as long as no call failed. So a page that
    /// was read is free.
    #[tactic(auto, using(crate::proofs::TapesLaws::pages_left))]
    pub fn pages_left<D: TapeDisk>(&self, _disk: &D, _tape: TapeId)
        requires read { is_read self.now _tape ≡ true }
        requires alive { self.now.is_dead ≡ false }
        ensures { (rs : List Record) → IsTape (D.last _disk.now) self.now _tape rs → PAGE
            * length (tape_at self.now _tape).pages < length (tape_bytes rs) + PAGE }
    {
        let _are_tapes = &self.pool;
    }

    /// Ends the writing of a tape, which is then to be read. It has no buffer until its first record is read. The
    /// errors are `TapesDead`, `NoMemory` and `TapeFault`; after one the tapes are dead.
    pub fn rewind<D: TapeDisk>(&mut self, disk: &mut D, tape: TapeId) -> Result<(), TapeError>
        requires written { self.old.is_dead ≡ false → is_written self.old tape ≡ true }
        ensures dies { DiesIfRefused IsRefusal result self.old self.new disk.old disk.new }
        ensures rewound { OnOk result (Rewinds D.TapeDisk tape self.old disk.old self.new disk.new) }
        ensures open { is_open self.new tape ≡ is_open self.old tape }
        ensures others { KeepsOthers (D.last disk.old) (D.last disk.new) self.old self.new tape }
        ensures again { UsesAgain self.old.pool self.new.pool }
        ensures disk { DiskFrame D.TapeDisk (failed tape_faults result) disk.old disk.new }
    {
        if self.is_dead() {
            return Err(TapeError::TapesDead);
        }
        self.is_dead = true;
        self.tapes[tape.index].rewind(self.alloc, disk, &mut self.pool)?;
        self.is_dead = false;
        Ok(())
    }

    /// Reads the next record of a tape, if there is one: returns its hash and its tag, and puts its bytes in place of those in `bytes`,
    /// which is empty without a record. A page that was read whole, or lies in the buffer, is free. The errors are `TapesDead`, `NoMemory`,
    /// `TapeFault` and `TapeDamaged`; after one the tapes are dead.
    pub fn next<D: TapeDisk>(
        &mut self,
        disk: &mut D,
        tape: TapeId,
        bytes: &mut Vec<u8>,
    ) -> Result<Option<(u32, u8)>, TapeError>
        requires read { self.old.is_dead ≡ false → is_read self.old tape ≡ true }
        ensures dies { DiesIfRefused IsReadRefusal result self.old self.new disk.old disk.new }
        ensures reads { ReadsNext D.TapeDisk tape self.old disk.old result self.new disk.new bytes.new.items }
        ensures phases { KeepsPhases self.old self.new }
        ensures others { KeepsOthers (D.last disk.old) (D.last disk.new) self.old self.new tape }
        ensures frees { FreesPages self.old self.new tape }
        ensures disk { OnlyReads D.TapeDisk (failed tape_faults result) disk.old disk.new }
    {
        bytes.clear();
        if self.is_dead() {
            return Err(TapeError::TapesDead);
        }
        let slot = &mut self.tapes[tape.index];
        match slot.next(self.alloc, disk, &mut self.pool, bytes) {
            Ok(found) => Ok(found),
            Err(error) => {
                self.is_dead = true;
                bytes.clear();
                Err(error)
            }
        }
    }

    /// Closes a tape. Its pages are free, and it has no buffer.
    pub fn close<D: TapeDisk>(&mut self, _disk: &D, tape: TapeId)
        requires open { is_open self.old tape ≡ true }
        ensures alive { self.new.is_dead ≡ self.old.is_dead }
        ensures closed { is_open self.new tape ≡ false }
        ensures frees { FreesPages self.old self.new tape }
        ensures none { (tape_at self.new tape).pages ≡ [] }
        ensures room { buffer_room self.new tape ≡ 0 }
        ensures others { KeepsOthers (D.last _disk.now) (D.last _disk.now) self.old self.new tape }
    {
        self.tapes[tape.index].close(self.alloc, &mut self.pool);
    }
}
