//! Tapes over a disk. Each call is made where its condition holds; else it answers `NoMemory`, which no test wants.

use spill_tapes::{MemDisk, TapeDisk, TapeError, TapeId, Tapes};
use std::alloc::Global;
use std::test::*;
use test_cases::Marks;

/// A disk in memory that keeps how far it was written.
pub(crate) fn marks(alloc: Global) -> Marks {
    Marks {
        inner: MemDisk::new(alloc),
        end: 0,
    }
}

/// Tapes, and the disk that they lie on.
#[derive(Drop)]
pub(crate) struct Deck<D: TapeDisk + Drop> {
    pub(crate) alloc: Global,
    tapes: Tapes,
    pub(crate) disk: D,
}

impl<D: TapeDisk + Drop> Deck<D> {
    /// No tapes over a disk.
    pub(crate) fn new(alloc: Global, disk: D) -> Deck<D> {
        Deck {
            alloc,
            tapes: Tapes::new(alloc),
            disk,
        }
    }

    /// Opens a tape.
    pub(crate) fn open(&mut self) -> Result<TapeId, TapeError> {
        self.tapes.open(&self.disk)
    }

    /// Appends a record.
    pub(crate) fn append(
        &mut self,
        tape: TapeId,
        hash: u32,
        tag: u8,
        bytes: &[u8],
    ) -> Result<(), TapeError> {
        if !self.tapes.is_dead() && !self.tapes.is_written(tape) || tag > 1 || bytes.len() > 65535 {
            return Err(TapeError::NoMemory);
        }
        self.tapes.append(&mut self.disk, tape, hash, tag, bytes)
    }

    /// Rewinds a tape.
    pub(crate) fn rewind(&mut self, tape: TapeId) -> Result<(), TapeError> {
        if !self.tapes.is_dead() && !self.tapes.is_written(tape) {
            return Err(TapeError::NoMemory);
        }
        self.tapes.rewind(&mut self.disk, tape)
    }

    /// Reads the next record of a tape.
    pub(crate) fn next(
        &mut self,
        tape: TapeId,
        bytes: &mut Vec<u8>,
    ) -> Result<Option<(u32, u8)>, TapeError> {
        if !self.tapes.is_dead() && !self.tapes.is_read(tape) {
            return Err(TapeError::NoMemory);
        }
        self.tapes.next(&mut self.disk, tape, bytes)
    }

    /// Closes a tape.
    pub(crate) fn close(&mut self, tape: TapeId) {
        if self.tapes.is_open(tape) {
            self.tapes.close(&self.disk, tape);
        }
    }
}
