//! Tapes over a disk: lists of records that are written once, one after the other, and then read once, in order.
//!
//! A tape is a chain of pages of 8,192 bytes. Pages that were read are reused. (PostgreSQL 17,
//! `src/backend/utils/sort/logtape.c`, has tapes of this kind.)
#![tactic(auto)]

mod error;
mod header;
pub mod limits;
mod pool;
mod tape;
mod tape_id;
mod tapes;

pub use error::TapeError;
pub use tape_disks::{
    DiskError, FailDisk, FileDisk, FlipDisk, MemDisk, MemFile, SeekableFile, SpillDisk, SystemFile,
    TapeDisk, WriteFault,
};
pub use tape_id::TapeId;
pub use tapes::Tapes;
