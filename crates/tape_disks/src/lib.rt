//! Disks for tapes: what a disk is, one in memory, one in a file, one that fails once and one that flips bits.
#![tactic(auto)]

mod disk;
mod fail_disk;
mod file_disk;
mod flip_disk;
pub mod limits;
mod mem_disk;
mod mem_file;
mod seekable_file;
mod spill_disk;
mod system_file;

pub use disk::{DiskError, TapeDisk};
pub use fail_disk::FailDisk;
pub use file_disk::{FileDisk, WriteFault, new_file_options};
pub use flip_disk::FlipDisk;
pub use mem_disk::MemDisk;
pub use mem_file::MemFile;
pub use seekable_file::SeekableFile;
pub use spill_disk::SpillDisk;
pub use system_file::SystemFile;
