//! Tapes over a file.

use spill_tapes::{DiskError, FileDisk, MemFile, SeekableFile, TapeDisk};
use std::alloc::Global;
use std::os::unix::fs::MetadataExt;
use std::test::*;
use std::{fs, io, process};
use test_cases::expect;

/// The bytes of a disk round those that are written beyond all others.
fn round_the_last<D: TapeDisk>(disk: &mut D) -> Result<[u8; 8], DiskError> {
    disk.write_at(10_000, b"abcd")?;
    let mut bytes = [1; 8];
    disk.read_at(9998, &mut bytes)?;
    Ok(bytes)
}

/// Whether zeros are read over a disk in a file where nothing was written, and how often it was written.
fn told_over<F: SeekableFile + Drop>(alloc: Global, mut disk: FileDisk<F>) -> Result<String, Fail> {
    let round = round_the_last(&mut disk) == Ok(*b"\0\0abcd\0\0");
    let writes = disk.writes();
    drop(disk);
    Ok(format!(in alloc; "zeros {round}, {writes} written")?)
}

/// Who may read and write a file, and whether a second disk is refused in its place.
fn told_of_file(rt: HostRuntime, path: &str) -> io::Result<String> {
    let mode = fs::metadata(&rt, path)?.mode() & 0o777;
    let is_refused = FileDisk::create(&rt, path).is_err();
    Ok(format!(in rt.alloc(); "mode {mode:o}, refused again {is_refused}")?)
}

/// What is told of a disk in a new file, which is removed then, and of the file.
fn told_over_file(rt: HostRuntime, path: &str) -> Result<String, Fail> {
    let Ok(disk) = FileDisk::create(&rt, path) else {
        return Err(Fail::from("no file"));
    };
    let told = told_over(rt.alloc(), disk);
    let of_file = told_of_file(rt, path);
    let removed = fs::remove_file(&rt, path);
    let told = told?;
    removed?;
    Ok(format!(in rt.alloc(); "{told}, {}", of_file?)?)
}

#[test]
fn a_file_serves(rt: HostRuntime) -> Result<(), Fail> {
    expect(
        told_over(rt.alloc(), FileDisk::new(MemFile::new(rt.alloc()))),
        "zeros true, 1 written",
    )?;
    let process = process::id(rt.process());
    let path = format!(in rt.alloc(); "/tmp/agg_tool_tapes_{process}")?;
    expect(
        told_over_file(rt, &path),
        "zeros true, 1 written, mode 600, refused again true",
    )
}
