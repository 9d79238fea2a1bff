use batch_reader::BatchError;
use hash_agg::MemDisk;
use replies::{Refusal, RunError};
use script_io::Fused;
use script_machine::run;
use std::alloc::{AllocError, Global};
use std::io;
use std::io::{Error, ErrorKind, Read};
use std::test::*;
use test_cases::{FailingReader, FailingWriter, expect_told, expect_told_lines};

/// A reader without an end, which counts the bytes that were taken.
#[derive(Drop)]
struct EndlessReader {
    taken: u64,
}

impl Read for EndlessReader {
    fn read(&mut self, buf: &mut [u8]) -> io::Result<usize> {
        buf.fill(b'x');
        self.taken = self.taken.saturating_add(buf.len() as u64);
        Ok(buf.len())
    }
}

/// A script that has replies of 156 bytes.
const SCRIPT: &str =
    "columns,\"c text, d bigint\"\nquery,\"select c, count(*), sum(d) from batches group by c\"\n\
    replica,a\nfeed,a,0,1,3\noslo,5\nbergen,7\noslo,-2\nknown,a\nanswer,a\n";

/// What becomes of its run whose writer takes so many bytes, how many it took, and whether it failed.
fn written_to(alloc: Global, room: &str) -> Result<String, AllocError> {
    let mut failing = FailingWriter {
        taken: Vec::new(alloc),
        room: room.parse().unwrap_or(0),
    };
    let mut writer = Fused::new(&mut failing);
    let mut disk = MemDisk::new(alloc);
    let mut reader = Fused::new(SCRIPT.as_bytes());
    let outcome = run(alloc, &mut reader, &mut writer, &mut disk);
    drop(disk);
    let has_failed = writer.fault().is_some();
    let taken = failing.taken.len();
    drop(failing);
    format!(in alloc; "{outcome:?} {taken} failed {has_failed}")
}

/// How many bytes a writer takes, what becomes of the run, how many were taken, and whether the writer failed.
const ROOMS: &str = "\
0 => Err(WriteFault) 0 failed true
1 => Err(WriteFault) 1 failed true
60 => Err(WriteFault) 60 failed true
155 => Err(WriteFault) 155 failed true
156 => Ok(Outcome { refused: 0 }) 156 failed false";

#[test]
fn faults_of_writers_end_a_run(rt: HostRuntime) -> Result<(), Fail> {
    expect_told_lines(rt, ROOMS, written_to)
}

/// What becomes of the run of what a reader has, how many bytes are written, and whether the reader failed.
fn ended<R: Read>(alloc: Global, reader: &mut R) -> Result<String, AllocError> {
    let mut reader = Fused::new(&mut *reader);
    let mut written = Vec::new(alloc);
    let mut disk = MemDisk::new(alloc);
    let mut writer = Fused::new(&mut written);
    let outcome = run(alloc, &mut reader, &mut writer, &mut disk);
    drop(disk);
    let has_failed = reader.fault().is_some();
    let count = written.len();
    drop(written);
    format!(in alloc; "{outcome:?}, {count} written, failed {has_failed}")
}

#[test]
fn faults_of_readers_end_a_run(rt: HostRuntime) -> Result<(), Fail> {
    expect_told(
        ended(rt.alloc(), &mut FailingReader),
        "Err(ReadFault), 0 written, failed true",
    )
}

#[test]
fn faults_behind_a_whole_script_end_a_run(rt: HostRuntime) -> Result<(), Fail> {
    expect_told(
        ended(rt.alloc(), &mut SCRIPT.as_bytes().chain(FailingReader)),
        "Err(ReadFault), 0 written, failed true",
    )
}

/// The same of a reader without an end, and how many bytes of it were taken.
fn endless_ended(alloc: Global) -> Result<String, AllocError> {
    let mut endless = EndlessReader { taken: 0 };
    let told = ended(alloc, &mut endless)?;
    format!(in alloc; "{told}, {} taken", endless.taken)
}

#[test]
fn readers_without_an_end_end_a_run(rt: HostRuntime) -> Result<(), Fail> {
    expect_told(
        endless_ended(rt.alloc()),
        "Err(InputTooLong), 0 written, failed false, 67108865 taken",
    )
}

#[test]
fn nothing_is_answered_by_nothing(rt: HostRuntime) -> Result<(), Fail> {
    expect_told(
        ended(rt.alloc(), &mut io::empty()),
        "Ok(Outcome { refused: 0 }), 0 written, failed false",
    )
}

#[test]
fn refusals_have_names(rt: HostRuntime) {
    let bad_field = Refusal::Batch(BatchError::BadField { row: 0, column: 1 });
    assert!(rt; bad_field.name() == "BadField");
    assert!(rt; Refusal::from(RunError::InputTooLong).name() == "InputTooLong");
}
