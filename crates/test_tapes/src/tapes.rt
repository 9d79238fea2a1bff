//! Tapes that are written, read and closed.

ghost use Rattle.std.specs.Prelude.{◌+◌, ◌<◌, ◌^◌};

use crate::calls::{Deck, marks};
use spill_tapes::{DiskError, MemDisk, TapeDisk, TapeError, TapeId};
use std::alloc::{AllocError, Global};
use std::test::*;
use test_cases::{Marks, expect_lines};

/// How many tapes there are at once, and how many records each has.
const TAPES: u32 = 16;

const RECORDS: u32 = 120;

/// The bytes of a record: of one length in a hundred and twenty, so that some records are longer than a page.
fn record(alloc: Global, tape: u32, number: u32) -> Result<Vec<u8>, AllocError> {
    let len = (tape % 16 * 31 + number % 120 * 113) as usize;
    let mut bytes = Vec::new(alloc);
    bytes.resize(len, (tape % 16 * 16 + number % 16) as u8)?;
    Ok(bytes)
}

/// Whether bytes are those of one of these records.
fn is_record(alloc: Global, bytes: &[u8], tape: u32, number: u32) -> Result<bool, AllocError> {
    let wanted = record(alloc, tape, number)?;
    Ok(bytes == wanted.as_slice())
}

impl<D: TapeDisk + Drop> Deck<D> {
    /// Opens tapes.
    fn open_all(&mut self, ids: &mut Vec<TapeId>) -> Result<(), TapeError> {
        for _ in 0..TAPES {
            let id = self.open()?;
            ids.push(id).map_err(|_| TapeError::NoMemory)?;
        }
        Ok(())
    }

    /// Appends one of these records to a tape.
    fn append_one(&mut self, id: TapeId, tape: u32, number: u32) -> Result<(), Fail> {
        let bytes = record(self.alloc, tape, number)?;
        let appended = self.append(id, number, (number % 2) as u8, &bytes);
        drop(bytes);
        Ok(appended?)
    }

    /// Appends one record to each of some tapes.
    fn append_round(&mut self, ids: &[TapeId], number: u32) -> Result<(), Fail> {
        let mut tape = 0;
        for id in ids {
            self.append_one(*id, tape, number)?;
            tape = tape.saturating_add(1);
        }
        Ok(())
    }

    /// Whether the next record of a tape is the one that was appended.
    fn is_next(&mut self, id: TapeId, tape: u32, number: u32) -> Result<bool, Fail> {
        let mut bytes = Vec::new(self.alloc);
        let found = self.next(id, &mut bytes);
        let same = is_record(self.alloc, &bytes, tape, number);
        drop(bytes);
        Ok(found? == Some((number, (number % 2) as u8)) && same?)
    }

    /// Reads one record of each of some tapes, and tells how many are not the ones that were appended.
    fn wrong_in_round(&mut self, ids: &[TapeId], number: u32) -> Result<u32, Fail> {
        let mut tape = 0;
        let mut wrong: u32 = 0;
        for id in ids {
            if !self.is_next(*id, tape, number)? {
                wrong = wrong.saturating_add(1);
            }
            tape = tape.saturating_add(1);
        }
        Ok(wrong)
    }

    /// Appends the records of some tapes, and rewinds these.
    fn append_all(&mut self, ids: &[TapeId]) -> Result<(), Fail> {
        for number in 0..RECORDS {
            self.append_round(ids, number)?;
        }
        for id in ids {
            self.rewind(*id)?;
        }
        Ok(())
    }

    /// Whether a tape has one more record.
    fn has_more(&mut self, id: TapeId) -> Result<bool, TapeError> {
        let mut bytes = Vec::new(self.alloc);
        let found = self.next(id, &mut bytes);
        drop(bytes);
        Ok(found?.is_some())
    }

    /// Closes tapes, and tells how many have one more record.
    fn close_all(&mut self, ids: &[TapeId]) -> Result<u32, TapeError> {
        let mut more: u32 = 0;
        for id in ids {
            if self.has_more(*id)? {
                more = more.saturating_add(1);
            }
            self.close(*id);
        }
        Ok(more)
    }

    /// How many records of some tapes come wrong.
    fn wrong_of_ids(&mut self, ids: &[TapeId]) -> Result<u32, Fail> {
        self.append_all(ids)?;
        let mut wrong: u32 = 0;
        for number in 0..RECORDS {
            let more = self.wrong_in_round(ids, number)?;
            wrong = wrong.saturating_add(more);
        }
        let more = self.close_all(ids)?;
        Ok(wrong.saturating_add(more))
    }

    /// How many records of many tapes at once come wrong.
    fn wrong_of_many(&mut self) -> Result<u32, Fail> {
        let mut ids = Vec::new(self.alloc);
        self.open_all(&mut ids)?;
        let wrong = self.wrong_of_ids(&ids);
        drop(ids);
        wrong
    }
}

/// How many pages many tapes have: each as many as its bytes fill, and one more if some are left.
fn pages_of_many() -> u64 {
    let mut pages: u64 = 0;
    for tape in 0..TAPES {
        let mut len: u64 = 0;
        for number in 0..RECORDS {
            len = len.saturating_add(u64::from(9 + tape % 16 * 31 + number % 120 * 113));
        }
        pages = pages.saturating_add(len.div_ceil(8192));
    }
    pages
}

impl Deck<Marks> {
    /// Tells how many records of many tapes come wrong, and whether the disk was written as far as their pages go.
    fn tell_many(&mut self, text: &mut String) -> Result<(), Fail> {
        let wrong = self.wrong_of_many()?;
        let is_end = self.disk.end == pages_of_many().saturating_mul(8192);
        let told = format!(in self.alloc; "{wrong} {is_end};")?;
        Ok(text.push_str(&told)?)
    }

    /// Tells the same, and how many writes there were for each page. Then it tells the same of as many tapes again, on the same pages.
    fn tell_turns(&mut self, text: &mut String) -> Result<(), Fail> {
        self.tell_many(text)?;
        let is_once = self.disk.inner.writes() == pages_of_many();
        let told = format!(in self.alloc; "{is_once};")?;
        text.push_str(&told)?;
        self.tell_many(text)
    }

    /// Tells how far a disk is written by tapes that are closed, nine times: each has a record that is longer than a page.
    fn tell_closed(&mut self, text: &mut String) -> Result<(), Fail> {
        for _ in 0..9 {
            let tape = self.open()?;
            self.append_one(tape, 0, 119)?;
            self.close(tape);
        }
        let told = format!(in self.alloc; "{}", self.disk.end)?;
        Ok(text.push_str(&told)?)
    }
}

/// What is told of new tapes over a disk that keeps how far it was written.
fn told_over_marks(alloc: Global, case: &str) -> Result<String, Fail> {
    let mut deck = Deck::new(alloc, marks(alloc));
    let mut text = String::new(alloc);
    let told = match case {
        "turns" => deck.tell_turns(&mut text),
        _ => deck.tell_closed(&mut text),
    };
    drop(deck);
    told?;
    Ok(text)
}

/// The eight bytes of a disk from a place on.
fn bytes_at(disk: &mut MemDisk, at: u64) -> Result<[u8; 8], DiskError>
    requires { at + 8 < 2 ^ 63 }
{
    let mut bytes = [1; 8];
    disk.read_at(at, &mut bytes)?;
    Ok(bytes)
}

/// Writes at two places of a disk, and reads around each.
fn two_places(disk: &mut MemDisk) -> Result<[[u8; 8]; 2], DiskError> {
    disk.write_at(9_223_372_036_854_775_000, b"end")?;
    disk.write_at(8190, b"abcd")?;
    let first = bytes_at(disk, 8188)?;
    let second = bytes_at(disk, 9_223_372_036_854_774_998)?;
    Ok([first, second])
}

/// What is told of two places of a new disk in memory: whether the bytes around each are right, and how many writes there were.
fn told_of_places(alloc: Global) -> Result<String, Fail> {
    let mut disk = MemDisk::new(alloc);
    let is_right = two_places(&mut disk) == Ok([*b"\0\0abcd\0\0", *b"\0\0end\0\0\0"]);
    let writes = disk.writes();
    drop(disk);
    Ok(format!(in alloc; "{is_right}, {writes} written")?)
}

/// What is told of a case.
fn told(rt: HostRuntime, case: &str) -> Result<String, Fail> {
    match case {
        "places" => told_of_places(rt.alloc()),
        _ => told_over_marks(rt.alloc(), case),
    }
}

/// Many tapes at once, twice: none of their records comes wrong, and both times they have the same pages, each of which is written once.
/// Pages of closed tapes are used again, and what was never written is zero.
const TOLD: &str = "\
turns => 0 true;true;0 true;
closed => 8192
places => true, 2 written";

#[test]
fn tapes_give_what_they_took(rt: HostRuntime) -> Result<(), Fail> {
    expect_lines(rt, TOLD, told)
}
