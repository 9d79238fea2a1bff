//! Partitions that passes spill, and read again.
ghost use Rattle.std.specs.Prelude.{◌≡◌, [], false, OnOk};

use crate::calls::marks;
use spill_partitions::{SpillError, SpillPartitions};
use spill_tapes::{FlipDisk, MemDisk, TapeDisk};
use std::alloc::Global;
use std::test::*;
use test_cases::{Marks, expect_lines, failing, halves};

/// Partitions, the disk that they lie on, and the bytes of the record that was read last.
#[derive(Drop)]
struct Spool<D: TapeDisk + Drop> {
    alloc: Global,
    partitions: SpillPartitions,
    disk: D,
    bytes: Vec<u8>,
}

impl<D: TapeDisk + Drop> Spool<D> {
    /// New partitions over a disk.
    fn new(alloc: Global, disk: D) -> Spool<D>
        ensures alive { result.partitions.tapes.is_dead ≡ false }
        ensures partitions { result.partitions.partitions ≡ [] }
        ensures reading { result.partitions.reading ≡ [] }
    {
        Spool {
            alloc,
            partitions: SpillPartitions::new(alloc, &disk),
            disk,
            bytes: Vec::new(alloc),
        }
    }

    /// Spills a record: its hash, its tag and its bytes.
    fn spill(&mut self, hash: u32, tag: u8, bytes: &[u8]) -> Result<(), Fail>
        requires alive { self.old.partitions.tapes.is_dead ≡ false }
        ensures alive { OnOk result (self.new.partitions.tapes.is_dead ≡ false) }
        ensures reading { self.new.partitions.reading ≡ self.old.partitions.reading }
    {
        if tag > 1 || bytes.len() > 65535 {
            return Err(Fail::from("no record"));
        }
        self.partitions.spill(&mut self.disk, hash, tag, bytes)?;
        Ok(())
    }

    /// Spills records.
    fn spill_all(&mut self, records: &[(u32, u8, &[u8])]) -> Result<(), Fail>
        requires alive { self.old.partitions.tapes.is_dead ≡ false }
        ensures alive { OnOk result (self.new.partitions.tapes.is_dead ≡ false) }
        ensures reading { self.new.partitions.reading ≡ self.old.partitions.reading }
    {
        for (hash, tag, bytes) in records {
            self.spill(*hash, *tag, bytes)?;
        }
        Ok(())
    }
}

/// Tells a record.
fn tell_record(
    alloc: Global,
    hash: u32,
    tag: u8,
    bytes: &[u8],
    text: &mut String,
) -> Result<(), Fail> {
    let shown = str::from_utf8(bytes)?;
    let told = format!(in alloc; " {hash:x}/{tag}/{shown}")?;
    Ok(text.push_str(&told)?)
}

impl<D: TapeDisk + Drop> Spool<D> {
    /// Tells the records that the pass has to read.
    fn tell_partition(&mut self, text: &mut String) -> Result<(), Fail>
        requires alive { self.old.partitions.tapes.is_dead ≡ false }
        ensures alive { OnOk result (self.new.partitions.tapes.is_dead ≡ false) }
        ensures partitions { self.new.partitions.partitions ≡ self.old.partitions.partitions }
        ensures reading { OnOk result (self.new.partitions.reading ≡ []) }
        ensures pending { self.new.partitions.pending ≡ self.old.partitions.pending }
    {
        while let Some((hash, tag)) = self.partitions.next(&mut self.disk, &mut self.bytes)? {
            tell_record(self.alloc, hash, tag, &self.bytes, text)?;
        }
        Ok(())
    }

    /// Tells the records of each partition that was left, the last partition first.
    fn tell_partitions(&mut self, text: &mut String) -> Result<(), Fail>
        requires alive { self.old.partitions.tapes.is_dead ≡ false }
        requires partitions { self.old.partitions.partitions ≡ [] }
        requires reading { self.old.partitions.reading ≡ [] }
    {
        while self.partitions.begin_pass(&self.disk) {
            text.push('[')?;
            self.tell_partition(text)?;
            text.push_str(" ]")?;
        }
        Ok(())
    }

    /// Tells records once a pass has spilled them.
    fn tell_spilled(&mut self, records: &[(u32, u8, &[u8])], text: &mut String) -> Result<(), Fail>
        requires alive { self.old.partitions.tapes.is_dead ≡ false }
        requires reading { self.old.partitions.reading ≡ [] }
    {
        self.spill_all(records)?;
        self.partitions.end_pass(&mut self.disk)?;
        self.tell_partitions(text)
    }
}

/// Tells how many writes there were.
fn tell_writes(alloc: Global, writes: u64, text: &mut String) -> Result<(), Fail> {
    let told = format!(in alloc; " {writes} written")?;
    Ok(text.push_str(&told)?)
}

/// Records on three partitions: their hashes, tags and bytes.
const RECORDS: [(u32, u8, &[u8]); 7] = [
    (0x1000_0000, 0, b"a"),
    (0xf000_0001, 1, b"b"),
    (0x1fff_ffff, 1, b""),
    (0, 0, b"c"),
    (0xf000_0001, 0, b"d"),
    (0x0abc_def0, 0, b"e"),
    (0x1000_0000, 0, b"a"),
];

impl Spool<Marks> {
    /// Tells the records that a pass has spilled, and how many writes there were.
    fn tell_written(&mut self, records: &[(u32, u8, &[u8])], text: &mut String) -> Result<(), Fail>
        requires alive { self.old.partitions.tapes.is_dead ≡ false }
        requires reading { self.old.partitions.reading ≡ [] }
    {
        self.tell_spilled(records, text)?;
        tell_writes(self.alloc, self.disk.inner.writes(), text)
    }
}

/// What is told of records over a disk in memory.
fn told_over_marks(alloc: Global, records: &[(u32, u8, &[u8])]) -> Result<String, Fail> {
    let mut spool = Spool::new(alloc, marks(alloc));
    let mut text = String::new(alloc);
    let told = spool.tell_written(records, &mut text);
    drop(spool);
    told?;
    Ok(text)
}

/// Tells whether a record is spilled over a disk that fails to write, and why it or the end of the pass is refused.
fn write_fault(alloc: Global, bytes: &[u8]) -> Result<String, Fail> {
    if bytes.len() > 65535 {
        return Err(Fail::from("no record"));
    }
    let mut disk = failing(alloc, 0);
    let mut partitions = SpillPartitions::new(alloc, &disk);
    let spilled = partitions.spill(&mut disk, 7, 0, bytes);
    let refused = match spilled {
        Ok(()) => partitions.end_pass(&mut disk),
        Err(error) => Err(error),
    };
    drop(partitions);
    Ok(format!(in alloc; "{spilled:?} {refused:?}")?)
}

type Found = Result<Option<(u32, u8)>, SpillError>;

impl<D: TapeDisk + Drop> Spool<D> {
    /// What becomes of the one record of a partition that is read again.
    fn read_again(&mut self) -> Result<Found, Fail>
        requires alive { self.old.partitions.tapes.is_dead ≡ false }
        requires reading { self.old.partitions.reading ≡ [] }
    {
        self.spill(7, 0, b"ab")?;
        self.partitions.end_pass(&mut self.disk)?;
        if !self.partitions.begin_pass(&self.disk) {
            return Err(Fail::from("there is no partition"));
        }
        Ok(self.partitions.next(&mut self.disk, &mut self.bytes))
    }
}

/// What becomes of the one record of a partition that is read again over a disk.
fn read_over<D: TapeDisk + Drop>(alloc: Global, disk: D) -> Result<String, Fail> {
    let mut spool = Spool::new(alloc, disk);
    let found = spool.read_again();
    drop(spool);
    Ok(format!(in alloc; "{:?}", found?)?)
}

/// The same over a disk that flips bits of one byte: `PLACE BITS`.
fn read_flipped(alloc: Global, flip: &str) -> Result<String, Fail> {
    let (place, bits) = halves(flip, " ")?;
    let (place, bits) = (place.parse::<u64>()?, bits.parse::<u8>()?);
    if place >= 8192 || bits == 0 {
        return Err(Fail::from("no byte of a page, or no bits"));
    }
    read_over(alloc, FlipDisk::new(MemDisk::new(alloc), place, bits))
}

/// The messages of all errors.
fn all_messages(alloc: Global) -> Result<String, Fail> {
    use SpillError::{NoMemory, TapeDamaged, TapeFault};
    Ok(format!(in alloc; "{NoMemory}, {TapeFault}, {TapeDamaged}")?)
}

/// What is told of a case.
fn told(rt: HostRuntime, case: &str) -> Result<String, Fail> {
    let alloc = rt.alloc();
    match case {
        "write fault" => write_fault(alloc, b"ab"),
        "write fault of a full page" => write_fault(alloc, &[b'x'; 9000]),
        "read fault" => read_over(alloc, failing(alloc, 1)),
        "messages" => all_messages(alloc),
        "records" => told_over_marks(alloc, &RECORDS),
        "no records" => told_over_marks(alloc, &[]),
        _ => read_flipped(alloc, case),
    }
}

/// Records fall on partitions by the first digit of their hashes; without records there is no partition. The last partition comes first.
/// Faults are told, and damage: a tag that is none, another length, and bytes behind the last record. Another hash, tag or byte of a
/// record may be those of one. What many passes spill is tested where rows are aggregated.
const TOLD: &str = "\
records => [ f0000001/1/b f0000001/0/d ][ 10000000/0/a 1fffffff/1/ 10000000/0/a ][ 0/0/c abcdef0/0/e ] 3 written
no records =>  0 written
write fault => Ok(()) Err(TapeFault)
write fault of a full page => Err(TapeFault) Err(TapeFault)
read fault => Err(TapeFault)
3 1 => Ok(Some((6, 0)))
4 1 => Ok(Some((7, 1)))
4 4 => Err(TapeDamaged)
5 1 => Err(TapeDamaged)
8 2 => Err(TapeDamaged)
8 1 => Err(TapeDamaged)
9 1 => Ok(Some((7, 0)))
messages => out of memory, the tape disk failed, the tape is damaged
";

#[test]
fn partitions_give_what_they_took_or_fail(rt: HostRuntime) -> Result<(), Fail> {
    expect_lines(rt, TOLD, told)
}
