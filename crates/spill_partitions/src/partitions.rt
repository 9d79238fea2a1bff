//! Partitions on tapes.

ghost use Rattle.std.specs.Prelude.{◌≡◌, ◌≢◌, ◌↔◌, ◌+◌, ◌<◌, ◌≤◌, ◌++◌, [], true, false, length, IsTrue, IfOk, IfErr, OnOk, OnErr};
ghost use Rattle.tape_disks.specs.Calls.{failed};
ghost use Rattle.tape_disks.specs.Disk.{DiskFrame, OnlyReads};
ghost use Rattle.spill_tapes.specs.Tapes.{KeepsOthers, is_open, is_written};
ghost use Rattle.spill_partitions.specs.Partitions.{partition_of, deeper};
ghost use Rattle.spill_partitions.specs.Standing.{IsNew, IsSpilledNumber, Spilled, Opens, AreOpened, EndsPass};
ghost use Rattle.spill_partitions.specs.Standing.{Leaves, BeginsPass, ReadsRecord};
ghost use Rattle.spill_partitions.specs.Standing.{KeepsRest, KeepsOwn, AreApart, AreOpen, Closes, times};
ghost use Rattle.spill_partitions.specs.Standing.{spilled_number, ahead_number, waiting_number, written_pages};
ghost use Rattle.spill_partitions.specs.Errors.{spill_error, spill_faults};
ghost use Rattle.spill_partitions.specs.declared.error.SpillError.TheVariants.{NoMemory, TapeDamaged};
ghost use Rattle.spill_tapes.specs.declared.error.TapeError.TheVariants.{TapesDead};

use crate::error::SpillError;
use spill_tapes::limits::MAX_RECORD_LEN;
use spill_tapes::{TapeDisk, TapeError, TapeId, Tapes};
use std::alloc::Global;
use std::marker::Model;
use std::mem::replace;

/// How many partitions a pass spills to: as many as four bits tell apart.
pub const PARTITIONS: usize = 16;

/// The level from which on all records fall on one partition: a hash has eight digits to base 16.
pub const LAST_LEVEL: u32 = 8;

/// A law: there are 16 partitions, and one from the eighth level on.
pub fn sizes()
    ensures partitions { PARTITIONS ≡ 16 }
    ensures last { LAST_LEVEL ≡ 8 }
{}

/// A partition: its tape, how many records there are on it, and how deep the pass is that is to read them.
#[derive(Clone, Copy)]
struct OnTape {
    tape: TapeId,
    records: u64,
    level: u32,
}

/// The partitions of an aggregation: those to which the pass that runs spills records, the one that it reads, and those that
/// later passes are to read.
#[derive(Drop)]
pub struct SpillPartitions {
    alloc: Global,
    tapes: Tapes,
    level: u32,
    /// The partitions of the pass: none as long as nothing is spilled, and then 16.
    partitions: Vec<OnTape>,
    reading: Option<OnTape>,
    pending: Vec<OnTape>,
}

impl Model for SpillPartitions {
    ghost use Rattle.spill_partitions.specs.Standing.{PartitionsState};
    ghost use Rattle.spill_partitions.specs.Fields.{fields_of, AreFields};

    ghost Value = { PartitionsState };

    ghost view = { fields_of };

    ghost invariant = { AreFields };
}

/// The partition on which a hash falls at a level.
fn partition_of(level: u32, hash: u32) -> usize
    ensures is { result ≡ partition_of level hash }
    ensures within { result < PARTITIONS }
{
    if level < LAST_LEVEL {
        (hash / 16u32.pow(7 - level)) as usize % PARTITIONS
    } else {
        0
    }
}

/// How deep the passes are that follow one.
fn deeper(level: u32) -> u32
    ensures { result ≡ deeper level }
{
    level.min(LAST_LEVEL - 1) + 1
}

/// Why a call of tapes that live was refused.
fn refusal(error: TapeError) -> SpillError
    requires { error ≢ TapesDead }
    ensures { spill_error error ≡ result }
{
    match error {
        TapeError::NoMemory => SpillError::NoMemory,
        TapeError::TapeFault => SpillError::TapeFault,
        TapeError::TapeDamaged => SpillError::TapeDamaged,
        TapeError::TapesDead => unreachable!(),
    }
}

/// Closes the tapes of partitions.
#[tactic(auto, using(crate::proofs::CloseLaws::closing))]
fn close_all<D: TapeDisk>(tapes: &mut Tapes, disk: &D, partitions: &[OnTape])
    requires open { AreOpen tapes.old partitions.now }
    requires apart { AreApart partitions.now }
    ensures { Closes tapes.old tapes.new partitions.now }
{
    let Some((first, rest)) = partitions.split_first() else {
        return;
    };
    tapes.close(disk, first.tape);
    close_all(tapes, disk, rest);
}

impl SpillPartitions {
    /// No partition, at the first level.
    pub fn new<D: TapeDisk>(alloc: Global, _disk: &D) -> SpillPartitions
        ensures { IsNew (D.last _disk.now) result }
    {
        SpillPartitions {
            alloc,
            tapes: Tapes::new(alloc),
            level: 0,
            partitions: Vec::new(alloc),
            reading: None,
            pending: Vec::new(alloc),
        }
    }

    /// Whether the pass has spilled no record.
    pub fn is_empty(&self) -> bool
        ensures { IsTrue result ↔ (self.now.partitions ≡ []) }
    {
        self.partitions.is_empty()
    }

    /// How many records the pass has spilled.
    pub fn spilled<D: TapeDisk>(&self, _disk: &D) -> u128
        ensures { IsSpilledNumber (D.last _disk.now) self.now result }
    {
        let mut number = 0;
        for partition in &self.partitions {
            number += u128::from(partition.records);
        }
        number
    }

    /// Adds a record to those that the pass spills: a hash, a tag, which is 0 or 1, and up to 65,535 bytes. The errors
    /// are `NoMemory` and `TapeFault`.
    pub fn spill<D: TapeDisk>(
        &mut self,
        disk: &mut D,
        hash: u32,
        tag: u8,
        bytes: &[u8],
    ) -> Result<(), SpillError>
        requires alive { self.old.tapes.is_dead ≡ false }
        requires tag { tag < 2 }
        requires len { length bytes.now ≤ MAX_RECORD_LEN }
        ensures spilled { OnOk result (Spilled D.TapeDisk (record { hash = hash; tag = tag; bytes = bytes.now })
            self.old disk.old self.new disk.new) }
        ensures rest { KeepsRest self.old self.new }
        ensures owns { KeepsOwn self.old self.new }
        ensures undamaged { IfErr result (λ error. error ≢ TapeDamaged) }
        ensures disk { DiskFrame D.TapeDisk (failed spill_faults result) disk.old disk.new }
    {
        self.open_partitions(disk)?;
        let place = partition_of(self.level, hash);
        let partition = self.partitions[place];
        let Some(records) = partition.records.checked_add(1) else {
            return Err(SpillError::NoMemory);
        };
        match self.tapes.append(disk, partition.tape, hash, tag, bytes) {
            Ok(()) => {
                self.partitions[place] = OnTape {
                    records,
                    ..partition
                };
                Ok(())
            }
            Err(error) => Err(refusal(error)),
        }
    }

    /// Opens the partitions of the pass, if they are not open: all of them, or none.
    fn open_partitions<D: TapeDisk>(&mut self, disk: &D) -> Result<(), SpillError>
        requires alive { self.old.tapes.is_dead ≡ false }
        ensures opened { OnOk result (AreOpened (D.last disk.now) self.old self.new) }
        ensures alive { self.new.tapes.is_dead ≡ false }
        ensures rest { KeepsRest self.old self.new }
        ensures owns { KeepsOwn self.old self.new }
        ensures refused { IfErr result (λ error. error ≡ NoMemory) }
    {
        if !self.partitions.is_empty() {
            return Ok(());
        }
        let level = deeper(self.level);
        let mut partitions = Vec::with_capacity(self.alloc, PARTITIONS)?;
        for _place in 0..PARTITIONS {
            let Ok(partition) = self.open_partition(disk, level) else {
                close_all(&mut self.tapes, disk, &partitions);
                return Err(SpillError::NoMemory);
            };
            partitions.push(partition)?;
        }
        self.partitions = partitions;
        Ok(())
    }

    /// Opens a partition, which has no record yet.
    fn open_partition<D: TapeDisk>(&mut self, disk: &D, level: u32) -> Result<OnTape, SpillError>
        requires alive { self.old.tapes.is_dead ≡ false }
        ensures opened { IfOk result (Opens (D.last disk.now) self.old.tapes self.new.tapes level) }
        ensures unchanged { OnErr result (self.new.tapes ≡ self.old.tapes) }
        ensures alive { self.new.tapes.is_dead ≡ false }
        ensures partitions { self.new.partitions ≡ self.old.partitions }
        ensures rest { KeepsRest self.old self.new }
        ensures refused { IfErr result (λ error. error ≡ NoMemory) }
    {
        match self.tapes.open(disk) {
            Ok(tape) => Ok(OnTape {
                tape,
                records: 0,
                level,
            }),
            Err(error) => Err(refusal(error)),
        }
    }

    /// Ends the pass: later passes are to read what it spilled, partition by partition. The errors are `NoMemory` and
    /// `TapeFault`.
    pub fn end_pass<D: TapeDisk>(&mut self, disk: &mut D) -> Result<(), SpillError>
        requires alive { self.old.tapes.is_dead ≡ false }
        ensures ended { OnOk result (EndsPass D.TapeDisk self.old disk.old self.new disk.new) }
        ensures reading { self.new.reading ≡ self.old.reading }
        ensures level { self.new.level ≡ self.old.level }
        ensures owns { KeepsOwn self.old self.new }
        ensures undamaged { IfErr result (λ error. error ≢ TapeDamaged) }
        ensures disk { DiskFrame D.TapeDisk (failed spill_faults result) disk.old disk.new }
    {
        let partitions = replace(&mut self.partitions, Vec::new(self.alloc));
        for place in 0..partitions.len() {
            let partition = partitions[place];
            if let Err(error) = self.leave(disk, partition) {
                close_all(&mut self.tapes, disk, &partitions[place..]);
                return Err(error);
            }
        }
        Ok(())
    }

    /// Leaves a partition of the pass to a later one, if it has records. Where it fails its tape stays open.
    fn leave<D: TapeDisk>(&mut self, disk: &mut D, partition: OnTape) -> Result<(), SpillError>
        requires alive { self.old.tapes.is_dead ≡ false }
        requires written { is_written self.old.tapes partition.tape ≡ true }
        requires partitions { self.old.partitions ≡ [] }
        requires apart { times partition.tape.index (self.old.reading ++ self.old.pending) ≡ 0 }
        ensures left { OnOk result (Leaves D.TapeDisk partition self.old disk.old self.new disk.new) }
        ensures refused { OnErr result ((is_open self.new.tapes partition.tape ≡ true) × (self.new.pending ≡ self.old.pending)) }
        ensures others { KeepsOthers (D.last disk.old) (D.last disk.new) self.old.tapes self.new.tapes partition.tape }
        ensures partitions { self.new.partitions ≡ [] }
        ensures reading { self.new.reading ≡ self.old.reading }
        ensures level { self.new.level ≡ self.old.level }
        ensures undamaged { IfErr result (λ error. error ≢ TapeDamaged) }
        ensures disk { DiskFrame D.TapeDisk (failed spill_faults result) disk.old disk.new }
    {
        let OnTape { tape, .. } = partition;
        self.tapes.bytes_written(disk, tape);
        if partition.records == 0 {
            self.tapes.close(disk, tape);
            return Ok(());
        }
        self.pending.reserve(1)?;
        match self.tapes.rewind(disk, tape) {
            Ok(()) => {
                self.pending.push(partition)?;
                Ok(())
            }
            Err(error) => Err(refusal(error)),
        }
    }

    /// Begins the pass over the last partition that is to be read, if there is one; else nothing is changed.
    pub fn begin_pass<D: TapeDisk>(&mut self, _disk: &D) -> bool
        requires partitions { self.old.partitions ≡ [] }
        requires reading { self.old.reading ≡ [] }
        ensures begins { result ≡ true → BeginsPass (D.last _disk.now) self.old self.new }
        ensures some { result ≡ true → 0 < ahead_number self.new }
        ensures counted { waiting_number self.old ≡ waiting_number self.new + ahead_number self.new }
        ensures none { result ≡ false → self.old.pending ≡ [] }
        ensures unchanged { result ≡ false → self.new ≡ self.old }
        ensures partitions { self.new.partitions ≡ [] }
        ensures alive { self.new.tapes.is_dead ≡ self.old.tapes.is_dead }
        ensures owns { KeepsOwn self.old self.new }
    {
        match self.pending.pop() {
            Some(partition) => {
                self.level = partition.level;
                self.reading = Some(partition);
                true
            }
            None => false,
        }
    }

    /// Reads the next record of the partition that the pass reads, if there is one. It returns the record's hash and tag, and puts its
    /// bytes in place of those in `bytes`. Without a record or after an error, `bytes` is empty. The errors are `NoMemory`, `TapeFault` and
    /// `TapeDamaged`.
    pub fn next<D: TapeDisk>(
        &mut self,
        disk: &mut D,
        bytes: &mut Vec<u8>,
    ) -> Result<Option<(u32, u8)>, SpillError>
        requires alive { self.old.tapes.is_dead ≡ false }
        ensures reads { ReadsRecord D.TapeDisk self.old disk.old result self.new disk.new bytes.new.items }
        ensures partitions { self.new.partitions ≡ self.old.partitions }
        ensures paged { written_pages self.new ≡ written_pages self.old }
        ensures pending { self.new.pending ≡ self.old.pending }
        ensures level { self.new.level ≡ self.old.level }
        ensures owns { KeepsOwn self.old self.new }
        ensures disk { OnlyReads D.TapeDisk (failed spill_faults result) disk.old disk.new }
    {
        bytes.clear();
        let Some(partition) = self.reading else {
            return Ok(None);
        };
        let Some(records) = partition.records.checked_sub(1) else {
            self.tapes.close(disk, partition.tape);
            self.reading = None;
            return Ok(None);
        };
        match self.tapes.next(disk, partition.tape, bytes) {
            Ok(Some(found)) => {
                self.reading = Some(OnTape {
                    records,
                    ..partition
                });
                Ok(Some(found))
            }
            Ok(None) => Err(SpillError::TapeDamaged),
            Err(error) => Err(refusal(error)),
        }
    }
}
