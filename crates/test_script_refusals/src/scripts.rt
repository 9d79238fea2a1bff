//! Scripts in rooms of more and more bytes, until no command is refused. A room is entered before a script is read, or when one of its
//! replies goes out, and left where a command is refused: of one that wants memory a run is told by what it writes.

use replies::{Outcome, RunError};
use script_io::Fused;
use script_machine::run;
use spill_tapes::MemDisk;
use std::alloc::{AllocError, Global};
use std::io;
use std::io::Write;
use std::test::*;
use test_cases::{Hoard, Room, expect};

/// Commands, each behind a `;` with the records that belong to it. `/` stands for the end of a line.
const FIRST_RUN: &str =
    "columns,\"c text, d bigint\";query,\"select c, count(*), sum(d) from batches group by c\";\
    replica,a;feed,a,0,1,3/oslo,5/bergen,7/oslo,-2;known,a;answer,a";

/// A prefix of five batches meets two batches that came early.
const EARLY_MET: &str =
    "columns,\"c text, d bigint\";query,\"select c, count(*), sum(d) from batches group by c\";\
    replica,a;replica,b;feed,a,0,1,1/oslo,1;feed,a,0,2,1/oslo,2;feed,a,0,3,1/oslo,3;feed,a,0,4,1/oslo,4;\
    feed,a,0,5,1/oslo,5;feed,b,0,6,1/oslo,6;feed,b,0,8,1/oslo,8;merge,a,b;known,a;answer,a";

/// The same, and behind it two replicas are saved alike.
const SAVED_ALIKE: &str =
    "columns,\"c text, d bigint\";query,\"select c, count(*), sum(d) from batches group by c\";\
    replica,a;replica,b;feed,a,0,1,1/oslo,1;feed,a,0,2,1/oslo,2;feed,a,0,3,1/oslo,3;feed,a,0,4,1/oslo,4;\
    feed,a,0,5,1/oslo,5;feed,b,0,6,1/oslo,6;feed,b,0,8,1/oslo,8;merge,a,b;known,a;answer,a;\
    merge,a,a;merge,b,a;save,a,x;save,b,y;load,c,x;answer,c";

/// What a command replies that was refused.
const REFUSED: &[u8] = b"refused NoMemory\n";

/// How many bytes replies may have: a writer has room for them before.
const LONGEST: usize = 4096;

/// How many rooms are tried at most.
const MAX_ROOMS: u32 = 100_000;

/// By how many bytes a room is larger than the one before, if it is entered before the script is read, and else.
const STEP: usize = 16;

const LATER_STEP: usize = 64;

/// Replies as they are written.
#[derive(Drop)]
struct Replies<'r, 'h> {
    written: Vec<u8>,
    lines: usize,
    enter_at: usize,
    room: &'r mut Room<'h>,
}

impl Write for Replies<'_, '_> {
    fn write(&mut self, buf: &[u8]) -> io::Result<usize> {
        self.written.extend_from_slice(buf)?;
        if buf.ends_with(b"\n") {
            self.lines = self.lines.saturating_add(1);
            if self.written.ends_with(REFUSED) {
                self.room.leave();
            } else if self.lines == self.enter_at {
                self.room.enter()?;
            }
        }
        Ok(buf.len())
    }

    fn flush(&mut self) -> io::Result<()> {
        Ok(())
    }
}

/// How a run ended.
#[derive(Clone, Copy, PartialEq, Eq, Debug)]
enum End {
    Answered { refused: u64 },
    WantedMemory,
    Otherwise,
}

/// How a run ended, and what it wrote.
#[derive(Drop)]
struct Ran {
    end: End,
    written: Vec<u8>,
}

/// Runs a script. The room is entered where so many lines were written.
fn run_in(
    alloc: Global,
    script: &str,
    room: &mut Room<'_>,
    enter_at: usize,
) -> Result<Ran, AllocError> {
    let mut replies = Replies {
        written: Vec::with_capacity(alloc, LONGEST)?,
        lines: 0,
        enter_at,
        room,
    };
    let mut disk = MemDisk::new(alloc);
    if enter_at == 0 {
        replies.room.enter()?;
    }
    let mut reader = Fused::new(script.as_bytes());
    let mut writer = Fused::new(&mut replies);
    let ended = run(alloc, &mut reader, &mut writer, &mut disk);
    replies.room.leave();
    drop(disk);
    let end = match ended {
        Ok(Outcome { refused }) => End::Answered { refused },
        Err(RunError::NoMemory) => End::WantedMemory,
        Err(_) => End::Otherwise,
    };
    let Replies { written, .. } = replies;
    Ok(Ran { end, written })
}

/// A script of the first of some commands, but for one.
fn script_of(
    alloc: Global,
    commands: &str,
    count: usize,
    left_out: usize,
) -> Result<String, AllocError> {
    let mut script = String::new(alloc);
    for (place, command) in commands.split(';').take(count).enumerate() {
        if place != left_out {
            script.push_str(command)?;
            script.push('\n')?;
        }
    }
    script.replace(alloc, "/", "\n")
}

/// What such a script writes.
fn written_by(
    alloc: Global,
    commands: &str,
    count: usize,
    left_out: usize,
) -> Result<Vec<u8>, AllocError> {
    let script = script_of(alloc, commands, count, left_out)?;
    let ran = run_in(alloc, &script, &mut Room::Open, 0)?;
    Ok(ran.written)
}

/// What a script writes of which one command is refused, or none where there is no such command. Then how much of it stands in front of
/// that command's reply.
#[derive(Drop)]
struct Wanted {
    whole: Vec<u8>,
    front: usize,
}

impl Wanted {
    fn new(alloc: Global, commands: &str, place: usize) -> Result<Wanted, AllocError> {
        let mut whole = written_by(alloc, commands, place, usize::MAX)?;
        let without = written_by(alloc, commands, usize::MAX, place)?;
        let front = whole.len();
        if front < without.len() || place < commands.split(';').count() {
            whole.extend_from_slice(REFUSED)?;
        }
        whole.extend_from_slice(without.get(front..).unwrap_or(b""))?;
        Ok(Wanted { whole, front })
    }

    /// Whether a run is the one in which that command is refused, or none is.
    fn is_answered(&self, refused: u64, written: &[u8]) -> bool {
        self.whole.as_slice() == written && (refused > 0) == (self.front < self.whole.len())
    }

    /// Whether a run stopped at that command, so that it did not reply to it.
    fn is_stopped(&self, written: &[u8]) -> bool {
        self.front < self.whole.len() && self.whole.get(..self.front) == Some(written)
    }
}

/// What a script may write, by the command that is refused.
fn all_wanted(alloc: Global, commands: &str) -> Result<Vec<Wanted>, AllocError> {
    let mut all = Vec::new(alloc);
    for place in 0..=commands.split(';').count() {
        all.push(Wanted::new(alloc, commands, place)?)?;
    }
    Ok(all)
}

/// What runs met: commands that were refused, runs that stopped, and what is not to be.
#[derive(Clone, Copy, PartialEq, Eq, Debug)]
struct Tally {
    refused: bool,
    stopped: bool,
    wrong: bool,
}

impl Tally {
    /// Counts a run, and tells whether memory ran out.
    fn count(&mut self, all: &[Wanted], ran: &Ran) -> bool {
        match ran.end {
            End::Answered { refused } => {
                self.refused |= refused > 0;
                self.wrong |= !all.iter().any(|it| it.is_answered(refused, &ran.written));
                refused > 0
            }
            End::WantedMemory => {
                self.stopped = true;
                self.wrong |= !all.iter().any(|it| it.is_stopped(&ran.written));
                true
            }
            End::Otherwise => {
                self.wrong = true;
                true
            }
        }
    }
}

/// Runs a script in rooms of more and more bytes, until memory no longer runs out.
fn try_rooms(
    alloc: Global,
    hoard: &mut Hoard,
    script: &str,
    all: &[Wanted],
    enter_at: usize,
    tally: &mut Tally,
) -> Result<(), AllocError> {
    let step = if enter_at == 0 { STEP } else { LATER_STEP };
    for count in 0..MAX_ROOMS {
        let mut room = Room::Small(&mut *hoard, step.saturating_mul(count as usize));
        let ran = run_in(alloc, script, &mut room, enter_at)?;
        if !tally.count(all, &ran) {
            return Ok(());
        }
    }
    tally.wrong = true;
    Ok(())
}

/// What runs of a script meet, where rooms are entered before its commands and when each of its replies goes out.
fn tallied(
    alloc: Global,
    hoard: &mut Hoard,
    commands: &str,
    all: &[Wanted],
) -> Result<Tally, AllocError> {
    let script = script_of(alloc, commands, usize::MAX, usize::MAX)?;
    let mut tally = Tally {
        refused: false,
        stopped: false,
        wrong: false,
    };
    for enter_at in 0..commands.split(';').count() {
        try_rooms(alloc, hoard, &script, all, enter_at, &mut tally)?;
    }
    Ok(tally)
}

/// The same in a process of which all memory is taken. The scripts run before, after which the stack is as large as it has to be: it
/// cannot grow where all addresses are taken.
fn told(rt: HostRuntime, commands: &str) -> Result<String, Fail> {
    let all = all_wanted(rt.alloc(), commands)?;
    let mut hoard = Hoard::new(&rt)?;
    let tally = tallied(rt.alloc(), &mut hoard, commands, &all);
    drop(hoard);
    Ok(format!(in rt.alloc(); "{:?}", tally?)?)
}

/// What is told where each refusal is one of those that the machine allows.
const ALLOWED: &str = "Tally { refused: true, stopped: true, wrong: false }";

#[test]
fn a_first_run_is_refused(rt: HostRuntime) -> Result<(), Fail> {
    expect(told(rt, FIRST_RUN), ALLOWED)
}

#[test]
fn a_prefix_that_meets_early_batches_is_refused(rt: HostRuntime) -> Result<(), Fail> {
    expect(told(rt, EARLY_MET), ALLOWED)
}

#[test]
fn replicas_saved_alike_are_refused(rt: HostRuntime) -> Result<(), Fail> {
    expect(told(rt, SAVED_ALIKE), ALLOWED)
}
