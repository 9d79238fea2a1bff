//! Groups that a limit has spilled, to disks some of which fail.

use hash_agg::{MemDisk, TapeDisk};
use replies::{Outcome, RunError};
use script_io::Fused;
use script_machine::run;
use spill_tapes::{FailDisk, FileDisk};
use std::alloc::{AllocError, Global};
use std::test::*;
use std::{fs, process};
use test_cases::{cut, expect, expect_told, expect_told_lines, failing, flipping};

/// Appends a row of each of so many towns, `k0000` and on.
pub(crate) fn push_rows(alloc: Global, rows: &mut String, towns: u32) -> Result<(), AllocError> {
    for town in 0..towns {
        let row = format!(in alloc; "k{town:04},{town}\n")?;
        rows.push_str(&row)?;
    }
    Ok(())
}

/// Appends a command, and behind a `feed` rows.
fn push_command(script: &mut String, command: &str, rows: &str) -> Result<(), AllocError> {
    script.push_str(command)?;
    script.push('\n')?;
    if command.starts_with("feed,") {
        return script.push_str(rows);
    }
    Ok(())
}

/// Appends commands, with a `;` between them. Behind each `feed` come rows.
fn push_commands(script: &mut String, commands: &str, rows: &str) -> Result<(), AllocError> {
    for command in commands.split(';') {
        push_command(script, command, rows)?;
    }
    Ok(())
}

/// A script of commands, with a `;` between them. Behind each `feed` comes a row of each of so many towns.
pub(crate) fn script(alloc: Global, commands: &str, towns: u32) -> Result<String, AllocError> {
    let mut rows = String::new(alloc);
    push_rows(alloc, &mut rows, towns)?;
    let mut script = String::new(alloc);
    push_commands(&mut script, commands, &rows)?;
    Ok(script)
}

/// The commands in front of those of a table: two replicas know batches of 385 towns, one more than a table of 65,536 bytes holds,
/// and the query shows one of them.
const HEAD: &str = "columns,\"c text, d bigint\";\
    query,\"select c, count(*), sum(d) from batches group by c having c = 'k0384'\";\
    replica,a;replica,b;feed,a,0,1,385;feed,a,1,1,385;feed,b,0,2,385;limit,65536;";

/// Runs a script over a disk, and answers how many of its commands are refused.
fn run_over<D: TapeDisk>(
    alloc: Global,
    script: &str,
    disk: &mut D,
    replies: &mut Vec<u8>,
) -> Result<u64, RunError> {
    let mut reader = Fused::new(script.as_bytes());
    match run(alloc, &mut reader, &mut Fused::new(replies), disk) {
        Ok(Outcome { refused }) => Ok(refused),
        Err(error) => Err(error),
    }
}

/// The replies to a script over a disk, on one line, behind how many are refused.
fn replies_over<D: TapeDisk>(
    alloc: Global,
    script: &str,
    disk: &mut D,
) -> Result<String, RunError> {
    let mut replies = Vec::new(alloc);
    let refused = run_over(alloc, script, disk, &mut replies)?;
    let replies = str::from_utf8(&replies).unwrap_or("not UTF-8");
    let replies = replies.replace(alloc, "\n", "/")?;
    Ok(format!(in alloc; "{refused} {replies}")?)
}

/// The same over a disk of which the first write or the first read fails. Where it is called by another name, it flips a bit.
fn replies_over_faulty(alloc: Global, script: &str, fault: &str) -> Result<String, RunError> {
    match fault {
        "write" => replies_over(alloc, script, &mut failing(alloc, 0)),
        "read" => replies_over(alloc, script, &mut failing(alloc, 1)),
        _ => replies_over(alloc, script, &mut flipping(alloc)),
    }
}

/// The replies to commands behind the head over a disk with a fault, on one line, with how many are refused.
fn told(alloc: Global, case: &str) -> Result<String, RunError> {
    let (fault, commands) = cut(case, ": ");
    let commands = format!(in alloc; "{HEAD}{commands}")?;
    let script = script(alloc, &commands, 385)?;
    let told = replies_over_faulty(alloc, &script, fault)?;
    let (refused, _) = cut(&told, " ");
    let (_, replies) = cut(&told, "limit 65536/");
    let replies = replies.strip_suffix('/').unwrap_or("no end");
    Ok(format!(in alloc; "{refused} {replies}")?)
}

/// What is wrong with a disk, commands over it, and their replies. A command that is refused can be told again, and the others go on. An
/// answer calls no disk.
const FAULTS: &str = "\
write: answer,a;merge,a,b;known,a => 1 answer 1/c,count,sum/k0384,2,768/refused TapeFault/known 2/origin 0 upto 1/origin 1 upto 1
write: merge,a,b;known,a;merge,a,b;answer,a => 1 refused TapeFault/known 2/origin 0 upto 1/origin 1 upto 1/merged/answer \
    1/c,count,sum/k0384,3,1152
write: feed,b,0,1,385;known,b;feed,b,0,1,385;answer,b => 1 refused TapeFault/known 1/origin 0 upto 0 early 2/folded upto 2/answer \
    1/c,count,sum/k0384,2,768
read: answer,a;merge,a,b;known,a => 1 answer 1/c,count,sum/k0384,2,768/refused TapeFault/known 2/origin 0 upto 1/origin 1 upto 1
read: merge,a,b;known,a;merge,a,b;answer,a => 1 refused TapeFault/known 2/origin 0 upto 1/origin 1 upto 1/merged/answer \
    1/c,count,sum/k0384,3,1152
read: feed,b,0,1,385;known,b;feed,b,0,1,385;answer,b => 1 refused TapeFault/known 1/origin 0 upto 0 early 2/folded upto 2/answer \
    1/c,count,sum/k0384,2,768
flip: answer,a;merge,a,b;answer,a => 1 answer 1/c,count,sum/k0384,2,768/refused TapeDamaged/answer 1/c,count,sum/k0384,2,768
flip: merge,a,b;known,a;merge,a,b;limit,90128;merge,a,b;answer,a => \
    2 refused TapeDamaged/known 2/origin 0 upto 1/origin 1 upto 1/refused TapeDamaged/limit 90128/merged/answer 1/c,count,sum/k0384,3,1152
flip: feed,b,0,1,385;known,b;limit,90128;feed,b,0,1,385;answer,b => \
    1 refused TapeDamaged/known 1/origin 0 upto 0 early 2/limit 90128/folded upto 2/answer 1/c,count,sum/k0384,2,768";

#[test]
fn faults_of_disks_are_told(rt: HostRuntime) -> Result<(), Fail> {
    expect_told_lines(rt, FAULTS, told)
}

/// A run over a disk of which a call fails: whether that call was made, how many commands were refused, and the replies.
#[derive(Drop)]
struct Failing {
    failed: bool,
    refused: u64,
    replies: Vec<u8>,
}

/// Runs a script over a disk of which the call with this number fails.
fn run_failing<D: TapeDisk + Drop>(
    alloc: Global,
    script: &str,
    disk: D,
    call: u64,
) -> Result<Failing, RunError> {
    let mut disk = FailDisk::new(disk, call);
    let mut replies = Vec::new(alloc);
    let refused = run_over(alloc, script, &mut disk, &mut replies)?;
    Ok(Failing {
        failed: disk.failed(),
        refused,
        replies,
    })
}

/// How many of the lines of a text are this one.
fn lines_that_are(text: &str, line: &str) -> usize {
    text.lines().filter(|found| *found == line).count()
}

/// What is wrong with the replies to the script where a call fails, if that was made. Just one command must be refused, for that. The first
/// batch must be known when it is fed again, or else taken. An answer must have the group of one batch or of two.
fn fault_of(run: &Failing, plain: &str) -> Option<&'static str> {
    let text = str::from_utf8(&run.replies).unwrap_or("not UTF-8");
    if !run.failed {
        return (text != plain || run.refused != 0).then_some("a whole disk");
    }
    let faults = lines_that_are(text, "refused TapeFault");
    if faults != 1 || run.refused != 1 {
        return Some("not one refusal");
    }
    let fed = text.split_once("limit 65536\n")?.1;
    let is_fed = fed.starts_with("folded upto 1\nknown\n")
        || fed.starts_with("refused TapeFault\nfolded upto 1\n");
    let is_answered = lines_that_are(text, "k0384,2,768") > 0
        || lines_that_are(text, "k0384,1,384") > 0;
    (!is_fed || !is_answered).then_some("another reply")
}

/// The replies to a script over a disk in memory.
fn plain_replies(alloc: Global, script: &str) -> Result<Vec<u8>, RunError> {
    let mut plain = Vec::new(alloc);
    run_over(alloc, script, &mut MemDisk::new(alloc), &mut plain)?;
    Ok(plain)
}

/// What ends the way through the calls of disks: what is wrong with the run of which this call fails, or that it wasn't reached,
/// and whether there were more than ten before.
fn end_at(
    alloc: Global,
    run: &Failing,
    plain: &[u8],
    call: u64,
) -> Result<Option<String>, RunError> {
    let plain = str::from_utf8(plain).unwrap_or("not UTF-8");
    if let Some(fault) = fault_of(run, plain) {
        return Ok(Some(format!(in alloc; "call {call}: {fault}")?));
    }
    if run.failed {
        return Ok(None);
    }
    Ok(Some(format!(in alloc; "more than 10: {}", call > 10)?))
}

/// Goes through the calls of disks in memory, each failing in a run of its own, until none is reached.
fn each_call_fails(alloc: Global, script: &str) -> Result<String, RunError> {
    let plain = plain_replies(alloc, script)?;
    for call in 0..1000 {
        let run = run_failing(alloc, script, MemDisk::new(alloc), call)?;
        if let Some(end) = end_at(alloc, &run, &plain, call)? {
            return Ok(end);
        }
    }
    Ok(format!(in alloc; "calls without end")?)
}

/// A run over a disk in a new file, of which a call fails.
fn run_failing_file(rt: HostRuntime, script: &str, path: &str, call: u64) -> Result<Failing, Fail> {
    let Ok(disk) = FileDisk::create(&rt, path) else {
        return Err(Fail::from("no file"));
    };
    let run = run_failing(rt.alloc(), script, disk, call);
    fs::remove_file(&rt, path)?;
    Ok(run?)
}

/// The same over disks in files.
fn each_call_of_files_fails(rt: HostRuntime, script: &str, path: &str) -> Result<String, Fail> {
    let plain = plain_replies(rt.alloc(), script)?;
    for call in 0..1000 {
        let run = run_failing_file(rt, script, path, call)?;
        if let Some(end) = end_at(rt.alloc(), &run, &plain, call)? {
            return Ok(end);
        }
    }
    Err(Fail::from("calls without end"))
}

/// The commands in front of those whose disks fail.
const ONE: &str = "columns,\"c text, d bigint\";\
    query,\"select c, count(*), sum(d) from batches group by c having c = 'k0384'\";replica,a;limit,65536;";

/// A script of commands behind these, each `feed` being of so many towns.
fn script_of(alloc: Global, commands: &str, towns: u32) -> Result<String, AllocError> {
    let commands = format!(in alloc; "{ONE}{commands}")?;
    script(alloc, &commands, towns)
}

/// Goes through the calls of disks in memory over such a script.
fn each_call_of(alloc: Global, commands: &str, towns: u32) -> Result<String, RunError> {
    let script = script_of(alloc, commands, towns)?;
    each_call_fails(alloc, &script)
}

#[test]
fn each_call_of_a_batch_may_fail(rt: HostRuntime) -> Result<(), Fail> {
    let commands = "feed,a,0,1,1000;feed,a,0,1,1000;answer,a;answer,a";
    expect_told(
        each_call_of(rt.alloc(), commands, 1000),
        "more than 10: true",
    )
}

#[test]
fn each_call_of_a_merge_may_fail(rt: HostRuntime) -> Result<(), Fail> {
    let commands =
        "feed,a,0,1,1000;feed,a,0,1,1000;replica,b;feed,b,0,2,1000;merge,a,b;merge,a,b;answer,a;answer,a";
    expect_told(
        each_call_of(rt.alloc(), commands, 1000),
        "more than 10: true",
    )
}

#[test]
fn each_call_of_a_file_may_fail(rt: HostRuntime) -> Result<(), Fail> {
    let commands = "feed,a,0,1,1000;feed,a,0,1,1000;feed,a,1,1,1000;answer,a;answer,a";
    let script = script_of(rt.alloc(), commands, 1000)?;
    let process = process::id(rt.process());
    let path = format!(in rt.alloc(); "/tmp/agg_tool_failing_tapes_{process}")?;
    expect(
        each_call_of_files_fails(rt, &script, &path),
        "more than 10: true",
    )
}
