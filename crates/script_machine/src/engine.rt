//! Runs a script.

ghost use Rattle.std.specs.Prelude.{◌≡◌, ◌≤◌, ◌+◌, ℕ, length};
ghost use Rattle.tape_disks.specs.Disk.{DiskFrame};
ghost use Rattle.script_io.specs.Fused.{FailsAsTold, written};
ghost use Rattle.script_commands.specs.Commands.{commands_of};
ghost use Rattle.script_machine.specs.Views.{empty};
ghost use Rattle.script_machine.specs.Executing.{Works};
ghost use Rattle.script_machine.specs.Headline.{Promise, commands_in};
ghost use Rattle.script_machine.specs.Running.{Runs};
ghost use Rattle.script_machine.specs.Output.{tells_write_fault};
ghost use Rattle.script_machine.specs.Streams.{streams};

use crate::lines::Lines;
use crate::session::Session;
use csv::ByteRecord;
use grouping_model::limits::MAX_INPUT_LEN;
use hash_agg::{DEFAULT_SEED, Seed, TapeDisk};
use replies::{Outcome, Refusal, Reply, RunError, put_reply};
use script_commands::{Command, next_command};
use script_io::{Fused, Records, read_input};
use std::alloc::Global;
use std::io::{Read, Write};

/// Gets each refused command, besides its reply. No contract says what it does.
pub trait Observer {
    /// The command of this record was refused. It begins at this line of the script, counted from 1.
    fn refused(&mut self, script: &[u8], line: u64, head: &ByteRecord, why: Refusal);
}

/// Does nothing.
#[derive(Drop)]
struct Unobserved;

impl Observer for Unobserved {
    fn refused(&mut self, _script: &[u8], _line: u64, _head: &ByteRecord, _why: Refusal) {}
}

/// Passes a reply to the observer, if it is a refusal.
fn tell<O: Observer>(
    observer: &mut O,
    lines: &mut Lines<'_>,
    command: &Command,
    reply: &Reply<'_>,
) {
    if let Reply::Refused(why) = reply {
        let line = lines.line_of(&command.head);
        observer.refused(lines.script(), line, &command.head, *why);
    }
}

/// Answers the commands that are left, one after the other, where nothing is there. The next command is read before the one at hand is
/// replied to. So a run that has replied to all commands, if there are any, does not stop for memory.
fn answer_all<W: Write, O: Observer, D: TapeDisk>(
    records: &mut Records<'_>,
    session: &mut Session,
    writer: &mut Fused<W>,
    observer: &mut O,
    lines: &mut Lines<'_>,
    disk: &mut D,
) -> Result<Outcome, RunError>
    requires few { length records.old ≤ MAX_INPUT_LEN + 1 }
    requires none { session.old ≡ empty session.old.seed }
    ensures works { Works D.TapeDisk session.old.seed (commands_of records.old) (written W.contents writer.old)
        (written W.contents writer.new) disk.old disk.new result }
    ensures write_fault { FailsAsTold writer.old writer.new (tells_write_fault result) }
    ensures disk { (faults : ℕ) × DiskFrame D.TapeDisk faults disk.old disk.new }
{
    let mut refused = 0;
    let mut next = next_command(records)?;
    while let Some(command) = next {
        let reply = session.execute(&command, records, disk)?;
        next = next_command(records)?;
        if reply.is_refused() {
            refused += 1;
        }
        tell(observer, lines, &command, &reply);
        put_reply(writer, &reply)?;
    }
    Ok(Outcome { refused })
}

/// Answers the commands of a script, one after the other.
fn run_script<W: Write, O: Observer, D: TapeDisk>(
    alloc: Global,
    script: &[u8],
    writer: &mut Fused<W>,
    observer: &mut O,
    disk: &mut D,
    seed: Seed,
) -> Result<Outcome, RunError>
    requires { length script.now ≤ MAX_INPUT_LEN }
    ensures works { Works D.TapeDisk seed (commands_in script.now) (written W.contents writer.old) (written W.contents writer.new) disk.old
        disk.new result }
    ensures write_fault { FailsAsTold writer.old writer.new (tells_write_fault result) }
    ensures disk { (faults : ℕ) × DiskFrame D.TapeDisk faults disk.old disk.new }
{
    let mut records = Records::new(alloc, script);
    let mut session = Session::new(alloc, seed);
    let mut lines = Lines::new(script);
    let outcome = answer_all(
        &mut records,
        &mut session,
        writer,
        observer,
        &mut lines,
        disk,
    );
    drop(session);
    outcome
}

/// Runs the script that a reader has left, and writes the replies to its commands.
///
/// It reads the whole script before it writes anything, and never takes more than 67,108,865 bytes. A refused command
/// replies so, changes nothing, and the run goes on. Groups beyond the limit are spilled to the disk. The seed of
/// the group tables is fixed.
pub fn run<R: Read, W: Write, D: TapeDisk>(
    alloc: Global,
    reader: &mut Fused<R>,
    writer: &mut Fused<W>,
    disk: &mut D,
) -> Result<Outcome, RunError>
    // The promise: the output is right for the script.
    ensures headline { Promise (D.TapeDisk.honest disk.old) (streams R.remaining W.contents reader.old writer.old writer.new) result }
    // Beside it: what is read, the output to the byte, what holds over any disk, and that faults are reported where they are.
    ensures runs { Runs D.TapeDisk DEFAULT_SEED R.remaining W.contents reader.old reader.new writer.old writer.new disk.old disk.new
        result }
{
    run_observed(alloc, reader, writer, &mut Unobserved, disk, DEFAULT_SEED)
}

/// The same as `run`, with an observer that gets each refused command, in order, and its line in the script. No clause speaks of it. The
/// group tables have this seed: use a random one if others write the script, so that nobody can choose keys that collide. All clauses
/// hold for each seed, and by `runs` the session keeps it.
pub fn run_observed<R: Read, W: Write, O: Observer, D: TapeDisk>(
    alloc: Global,
    reader: &mut Fused<R>,
    writer: &mut Fused<W>,
    observer: &mut O,
    disk: &mut D,
    seed: Seed,
) -> Result<Outcome, RunError>
    ensures headline { Promise (D.TapeDisk.honest disk.old) (streams R.remaining W.contents reader.old writer.old writer.new) result }
    ensures runs { Runs D.TapeDisk seed R.remaining W.contents reader.old reader.new writer.old writer.new disk.old disk.new result }
{
    let script = read_input(alloc, reader, MAX_INPUT_LEN)?;
    run_script(alloc, &script, writer, observer, disk, seed)
}
