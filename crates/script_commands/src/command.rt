//! The records of a script that ask for something.

ghost use Rattle.std.specs.Prelude.{◌≡◌, ◌∷◌, [], ◌<◌, drop, length, MatchOption, MatchResult, IfOk, OnErr};
ghost use Rattle.csv.specs.Records.{fields_of};
ghost use Rattle.script_commands.specs.Commands.{command_at, commands_of, owned_by, request_of};
ghost use Rattle.script_commands.specs.Views.{request_view};

use crate::request::{Request, ask, count_owned};
use csv::ByteRecord;
use script_io::Records;
use std::alloc::AllocError;

/// A record that asks for something. The records that belong to it come next.
#[derive(Drop)]
pub struct Command {
    /// The record that asks.
    pub head: ByteRecord,
}

impl Command {
    /// What the command asks.
    pub fn request(&self) -> Request<'_>
        ensures { request_view result ≡ request_of (fields_of self.now.head) }
    {
        ask(&self.head)
    }

    /// How many of the records after it belong to the command: the rows of a `feed`, as many as it states, and none of
    /// any other command.
    pub fn owned(&self) -> usize
        ensures { result ≡ owned_by (fields_of self.now.head) }
    {
        count_owned(&self.head)
    }
}

/// The next command of a script, if there is one. The records that belong to it are not read: whoever answers the
/// command takes them or passes over them, as many as `owned` says, before the next command. The only error is that
/// memory ran out, and after it no more commands come.
pub fn next_command(records: &mut Records<'_>) -> Result<Option<Command>, AllocError>
    ensures found { IfOk result (λ found. MatchOption found (commands_of records.old ≡ [])
        (λ command. commands_of records.old ≡ command_at (fields_of command.head) records.new
        ∷ commands_of (drop (owned_by (fields_of command.head)) records.new))) }
    ensures read { MatchResult result (λ found. MatchOption found
        ((records.old ≡ []) × (records.new ≡ []))
        (λ command. records.old ≡ fields_of command.head ∷ records.new))
        (λ _. records.new ≡ []) }
{
    let Some(head) = records.next()? else {
        return Ok(None);
    };
    Ok(Some(Command { head }))
}
