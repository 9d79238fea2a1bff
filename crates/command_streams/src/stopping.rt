//! The end of a command that stopped.

ghost use Rattle.std.specs.Prelude.{◌≡◌};
ghost use Rattle.replies.specs.Text.{said_text};
ghost use Rattle.replies.specs.declared.reply.Reply.TheVariants.{Refused};
ghost use Rattle.script_io.specs.Fused.{written};
ghost use Rattle.command_streams.specs.Stopping.{ending_of, RepliesRefused};

use replies::{ExitKind, Refusal, Reply, put_reply, refusal_ending};
use script_io::Fused;
use std::io::Write;

/// How a command ends that a refusal stops. A fault of the spill file counts as one of any other file.
pub fn ending_of(why: Refusal) -> ExitKind
    ensures { result ≡ ending_of why }
{
    match why {
        Refusal::TapeFault => ExitKind::Fault,
        _ => refusal_ending(why),
    }
}

/// Replies that a command was refused, and answers how it ends: by its refusal, or by a fault if the reply could not be written.
pub fn reply_refused<W: Write>(writer: &mut Fused<W>, why: Refusal) -> ExitKind
    ensures { RepliesRefused (said_text (Refused why)) (written W.contents writer.old) (written W.contents writer.new) why result }
{
    match put_reply(writer, &Reply::Refused(why)) {
        Ok(()) => ending_of(why),
        Err(_) => ExitKind::Fault,
    }
}
