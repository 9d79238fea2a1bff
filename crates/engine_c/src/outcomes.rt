//! How calls end, and their results.

ghost use Rattle.std.specs.Prelude.{◌≡◌};
ghost use Rattle.engine.specs.Statuses.{number_told};
ghost use Rattle.engine_c.specs.Exports.{delivery_of, format_by, format_numbered, HandsOut};

use crate::delivery::Delivery;
use engine::{Delivered, Format, Status};

/// What became of a batch, as C has it.
pub(crate) fn delivery(delivered: Delivered) -> Delivery
    ensures { result ≡ delivery_of delivered }
{
    match delivered {
        Delivered::Folded { upto } => Delivery { kind: 0, upto },
        Delivered::Early => Delivery { kind: 1, upto: 0 },
        Delivered::Known => Delivery { kind: 2, upto: 0 },
    }
}

/// The format of a table: CSV, or columns below one another.
pub(crate) fn format_by(aligned: bool) -> Format
    ensures { result ≡ format_by aligned }
{
    if aligned {
        Format::Aligned
    } else {
        Format::Csv
    }
}

/// The format of a number, if there is one.
pub(crate) fn format_numbered(number: u32) -> Option<Format>
    ensures { result ≡ format_numbered number }
{
    match number {
        0 => Some(Format::Csv),
        1 => Some(Format::Aligned),
        2 => Some(Format::Tsv),
        3 => Some(Format::Json),
        _ => None,
    }
}

/// The number of the status that a call ended with.
pub(crate) fn number_of(outcome: Result<(), Status>) -> u32
    ensures { result ≡ number_told outcome }
{
    match outcome {
        Ok(()) => Status::Done.number(),
        Err(status) => status.number(),
    }
}

/// Copies a result to the caller's buffer, if it fits, and gives its length.
pub(crate) fn hand_out(bytes: &[u8], out: &mut [u8], wanted: &mut usize) -> u32
    ensures { HandsOut bytes.now out.old out.new wanted.new result }
{
    *wanted = bytes.len();
    if out.len() < bytes.len() {
        return Status::TooShort.number();
    }
    out[..bytes.len()].copy_from_slice(bytes);
    Status::Done.number()
}
