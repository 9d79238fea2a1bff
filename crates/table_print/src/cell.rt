//! How a value is printed.

ghost use Rattle.std.specs.Prelude.{◌≡◌};
ghost use Rattle.agg_protocol.specs.Results.{outcome_of};
ghost use Rattle.table_print.specs.Table.{cell_text};

use agg_protocol::ResultValue;
use itoa::Buffer;

/// A value as it shows, a number in the buffer.
pub(crate) fn cell<'a>(buffer: &'a mut Buffer, value: ResultValue<'a>) -> &'a [u8]
    ensures { result.now ≡ cell_text (outcome_of value.entry) }
{
    match value {
        ResultValue::Null => b"\\N",
        ResultValue::Bigint(number) => buffer.format(number).as_bytes(),
        ResultValue::Numeric(number) => buffer.format(number).as_bytes(),
        ResultValue::Boolean(true) => b"t",
        ResultValue::Boolean(false) => b"f",
        ResultValue::Text(text) => text.as_bytes(),
    }
}
