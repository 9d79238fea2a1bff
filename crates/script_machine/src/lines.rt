//! The lines of a script.

use csv::ByteRecord;

/// A byte order mark, which a script may begin with.
const BYTE_ORDER_MARK: &[u8] = b"\xEF\xBB\xBF";

/// The lines of a script, counted in one pass from line 1. A line ends at a line feed, at a carriage return, or at both
/// together.
#[derive(Drop)]
pub(crate) struct Lines<'s> {
    script: &'s [u8],
    at: usize,
    line: u64,
    /// Whether the byte before is a carriage return, so that a line feed ends the same line.
    is_behind_return: bool,
}

impl<'s> Lines<'s> {
    /// The first line of a script.
    pub(crate) fn new(script: &'s [u8]) -> Lines<'s> {
        Lines {
            script,
            at: if script.starts_with(BYTE_ORDER_MARK) {
                BYTE_ORDER_MARK.len()
            } else {
                0
            },
            line: 1,
            is_behind_return: false,
        }
    }

    /// The whole script.
    pub(crate) fn script(&self) -> &'s [u8] {
        self.script
    }

    /// Goes past a byte.
    fn pass(&mut self, byte: u8) {
        if byte == b'\r' || byte == b'\n' && !self.is_behind_return {
            self.line = self.line.saturating_add(1);
        }
        self.is_behind_return = byte == b'\r';
        self.at = self.at.saturating_add(1);
    }

    /// The line of the first byte from a place on that ends no line.
    fn line_from(&mut self, place: u64) -> u64 {
        for byte in self.script.get(self.at..).unwrap_or_default() {
            if self.at as u64 >= place && *byte != b'\r' && *byte != b'\n' {
                break;
            }
            self.pass(*byte);
        }
        self.line
    }

    /// The line at which a record begins. Records are asked for in their order. It is 0 if the record was not read from a script.
    pub(crate) fn line_of(&mut self, head: &ByteRecord) -> u64 {
        match head.position() {
            // This is the end of the record before: empty lines, or the second byte of a line end, may come first.
            Some(position) => self.line_from(position.byte()),
            None => 0,
        }
    }
}
