//! The records of a plain CSV, one after the other.

ghost use Rattle.std.specs.Prelude.{◌≡◌, [], ◌∷◌, MatchBool, MatchResult};
ghost use Rattle.csv.specs.Records.{fields_of};
ghost use Rattle.plain_batches.specs.Plain.{plain_records};

use csv::{ByteRecord, Reader, ReaderBuilder};
use std::alloc::{AllocError, Global};
use std::marker::Model;

/// The records of a plain CSV that are still to be read: in a clause, the list of them.
///
/// They are read as `csv` reads by default, but for the byte between two fields.
#[derive(Drop)]
pub(crate) struct PlainRecords<'a> {
    reader: Reader<&'a [u8]>,
    // No more records are read: there are none, or memory ran out.
    has_ended: bool,
}

impl<'a> Model for PlainRecords<'a> {
    ghost use Rattle.std.specs.Prelude.{List};
    ghost use Rattle.script_io.specs.Records.{Record};

    ghost Value = { List Record };

    ghost use Rattle.plain_batches.specs.Left.{records_left, IsReading};

    ghost view = { records_left };

    ghost invariant = { IsReading };
}

impl<'a> PlainRecords<'a> {
    /// All the records of a plain CSV.
    pub(crate) fn new(alloc: Global, delimiter: u8, csv: &'a [u8]) -> PlainRecords<'a>
        ensures { result ≡ plain_records delimiter csv.now }
    {
        let reader = ReaderBuilder::new()
            .has_headers(false)
            .flexible(true)
            .delimiter(delimiter)
            .from_reader(alloc, csv);
        PlainRecords {
            reader,
            has_ended: false,
        }
    }

    /// Reads the next record into `into`, replacing what it held, and tells whether there was one. The only error is that
    /// memory ran out, and after it no more records come. If there was none, the content of `into` is unspecified.
    pub(crate) fn read(&mut self, into: &mut ByteRecord) -> Result<bool, AllocError>
        ensures { MatchResult result (λ found. MatchBool found
            (self.old ≡ fields_of into.new ∷ self.new)
            ((self.old ≡ []) × (self.new ≡ [])))
            (λ _. self.new ≡ []) }
    {
        if self.has_ended {
            return Ok(false);
        }
        let Ok(found) = self.reader.read_byte_record(into) else {
            self.has_ended = true;
            return Err(AllocError);
        };
        self.has_ended = !found;
        Ok(found)
    }
}
