//! The records of a script, one after the other.

ghost use Rattle.std.specs.Prelude.{◌≡◌, ◌<◌, [], ◌∷◌, get_or, length, drop, MatchBool, MatchOption, MatchResult};
ghost use Rattle.csv.specs.Records.{fields_of};
ghost use Rattle.script_io.specs.Records.{records_of};

use csv::{ByteRecord, Reader, ReaderBuilder};
use std::alloc::{AllocError, Global};
use std::marker::Model;

/// The records of a script that are still to be read: in a clause, the list of them.
///
/// They are read as `csv` reads by default: fields between commas, quotes as in RFC 4180, empty
/// lines skipped, and a byte order mark at the start of the script left out. No record is a header,
/// and the records may differ in how many fields they have.
#[derive(Drop)]
pub struct Records<'a> {
    reader: Reader<&'a [u8]>,
    alloc: Global,
    // No more records are read: there are none, or memory ran out.
    has_ended: bool,
}

impl<'a> Model for Records<'a> {
    ghost use Rattle.std.specs.Prelude.{List};
    ghost use Rattle.script_io.specs.Records.{Record};

    ghost Value = { List Record };

    ghost use Rattle.script_io.specs.Left.{records_left, IsReading};

    ghost view = { records_left };

    ghost invariant = { IsReading };
}

impl<'a> Records<'a> {
    /// All the records of a script.
    pub fn new(alloc: Global, script: &'a [u8]) -> Records<'a>
        ensures { result ≡ records_of script.now }
    {
        let reader = ReaderBuilder::new()
            .has_headers(false)
            .flexible(true)
            .from_reader(alloc, script);
        Records {
            reader,
            alloc,
            has_ended: false,
        }
    }

    /// Reads the next record into `into`, replacing what it held, and tells whether there was one. The only error is that
    /// memory ran out, and after it no more records come. If there was none, the content of `into` is unspecified.
    #[inline(always)]
    pub fn read(&mut self, into: &mut ByteRecord) -> Result<bool, AllocError>
        ensures { MatchResult result (λ found. MatchBool found
            (self.old ≡ fields_of into.new ∷ self.new)
            ((self.old ≡ []) × (self.new ≡ [])))
            (λ _. self.new ≡ []) }
    {
        if self.has_ended {
            return Ok(false);
        }
        let Ok(found) = self.reader.read_byte_record(into) else {
            self.has_ended = true;
            return Err(AllocError);
        };
        self.has_ended = !found;
        Ok(found)
    }

    /// The next record, or `None` if there are no more. The only error is that memory ran out, and
    /// after it no more records come.
    pub fn next(&mut self) -> Result<Option<ByteRecord>, AllocError>
        ensures { MatchResult result (λ found. MatchOption found
            ((self.old ≡ []) × (self.new ≡ []))
            (λ row. self.old ≡ fields_of row ∷ self.new))
            (λ _. self.new ≡ []) }
    {
        let mut record = ByteRecord::new(self.alloc);
        if self.read(&mut record)? {
            Ok(Some(record))
        } else {
            Ok(None)
        }
    }

    /// Skips the next `count` records, or all that are left if they are fewer. One buffer serves for all of them.
    /// The only error is that memory ran out, and after it no more records come.
    pub fn skip(&mut self, count: usize) -> Result<(), AllocError>
        ensures { MatchResult result (λ _. self.new ≡ drop count self.old) (λ _. self.new ≡ []) }
    {
        let mut passed = ByteRecord::new(self.alloc);
        for _ in 0..count {
            if !self.read(&mut passed)? {
                break;
            }
        }
        Ok(())
    }
}

/// The field of a record at a place, the first being 0.
#[tactic(auto, using(crate::proofs::RecordFacts::field_is))]
pub fn field(of: &ByteRecord, place: usize) -> &[u8]
    requires { place < length (fields_of of.now) }
    ensures { result.now ≡ get_or (fields_of of.now) place [] }
{
    of.get(place).unwrap()
}
