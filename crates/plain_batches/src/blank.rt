//! Blank lines of a plain CSV.

ghost use Rattle.std.specs.Prelude.{◌≡◌, ◌≤◌, length};
ghost use Rattle.csv.specs.Machine.{in_field, start_field};
ghost use Rattle.csv.specs.Reading.{strip_bom};
ghost use Rattle.plain_batches.specs.Blank.{blank_lines, is_blank, state_after};
ghost use Rattle.plain_batches.specs.Plain.{config_of};
ghost use Rattle.plain_batches.specs.Standing.{state_of};

/// Where a scan of lines stands.
#[derive(Clone, Copy)]
enum Standing {
    /// Where a record would begin.
    AtRecord,
    /// Where a further field begins.
    AtField,
    /// In a field without quotes.
    InField,
    /// Between quotes.
    InQuotes,
    /// Behind a quote that ends a field, or is the first of two.
    BehindQuote,
    /// Behind a carriage return that ended a line.
    BehindReturn,
}

impl Standing {
    /// After a byte of a field that is not in quotes.
    fn in_field(delimiter: u8, byte: u8) -> Standing
        ensures { state_of result ≡ (in_field (config_of delimiter) byte).0 }
    {
        if byte == delimiter {
            Standing::AtField
        } else if byte == b'\r' {
            Standing::BehindReturn
        } else if byte == b'\n' {
            Standing::AtRecord
        } else {
            Standing::InField
        }
    }

    /// After the first byte of a field.
    fn at_field(delimiter: u8, byte: u8) -> Standing
        ensures { state_of result ≡ (start_field (config_of delimiter) byte).0 }
    {
        if byte == b'"' {
            Standing::InQuotes
        } else {
            Standing::in_field(delimiter, byte)
        }
    }

    /// Whether a byte here ends a blank line.
    fn is_blank(self, byte: u8) -> bool
        ensures { result ≡ is_blank (state_of self) byte }
    {
        match self {
            Standing::AtRecord => byte == b'\r' || byte == b'\n',
            Standing::BehindReturn => byte == b'\r',
            Standing::AtField | Standing::InField | Standing::InQuotes | Standing::BehindQuote =>
                false,
        }
    }

    /// After the byte here, where a record would begin.
    fn at_record(delimiter: u8, byte: u8) -> Standing
        ensures at_record { state_of result ≡ state_after delimiter (state_of Standing.AtRecord) byte }
        ensures behind_return { state_of result ≡ state_after delimiter (state_of Standing.BehindReturn) byte }
    {
        if byte == b'\r' {
            Standing::BehindReturn
        } else if byte == b'\n' {
            Standing::AtRecord
        } else {
            Standing::at_field(delimiter, byte)
        }
    }

    /// After the byte here.
    fn after(self, delimiter: u8, byte: u8) -> Standing
        ensures { state_of result ≡ state_after delimiter (state_of self) byte }
    {
        match self {
            Standing::AtRecord | Standing::BehindReturn => Standing::at_record(delimiter, byte),
            Standing::AtField => Standing::at_field(delimiter, byte),
            Standing::InField => Standing::in_field(delimiter, byte),
            Standing::InQuotes if byte == b'"' => Standing::BehindQuote,
            Standing::BehindQuote if byte != b'"' => Standing::in_field(delimiter, byte),
            Standing::InQuotes | Standing::BehindQuote => Standing::InQuotes,
        }
    }
}

/// The blank lines of a plain CSV, of which `csv` reads no record.
#[derive(Clone, Copy, Debug, PartialEq, Eq)]
pub struct BlankLines {
    /// How many there are.
    pub count: usize,
    /// The place of the byte that ends the first, counted from 0.
    pub first: Option<usize>,
}

/// A text past a byte order mark.
fn past_mark(csv: &[u8]) -> &[u8]
    ensures text { result.now ≡ strip_bom csv.now }
    ensures shorter { length result.now ≤ length csv.now }
{
    match csv.strip_prefix(b"\xEF\xBB\xBF".as_slice()) {
        Some(rest) => rest,
        None => csv,
    }
}

/// The blank lines of a plain CSV with this byte between two fields. None is between quotes.
pub fn blank_lines(delimiter: u8, csv: &[u8]) -> BlankLines
    ensures { result.count ≡ blank_lines delimiter csv.now }
{
    let text = past_mark(csv);
    let mark = csv.len() - text.len();
    let mut blanks = BlankLines {
        count: 0,
        first: None,
    };
    let mut standing = Standing::AtRecord;
    for (place, byte) in text.iter().enumerate() {
        if standing.is_blank(*byte) {
            blanks.count += 1;
            blanks.first = blanks.first.or(Some(mark + place));
        }
        standing = standing.after(delimiter, *byte);
    }
    blanks
}
