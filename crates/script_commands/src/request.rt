//! What a record asks.

ghost use Rattle.std.specs.Prelude.{◌≡◌, ◌<◌, false, IsTrue, IfSome, IfNone, length, get_or, []};
ghost use Rattle.std.specs.List.{list_all};
ghost use Rattle.std.specs.Str.{is_utf8};
ghost use Rattle.csv.specs.Records.{fields_of};
ghost use Rattle.script_commands.specs.Commands.{is_name, is_name_byte, one_field, two_fields, name_request, names_request, feed_request};
ghost use Rattle.script_commands.specs.Commands.{owned_rows, owned_by, request_of};
ghost use Rattle.script_commands.specs.Views.{request_view};

use csv::ByteRecord;
use grouping_model::limits::MAX_NAME_LEN;
use script_io::{field, read_limit, read_row_count};
use std::str;

/// What a command asks. Names are 1 to 63 ASCII letters, digits or `_`.
#[derive(Clone, Copy)]
pub enum Request<'c> {
    /// `columns,SCHEMA`: the columns of the rows.
    Columns(&'c str),
    /// `query,TEXT`: the query that replicas answer.
    Query(&'c str),
    /// `limit,BYTES`: the most bytes of memory blocks that a group table may take. BYTES is 1 to 19 digits.
    Limit(u64),
    /// `replica,NAME`: a new replica of this name.
    Replica(&'c [u8]),
    /// `feed,NAME,ORIGIN,NUMBER,ROWS`: a batch for a replica. ROWS, the declared number of rows, is 1 to 9 digits.
    Feed {
        name: &'c [u8],
        origin: &'c [u8],
        number: &'c [u8],
        told: u32,
    },
    /// `known,NAME`: what a replica knows.
    Known(&'c [u8]),
    /// `answer,NAME`: a replica's answer.
    Answer(&'c [u8]),
    /// `merge,INTO,FROM`: INTO gets to know what FROM knows. They may be the same.
    Merge {
        into: &'c [u8],
        from: &'c [u8],
    },
    /// `save,NAME,SAVED`: a replica is saved as a summary file of this name, which replaces an older one.
    Save {
        name: &'c [u8],
        saved: &'c [u8],
    },
    /// `load,NAME,SAVED`: a replica of this name is made or replaced from a saved file.
    Load {
        name: &'c [u8],
        saved: &'c [u8],
    },
    /// None of these: another word, a wrong number of fields, a text that isn't UTF-8, a bad name, number of rows or limit.
    Unknown,
}

fn are_name_bytes(bytes: &[u8]) -> bool
    ensures { result ≡ list_all is_name_byte bytes.now }
{
    bytes
        .iter()
        .all(|b| b.is_ascii_alphanumeric() || *b == b'_')
}

/// Whether a field is a name.
fn is_legal_name(name: &[u8]) -> bool
    ensures { result ≡ is_name name.now }
{
    !name.is_empty() && name.len() <= MAX_NAME_LEN && are_name_bytes(name)
}

/// What a word and a name ask.
fn ask_by_name<'c>(word: &[u8], name: &'c [u8]) -> Request<'c>
    ensures { request_view result ≡ name_request word.now name.now }
{
    if word == b"replica".as_slice() {
        Request::Replica(name)
    } else if word == b"known".as_slice() {
        Request::Known(name)
    } else if word == b"answer".as_slice() {
        Request::Answer(name)
    } else {
        Request::Unknown
    }
}

/// A field as text, if it is UTF-8.
#[tactic(auto, using(crate::proofs::CommandLaws::text_is, crate::proofs::CommandLaws::no_text))]
fn as_text(field: &[u8]) -> Option<&str>
    ensures found { IfSome result (λ text. (text.now ≡ field.now) × IsTrue (is_utf8 field.now)) }
    ensures none { IfNone result (is_utf8 field.now ≡ false) }
{
    match str::from_utf8(field) {
        Ok(text) => Some(text),
        Err(_) => None,
    }
}

/// What a word and one field after it ask.
fn ask_of_one<'c>(word: &[u8], field: &'c [u8]) -> Request<'c>
    ensures { request_view result ≡ one_field word.now field.now }
{
    if word == b"columns".as_slice() {
        match as_text(field) {
            Some(text) => Request::Columns(text),
            None => Request::Unknown,
        }
    } else if word == b"query".as_slice() {
        match as_text(field) {
            Some(text) => Request::Query(text),
            None => Request::Unknown,
        }
    } else if word == b"limit".as_slice() {
        match read_limit(field) {
            Some(bytes) => Request::Limit(bytes),
            None => Request::Unknown,
        }
    } else if is_legal_name(field) {
        ask_by_name(word, field)
    } else {
        Request::Unknown
    }
}

/// What a word and two names after it ask.
fn ask_by_names<'c>(word: &[u8], name: &'c [u8], other: &'c [u8]) -> Request<'c>
    ensures { request_view result ≡ names_request word.now name.now other.now }
{
    if word == b"merge".as_slice() {
        Request::Merge {
            into: name,
            from: other,
        }
    } else if word == b"save".as_slice() {
        Request::Save { name, saved: other }
    } else if word == b"load".as_slice() {
        Request::Load { name, saved: other }
    } else {
        Request::Unknown
    }
}

/// What a word and two fields after it ask.
fn ask_of_two<'c>(word: &[u8], name: &'c [u8], other: &'c [u8]) -> Request<'c>
    ensures { request_view result ≡ two_fields word.now name.now other.now }
{
    if is_legal_name(name) && is_legal_name(other) {
        ask_by_names(word, name, other)
    } else {
        Request::Unknown
    }
}

/// What a word and four fields after it ask.
fn ask_to_feed<'c>(
    word: &[u8],
    name: &'c [u8],
    origin: &'c [u8],
    number: &'c [u8],
    rows: &[u8],
) -> Request<'c>
    ensures { request_view result ≡ feed_request word.now name.now origin.now number.now rows.now }
{
    if word != b"feed".as_slice() || !is_legal_name(name) {
        return Request::Unknown;
    }
    match read_row_count(rows) {
        Some(told) => Request::Feed {
            name,
            origin,
            number,
            told,
        },
        None => Request::Unknown,
    }
}

/// What a record asks.
#[tactic(auto, using(crate::proofs::CommandLaws::request_two, crate::proofs::CommandLaws::request_three, crate::proofs::CommandLaws::request_five))]
pub(crate) fn ask(head: &ByteRecord) -> Request<'_>
    ensures { request_view result ≡ request_of (fields_of head.now) }
{
    match head.len() {
        2 => ask_of_one(field(head, 0), field(head, 1)),
        3 => ask_of_two(field(head, 0), field(head, 1), field(head, 2)),
        5 => ask_to_feed(
            field(head, 0),
            field(head, 1),
            field(head, 2),
            field(head, 3),
            field(head, 4),
        ),
        _ => Request::Unknown,
    }
}

/// How many of the records after it belong to a record of this word that states this number of rows.
fn owned_rows(word: &[u8], rows: &[u8]) -> usize
    ensures { result ≡ owned_rows word.now rows.now }
{
    if word != b"feed".as_slice() {
        return 0;
    }
    match read_row_count(rows) {
        Some(told) => told as usize,
        None => 0,
    }
}

/// How many of the records after it belong to a record.
#[tactic(auto, using(crate::proofs::CommandLaws::owned_five, crate::proofs::CommandLaws::owned_other))]
pub(crate) fn count_owned(head: &ByteRecord) -> usize
    ensures { result ≡ owned_by (fields_of head.now) }
{
    if head.len() != 5 {
        return 0;
    }
    owned_rows(field(head, 0), field(head, 4))
}
