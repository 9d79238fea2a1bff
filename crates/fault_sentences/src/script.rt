//! Why a command of a script is refused.

use crate::batch::BatchText;
use crate::foreign::known_by_front;
use crate::lines::ends_line;
use crate::nearest::{Nearest, say_near};
use crate::query::say_query;
use crate::schema::say_schema;
use batch_reader::BatchError;
use csv::ByteRecord;
use group_parser::ParseError;
use grouping_model::limits::MAX_NAME_LEN;
use packed_rows::Schema;
use script_commands::{Command, Request, next_command};
use script_io::{Records, read_limit, read_row_count};
use sentences::{Quoted, Reason, Said};
use std::alloc::{AllocError, Global};
use std::collections::BTreeMap;
use std::str;

/// What a command has behind its word.
#[derive(Clone, Copy)]
enum Part {
    Text,
    Limit,
    Name,
    Rows,
    /// What is looked at later.
    Any,
}

/// A command: its word, what stands behind it, and its form.
struct Form {
    word: &'static str,
    parts: &'static [Part],
    form: &'static str,
}

static FORMS: [Form; 10] = [
    Form {
        word: "columns",
        parts: &[Part::Text],
        form: "columns,SCHEMA",
    },
    Form {
        word: "query",
        parts: &[Part::Text],
        form: "query,TEXT",
    },
    Form {
        word: "limit",
        parts: &[Part::Limit],
        form: "limit,BYTES",
    },
    Form {
        word: "replica",
        parts: &[Part::Name],
        form: "replica,NAME",
    },
    Form {
        word: "feed",
        parts: &[Part::Name, Part::Any, Part::Any, Part::Rows],
        form: "feed,NAME,ORIGIN,NUMBER,ROWS",
    },
    Form {
        word: "merge",
        parts: &[Part::Name, Part::Name],
        form: "merge,INTO,FROM",
    },
    Form {
        word: "known",
        parts: &[Part::Name],
        form: "known,NAME",
    },
    Form {
        word: "answer",
        parts: &[Part::Name],
        form: "answer,NAME",
    },
    Form {
        word: "save",
        parts: &[Part::Name, Part::Name],
        form: "save,NAME,SAVED",
    },
    Form {
        word: "load",
        parts: &[Part::Name, Part::Name],
        form: "load,NAME,SAVED",
    },
];

/// The command of a word.
fn form_of(word: &[u8]) -> Option<&'static Form> {
    FORMS.iter().find(|form| form.word.as_bytes() == word)
}

/// Whether a field is the name of a replica.
fn is_name(field: &[u8]) -> bool {
    !field.is_empty()
        && field.len() <= MAX_NAME_LEN
        && field
            .iter()
            .all(|byte| byte.is_ascii_alphanumeric() || *byte == b'_')
}

impl Part {
    /// What is wrong with a field.
    fn fault(self, field: &[u8]) -> Option<&'static str> {
        match self {
            Part::Text if str::from_utf8(field).is_err() => Some("is not UTF-8"),
            Part::Limit if read_limit(field).is_none() => Some(
                "is not a limit: write 1 to 19 digits",
            ),
            Part::Name if !is_name(field) => {
                Some("is not a name: use 1 to 63 ASCII letters, digits or _")
            }
            Part::Rows if read_row_count(field).is_none() => {
                Some("is not a number of rows: write 1 to 9 digits")
            }
            _ => None,
        }
    }
}

/// Says the words of all commands.
fn say_words(said: &mut Said) {
    for (place, form) in FORMS.iter().enumerate() {
        said.push_str(if place == 0 { "" } else { ", " });
        said.push_str(form.word);
    }
}

/// The word of a command that is nearest to another word, if one is near.
fn nearest_word(alloc: Global, word: &[u8]) -> Result<Option<&'static str>, AllocError> {
    let mut nearest = Nearest::to(str::from_utf8(word).unwrap_or(""));
    for form in &FORMS {
        nearest.look_at(alloc, form.word)?;
    }
    Ok(nearest.found)
}

/// Says that a word is no command's, and which is near to it.
fn say_word(alloc: Global, said: &mut Said, word: &[u8]) {
    said.quote(word);
    said.push_str(" is not a command");
    let near = said.found(nearest_word(alloc, word));
    say_near(said, near);
    said.push_str("; the commands are ");
    say_words(said);
    said.push_aside(known_by_front(word));
}

/// Says what is wrong with the fields of a record behind its word, if something is.
fn say_fields(said: &mut Said, form: &Form, record: &ByteRecord) {
    let (found, wanted) = (record.len(), form.parts.len().saturating_add(1));
    if found != wanted {
        let form = form.form;
        said.count("fields found: ", found);
        said.count(", expected: ", wanted);
        said.text(" (", form);
        said.push_str(")");
        return;
    }
    for (place, part) in form.parts.iter().enumerate() {
        let field = record.get(place.saturating_add(1)).unwrap_or_default();
        if let Some(fault) = part.fault(field) {
            said.quote(field);
            said.text(" ", fault);
            return;
        }
    }
}

/// Why a command of a word has no place here.
fn misplaced(word: &str, has_columns: bool) -> &'static str {
    match word {
        "columns" => "the columns were given before",
        "query" if has_columns => "the query was given before",
        "query" => "give the columns before the query",
        _ => "give the columns and the query before the replicas",
    }
}

/// Says why a record is not a command, or none at its place.
fn say_fault(alloc: Global, said: &mut Said, record: &ByteRecord, has_columns: bool) {
    let word = record.get(0).unwrap_or_default();
    let Some(form) = form_of(word) else {
        say_word(alloc, said, word);
        return;
    };
    say_fields(said, form, record);
    if said.is_silent() {
        said.push_str(misplaced(form.word, has_columns));
    }
}

/// The words of commands that give columns, or make a replica.
const KEPT: [&[u8]; 3] = [b"columns", b"replica", b"load"];

/// Whether a text has a word, wherever it stands.
fn has_word(text: &[u8], word: &[u8]) -> bool {
    for at in 0..text.len() {
        if text.get(at..).unwrap_or_default().starts_with(word) {
            return true;
        }
    }
    false
}

/// How far a script was read: the line of a command, the columns that were given before it, and the replicas that may exist.
#[derive(Drop)]
pub struct ScriptPlace {
    alloc: Global,
    at: usize,
    line: u64,
    schema: Option<Schema>,
    names: BTreeMap<String, ()>,
}

impl ScriptPlace {
    /// The beginning of a script.
    pub fn new(alloc: Global) -> ScriptPlace {
        ScriptPlace {
            alloc,
            at: 0,
            line: 1,
            schema: None,
            names: BTreeMap::new(alloc),
        }
    }

    /// Where a line that is further on begins.
    fn begin_of(&self, script: &[u8], line: u64) -> usize {
        let mut found = self.line;
        let mut is_behind_return = false;
        for (at, byte) in script.iter().enumerate().skip(self.at) {
            if found >= line && !ends_line(*byte) {
                return at;
            }
            if *byte == b'\r' || *byte == b'\n' && !is_behind_return {
                found = found.saturating_add(1);
            }
            is_behind_return = *byte == b'\r';
        }
        script.len()
    }

    /// Keeps the name of a replica.
    fn keep_name(&mut self, name: &[u8]) -> Result<(), AllocError> {
        let name = String::from_str(self.alloc, str::from_utf8(name).unwrap_or(""))?;
        self.names.insert(name, ())?;
        Ok(())
    }

    /// Keeps the columns that a command gives, where they are right and the first, and the name of the replica that it makes.
    fn keep(&mut self, command: &Command) -> Result<(), AllocError> {
        match command.request() {
            Request::Columns(text) if self.schema.is_none() => {
                self.schema = Schema::parse(self.alloc, text).ok();
                Ok(())
            }
            Request::Replica(name) | Request::Load { name, .. } => self.keep_name(name),
            _ => Ok(()),
        }
    }

    /// Keeps what commands give and make, where they are done.
    fn pass(&mut self, records: &mut Records<'_>) -> Result<(), AllocError> {
        for _ in 0..u64::MAX {
            let Some(command) = next_command(records)? else {
                break;
            };
            let (kept, owned) = (self.keep(&command), command.owned());
            drop(command);
            kept?;
            records.skip(owned)?;
        }
        Ok(())
    }

    /// Keeps what the commands of a text give and make, where they are done.
    fn pass_text(&mut self, text: &[u8]) -> Result<(), AllocError> {
        // A reader of records takes longer to be made than a short text to be looked through.
        if !KEPT.iter().any(|word| has_word(text, word)) {
            return Ok(());
        }
        let mut records = Records::new(self.alloc, text);
        let kept = self.pass(&mut records);
        drop(records);
        kept
    }

    /// Goes on to the command at a line, which is not before the last one.
    pub fn go_to(&mut self, script: &[u8], line: u64) -> Result<(), AllocError> {
        let at = self.begin_of(script, line);
        self.pass_text(script.get(self.at..at).unwrap_or_default())?;
        self.at = at;
        self.line = line;
        Ok(())
    }

    /// Whether there is no replica of a name. Where it is not known, there may be one.
    fn is_missing(&self, name: &[u8]) -> bool {
        match str::from_utf8(name) {
            Ok(name) => !self.names.contains_key(name),
            Err(_) => true,
        }
    }

    /// Says of which name of a merge there is no replica: of one, of both, or of one of both.
    fn say_no_side(&self, said: &mut Said, into: &[u8], from: &[u8]) {
        match (self.is_missing(into), self.is_missing(from)) {
            (true, true) if into != from => {
                said.quoted("there is no replica ", into);
                said.quoted(", and no replica ", from);
            }
            (true, _) => said.quoted("there is no replica ", into),
            (false, true) => said.quoted("there is no replica ", from),
            (false, false) => {
                said.quoted("there is no replica ", into);
                said.quoted(", or no replica ", from);
            }
        }
    }

    /// Says of which name of a command here there is no replica, or nothing saved.
    pub fn say_no_name(&self, alloc: Global, record: &ByteRecord) -> Result<String, AllocError> {
        let mut said = Said::new(alloc);
        let name = record.get(1).unwrap_or_default();
        let other = record.get(2).unwrap_or_default();
        match record.get(0).unwrap_or_default() {
            b"load" => said.quoted("nothing is saved under ", other),
            b"merge" => self.say_no_side(&mut said, name, other),
            _ => said.quoted("there is no replica ", name),
        }
        said.end()
    }

    /// Says why a record is not a command, or not allowed here.
    pub fn say_command(&self, alloc: Global, record: &ByteRecord) -> Result<String, AllocError> {
        let mut said = Said::new(alloc);
        say_fault(alloc, &mut said, record, self.schema.is_some());
        said.end()
    }

    /// Says why the text of a command here is not a query.
    pub fn say_query(
        &self,
        alloc: Global,
        record: &ByteRecord,
        why: ParseError,
    ) -> Result<Option<Reason>, AllocError> {
        let Some(schema) = &self.schema else {
            return Ok(None);
        };
        match str::from_utf8(record.get(1).unwrap_or_default()) {
            Ok(text) => say_query(alloc, schema, text, why),
            Err(_) => Ok(None),
        }
    }

    /// Says why the records of the command here are not a batch.
    pub fn say_batch(
        &self,
        alloc: Global,
        script: &[u8],
        head: &ByteRecord,
        why: BatchError,
    ) -> Result<Option<String>, AllocError> {
        let Some(schema) = &self.schema else {
            return Ok(None);
        };
        let rows = BatchText {
            text: script.get(self.at..).unwrap_or_default(),
            line: self.line,
            is_file: false,
        };
        rows.say_behind(alloc, schema, Some(head), why)
    }
}

/// Says why the text of a command is not a schema.
pub fn say_columns(alloc: Global, record: &ByteRecord) -> Result<Option<Reason>, AllocError> {
    match str::from_utf8(record.get(1).unwrap_or_default()) {
        Ok(text) => Ok(Some(say_schema(alloc, text)?)),
        Err(_) => Ok(None),
    }
}

/// Says which name of a command a replica already has.
pub fn say_taken(alloc: Global, record: &ByteRecord) -> Result<String, AllocError> {
    let name = Quoted(record.get(1).unwrap_or_default());
    format!(in alloc; "there is a replica {name} already")
}

/// Says which limit of a command is out of its range.
pub fn say_limit(alloc: Global, record: &ByteRecord) -> Result<String, AllocError> {
    let told = Quoted(record.get(1).unwrap_or_default());
    format!(in alloc; "{told} is out of range (65,536 to 1,099,511,627,776 bytes)")
}
