//! Writing replies.

ghost use Rattle.std.specs.Prelude.{◌++◌, decimal};
ghost use Rattle.script_io.specs.Output.{IsPut};
ghost use Rattle.replies.specs.Text.{line, delivered_text, answer_text, said_text};

use crate::reply::Reply;
use itoa::Buffer;
use replica_merge::Delivered;
use script_io::{Fused, WriteFault, put_all};
use std::io::Write;

/// Writes two pieces, one after the other.
fn put_two<W: Write>(writer: &mut Fused<W>, first: &[u8], second: &[u8]) -> Result<(), WriteFault>
    ensures { IsPut W.contents writer.old writer.new result (first.now ++ second.now) }
{
    put_all(writer, first)?;
    put_all(writer, second)
}

/// Writes a line: a word and the rest.
fn put_line<W: Write>(writer: &mut Fused<W>, word: &[u8], rest: &[u8]) -> Result<(), WriteFault>
    ensures { IsPut W.contents writer.old writer.new result (line word.now rest.now) }
{
    put_two(writer, word, rest)?;
    put_all(writer, b"\n")
}

/// Writes a line of a word and a number.
fn put_count<W: Write>(writer: &mut Fused<W>, word: &[u8], count: usize) -> Result<(), WriteFault>
    ensures { IsPut W.contents writer.old writer.new result (line word.now (decimal count)) }
{
    put_line(writer, word, Buffer::new().format(count).as_bytes())
}

/// Writes what became of a batch.
fn put_delivered<W: Write>(writer: &mut Fused<W>, delivered: Delivered) -> Result<(), WriteFault>
    ensures { IsPut W.contents writer.old writer.new result (delivered_text delivered) }
{
    match delivered {
        Delivered::Folded { upto } => put_count(writer, b"folded upto ", upto as usize),
        Delivered::Early => put_line(writer, b"early", b""),
        Delivered::Known => put_line(writer, b"known", b""),
    }
}

/// Writes an answer: how many rows it has, and its table.
fn put_answer<W: Write>(writer: &mut Fused<W>, rows: usize, table: &[u8]) -> Result<(), WriteFault>
    ensures { IsPut W.contents writer.old writer.new result (answer_text rows table.now) }
{
    put_count(writer, b"answer ", rows)?;
    put_all(writer, table)
}

/// Writes the text of a reply. It takes no memory. `WriteFault` says that the writer failed, and has a prefix of the
/// text.
pub fn put_reply<W: Write>(writer: &mut Fused<W>, reply: &Reply<'_>) -> Result<(), WriteFault>
    ensures { IsPut W.contents writer.old writer.new result (said_text reply.now) }
{
    match reply {
        Reply::Columns(count) => put_count(writer, b"columns ", *count),
        Reply::Query(text) => put_line(writer, b"query ", text.as_bytes()),
        Reply::Limit(bytes) => put_count(writer, b"limit ", *bytes as usize),
        Reply::Created(name) => put_line(writer, b"replica ", *name),
        Reply::Delivered(delivered) => put_delivered(writer, *delivered),
        Reply::Merged => put_line(writer, b"merged", b""),
        Reply::Saved(count) => put_count(writer, b"saved ", *count),
        Reply::Loaded => put_line(writer, b"loaded", b""),
        Reply::Listed(lines) => put_all(writer, lines),
        Reply::Answer { rows, table } => put_answer(writer, *rows, table),
        Reply::Refused(why) => put_line(writer, b"refused ", why.name().as_bytes()),
    }
}
