//! What is written of a step.

use std::io;
use std::io::Write;

/// A line of more bytes is told by its front.
const LONG: usize = 600;

/// How many bytes that has.
const FRONT: usize = 80;

/// Writes a line behind a mark, or the front of one that is long, and how many bytes it has.
fn write_line<W: Write>(writer: &mut W, mark: &str, line: &str) -> io::Result<()> {
    match line.get(..FRONT) {
        Some(front) if line.len() > LONG => {
            writeln!(writer, "{mark}{front}.. ({} bytes)", line.len())
        }
        _ => writeln!(writer, "{mark}{line}"),
    }
}

/// Writes what was told, each line behind a mark, and says where the last one has no end.
pub fn write_lines<W: Write>(writer: &mut W, mark: &str, told: &[u8]) -> io::Result<()> {
    let text = str::from_utf8(told).unwrap_or("not UTF-8\n");
    for line in text.split_terminator('\n') {
        write_line(writer, mark, line)?;
    }
    if !text.is_empty() && !text.ends_with('\n') {
        writeln!(writer, "{mark}(no end of line)")?;
    }
    Ok(())
}
