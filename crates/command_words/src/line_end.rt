//! Texts of files.

ghost use Rattle.command_words.specs.LineEnd.{DropsLineEnd};

/// A text without the line end behind it, if it has one: a line feed, with a carriage return before it or not.
pub fn without_line_end(text: &str) -> &str
    ensures { DropsLineEnd text.now result.now }
{
    match text.strip_suffix('\n') {
        Some(line) => line.strip_suffix('\r').unwrap_or(line),
        None => text,
    }
}
