//! The texts of a command line that a file may have in their place.

ghost use Rattle.std.specs.Prelude.{◌≡◌, ◌⊎◌, ℕ, List, Some, true, IfOk, IfErr, IsUtf8, string_bytes};
ghost use Rattle.std.specs.Io.KnownBytes.{Consumes, IsAtEnd};
ghost use Rattle.script_io.specs.Fused.{unread};
ghost use Rattle.refusals.specs.declared.refusal.Refusal.TheVariants.{BadCommand, NoMemory};
ghost use Rattle.command_words.specs.LineEnd.{DropsLineEnd};
ghost use Rattle.command_words.specs.Streams.{is_stream};
ghost use Rattle.command_files.specs.Texts.{IsNoText, IsNoTextOf, IsTextTold};

use clap::ArgMatches;
use command_streams::{Inputs, Problem, reason_of};
use command_words::{input_name, value, without_line_end};
use replies::Refusal;
use std::alloc::{AllocError, Global};
use std::io::Read;
use std::rt::Files;
use std::str;

/// A text that a command takes, and what it is called in sentences: an option, or the file that has it.
#[derive(Drop)]
pub(crate) struct Told<'p> {
    pub(crate) subject: &'p str,
    text: String,
}

impl Told<'_> {
    /// The text.
    pub(crate) fn text(&self) -> &str
        ensures { result.now ≡ string_bytes self.now.text }
    {
        &self.text
    }
}

/// Says why the bytes of a file are no text.
fn no_text(alloc: Global, place: usize) -> Result<String, AllocError> {
    format!(in alloc; "byte {place} is not UTF-8")
}

/// The text that the bytes of a file are, without the line end behind it.
fn text_of<'p>(alloc: Global, subject: &'p str, bytes: &[u8]) -> Result<Told<'p>, Problem<'p>>
    ensures text { IfOk result (λ told. DropsLineEnd bytes.now (string_bytes told.text)) }
    ensures why { IfErr result (λ problem. ((problem.why ≡ BadCommand) × (¬ (IsUtf8 bytes.now))) ⊎ (problem.why ≡ NoMemory)) }
{
    match str::from_utf8(bytes) {
        Ok(text) => copied(alloc, subject, without_line_end(text)),
        Err(error) => {
            let reason = match no_text(alloc, error.valid_up_to()) {
                Ok(said) => Ok(reason_of(alloc, Some(said))),
                Err(error) => Err(error),
            };
            Err(Problem::because(subject, Refusal::BadCommand, reason))
        }
    }
}

/// A copy of a text.
fn copied<'p>(alloc: Global, subject: &'p str, text: &str) -> Result<Told<'p>, Problem<'p>>
    ensures text { IfOk result (λ told. string_bytes told.text ≡ text.now) }
    ensures why { IfErr result (λ problem. problem.why ≡ NoMemory) }
{
    match String::from_str(alloc, text) {
        Ok(text) => Ok(Told { subject, text }),
        Err(_) => Err(Problem::refused(subject, Refusal::NoMemory)),
    }
}

/// An option that tells a text, what it is called in sentences, and the option that tells a file of it.
#[derive(Clone, Copy)]
pub(crate) struct TextOption {
    pub(crate) id: &'static str,
    pub(crate) name: &'static str,
    pub(crate) file: &'static str,
}

/// The text of a file, which is read whole, without one line end behind it.
fn read_text_of<'p, R: Files + AllocGlobal, I: Read>(
    inputs: &mut Inputs<'_, R, I>,
    path: &'p str,
) -> Result<Told<'p>, Problem<'p>>
    ensures text { IfOk result (λ told. (file : List ℕ) × DropsLineEnd file (string_bytes told.text)
        × (is_stream path.entry.now ≡ true → Consumes (unread I.remaining inputs.old.reader.now)
        (unread I.remaining inputs.new.reader.now) file × IsAtEnd (unread I.remaining inputs.new.reader.now))) }
    ensures why { IfErr result (λ problem. IsNoTextOf (Some path.entry.now) problem.why) }
{
    let bytes = inputs.read(path)?;
    text_of(inputs.rt.alloc(), input_name(path), &bytes)
}

/// The text that an option tells, or the file that another one names: of this without one line end behind it.
pub(crate) fn read_text<'p, R: Files + AllocGlobal, I: Read>(
    inputs: &mut Inputs<'_, R, I>,
    matches: &ArgMatches<'p>,
    option: TextOption,
) -> Result<Told<'p>, Problem<'p>>
    ensures told { IfOk result (λ told. IsTextTold matches.now option.file.now option.id.now (string_bytes told.text)) }
    ensures why { IfErr result (λ problem. IsNoText matches.now option.file.now problem.why) }
{
    match matches.get_str(option.file) {
        Some(path) => read_text_of(inputs, path),
        None => copied(inputs.rt.alloc(), option.name, value(matches, option.id)),
    }
}
