//! The streams of a command, and the sentences on them.

ghost use Rattle.std.specs.Prelude.{◌≡◌};
ghost use Rattle.refusals.specs.declared.error.RunError.TheVariants.{WriteFault};
ghost use Rattle.refusals.specs.declared.refusal.Refusal.TheVariants.{Run};

use crate::problem::Problem;
use script_io::Fused;
use std::alloc::Global;
use std::fmt::Display;
use std::io::Write;

/// Which streams are terminals.
#[derive(Clone, Copy)]
pub struct Terminals {
    /// Standard output is a terminal: replies are written at once.
    pub output: bool,
    /// Standard error is a terminal: progress is reported there.
    pub errors: bool,
}

impl Terminals {
    /// No stream is a terminal.
    pub fn none() -> Terminals {
        Terminals {
            output: false,
            errors: false,
        }
    }
}

/// Writes a sentence and a line feed, in one write. If there is no memory for that, it is written in pieces.
pub fn say<E: Write, T: Display>(alloc: Global, errors: &mut E, sentence: &T) {
    // If the sentence can't be written, nothing is left to do.
    match format!(in alloc; "{sentence}\n") {
        Ok(line) => {
            let _ = errors.write_all(line.as_bytes());
        }
        Err(_) => {
            let _ = writeln!(errors, "{sentence}");
        }
    }
}

/// The streams of a command.
#[derive(Drop)]
pub struct Streams<'s, W, E> {
    pub alloc: Global,
    pub writer: &'s mut Fused<W>,
    pub errors: &'s mut E,
    pub terminals: Terminals,
}

impl<W: Write, E: Write> Streams<'_, W, E> {
    /// Writes a sentence, and nothing to standard output.
    pub fn say<T: Display>(&mut self, sentence: &T)
        ensures { self.new.writer.now ≡ self.old.writer.now }
    {
        say(self.alloc, self.errors, sentence);
    }

    /// Standard output could not be written.
    pub fn output_fault(&self) -> Problem<'static>
        ensures { result.why ≡ Run WriteFault }
    {
        Problem::output(self.writer.fault())
    }
}
