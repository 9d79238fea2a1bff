//! Why a command stopped or skipped a file.

ghost use Rattle.std.specs.Prelude.{◌≡◌, ◌↔◌, IsTrue};
ghost use Rattle.replies.specs.declared.ending.ExitKind.TheVariants.{Fault};
ghost use Rattle.refusals.specs.declared.error.RunError.TheVariants.{WriteFault};
ghost use Rattle.refusals.specs.declared.refusal.Refusal.TheVariants.{Run};
ghost use Rattle.command_streams.specs.Stopping.{ending_of};

use replies::{Refusal, RunError};
use sentences::{Plain, Reason};
use std::alloc::Global;
use std::io::ErrorKind;
use std::{fmt, io};

/// What was refused, and why.
#[derive(Drop)]
pub struct Problem<'p> {
    /// A file, an option of the command line, or a stream.
    pub subject: &'p str,
    pub why: Refusal,
    /// The system's error.
    cause: Option<io::Error>,
    /// A reason that quotes the faulty bytes. It replaces the general sentence of the refusal.
    reason: Option<Reason>,
    /// Whether the subject is standard output.
    is_output: bool,
}

impl<'p> Problem<'p> {
    /// Something was refused.
    pub fn refused(subject: &'p str, why: Refusal) -> Problem<'p>
        ensures { result.why ≡ why }
    {
        Problem {
            subject,
            why,
            cause: None,
            reason: None,
            is_output: false,
        }
    }

    /// Something was refused, with a reason if one was found and memory sufficed to say it.
    pub fn because<E: Drop>(
        subject: &'p str,
        why: Refusal,
        reason: Result<Option<Reason>, E>,
    ) -> Problem<'p>
        ensures { result.why ≡ why }
    {
        Problem {
            subject,
            why,
            cause: None,
            reason: reason.unwrap_or(None),
            is_output: false,
        }
    }

    /// The system failed, with this cause.
    pub fn failed(subject: &'p str, error: RunError, cause: io::Error) -> Problem<'p>
        ensures { result.why ≡ Run error }
    {
        Problem {
            subject,
            why: Refusal::Run(error),
            cause: Some(cause),
            reason: None,
            is_output: false,
        }
    }

    /// Standard output could not be written.
    pub fn output(cause: Option<io::Error>) -> Problem<'p>
        ensures { result.why ≡ Run WriteFault }
    {
        Problem {
            subject: "standard output",
            why: Refusal::Run(RunError::WriteFault),
            cause,
            reason: None,
            is_output: true,
        }
    }

    /// Whether a file or a stream could not be read or written. The spill file counts, too.
    pub fn is_fault(&self) -> bool
        ensures { IsTrue result ↔ (ending_of self.now.why ≡ Fault) }
    {
        matches!(
            self.why,
            Refusal::TapeFault | Refusal::Run(RunError::ReadFault | RunError::WriteFault)
        )
    }

    /// Whether the reader of standard output has closed it. Then no sentence is written.
    pub fn is_unread(&self) -> bool {
        self.is_output && is_closed(&self.cause)
    }
}

/// Whether a stream failed because its reader closed it.
pub fn is_closed(cause: &Option<io::Error>) -> bool {
    match cause {
        Some(error) => error.kind() == ErrorKind::BrokenPipe,
        None => false,
    }
}

/// A reason without a picture.
pub fn reason_of(alloc: Global, said: Option<String>) -> Option<Reason> {
    match said {
        Some(said) => Some(Reason::whole(alloc, said)),
        None => None,
    }
}

/// Whether OUT was written.
#[derive(Clone, Copy)]
pub struct OutputStatus<'o> {
    pub out: &'o str,
    pub is_written: bool,
}

/// The sentence on a problem, and on OUT if the command writes one.
#[derive(Clone, Copy)]
pub struct Diagnostic<'t, 'p> {
    pub problem: &'t Problem<'p>,
    pub output: Option<OutputStatus<'t>>,
}

impl fmt::Display for OutputStatus<'_> {
    fn fmt<W: fmt::Write>(&self, f: &mut fmt::Formatter<W>) -> fmt::Result {
        let out = Plain(self.out);
        if self.is_written {
            write!(f, "; {out} is written")
        } else {
            write!(f, "; {out} is not written")
        }
    }
}

impl fmt::Display for Problem<'_> {
    fn fmt<W: fmt::Write>(&self, f: &mut fmt::Formatter<W>) -> fmt::Result {
        let (subject, name) = (Plain(self.subject), self.why.name());
        write!(f, "{subject}: refused {name}: ")?;
        match &self.reason {
            Some(reason) => f.write_str(&reason.said)?,
            None => write!(f, "{}", self.why)?,
        }
        match &self.cause {
            Some(cause) => write!(f, " ({cause})"),
            None => Ok(()),
        }
    }
}

impl fmt::Display for Diagnostic<'_, '_> {
    fn fmt<W: fmt::Write>(&self, f: &mut fmt::Formatter<W>) -> fmt::Result {
        let problem = self.problem;
        write!(f, "{problem}")?;
        if let Some(output) = &self.output {
            write!(f, "{output}")?;
        }
        match &problem.reason {
            Some(reason) => f.write_str(&reason.picture),
            None => Ok(()),
        }
    }
}
