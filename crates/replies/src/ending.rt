//! How a command of the program ends, and the exit status of the process.

ghost use Rattle.std.specs.Prelude.{◌≡◌};
ghost use Rattle.replies.specs.Status.{status_of, run_ending, refusal_ending};

use refusals::{Refusal, RunError};

/// The end of a run that replied to each command of its script.
#[derive(Clone, Copy, Debug, PartialEq, Eq)]
pub struct Outcome {
    /// How many commands were refused.
    pub refused: u64,
}

/// How a command ended.
#[derive(Clone, Copy, Debug, PartialEq, Eq)]
pub enum ExitKind {
    /// Success, or help or the version was shown.
    Done,
    /// Something was refused.
    Refused,
    /// The command line is invalid.
    BadUsage,
    /// A file or a stream could not be read or written.
    Fault,
}

/// The status of the process after a command.
pub fn status(ending: ExitKind) -> u8
    ensures { result ≡ status_of ending }
{
    match ending {
        ExitKind::Done => 0,
        ExitKind::Refused => 1,
        ExitKind::BadUsage => 2,
        ExitKind::Fault => 3,
    }
}

/// How a command ends that was refused.
pub fn refusal_ending(why: Refusal) -> ExitKind
    ensures { result ≡ refusal_ending why }
{
    match why {
        Refusal::Run(RunError::ReadFault | RunError::WriteFault) => ExitKind::Fault,
        _ => ExitKind::Refused,
    }
}

/// How a script's run ends.
pub fn run_ending(run: &Result<Outcome, RunError>) -> ExitKind
    ensures { result ≡ run_ending run.now }
{
    match run {
        Ok(outcome) if outcome.refused == 0 => ExitKind::Done,
        Ok(_) => ExitKind::Refused,
        Err(RunError::NoMemory | RunError::InputTooLong) => ExitKind::Refused,
        Err(RunError::ReadFault | RunError::WriteFault) => ExitKind::Fault,
    }
}
