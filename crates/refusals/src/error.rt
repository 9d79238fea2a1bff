//! Why a script, or another file, was not read whole or not written.

ghost use Rattle.std.specs.Prelude.{◌≡◌};
ghost use Rattle.refusals.specs.Refusals.{run_error, run_refusal};
ghost use Rattle.refusals.specs.Names.{run_name};
ghost use Rattle.refusals.specs.declared.error.RunError.TheVariants.{NoMemory, WriteFault};

use crate::refusal::Refusal;
use script_io::{InputError, WriteFault};
use std::alloc::AllocError;
use thiserror::Error;

/// Why a run stopped before the end of its script, or why a whole file was not read or not written.
#[derive(Clone, Copy, Debug, PartialEq, Eq, Error)]
pub enum RunError {
    /// Memory ran out for the script, for a command of it, or for the one behind that. The commands before were answered.
    #[error("out of memory")]
    NoMemory,
    /// The script, or the file, has more than 67,108,864 bytes. Nothing was written.
    #[error("more than 67,108,864 bytes")]
    InputTooLong,
    /// The reader failed, or was interrupted. Nothing was written.
    #[error("the input could not be read")]
    ReadFault,
    /// The writer failed, was interrupted or took no byte. It has a prefix of the output.
    #[error("the output could not be written")]
    WriteFault,
}

impl RunError {
    /// The name of what stopped a run, as replies show it.
    pub fn name(self) -> &'static str
        ensures { result.now ≡ run_name self }
    {
        match self {
            RunError::NoMemory => "NoMemory",
            RunError::InputTooLong => "InputTooLong",
            RunError::ReadFault => "ReadFault",
            RunError::WriteFault => "WriteFault",
        }
    }
}

impl From<InputError> for RunError {
    ghost from_gives = { λ error e. e ≡ run_error error };

    fn from(error: InputError) -> RunError {
        match error {
            InputError::NoMemory => RunError::NoMemory,
            InputError::TooLong => RunError::InputTooLong,
            InputError::ReadFault => RunError::ReadFault,
        }
    }
}

impl From<AllocError> for RunError {
    ghost from_gives = { λ _ e. e ≡ NoMemory };

    fn from(_error: AllocError) -> RunError {
        RunError::NoMemory
    }
}

impl From<WriteFault> for RunError {
    ghost from_gives = { λ _ e. e ≡ WriteFault };

    fn from(_error: WriteFault) -> RunError {
        RunError::WriteFault
    }
}

impl From<RunError> for Refusal {
    ghost from_gives = { λ error refusal. refusal ≡ run_refusal error };

    fn from(error: RunError) -> Refusal {
        match error {
            RunError::NoMemory => Refusal::NoMemory,
            error => Refusal::Run(error),
        }
    }
}
