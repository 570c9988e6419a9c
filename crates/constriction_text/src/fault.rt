//! What stops a run.

ghost use Rattle.std.specs.Prelude.{◌≡◌};
ghost use Rattle.constriction_text.specs.Runs.{fault_status};

use constriction_io::{ReadError, WriteError};
use thiserror::Error;

/// What stops a run before the whole text is written.
#[derive(Debug, Clone, Copy, PartialEq, Eq, Drop, Error)]
pub enum RunFault {
    /// The reader answered an error. Nothing was written.
    #[error("The input could not be read.")]
    Read,
    /// The writer answered an error, or took no byte. A beginning of the text was written.
    #[error("The answers could not be written.")]
    Write,
    /// The input is longer than 1,048,576 bytes. Nothing was written.
    #[error("The input is too long.")]
    TooLong,
    /// Memory was refused. If it was asked for to answer a line, the answers to the lines before it
    /// were written, each whole; otherwise nothing was written.
    #[error("Memory was refused.")]
    OutOfMemory,
}

impl RunFault {
    /// The exit status of a program that the fault stops: 1, 2 or 3.
    pub fn status(&self) -> u8
        ensures { result ≡ fault_status self.now }
    {
        match self {
            RunFault::Read | RunFault::Write => 1,
            RunFault::TooLong => 2,
            RunFault::OutOfMemory => 3,
        }
    }
}

impl From<ReadError> for RunFault {
    ghost use Rattle.constriction_text.specs.Runs.{fault_of_read};

    ghost from_gives = { λ error fault. fault ≡ fault_of_read error };

    fn from(error: ReadError) -> Self {
        match error {
            ReadError::Reader(_) => RunFault::Read,
            ReadError::OutOfMemory => RunFault::OutOfMemory,
        }
    }
}

impl From<WriteError> for RunFault {
    ghost use Rattle.constriction_text.specs.declared.fault.RunFault.TheVariants.{Write};

    ghost from_gives = { λ _ fault. fault ≡ Write };

    fn from(_error: WriteError) -> Self {
        RunFault::Write
    }
}
