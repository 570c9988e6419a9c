//! What stops packing and unpacking.

ghost use Rattle.std.specs.Prelude.{◌≡◌};
ghost use Rattle.constriction_pack.specs.Faults.{error_status};

use constriction_io::{ReadError, WriteError};
use std::alloc::{AllocError, AllocFailed};
use thiserror::Error;

/// What stops packing and unpacking. What was written before stays.
#[derive(Debug, Clone, Copy, PartialEq, Eq, Drop, Error)]
pub enum PackError {
    /// The reader answered an error.
    #[error("The input could not be read.")]
    Read,
    /// The writer answered an error, or took no byte.
    #[error("The output could not be written.")]
    Write,
    /// Memory was refused.
    #[error("Memory was refused.")]
    OutOfMemory,
    /// The input does not begin as a packed file does. Nothing was written.
    #[error("The input does not begin like a file that pack wrote.")]
    NotPacked,
    /// The input ends before the packed file does.
    #[error("The packed file was cut.")]
    Cut,
    /// A header, a block or a checksum is wrong, or something follows the packed file.
    #[error("The packed file is damaged.")]
    Damaged,
    /// The next block would make the output longer than the limit.
    #[error("The packed file holds more than was allowed.")]
    TooLong,
}

impl PackError {
    /// The exit status of a program that the fault stops: 1, 2 or 3.
    pub fn status(&self) -> u8
        ensures { result ≡ error_status self.now }
    {
        match self {
            PackError::Read | PackError::Write => 1,
            PackError::NotPacked | PackError::Cut | PackError::Damaged | PackError::TooLong => 2,
            PackError::OutOfMemory => 3,
        }
    }
}

impl From<AllocError> for PackError {
    ghost use Rattle.constriction_pack.specs.declared.fault.PackError.TheVariants.{OutOfMemory};

    ghost from_gives = { λ _ fault. fault ≡ OutOfMemory };

    fn from(_error: AllocError) -> Self {
        PackError::OutOfMemory
    }
}

impl<T: Drop> From<AllocFailed<T>> for PackError {
    ghost use Rattle.constriction_pack.specs.declared.fault.PackError.TheVariants.{OutOfMemory};

    ghost from_gives = { λ _ fault. fault ≡ OutOfMemory };

    fn from(_error: AllocFailed<T>) -> Self {
        PackError::OutOfMemory
    }
}

impl From<ReadError> for PackError {
    ghost use Rattle.constriction_pack.specs.Faults.{error_of_read};

    ghost from_gives = { λ error fault. fault ≡ error_of_read error };

    fn from(error: ReadError) -> Self {
        match error {
            ReadError::Reader(_) => PackError::Read,
            ReadError::OutOfMemory => PackError::OutOfMemory,
        }
    }
}

impl From<WriteError> for PackError {
    ghost use Rattle.constriction_pack.specs.declared.fault.PackError.TheVariants.{Write};

    ghost from_gives = { λ _ fault. fault ≡ Write };

    fn from(_error: WriteError) -> Self {
        PackError::Write
    }
}
