//! The error of a backend that is both read and written.

ghost use Rattle.std.specs.Prelude.{◌≡◌, IfOk};
ghost use Rattle.constriction_words.specs.ReadWriteError.{read_write_error_text};

use crate::infallible::UnwrapInfallible;
use std::error::Error;
use std::fmt;

/// A read of a backend failed, or a write to it.
#[derive(Debug, Clone, Copy, PartialEq, Eq, Drop)]
pub enum ReadWriteError<ReadError, WriteError> {
    /// The read failed.
    Read(ReadError),
    /// The write failed.
    Write(WriteError),
}

/// Prints whether a read or a write failed, and then the error. The Rust crate has no `Display`
/// here.
impl<ReadError: fmt::Display, WriteError: fmt::Display> fmt::Display
    for ReadWriteError<ReadError, WriteError> {
    ghost output = { read_write_error_text ReadError.output WriteError.output };

    fn fmt<W: fmt::Write>(&self, f: &mut fmt::Formatter<W>) -> fmt::Result {
        match self {
            ReadWriteError::Read(err) => write!(f, "Error while reading words: {err}"),
            ReadWriteError::Write(err) => write!(f, "Error while writing words: {err}"),
        }
    }
}

impl<ReadError: Error, WriteError: Error> Error for ReadWriteError<ReadError, WriteError> {}

impl<T, ReadError, WriteError> UnwrapInfallible<T>
    for Result<T, ReadWriteError<ReadError, WriteError>>
where
    Result<T, ReadError>: UnwrapInfallible<T>,
    Result<T, WriteError>: UnwrapInfallible<T>,
{
    ghost unwraps = { λ r value. IfOk r (λ x. value ≡ x) };

    #[inline]
    fn unwrap_infallible(self) -> T {
        match self {
            Ok(x) => x,
            Err(ReadWriteError::Read(infallible)) => {
                Err::<T, ReadError>(infallible).unwrap_infallible()
            }
            Err(ReadWriteError::Write(infallible)) => {
                Err::<T, WriteError>(infallible).unwrap_infallible()
            }
        }
    }
}
