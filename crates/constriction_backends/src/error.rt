//! Why a sink refuses a word.

ghost use Rattle.std.specs.Prelude.{codes, Some};

use std::error::Error;
use std::fmt;

/// A bounded sink refused a word.
#[derive(Debug, Clone, PartialEq, Eq, Drop)]
pub enum BoundedWriteError {
    /// There was no free place.
    OutOfSpace,
}

impl fmt::Display for BoundedWriteError {
    ghost output = { λ _. Some (codes "Out of space.") };

    fn fmt<W: fmt::Write>(&self, f: &mut fmt::Formatter<W>) -> fmt::Result {
        match self {
            BoundedWriteError::OutOfSpace => write!(f, "Out of space."),
        }
    }
}

impl Error for BoundedWriteError {}
