//! Why there is no model.

use std::alloc::{AllocError, AllocFailed};
use thiserror::Error;

/// Why there is no model.
#[derive(Debug, Clone, Copy, PartialEq, Eq, Drop, Error)]
pub enum ModelError {
    /// The weights are not accepted, or the symbols, if there are any.
    #[error("The weights, or the symbols, are not accepted.")]
    InvalidTable,
    /// Memory was refused.
    #[error("Memory was refused.")]
    OutOfMemory,
}

impl From<AllocError> for ModelError {
    ghost use Rattle.std.specs.Prelude.{◌≡◌};
    ghost use Rattle.constriction_model.specs.declared.error.ModelError.TheVariants.{OutOfMemory};

    ghost from_gives = { λ _ e. e ≡ OutOfMemory };

    fn from(_: AllocError) -> ModelError {
        ModelError::OutOfMemory
    }
}

impl<T: Drop> From<AllocFailed<T>> for ModelError {
    ghost use Rattle.std.specs.Prelude.{◌≡◌};
    ghost use Rattle.constriction_model.specs.declared.error.ModelError.TheVariants.{OutOfMemory};

    ghost from_gives = { λ _ e. e ≡ OutOfMemory };

    fn from(_: AllocFailed<T>) -> ModelError {
        ModelError::OutOfMemory
    }
}
