//! Why a symbol was not encoded.

use thiserror::Error;

/// Why a symbol was not encoded, apart from the words that it takes.
#[derive(Debug, PartialEq, Eq, Drop, Error)]
pub enum EncoderFrontendError {
    #[error("Tried to encode symbol that has zero probability under the used entropy model.")]
    ImpossibleSymbol,
    /// Memory to learn the symbol was refused.
    #[error("Memory to learn the symbol was refused.")]
    OutOfMemory,
}
