//! Why weights, a model or a table were not written or read.

use thiserror::Error;

/// Why no model was read.
#[derive(Debug, PartialEq, Eq, Drop, Error)]
pub enum ReadingError {
    #[error("The words end before the weights do.")]
    TooFewWords,
    #[error("No model has these weights for these symbols.")]
    NotAccepted,
    #[error("Memory for the model was refused.")]
    OutOfMemory,
}

/// Why no weights were written.
#[derive(Debug, PartialEq, Eq, Drop, Error)]
pub enum StoringError {
    #[error("There are too many weights.")]
    TooManyWeights,
    #[error("Memory for a row of the model was refused.")]
    OutOfMemory,
}

/// Why no table was read.
#[derive(Debug, PartialEq, Eq, Drop, Error)]
pub enum TableReadingError {
    /// Bytes after them are needed.
    #[error("The bytes end before the table does.")]
    TooFewBytes,
    /// The total is not `2^PRECISION`, there are more weights than asked for, a run has no zeros or
    /// follows a run, or a bit after the last weight is not 0.
    #[error("The bytes do not begin with a table.")]
    NotATable,
    #[error("Memory for the weights was refused.")]
    OutOfMemory,
}

/// Why no table was written.
#[derive(Debug, PartialEq, Eq, Drop, Error)]
pub enum TableWritingError {
    /// There are more than `2^15`, or their total is not `2^PRECISION`.
    #[error("The weights are not those of a table.")]
    NotATable,
    #[error("Memory for the table was refused.")]
    OutOfMemory,
}
