//! Words of a fixed width, the order in which words are read back, and the errors of coders.
//!
//! A probability and a unit of compressed data are both words. A coder fails by itself, or because
//! the backend that holds its words failed.
#![tactic(auto)]

mod bit_array;
mod coder_error;
mod infallible;
mod position;
mod read_write_error;
mod semantics;
mod words;

pub use crate::bit_array::{BitArray, NonZeroBitArray};
pub use crate::coder_error::{CoderError, DefaultEncoderFrontendError, NanError};
pub use crate::infallible::UnwrapInfallible;
pub use crate::position::{Pos, PosSeek, Seek};
pub use crate::read_write_error::ReadWriteError;
pub use crate::semantics::{Queue, Semantics, Stack};
pub use constriction_numbers::{IndexWord, WholeNumber};
