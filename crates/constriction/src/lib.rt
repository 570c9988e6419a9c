//! Entropy models in whole numbers, and the words that coders write and read.
//!
//! A model divides the quantiles `0..2^PRECISION` among symbols: each symbol has an interval of
//! them. A coder asks it in one direction when it encodes ([`stream::model::EncoderModel`]) and in
//! the other when it decodes ([`stream::model::DecoderModel`]), and the contracts of the two say
//! that both answer from one list of rows.
//!
//! Names and paths are the same as in the Rust crate `constriction`.
#![tactic(auto)]

pub mod backends;
pub mod laws;
pub mod stream;

pub use constriction_words::{
    BitArray, CoderError, DefaultEncoderFrontendError, IndexWord, NanError, NonZeroBitArray, Pos,
    PosSeek, Queue, Seek, Semantics, Stack, UnwrapInfallible, WholeNumber,
};
