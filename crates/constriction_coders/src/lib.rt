//! Coders over any model, in the formats of the Rust crate's `DefaultAnsCoder`,
//! `DefaultRangeEncoder` and `DefaultRangeDecoder`.
//!
//! [`stack::AnsCoder`] encodes and decodes over any stack of words. [`queue::RangeEncoder`] encodes
//! into words in memory, and [`queue::RangeDecoder`] decodes over any source that is read from its
//! beginning on. [`counts`] makes weights of counts, [`bytes`] turns words into bytes and back, and
//! [`laws`] says what comes back. Functions over any coder ask for [`Encode`] or [`Decode`].
#![tactic(auto)]

pub mod bytes;
mod code;
pub mod counts;
mod decode;
mod encode;
mod entry;
mod into_decoder;
pub mod laws;
mod model_word;
pub mod queue;
mod side_by_side;
pub mod stack;
mod with_model;

pub use self::code::Code;
pub use self::decode::{
    Decode, DecodeIidSymbols, DecodeSymbols, decode_iid_symbols, decode_symbols,
};
pub use self::encode::Encode;
pub use self::into_decoder::IntoDecoder;
pub use self::model_word::ModelWord;
pub use self::side_by_side::{DecodeTwoError, decode_two};
