//! Symbols whose models are learned while they are coded.
//!
//! A [`Predictor`] has a model of the next symbol, and learns each symbol that was coded. If an
//! encoder and a decoder begin with predictors in one state, whatever is encoded comes back: as a
//! message of a range coder ([`queue`]), from a stack ([`stack`]), or as numbers whose bits are
//! predicted ([`numbers`]), such as [`bytes`].
#![tactic(auto)]

mod adaptive_bit;
mod bit;
mod by_context;
mod by_mixing;
pub mod bytes;
mod categorical;
mod coder_words;
mod contexts;
mod decoding;
mod error;
mod known_models;
mod last_symbols;
mod mixer;
pub mod mixing;
pub mod numbers;
mod pair;
mod predictor;
pub mod queue;
pub mod stack;
mod uniform_bits;

pub use self::adaptive_bit::AdaptiveBit;
pub use self::bit::Bit;
pub use self::by_context::{ByContext, Context};
pub use self::by_mixing::{BitPredictors, BitSnapshots, ByMixing};
pub use self::categorical::AdaptiveCategorical;
pub use self::contexts::{ByteContexts, HashedContexts, OrderOne};
pub use self::decoding::{decode_adaptively, decode_next};
pub use self::error::EncoderFrontendError;
pub use self::known_models::KnownModels;
pub use self::last_symbols::{LastSymbols, NumberModel};
pub use self::mixer::Mixer;
pub use self::pair::{Pair, pairs_of_numbers_are_same};
pub use self::predictor::{Predictor, Snapshot};
pub use self::uniform_bits::UniformBits;
