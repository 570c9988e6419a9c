//! A range coder: what was encoded first is decoded first.

mod bit;
mod carrying;
mod decoding;
mod encoded_words;
mod interval;
mod parts;
mod positions;
mod range_decoder;
mod range_encoder;

pub use self::decoding::DecoderContent;
pub use self::encoded_words::EncodedWords;
pub use self::positions::RangeCoderState;
pub use self::range_decoder::{DecoderFrontendError, RangeDecoder};
pub use self::range_encoder::RangeEncoder;
