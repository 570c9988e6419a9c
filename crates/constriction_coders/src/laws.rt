//! What comes back, each law the contract of a function.

use thiserror::Error;

mod any;
mod plain_bits;
mod queue;
mod stack;

pub use self::any::ComesBack;
pub use self::plain_bits::plain_bits_come_back;
pub use self::queue::{
    message_comes_back, message_from, message_of, one_message, published_message,
    range_pairs_come_back, range_place_comes_back, range_places_come_back, range_symbols_come_back,
    sealed_words_tell,
};
pub use self::stack::{
    back_and_there, binary_comes_back, bits_come_back, compressed_comes_back, compressed_once,
    decoded_goes_back, encoded_in_turn, encoded_once, may_be_held, pairs_come_back,
    places_come_back, symbols_come_back, there_and_back,
};

/// Why a message did not come back.
#[derive(Debug, Drop, Error)]
pub enum MessageError<EncodingError, DecodingError> {
    #[error("A symbol was not encoded.")]
    Encoding(EncodingError),
    #[error("A symbol was not decoded.")]
    Decoding(DecodingError),
}
