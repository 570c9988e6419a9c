//! Predicted symbols in a range coder: what was encoded first is decoded first.

mod encoding;
mod messages;

pub use self::encoding::{encode_adaptively, encode_next};
pub use self::messages::{
    decode_message, decode_message_of, encode_message, message_comes_back, one_message_from,
    symbols_come_back,
};
