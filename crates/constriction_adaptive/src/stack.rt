//! Predicted symbols on a stack coder.
//!
//! A stack gives back last what was encoded first. So symbols are predicted from the first to the
//! last, and then encoded from the last to the first: decoding gives and predicts them in order.

mod entries;
mod runs;
mod stored_entry;

pub use self::runs::{
    encode_adaptively, encode_adaptively_from_iter, symbols_come_back, there_and_back,
};
