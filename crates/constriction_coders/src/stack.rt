//! A stack coder over any stack of words: what was encoded last is decoded first.

mod ans_coder;
mod binary;
mod bits;
pub mod bits_back;
mod coding;
mod compressed;
mod iter_compressed;
mod parts;
mod positions;
mod prepared_coding;
mod prepared_entry;
mod prepared_model;
mod runs;
mod state;

pub use self::ans_coder::AnsCoder;
pub use self::coding::StackContent;
pub use self::iter_compressed::CompressedWords;
pub use self::prepared_entry::PreparedEntry;
pub use self::prepared_model::PreparedModel;
