//! Backends that a coder reads compressed data from and writes it to: cursors over buffers,
//! reversed backends, and the sources and sinks of the crate below.
#![tactic(auto)]

mod convert;
mod cursor;
mod error;
pub mod laws;
mod part;
mod reverse;

pub use crate::convert::{AsReadWords, AsSeekReadWords, IntoReadWords, IntoSeekReadWords};
pub use crate::cursor::Cursor;
pub use crate::error::BoundedWriteError;
pub use crate::reverse::Reverse;
pub use constriction_buffers::{SafeBuf, SafeBufMut};
pub use constriction_sources::{
    BoundedReadWords, BoundedWriteWords, FallibleCallbackWriteWords, FallibleIteratorReadWords,
    FusedWords, InfallibleCallbackWriteWords, InfallibleIteratorReadWords, ReadWords, StackSource,
    WordStack, WriteWords,
};
pub use constriction_words::ReadWriteError;
