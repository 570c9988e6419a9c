//! Backends: what words are written to and read from.

pub use constriction_backends::{
    AsReadWords, AsSeekReadWords, BoundedReadWords, BoundedWriteError, BoundedWriteWords, Cursor,
    FallibleCallbackWriteWords, FallibleIteratorReadWords, FusedWords,
    InfallibleCallbackWriteWords, InfallibleIteratorReadWords, IntoReadWords, IntoSeekReadWords,
    ReadWords, ReadWriteError, Reverse, SafeBuf, SafeBufMut, StackSource, WordStack, WriteWords,
    laws,
};
