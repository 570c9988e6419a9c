//! Sources and sinks of words: the traits, stacks that grow, sources over iterators and sinks over
//! callbacks.
//!
//! A sink takes words in one order. A source gives them back in an order of its own: last in,
//! first out ([`Stack`](constriction_words::Stack)) or first in, first out
//! ([`Queue`](constriction_words::Queue)).
#![tactic(auto)]

mod callbacks;
mod iterators;
pub mod laws;
mod read;
mod references;
mod small_vec;
mod stack;
mod vec;
mod write;

pub use crate::callbacks::{FallibleCallbackWriteWords, InfallibleCallbackWriteWords};
pub use crate::iterators::{FallibleIteratorReadWords, FusedWords, InfallibleIteratorReadWords};
pub use crate::read::{BoundedReadWords, ReadWords};
pub use crate::stack::{StackSource, WordStack};
pub use crate::write::{BoundedWriteWords, WriteWords};
pub use constriction_words::ReadWriteError;
