//! Sources over iterators.

mod fallible;
mod infallible;

pub use self::fallible::FallibleIteratorReadWords;
pub use self::infallible::InfallibleIteratorReadWords;
use std::iter::Fuse;

/// The iterator that a source turns into, over the items that are left.
pub type FusedWords<Iter> = Fuse<Iter>;
