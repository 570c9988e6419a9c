//! The sizes of the tests of size. They are far above those of other tests.

/// How many symbols, weights, items, queries, calls of a cursor or steps of a chain.
pub const MANY: usize = 5000;

/// How many words of a stack.
pub const MANY_WORDS: usize = 100_000;
