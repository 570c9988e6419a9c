//! What the tests of several crates share: models with their rows, and calls that ask them; a word
//! type of a caller's own; and functions that borrow the words of a cursor.
//!
//! They stand here so that they are proved once. The crates of tests that use them are proved
//! twice, with and without their tests.
#![tactic(auto)]

pub mod any_symbols;
pub mod contiguous;
pub mod conversions;
pub mod given;
pub mod lent;
pub mod lookup_any_symbols;
pub mod marked;
pub mod own_model;
pub mod own_word;
pub mod plain_rows;
pub mod sizes;
pub mod symbol_types;
pub mod watched;
pub mod widths;
