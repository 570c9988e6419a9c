//! Words as whole numbers: all that entropy models ask of their words.
//!
//! A [`WholeNumber`] has a width, and calls that compare, add and divide. Each contract says which
//! number results. An [`IndexWord`] is also read as an index, as lookup models need. The unsigned
//! integers of std are both.
#![tactic(auto)]

mod index_word;
mod whole_number;
mod words;

pub use crate::index_word::IndexWord;
pub use crate::whole_number::WholeNumber;
