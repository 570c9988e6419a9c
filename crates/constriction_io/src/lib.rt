//! Reads and writes that go on until all is done, and what is known after an error.
//!
//! The methods of the standard library that do so, as `write_all`, say little after an error.
#![tactic(auto)]

mod reading;
mod writing;

pub use crate::reading::{ReadError, read_up_to};
pub use crate::writing::{WriteError, write_whole};
