//! Texts whose lines ask for the rows of models.
//!
//! [`run`] reads an input to its end and writes the answer to each of its lines. [`parse`] reads
//! what a line asks for, and [`answer`] answers one.
#![tactic(auto)]

mod answers;
mod fault;
mod format_word;
pub mod laws;
mod line;
mod program;

pub use crate::answers::answer;
pub use crate::fault::RunFault;
pub use crate::line::{Command, Format, cut, parse, parse_number};
pub use crate::program::{first_line, read_input, run};
