//! A caller's own word type: a sample of 16 bits, over `u16`.
//!
//! The traits build on one another, so the files are best read in this order: `operators`,
//! `number`, `checked`, `integer`, then `nonzero`, `whole_number` and `word`.

mod checked;
mod integer;
mod nonzero;
mod number;
mod operators;
mod whole_number;
mod word;

pub use crate::own_word::nonzero::NonZeroSample;
use std::fmt;
use std::fmt::{Display, Formatter, Write};

/// A sample of 16 bits: a number from 0 to 65535.
#[derive(Clone, Copy, Debug, Default, PartialEq, Eq, PartialOrd, Ord, Hash)]
pub struct Sample(pub u16);

impl Display for Sample {
    fn fmt<W: Write>(&self, f: &mut Formatter<W>) -> fmt::Result {
        Display::fmt(&self.0, f)
    }
}
