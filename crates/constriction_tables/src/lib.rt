//! An entropy model with one entry for each quantile, so that a look-up is one load.
//!
//! An entry holds the whole row of its quantile in one word: symbol, left cumulative and weight. A
//! second list has the prepared entry of each symbol, made once, so one model serves decoders and
//! encoders, and a stack coder encodes without a division.
#![tactic(auto)]

mod by_model;
mod by_number;
mod by_symbol;
mod entry;
pub mod laws;
mod making;
mod model;
mod partial;
mod symbol_table;
mod words;

pub use crate::entry::TableEntry;
pub use crate::model::{DirectTableModel, SmallDirectTableModel, WideDirectTableModel};
pub use crate::symbol_table::DirectSymbolTable;
