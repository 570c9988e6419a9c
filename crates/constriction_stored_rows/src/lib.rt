//! How models of given weights store their rows: reading and judging weights and symbols, probes of
//! the stored rows, the row at an index, and the rows that meet a slot.
//!
//! Rows are stored as a plain list: a cdf, which is the left cumulatives and after them the total,
//! or one pair of a left cumulative and a symbol for each row. The models of the crate above hold
//! the list, and their ghost fields cite the definitions here.
#![tactic(auto)]

mod apart;
mod cdf_probe;
mod ends;
mod filling;
mod judging;
mod paired;
mod reading;
mod slots;
mod stored;
mod uncompared;

pub use crate::apart::{are_apart, are_in_order};
pub use crate::cdf_probe::{CdfEntry, CdfProbe, Cumulative, CumulativeAndSymbol};
pub use crate::ends::{
    cloned_row_by_words, cloned_row_in_cdf, end_in_walk, end_words_of, paired_row_at,
    paired_row_ending_at, with_cdf,
};
pub use crate::filling::{
    cdf_of, copy_of, entries_announced, push_item, refill_cdf, rows_announced,
};
pub use crate::judging::is_cdf;
pub use crate::paired::{entries_cloned, has_symbol};
pub use crate::reading::{TakesRows, rows_read};
pub use crate::slots::{row_in_slot, slot_probe, table_of_slots, words_of_table};
pub use crate::stored::{
    cdf_row_at, contiguous_entry_of, contiguous_row_at, contiguous_row_of_quantile,
};
pub use crate::uncompared::entries_read;
