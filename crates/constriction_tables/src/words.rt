//! The words that hold a row.

mod u32;
mod u64;
