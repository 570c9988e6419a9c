//! The unsigned integers of std as whole numbers, a file for each width.

mod u128;
mod u16;
mod u32;
mod u64;
mod u8;
mod usize;
