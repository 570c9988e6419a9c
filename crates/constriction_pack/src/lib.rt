//! Whole files packed by the coders, and unpacked again.
//!
//! [`pack`] and [`unpack`] go from any reader to any writer, block by block. [`pack_block`] and
//! [`unpack_block`] turn the bytes of one block into a shorter content and back. [`laws`] says what
//! comes back.
//!
//! A packed file is a signature and a frame for each block. The last frame is marked, and nothing
//! follows it. All numbers have the lowest byte first.
//!
//! 1. The signature is `cpk3` and the bytes 13, 10, 26, 10, so that a file is noticed whose ends of
//!    lines were changed.
//! 2. A frame is a header, a content and a checksum. The header has five bytes: a tag, which is the
//!    number of the content's [`Kind`], and 128 more in the last frame; the number of the content's
//!    bytes, at most 2^23, in three bytes; and the exclusive or of these four. The checksum has
//!    eight: the 64-bit FNV-1a hash of the signature, and of the headers and contents of this frame
//!    and of all before it.
//! 3. [`Kind`] says what a content is. [`pack`] takes the shortest of the kinds that a [`Level`]
//!    tries, or one that is at most 3 bytes longer. [`unpack`] takes any, and blocks of any length
//!    up to 2^23. A content by contexts has a word for each 2^12 bytes of its block, or more: what
//!    is read bounds the time of [`unpack`].
//!
//! [`unpack`] reads files of the format before, too. Their signature is `cpk2` and the same bytes,
//! the hashes are without it, and a content by contexts may have fewer words.
#![tactic(auto)]

mod block;
mod coding;
mod fault;
mod format;
mod frame;
mod kind;
pub mod laws;
mod leb128;
mod level;
mod matched;
mod packing;
pub mod plane;
mod predicted;
mod reading;
mod unpacking;

pub use crate::block::{pack_block, unpack_block};
pub use crate::fault::PackError;
pub use crate::kind::Kind;
pub use crate::level::Level;
pub use crate::packing::pack;
pub use crate::unpacking::unpack;
