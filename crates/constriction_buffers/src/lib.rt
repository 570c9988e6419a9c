//! Buffers of words, in which models and cursors hold their words.
//!
//! A [`SafeBuf`] lends its words as a slice, and a [`SafeBufMut`] lends them for writing too.
//! `Vec`, slices and arrays are buffers, and a caller's own type may be one.
#![tactic(auto)]

mod buf;

pub use crate::buf::{SafeBuf, SafeBufMut};
