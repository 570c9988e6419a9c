//! Encoders that hash, of given weights or of any model that can be walked through.
//!
//! The encoder of any symbols finds the entry of a symbol by its hash. The laws of symbol tables
//! say what a walk gives.
#![tactic(auto)]

mod convert;
mod hash_table;
mod hashed;
pub mod laws;
mod walking;

pub use crate::convert::{EncoderMadeOf, to_generic_encoder_model};
pub use crate::hashed::{
    DefaultNonContiguousCategoricalEncoderModel, NonContiguousCategoricalEncoderModel,
    SmallNonContiguousCategoricalEncoderModel,
};
