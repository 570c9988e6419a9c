//! What an entropy model is: its rows, the calls of an encoder and of a decoder, and what follows.
//!
//! A model divides the quantiles `0..2^PRECISION` among symbols: each symbol has an interval of
//! them. The traits say which rows a model has and what it answers, over words that are a
//! [`WholeNumber`](constriction_numbers::WholeNumber). The crate also has the counted search of any
//! list of cumulatives, the laws of all models, and the uniform models, which divide and store no
//! rows.
#![tactic(auto)]

mod error;
pub mod laws;
mod probe;
mod quantile;
mod reference;
mod search;
mod traits;
mod uniform;

pub use crate::error::ModelError;
pub use crate::probe::Probe;
pub use crate::quantile::is_quantile;
pub use crate::search::{row_in_probe, row_of_quantile};
pub use crate::traits::{DecoderModel, EncoderModel, EntropyModel, Weight};
pub use crate::uniform::symbol_table::UniformSymbolTable;
pub use crate::uniform::{DefaultUniformModel, SmallUniformModel, UniformModel};
