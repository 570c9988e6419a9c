//! Entropy models of given weights.
//!
//! Models of the symbols 0, 1, .. and of any symbols, which search for the row of a quantile; the
//! same with a lookup table that says where to search; walks through rows, and decoders and lookup
//! models made of any model that can be walked through. The crate above has encoders that hash.
#![tactic(auto)]

mod contiguous;
mod convert;
mod distinct;
mod iterable;
mod lookup;
mod lookup_contiguous;
mod lookup_non_contiguous;
mod non_contiguous;
mod non_contiguous_table;
mod reference;
mod stores_rows;
mod symbol_table;
mod uniform;
mod walking;

pub use crate::contiguous::{
    ContiguousCategoricalEntropyModel, DefaultContiguousCategoricalEntropyModel,
    SmallContiguousCategoricalEntropyModel,
};
pub use crate::convert::distinct::{
    to_generic_decoder_model_of_distinct, to_generic_lookup_decoder_model_of_distinct,
};
pub use crate::convert::{
    DecoderMadeOf, LookupMadeOf, to_generic_decoder_model, to_generic_lookup_decoder_model,
    to_generic_slotted_lookup_decoder_model,
};
pub use crate::iterable::IterableEntropyModel;
pub use crate::lookup::{LookupDecoderModel, lookup_over};
pub use crate::lookup_contiguous::{
    ContiguousLookupDecoderModel, DefaultContiguousLookupDecoderModel,
    SlottedContiguousLookupDecoderModel, SmallContiguousDirectLookupDecoderModel,
    SmallContiguousLookupDecoderModel,
};
pub use crate::lookup_non_contiguous::{
    DefaultNonContiguousLookupDecoderModel, NonContiguousLookupDecoderModel,
    SlottedNonContiguousLookupDecoderModel, SmallNonContiguousDirectLookupDecoderModel,
    SmallNonContiguousLookupDecoderModel,
};
pub use crate::non_contiguous::{
    DefaultNonContiguousCategoricalDecoderModel, NonContiguousCategoricalDecoderModel,
    SmallNonContiguousCategoricalDecoderModel, decoder_over,
};
pub use crate::non_contiguous_table::NonContiguousSymbolTable;
pub use crate::stores_rows::{AnswersRows, StoresRows};
pub use crate::symbol_table::ContiguousSymbolTable;
