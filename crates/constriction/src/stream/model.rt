//! Entropy models: which interval of quantiles each symbol has.

pub use constriction_categorical::{
    AnswersRows, ContiguousCategoricalEntropyModel, ContiguousLookupDecoderModel,
    ContiguousSymbolTable, DecoderMadeOf, DefaultContiguousCategoricalEntropyModel,
    DefaultContiguousLookupDecoderModel, DefaultNonContiguousCategoricalDecoderModel,
    DefaultNonContiguousLookupDecoderModel, IterableEntropyModel, LookupDecoderModel, LookupMadeOf,
    NonContiguousCategoricalDecoderModel, NonContiguousLookupDecoderModel,
    NonContiguousSymbolTable, SlottedContiguousLookupDecoderModel,
    SlottedNonContiguousLookupDecoderModel, SmallContiguousCategoricalEntropyModel,
    SmallContiguousDirectLookupDecoderModel, SmallContiguousLookupDecoderModel,
    SmallNonContiguousCategoricalDecoderModel, SmallNonContiguousDirectLookupDecoderModel,
    SmallNonContiguousLookupDecoderModel, StoresRows, to_generic_decoder_model,
    to_generic_decoder_model_of_distinct, to_generic_lookup_decoder_model,
    to_generic_lookup_decoder_model_of_distinct, to_generic_slotted_lookup_decoder_model,
};
pub use constriction_conversions::{
    DefaultNonContiguousCategoricalEncoderModel, EncoderMadeOf,
    NonContiguousCategoricalEncoderModel, SmallNonContiguousCategoricalEncoderModel,
    to_generic_encoder_model,
};
pub use constriction_model::{
    DecoderModel, DefaultUniformModel, EncoderModel, EntropyModel, ModelError, Probe,
    SmallUniformModel, UniformModel, UniformSymbolTable, Weight, is_quantile, row_of_quantile,
};
pub use constriction_stored_rows::{CdfEntry, CdfProbe, Cumulative, CumulativeAndSymbol};
