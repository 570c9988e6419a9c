//! The decoder model over any symbols, with words of `u8`.

use constriction::stream::model::NonContiguousCategoricalDecoderModel;

/// A decoder model over any symbols.
pub type Decoder<Symbol, const PRECISION: usize> = NonContiguousCategoricalDecoderModel<
    Symbol,
    u8,
    Vec<(u8, Symbol)>,
    PRECISION,
>;
