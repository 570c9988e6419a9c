//! Forms of a decoder.

ghost use Rattle.std.specs.List.{IsDistinct};
ghost use Rattle.constriction_model.specs.Rows.{symbols_of};

use crate::decoder_form::DecoderForm;
use constriction_conversions::laws::{
    non_contiguous_lookup_symbols_differ, non_contiguous_symbols_differ,
};
use constriction_model::EntropyModel;
use constriction_words::IndexWord;

/// No two symbols of a [`DecoderForm`] are equal, however it was made.
pub fn form_symbols_differ<Symbol: Eq, Probability: IndexWord, const PRECISION: usize>()
    ensures { (form : _) → IsDistinct Symbol.eq (symbols_of
        (⟦<DecoderForm<Symbol, Probability, PRECISION> as EntropyModel<PRECISION>>⟧.rows form)) }
{
    non_contiguous_symbols_differ::<Symbol, Probability, Vec<(Probability, Symbol)>, PRECISION>();
    non_contiguous_lookup_symbols_differ::<
        Symbol,
        Probability,
        Vec<(Probability, Symbol)>,
        Vec<Probability>,
        PRECISION,
    >();
}
