//! What a caller knows of a model that it makes from an array of weights, or from another model.

ghost use Rattle.std.specs.Prelude.{◌≡◌, Err, IfOk, map, nat_eq};
ghost use Rattle.constriction.specs.Acceptance.{IsAccepted};
ghost use Rattle.constriction.specs.Entries.{SameEntries};
ghost use Rattle.constriction.specs.Rows.{contiguous_rows};

use crate::any_symbols::{Decoder, Encoder};
use crate::contiguous::Weighted;
use constriction::stream::model::{
    ContiguousLookupDecoderModel, EntropyModel, ModelError, to_generic_encoder_model,
};
use constriction_words::WholeNumber;
use std::alloc::Global;

pub type Lookup = ContiguousLookupDecoderModel<u8, Vec<u8>, Vec<u8>, 6>;

/// The model of four weights. If it is made, it has the rows of the weights, and they are accepted.
/// `InvalidTable` comes only if they are not.
pub fn of_four(alloc: Global, weights: [u8; 4]) -> Result<Weighted<6>, ModelError>
    ensures rows { IfOk result (λ m. ⟦<Weighted<6> as EntropyModel<6>>⟧.rows m
        ≡ contiguous_rows (map ⟦<u8 as WholeNumber>⟧.whole weights)) }
    ensures accepted { IfOk result (λ _. IsAccepted 8 6 (map ⟦<u8 as WholeNumber>⟧.whole weights)) }
    ensures invalid { result ≡ Err ModelError.InvalidTable
        → ¬ (IsAccepted 8 6 (map ⟦<u8 as WholeNumber>⟧.whole weights)) }
{
    Weighted::from_nonzero_fixed_point_probabilities(alloc, weights, false)
}

/// The same for the lookup model of four weights.
pub fn lookup_of_four(alloc: Global, weights: [u8; 4]) -> Result<Lookup, ModelError>
    ensures rows { IfOk result (λ m. ⟦<Lookup as EntropyModel<6>>⟧.rows m
        ≡ contiguous_rows (map ⟦<u8 as WholeNumber>⟧.whole weights)) }
    ensures invalid { result ≡ Err ModelError.InvalidTable
        → ¬ (IsAccepted 8 6 (map ⟦<u8 as WholeNumber>⟧.whole weights)) }
{
    Lookup::from_nonzero_fixed_point_probabilities(alloc, weights, false)
}

/// The encoder model made from a decoder model. It has the same entries, since a clone of a letter
/// is that letter.
pub fn encoder_of(alloc: Global, model: &Decoder<6>) -> Result<Encoder<6>, ModelError>
    ensures { IfOk result (λ e. SameEntries nat_eq (⟦<Encoder<6> as EntropyModel<6>>⟧.rows e)
        (⟦<Decoder<6> as EntropyModel<6>>⟧.rows model.now)) }
{
    to_generic_encoder_model(alloc, model)
}
