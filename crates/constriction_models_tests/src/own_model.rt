//! The model of a caller's own in `constriction_test_support`: what the caller knows of models that
//! are made from it.

ghost use Rattle.std.specs.Prelude.{◌≡◌, ◌∷◌, [], IfOk, IsErr, nat_eq};
ghost use Rattle.std.specs.List.{IsDistinct};
ghost use Rattle.constriction.specs.Rows.{rows_of, symbols_of};

use crate::checks::same;
use constriction::laws::non_contiguous_symbols_differ;
use constriction::stream::model::{
    DecoderModel, EntropyModel, ModelError, to_generic_decoder_model,
    to_generic_decoder_model_of_distinct,
};
use constriction_test_support::any_symbols::plain;
use constriction_test_support::conversions::Decoder;
use constriction_test_support::own_model::{Triple, three};
use std::alloc::Global;

/// The decoder model of three letters. It has exactly their rows, and is not made if the first
/// letter and the third are the same.
fn decoder_of(alloc: Global, model: &Triple) -> Result<Decoder<char, 3>, ModelError>
    ensures ok { IfOk result (λ d. ⟦<Decoder<char, 3> as EntropyModel<3>>⟧.rows d
        ≡ rows_of (model.now.first ∷ model.now.second ∷ model.now.third ∷ []) (2 ∷ 5 ∷ 1 ∷ [])) }
    ensures repeated { model.now.first ≡ model.now.third → IsErr result }
{
    to_generic_decoder_model(alloc, model)
}

/// No two letters of a decoder model are equal.
fn letters_differ(model: &Decoder<char, 3>)
    ensures { IsDistinct nat_eq
        (symbols_of (⟦<Decoder<char, 3> as EntropyModel<3>>⟧.rows model.now)) }
{
    non_contiguous_symbols_differ::<char, u8, Vec<(u8, char)>, 3>();
}

/// The decoder model of three letters, made without comparing them. They are known to differ,
/// because a decoder model that compares them is made first.
#[tactic(auto, using(crate::proofs::DistinctLemmas::same_are_equal))]
fn decoder_of_distinct(alloc: Global, model: &Triple) -> Result<Decoder<char, 3>, ModelError> {
    letters_differ(&decoder_of(alloc, model)?);
    to_generic_decoder_model_of_distinct(alloc, model)
}

#[test]
fn a_decoder_has_the_rows_of_three_letters_of_the_caller(rt: HostRuntime) {
    let own = three('p', 'q', 'r');
    same(&rt, plain(own.quantile_function(6)), Ok(('q', 2, 5)));
    let model = decoder_of_distinct(rt.alloc(), &own).expect(&rt, "a model");
    same(&rt, plain(model.quantile_function(6)), Ok(('q', 2, 5)));
}
