//! Lookup models with 4,194,304 rows in a slot: how many questions a search of these asks, and that
//! a look-up does not go over them.

ghost use Rattle.std.specs.Prelude.{◌<◌, ◌^◌};

use crate::checks::same_at;
use constriction::laws::contiguous_symbols_differ;
use constriction::stream::model::{
    ContiguousLookupDecoderModel, DecoderModel, ModelError, NonContiguousLookupDecoderModel, Probe,
    row_of_quantile, to_generic_lookup_decoder_model_of_distinct,
};
use constriction_test_support::plain_rows::row;
use constriction_test_support::widths::Model;
use std::alloc::Global;
use std::iter;

/// A lookup model with 256 slots, the default.
type Lookup<const PRECISION: usize> = ContiguousLookupDecoderModel<
    usize,
    Vec<usize>,
    Vec<usize>,
    PRECISION,
>;

/// The same over any symbols, with as many quantiles as the largest model here.
type AnySymbols = NonContiguousLookupDecoderModel<
    usize,
    usize,
    Vec<(usize, usize)>,
    Vec<usize>,
    40,
>;

/// Whether a quantile has a row of its own, and a search of its slot finds this row by at most 22
/// questions.
fn is_found(model: &Lookup<40>, quantile: usize) -> bool
    requires { quantile < 2 ^ 40 }
{
    let (first, mut rows) = model.quantile_probe(quantile);
    let index = row_of_quantile(&mut rows, quantile);
    let answer = row(Some(model.quantile_function(quantile)));
    answer == Some((quantile, quantile, 1))
        && first.wrapping_add(index) == quantile
        && rows.asked() <= 22
}

/// The model has 4,194,303 rows of weight 1 in the first slot, and one row with all other
/// quantiles. A search of the probe finds each row of weight 1 by at most 22 questions. No clause
/// says that a look-up searches too. If it went over the rows, these 4,194,303 look-ups would not
/// end within a minute.
#[test]
fn a_slot_that_4_194_304_rows_meet_is_searched(rt: HostRuntime) {
    let ones = iter::repeat_n(1usize, 4_194_303);
    let made = Lookup::<40>::from_nonzero_fixed_point_probabilities(rt.alloc(), ones, true);
    let model = made.expect(&rt, "accepted");
    for quantile in 0..4_194_303usize {
        same_at(&rt, quantile, is_found(&model, quantile), true);
    }
}

/// The lookup model over any symbols with the rows of a model of weights.
#[tactic(auto, using(crate::proofs::DistinctLemmas::same_are_equal))]
fn any_symbols(alloc: Global, numbers: &Model<usize, 40>) -> Result<AnySymbols, ModelError> {
    contiguous_symbols_differ();
    to_generic_lookup_decoder_model_of_distinct(alloc, numbers)
}

/// The same for the lookup model over any symbols with these rows.
#[test]
fn a_slot_of_any_symbols_that_4_194_304_rows_meet_is_searched(rt: HostRuntime) {
    let ones = iter::repeat_n(1usize, 4_194_303);
    let made = Model::<usize, 40>::from_nonzero_fixed_point_probabilities(rt.alloc(), ones, true);
    let numbers = made.expect(&rt, "accepted");
    let model = any_symbols(rt.alloc(), &numbers).expect(&rt, "a lookup model");
    for quantile in 0..4_194_303usize {
        let answer = row(Some(model.quantile_function(quantile)));
        same_at(&rt, quantile, answer, Some((quantile, quantile, 1)));
    }
}
