//! Constructors and conversions of symbols that the caller knows to differ.

ghost use Rattle.std.specs.Prelude.{nat_eq};
ghost use Rattle.std.specs.List.{IsDistinct};
ghost use Rattle.constriction.specs.Rows.{symbols_of};

use crate::checks::same;
use crate::model_checks::{has_row, small};
use constriction::laws::{
    contiguous_symbols_differ, non_contiguous_symbols_differ, symbols_and_weights_rebuild,
};
use constriction::stream::model::{
    DecoderModel, EntropyModel, ModelError, NonContiguousCategoricalDecoderModel,
    NonContiguousLookupDecoderModel, to_generic_decoder_model_of_distinct,
    to_generic_lookup_decoder_model_of_distinct,
};
use constriction_tables::DirectTableModel;
use constriction_tables::laws::direct_table_symbols_differ;
use constriction_test_support::any_symbols::{Decoder, SYMBOLS, WEIGHTS, plain};
use constriction_test_support::contiguous::Small;
use std::alloc::Global;
use std::process::Abort;

type Numbers = NonContiguousCategoricalDecoderModel<usize, u8, Vec<(u8, usize)>, 6>;

type Bytes = NonContiguousCategoricalDecoderModel<u8, u32, Vec<(u32, u8)>, 6>;

type NumberLookup = NonContiguousLookupDecoderModel<usize, u8, Vec<(u8, usize)>, Vec<u8>, 6>;

/// The model of four numbers that the caller knows to differ.
fn of_distinct(alloc: Global, symbols: [usize; 4], weights: [u8; 4]) -> Result<Numbers, ModelError>
    requires { IsDistinct nat_eq symbols }
{
    Numbers::from_distinct_symbols_and_nonzero_fixed_point_probabilities(
        alloc, symbols, weights, false,
    )
}

/// Asserts that a lookup model was made, and that the row of the quantile 21 has this number.
fn looks_up(rt: &impl Abort, made: Result<NumberLookup, ModelError>, number: usize) {
    let model = made.expect(rt, "a model");
    same(rt, plain(model.quantile_function(21)), Ok((number, 21, 1)));
}

#[test]
fn numbers_that_are_known_to_differ_are_decoded(rt: HostRuntime) {
    let made = of_distinct(rt.alloc(), [7, 3, 9, 5], WEIGHTS).expect(&rt, "a model");
    same(&rt, plain(made.quantile_function(20)), Ok((3, 3, 18)));
    looks_up(&rt, made.into_lookup_decoder_model(rt.alloc()), 9);
}

/// No two symbols of a contiguous model are equal.
fn numbers_differ(model: &Small)
    ensures { IsDistinct nat_eq (symbols_of (⟦<Small as EntropyModel<6>>⟧.rows model.now)) }
{
    contiguous_symbols_differ();
}

/// The lookup model over any symbols with the rows of a contiguous model.
#[tactic(auto, using(crate::proofs::DistinctLemmas::same_are_equal))]
fn of_contiguous(alloc: Global, model: &Small) -> Result<NumberLookup, ModelError> {
    numbers_differ(model);
    to_generic_lookup_decoder_model_of_distinct(alloc, model)
}

/// No two letters of a decoder model are equal, however it was made.
fn letters_differ(model: &Decoder<6>)
    ensures { IsDistinct nat_eq (symbols_of (⟦<Decoder<6> as EntropyModel<6>>⟧.rows model.now)) }
{
    non_contiguous_symbols_differ::<char, u8, Vec<(u8, char)>, 6>();
}

/// A decoder model with the rows of another one. Symbols and weights of a decoder model are always
/// accepted.
#[tactic(auto, using(crate::proofs::DistinctLemmas::same_are_equal))]
fn again(alloc: Global, model: &Decoder<6>) -> Result<Decoder<6>, ModelError> {
    letters_differ(model);
    symbols_and_weights_rebuild::<&Decoder<6>, 6>();
    to_generic_decoder_model_of_distinct(alloc, model)
}

/// No two bytes of a table are equal.
fn bytes_differ(table: &DirectTableModel<u32, 6>)
    ensures { IsDistinct nat_eq
        (symbols_of (⟦<DirectTableModel<u32, 6> as EntropyModel<6>>⟧.rows table.now)) }
{
    direct_table_symbols_differ::<u32, 6>();
}

/// The decoder model with the rows of a table.
#[tactic(auto, using(crate::proofs::DistinctLemmas::same_are_equal))]
fn of_table(alloc: Global, table: &DirectTableModel<u32, 6>) -> Result<Bytes, ModelError> {
    bytes_differ(table);
    to_generic_decoder_model_of_distinct(alloc, table)
}

/// The decoder model of letters, by the constructor that hashes.
fn hashed(alloc: Global) -> Result<Decoder<6>, ModelError> {
    Decoder::from_hashable_symbols_and_nonzero_fixed_point_probabilities(
        alloc, SYMBOLS, WEIGHTS, false,
    )
}

#[test]
fn models_whose_symbols_differ_are_converted(rt: HostRuntime) {
    looks_up(&rt, of_contiguous(rt.alloc(), &small(&rt, rt.alloc())), 2);
    let model = hashed(rt.alloc()).expect(&rt, "a model");
    has_row(&rt, &again(rt.alloc(), &model).expect(&rt, "a model"));
    let made = DirectTableModel::from_nonzero_fixed_point_probabilities(
        rt.alloc(),
        &[21, 1, 42],
        false,
    );
    let table = made.expect(&rt, "a table");
    let decoder = of_table(rt.alloc(), &table).expect(&rt, "a model");
    let (symbol, left, weight) = decoder.quantile_function(21).expect(&rt, "a row");
    same(&rt, (symbol, left, weight.get()), (1, 21, 1));
}
