//! What the laws of models give a caller, over the contiguous model, and over a model of the
//! caller's own with its own symbol table.

ghost use Rattle.std.specs.Prelude.{◌≡◌, ◌↔◌, ◌<◌, ◌≤◌, ◌^◌, ◌-◌, ℕ, [], ◌∷◌, length, map, drop, IfOk};
ghost use Rattle.std.specs.Iterator.{at_most};
ghost use Rattle.std.proofs.Common.{lit<, lit≤, rules};
ghost use Rattle.constriction.specs.Rows.{Row, IsRowOf, rows_of};
ghost use Rattle.constriction.specs.Model.{row_of, ClonesAreSame};
ghost use Rattle.constriction.specs.Tables.{YieldsRow};

use crate::checks::same;
use crate::model_checks::small;
use constriction::laws::{
    contiguous_symbols_differ, equal_answers, pairs_are_quantiles, table_gives_all_rows,
    table_length, table_walks_rows_from_both_ends,
};
use constriction::stream::model::{
    DecoderModel, EncoderModel, EntropyModel, IterableEntropyModel, UniformModel, Weight,
};
use constriction_test_support::any_symbols::{Encoder, entry};
use constriction_test_support::contiguous::Weighted;
use constriction_test_support::symbol_types::{LetterDecoder, letters};
use constriction_words::{BitArray, WholeNumber};
use std::alloc::{AllocError, Global};

/// Decodes a quantile to a symbol and an offset, and encodes these to the same quantile.
fn back(model: &Weighted<6>, quantile: u8) -> u8
    requires { quantile < 64 }
    ensures { result ≡ quantile }
{
    contiguous_symbols_differ();
    pairs_are_quantiles::<Weighted<6>, Weighted<6>, 6>();
    let (symbol, left, _) = match model.quantile_function(quantile) {
        Ok(row) => row,
        Err(AllocError) => unreachable!(),
    };
    let offset = quantile - left;
    match model.left_cumulative_and_probability(&symbol) {
        Some((left, _)) => left + offset,
        None => unreachable!(),
    }
}

/// How many items the symbol table of a model has. They are as many as the rows.
fn count<M, const PRECISION: usize>(model: M) -> usize
where
    M: IterableEntropyModel<PRECISION>,
    M::Symbol: Drop,
    requires few { length (M.rows model) < 2 ^ 64 }
    ensures { result ≡ length (M.rows model) }
{
    table_length::<M, PRECISION>();
    model.symbol_table().count()
}

/// How many items the symbol table of letters has, and how many letters the model has. The two are
/// equal even if a letter fails to clone.
fn items_and_letters(model: &LetterDecoder) -> (usize, usize)
    ensures { result.0 ≡ result.1 }
{
    let letters = model.support_size();
    (count(model), letters)
}

/// Each symbol table of the library gives each row once by steps from both ends.
fn both_ends_give_each_row() {
    table_walks_rows_from_both_ends::<&Weighted<6>, 6>();
    table_walks_rows_from_both_ends::<UniformModel<u8, 6>, 6>();
    table_walks_rows_from_both_ends::<&LetterDecoder, 6>();
}

/// The rows that the symbol table of a model of letters gives.
fn read_rows<M>(alloc: Global, model: M) -> Result<Rows, AllocError>
where
    M: IterableEntropyModel<6, Symbol = char, Probability = u8>,
    requires clones { ClonesAreSame M.stands_for }
    ensures { IfOk result (λ rows. map
        (row_of ⟦<u8 as WholeNumber>⟧.whole ⟦<u8 as WholeNumber>⟧.base) rows.items ≡ M.rows model) }
{
    table_gives_all_rows::<M, 6>();
    let mut rows = Vec::new(alloc);
    for item in model.symbol_table() {
        rows.push(item?)?;
    }
    Ok(rows)
}

/// What [`read_rows`] returns.
type Rows = Vec<(char, u8, Weight<u8>)>;

/// The rows of two models that answer alike, each read from its own symbol table. They are the
/// same.
fn read_both<M, N>(alloc: Global, model: M, other: N) -> Result<(Rows, Rows), AllocError>
where
    M: DecoderModel<6> + IterableEntropyModel<6> + EntropyModel<6, Symbol = char, Probability = u8>,
    N: DecoderModel<6>
        + IterableEntropyModel<6>
        + EntropyModel<6, Symbol = char, Probability = u8>
        + Drop,
    requires clones { ClonesAreSame M.IterableEntropyModel.stands_for }
    requires other_clones { ClonesAreSame N.IterableEntropyModel.stands_for }
    requires alike { (q : ℕ) (r : Row ℕ) → q < 2 ^ 6
        → IsRowOf (M.rows model) q r ↔ IsRowOf (N.rows other) q r }
    ensures { IfOk result (λ t. map (row_of ⟦<u8 as WholeNumber>⟧.whole ⟦<u8 as WholeNumber>⟧.base)
        t.0.items ≡ map (row_of ⟦<u8 as WholeNumber>⟧.whole ⟦<u8 as WholeNumber>⟧.base) t.1.items) }
{
    equal_answers::<M, N, 6>();
    match (read_rows(alloc, model), read_rows(alloc, other)) {
        (Ok(rows), Ok(others)) => Ok((rows, others)),
        _ => Err(AllocError),
    }
}

/// A model of the caller's own with two rows of one letter: `a` has the quantiles below 32, and
/// again those from 32 on.
#[derive(Clone, Copy)]
struct Twice;

impl EntropyModel<6> for Twice {
    type Symbol = char;

    type Probability = u8;

    ghost rows = { λ _. rows_of (97 ∷ 97 ∷ []) (32 ∷ 32 ∷ []) };

    ghost precision_law = { λ _. record { positive = lit< tt; fits = lit≤ tt } };
}

impl DecoderModel<6> for Twice {
    ghost stands_for = { λ s t. t ≡ s };

    ghost may_refuse = { λ _. ⊥ };

    fn quantile_function(&self, quantile: u8) -> Result<(char, u8, Weight<u8>), AllocError> {
        let left = if quantile < 32 { 0 } else { 32 };
        Ok(('a', left, 32u8.into_nonzero_unchecked()))
    }

    ghost tile_law = { λ _. Prim.search rules };
}

/// Its symbol table.
#[derive(Drop)]
struct TwiceSymbolTable {
    next: u8,
    ghost within: { next ≤ 2 },
}

impl Iterator for TwiceSymbolTable {
    type Item = Result<(char, u8, Weight<u8>), AllocError>;

    ghost next_gives = { YieldsRow (λ s t. t ≡ s) (λ _. ⊥) ⟦<u8 as WholeNumber>⟧.whole
        ⟦<u8 as WholeNumber>⟧.base (λ t. drop t.next (rows_of (97 ∷ 97 ∷ []) (32 ∷ 32 ∷ []))) };

    ghost remaining = { λ t. at_most (2 - t.next) };

    fn next(&mut self) -> Option<Result<(char, u8, Weight<u8>), AllocError>> {
        let left = match self.next {
            0 => 0,
            1 => 32,
            _ => return None,
        };
        self.next += 1;
        Some(Ok(('a', left, 32u8.into_nonzero_unchecked())))
    }
}

impl IterableEntropyModel<6> for Twice {
    type SymbolTable = TwiceSymbolTable;

    ghost stands_for = { λ s t. t ≡ s };

    ghost may_refuse = { λ _. ⊥ };

    ghost rows_left = { λ t. drop t.next (rows_of (97 ∷ 97 ∷ []) (32 ∷ 32 ∷ [])) };

    fn symbol_table(self) -> TwiceSymbolTable {
        TwiceSymbolTable { next: 0 }
    }

    ghost steps_law = { λ t r u h. h };

    ghost tile_law = { λ _. Prim.search rules };
}

/// Its symbol table has two items.
fn count_letters() -> usize
    ensures { result ≡ 2 }
{
    count(Twice)
}

#[test]
fn quantiles_come_back_from_symbols_and_offsets(rt: HostRuntime) {
    let model = small(&rt, rt.alloc());
    for quantile in 0..64u8 {
        same(&rt, back(&model, quantile), quantile);
    }
}

/// The rows read from the model, and from a reference to it.
fn read_letters(alloc: Global) -> Result<(Rows, Rows), AllocError> {
    read_both(alloc, Twice, &Twice)
}

#[test]
fn a_symbol_table_has_an_item_for_each_row(rt: HostRuntime) {
    both_ends_give_each_row();
    let model = letters(rt.alloc()).expect(&rt, "accepted");
    same(&rt, items_and_letters(&model), (3, 3));
}

#[test]
fn a_symbol_table_of_the_caller_is_read(rt: HostRuntime) {
    same(&rt, count_letters(), 2);
    let half = 32u8.into_nonzero_unchecked();
    let expected = [('a', 0, half), ('a', 32, half)];
    let (rows, others) = read_letters(rt.alloc()).expect(&rt, "memory");
    same(&rt, rows.as_slice(), expected.as_slice());
    same(&rt, others.as_slice(), expected.as_slice());
}

/// The encoder model made of it has one symbol, with the entry of the later row.
#[test]
fn an_encoder_has_the_later_one_of_two_rows(rt: HostRuntime) {
    let made = Encoder::<6>::from_iterable_entropy_model(rt.alloc(), Twice);
    let encoder = made.expect(&rt, "a model");
    let found = (entry(&encoder, 'a'), encoder.support_size());
    same(&rt, found, (Some((32, 32)), 1));
}
