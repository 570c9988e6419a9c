//! What contracts alone tell a caller that knows the rows of a model: a row, an entry, and the ends
//! of a symbol table. A body that answers otherwise does not meet these contracts, even if the
//! check refuses it at a written proof.

ghost use Rattle.std.specs.Prelude.{◌≡◌, ◌+◌, [], ◌∷◌, Some, None, Ok, Err, IfOk, IsErr, true, false, map, nat_eq};
ghost use Rattle.constriction.specs.Acceptance.{AreAccepted};
ghost use Rattle.constriction.specs.Entries.{SameEntries};
ghost use Rattle.constriction.specs.Probe.{IsRowIndexOf};
ghost use Rattle.constriction.specs.Rows.{contiguous_rows, rows_of};

use crate::checks::same;
use constriction::stream::model::{
    DecoderModel, EncoderModel, EntropyModel, IterableEntropyModel, ModelError,
    NonContiguousCategoricalDecoderModel, NonContiguousCategoricalEncoderModel,
    NonContiguousLookupDecoderModel, Probe, SmallUniformModel, is_quantile, row_of_quantile,
};
use constriction_test_support::contiguous::Weighted;
use constriction_test_support::given::{Lookup, encoder_of, lookup_of_four, of_four};
use constriction_words::{NonZeroBitArray, WholeNumber};
use std::alloc::{AllocError, Global};
use std::process::Abort;

pub type Decoder = NonContiguousCategoricalDecoderModel<char, u8, Vec<(u8, char)>, 6>;

type Encoder = NonContiguousCategoricalEncoderModel<char, u8, 6>;

type Tabled = NonContiguousLookupDecoderModel<char, u8, Vec<(u8, char)>, Vec<u8>, 6>;

/// The row of the quantile 20 of a contiguous model.
fn row_of_20(model: &Weighted<6>) -> Result<(usize, u8, u8), AllocError>
    requires { ⟦<Weighted<6> as EntropyModel<6>>⟧.rows model.now
        ≡ contiguous_rows (3 ∷ 18 ∷ 1 ∷ 42 ∷ []) }
    ensures { result ≡ Ok (1, 3, 18) }
{
    let (symbol, left, weight) = model.quantile_function(20)?;
    Ok((symbol, left, weight.get()))
}

/// The same for a lookup model.
fn looked_up(model: &Lookup) -> Result<(usize, u8, u8), AllocError>
    requires { ⟦<Lookup as EntropyModel<6>>⟧.rows model.now
        ≡ contiguous_rows (3 ∷ 18 ∷ 1 ∷ 42 ∷ []) }
    ensures { result ≡ Ok (1, 3, 18) }
{
    let (symbol, left, weight) = model.quantile_function(20)?;
    Ok((symbol, left, weight.get()))
}

/// The same in a view.
fn looked_up_in_a_view(model: &Lookup) -> Result<(usize, u8, u8), AllocError>
    requires { ⟦<Lookup as EntropyModel<6>>⟧.rows model.now
        ≡ contiguous_rows (3 ∷ 18 ∷ 1 ∷ 42 ∷ []) }
    ensures { result ≡ Ok (1, 3, 18) }
{
    let (symbol, left, weight) = model.as_view().quantile_function(20)?;
    Ok((symbol, left, weight.get()))
}

/// The same for a decoder of letters. The letter of the second row is `x`.
fn letter_of_20(model: &Decoder) -> Result<(char, u8, u8), AllocError>
    requires { ⟦<Decoder as EntropyModel<6>>⟧.rows model.now
        ≡ rows_of (97 ∷ 120 ∷ 99 ∷ 121 ∷ []) (3 ∷ 18 ∷ 1 ∷ 42 ∷ []) }
    ensures { result ≡ Ok (120, 3, 18) }
{
    let (symbol, left, weight) = model.quantile_function(20)?;
    Ok((symbol, left, weight.get()))
}

/// The same for a lookup model of letters.
fn letter_looked_up(model: &Tabled) -> Result<(char, u8, u8), AllocError>
    requires { ⟦<Tabled as EntropyModel<6>>⟧.rows model.now
        ≡ rows_of (97 ∷ 120 ∷ 99 ∷ 121 ∷ []) (3 ∷ 18 ∷ 1 ∷ 42 ∷ []) }
    ensures { result ≡ Ok (120, 3, 18) }
{
    let (symbol, left, weight) = model.quantile_function(20)?;
    Ok((symbol, left, weight.get()))
}

/// The same in a clone.
fn letter_looked_up_in_a_clone(model: &Tabled) -> Result<(char, u8, u8), AllocError>
    requires { ⟦<Tabled as EntropyModel<6>>⟧.rows model.now
        ≡ rows_of (97 ∷ 120 ∷ 99 ∷ 121 ∷ []) (3 ∷ 18 ∷ 1 ∷ 42 ∷ []) }
    ensures { IfOk result (λ row. row ≡ (120, 3, 18)) }
{
    letter_looked_up(&model.clone()?)
}

/// How many symbols a contiguous model has.
fn size(model: &Weighted<6>) -> usize
    requires { ⟦<Weighted<6> as EntropyModel<6>>⟧.rows model.now
        ≡ contiguous_rows (3 ∷ 18 ∷ 1 ∷ 42 ∷ []) }
    ensures { result ≡ 4 }
{
    model.support_size()
}

/// How many symbols a decoder of letters has.
fn number_of_letters(model: &Decoder) -> usize
    requires { ⟦<Decoder as EntropyModel<6>>⟧.rows model.now
        ≡ rows_of (97 ∷ 120 ∷ 99 ∷ 121 ∷ []) (3 ∷ 18 ∷ 1 ∷ 42 ∷ []) }
    ensures { result ≡ 4 }
{
    model.support_size()
}

/// The entry of `x` by an encoder of letters.
fn entry_of_x(model: &Encoder) -> Option<(u8, u8)>
    requires { SameEntries nat_eq (⟦<Encoder as EntropyModel<6>>⟧.rows model.now)
        (rows_of (97 ∷ 120 ∷ 99 ∷ 121 ∷ []) (3 ∷ 18 ∷ 1 ∷ 42 ∷ [])) }
    ensures { result ≡ Some (3, 18) }
{
    let (left, weight) = model.left_cumulative_and_probability(&'x')?;
    Some((left, weight.get()))
}

/// A clone of it, which has the same entries.
fn cloned(model: &Encoder) -> Result<Encoder, AllocError>
    requires { SameEntries nat_eq (⟦<Encoder as EntropyModel<6>>⟧.rows model.now)
        (rows_of (97 ∷ 120 ∷ 99 ∷ 121 ∷ []) (3 ∷ 18 ∷ 1 ∷ 42 ∷ [])) }
    ensures { IfOk result (λ m. SameEntries nat_eq (⟦<Encoder as EntropyModel<6>>⟧.rows m)
        (rows_of (97 ∷ 120 ∷ 99 ∷ 121 ∷ []) (3 ∷ 18 ∷ 1 ∷ 42 ∷ []))) }
{
    model.clone()
}

/// The entry of the second symbol.
fn second_entry(model: &Weighted<6>) -> Option<(u8, u8)>
    requires { ⟦<Weighted<6> as EntropyModel<6>>⟧.rows model.now
        ≡ contiguous_rows (3 ∷ 18 ∷ 1 ∷ 42 ∷ []) }
    ensures { result ≡ Some (3, 18) }
{
    let (left, weight) = model.left_cumulative_and_probability(&1)?;
    Some((left, weight.get()))
}

/// The row of a quantile of a uniform model of five symbols.
fn row_of_819() -> Result<(usize, u16, u16), AllocError>
    ensures { result ≡ Ok (1, 819, 819) }
{
    let (symbol, left, weight) = SmallUniformModel::new(5).quantile_function(819)?;
    Ok((symbol, left, weight.get()))
}

/// The entry of its last symbol.
fn last_entry() -> Option<(u16, u16)>
    ensures { result ≡ Some (3276, 820) }
{
    let (left, weight) = SmallUniformModel::new(5).left_cumulative_and_probability(&4)?;
    Some((left, weight.get()))
}

/// The entry of the number that is 65,536 more than that symbol. It has none.
fn entry_of_65_540() -> Option<(u16, u16)>
    ensures { result ≡ None }
{
    let (left, weight) = SmallUniformModel::new(5).left_cumulative_and_probability(&65_540)?;
    Some((left, weight.get()))
}

/// The symbols at both ends of a symbol table, and how many rows are left between them.
fn ends(model: &Weighted<6>) -> (Option<usize>, Option<usize>, usize)
    requires { ⟦<Weighted<6> as EntropyModel<6>>⟧.rows model.now
        ≡ contiguous_rows (3 ∷ 18 ∷ 1 ∷ 42 ∷ []) }
    ensures { result ≡ (Some 0, Some 3, 2) }
{
    let mut walk = model.symbol_table();
    let first = match walk.next() {
        Some(Ok((symbol, _, _))) => Some(symbol),
        _ => None,
    };
    let last = match walk.next_back() {
        Some(Ok((symbol, _, _))) => Some(symbol),
        _ => None,
    };
    (first, last, walk.len())
}

/// The same for a uniform model of five symbols.
fn uniform_ends() -> (Option<usize>, Option<usize>, usize)
    ensures { result ≡ (Some 0, Some 4, 3) }
{
    let mut walk = SmallUniformModel::new(5).symbol_table();
    let first = match walk.next() {
        Some(Ok((symbol, _, _))) => Some(symbol),
        _ => None,
    };
    let last = match walk.next_back() {
        Some(Ok((symbol, _, _))) => Some(symbol),
        _ => None,
    };
    (first, last, walk.len())
}

/// The same for a decoder of letters.
fn letters_at_the_ends(model: &Decoder) -> (Option<char>, Option<char>, usize)
    requires { ⟦<Decoder as EntropyModel<6>>⟧.rows model.now
        ≡ rows_of (97 ∷ 120 ∷ 99 ∷ 121 ∷ []) (3 ∷ 18 ∷ 1 ∷ 42 ∷ []) }
    ensures { result ≡ (Some 97, Some 121, 2) }
{
    let mut walk = model.symbol_table();
    let first = match walk.next() {
        Some(Ok((symbol, _, _))) => Some(symbol),
        _ => None,
    };
    let last = match walk.next_back() {
        Some(Ok((symbol, _, _))) => Some(symbol),
        _ => None,
    };
    (first, last, walk.len())
}

/// The index of the row that the probe of the quantile 20 begins with, and how far after it the
/// counted search finds the row.
fn index_of_20(model: &Weighted<6>) -> (usize, usize)
    ensures { IsRowIndexOf (⟦<Weighted<6> as EntropyModel<6>>⟧.rows model.now) 20
        (result.0 + result.1) }
{
    let (first, mut rows) = model.quantile_probe(20);
    (first, row_of_quantile(&mut rows, 20))
}

/// The index of the row that the probe begins with, and how many rows it has: all four.
fn rows_in_question(model: &Weighted<6>) -> (usize, usize)
    requires { ⟦<Weighted<6> as EntropyModel<6>>⟧.rows model.now
        ≡ contiguous_rows (3 ∷ 18 ∷ 1 ∷ 42 ∷ []) }
    ensures { result ≡ (0, 4) }
{
    let (first, rows) = model.quantile_probe(20);
    (first, rows.len())
}

/// The same for a search of the rows that meet a slot.
fn index_looked_up(model: &Tabled) -> (usize, usize)
    ensures { IsRowIndexOf (⟦<Tabled as EntropyModel<6>>⟧.rows model.now) 20 (result.0 + result.1) }
{
    let (first, mut rows) = model.quantile_probe(20);
    (first, row_of_quantile(&mut rows, 20))
}

/// Whether 63 and 64 are quantiles at a precision of 6.
fn are_quantiles() -> (bool, bool)
    ensures { result ≡ (true, false) }
{
    (is_quantile::<u8, 6>(63), is_quantile::<u8, 6>(64))
}

/// The greatest quantile at a precision of 6.
fn last_quantile() -> u8
    ensures { result ≡ 63 }
{
    u8::greatest_of_bits(6)
}

/// The decoder of four letters. If it is made, it has the rows of the letters and their weights,
/// and these are accepted. `InvalidTable` comes only if they are not.
pub fn decoder_of(
    alloc: Global,
    symbols: [char; 4],
    weights: [u8; 4],
) -> Result<Decoder, ModelError>
    ensures rows { IfOk result (λ m. ⟦<Decoder as EntropyModel<6>>⟧.rows m
        ≡ rows_of symbols (map ⟦<u8 as WholeNumber>⟧.whole weights)) }
    ensures accepted { IfOk result (λ _. AreAccepted ⟦<char as PartialEq>⟧.eq 8 6 symbols
        (map ⟦<u8 as WholeNumber>⟧.whole weights)) }
    ensures invalid { result ≡ Err ModelError.InvalidTable → ¬ (AreAccepted ⟦<char as PartialEq>⟧.eq
        8 6 symbols (map ⟦<u8 as WholeNumber>⟧.whole weights)) }
{
    Decoder::from_symbols_and_nonzero_fixed_point_probabilities(alloc, symbols, weights, false)
}

/// The same for a lookup model of letters.
fn lookup_of(alloc: Global, symbols: [char; 4], weights: [u8; 4]) -> Result<Tabled, ModelError>
    ensures rows { IfOk result (λ m. ⟦<Tabled as EntropyModel<6>>⟧.rows m
        ≡ rows_of symbols (map ⟦<u8 as WholeNumber>⟧.whole weights)) }
    ensures invalid { result ≡ Err ModelError.InvalidTable → ¬ (AreAccepted ⟦<char as PartialEq>⟧.eq
        8 6 symbols (map ⟦<u8 as WholeNumber>⟧.whole weights)) }
{
    Tabled::from_symbols_and_nonzero_fixed_point_probabilities(alloc, symbols, weights, false)
}

/// A decoder of letters whose first one comes a second time. It is not made.
fn of_a_repeat(alloc: Global) -> Result<Decoder, ModelError>
    ensures { IsErr result }
{
    decoder_of(alloc, ['a', 'x', 'a', 'y'], [3, 18, 1, 42])
}

/// A model of weights that add up to 256 + 64, which is 64 in a wrapping `u8`. It is not made.
fn of_a_wrapped_total(alloc: Global) -> Result<Weighted<6>, ModelError>
    ensures { IsErr result }
{
    of_four(alloc, [100, 100, 100, 20])
}

/// Asserts that the contiguous model answers by its rows.
fn leaves_one_answer(rt: &impl Abort, model: &Weighted<6>)
    requires { ⟦<Weighted<6> as EntropyModel<6>>⟧.rows model.now
        ≡ contiguous_rows (3 ∷ 18 ∷ 1 ∷ 42 ∷ []) }
{
    same(rt, row_of_20(model), Ok((1, 3, 18)));
    same(rt, second_entry(model), Some((3, 18)));
    same(rt, ends(model), (Some(0), Some(3), 2));
    same(rt, index_of_20(model), (0, 1));
    same(rt, rows_in_question(model), (0, 4));
    same(rt, size(model), 4);
}

#[test]
fn contracts_leave_one_answer(rt: HostRuntime) {
    let model = of_four(rt.alloc(), [3, 18, 1, 42]).expect(&rt, "accepted");
    leaves_one_answer(&rt, &model);
}

#[test]
fn contracts_leave_one_answer_by_a_lookup_table(rt: HostRuntime) {
    let tabled = lookup_of_four(rt.alloc(), [3, 18, 1, 42]).expect(&rt, "accepted");
    same(&rt, looked_up(&tabled), Ok((1, 3, 18)));
    same(&rt, looked_up_in_a_view(&tabled), Ok((1, 3, 18)));
}

#[test]
fn contracts_leave_no_model(rt: HostRuntime) {
    same(&rt, of_a_repeat(rt.alloc()).is_err(), true);
    same(&rt, of_a_wrapped_total(rt.alloc()).is_err(), true);
}

#[test]
fn contracts_leave_one_answer_of_a_uniform_model(rt: HostRuntime) {
    same(&rt, row_of_819(), Ok((1, 819, 819)));
    same(&rt, last_entry(), Some((3276, 820)));
    same(&rt, entry_of_65_540(), None);
    same(&rt, uniform_ends(), (Some(0), Some(4), 3));
    same(&rt, are_quantiles(), (true, false));
    same(&rt, last_quantile(), 63);
}

/// Asserts that the encoder made of a decoder of letters, and its clone, have the entry of `x`.
fn leaves_one_entry(rt: &impl Abort, alloc: Global, model: &Decoder)
    requires { ⟦<Decoder as EntropyModel<6>>⟧.rows model.now
        ≡ rows_of (97 ∷ 120 ∷ 99 ∷ 121 ∷ []) (3 ∷ 18 ∷ 1 ∷ 42 ∷ []) }
{
    let Ok(encoder) = encoder_of(alloc, model) else {
        panic!(rt; "there is no encoder");
    };
    same(rt, entry_of_x(&encoder), Some((3, 18)));
    let Ok(clone) = cloned(&encoder) else {
        panic!(rt; "there is no clone");
    };
    same(rt, entry_of_x(&clone), Some((3, 18)));
}

#[test]
fn contracts_leave_one_answer_over_letters(rt: HostRuntime) {
    let model = decoder_of(rt.alloc(), ['a', 'x', 'c', 'y'], [3, 18, 1, 42]);
    let model = model.expect(&rt, "accepted");
    same(&rt, letter_of_20(&model), Ok(('x', 3, 18)));
    same(&rt, letters_at_the_ends(&model), (Some('a'), Some('y'), 2));
    same(&rt, number_of_letters(&model), 4);
    leaves_one_entry(&rt, rt.alloc(), &model);
}

#[test]
fn contracts_leave_one_answer_over_letters_by_a_lookup_table(rt: HostRuntime) {
    let tabled = lookup_of(rt.alloc(), ['a', 'x', 'c', 'y'], [3, 18, 1, 42]);
    let tabled = tabled.expect(&rt, "accepted");
    same(&rt, letter_looked_up(&tabled), Ok(('x', 3, 18)));
    same(&rt, letter_looked_up_in_a_clone(&tabled), Ok(('x', 3, 18)));
    same(&rt, index_looked_up(&tabled), (1, 0));
}
