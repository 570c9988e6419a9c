//! The dividing model of a list of weights, if there is one, and what it replies.

ghost use Rattle.std.specs.Prelude.{◌≡◌, ◌∷◌, ◌++◌, ◌↔◌, ◌^◌, ◌<◌, ◌≤◌, ℕ, [], All, MatchOption, map, nat_eq, IfOk, IsTrue};
ghost use Rattle.constriction_model.specs.Acceptance.{completed, Tiles};
ghost use Rattle.constriction_model.specs.Entries.{SameEntries};
ghost use Rattle.constriction_model.specs.Precision.{IsLookupPrecision};
ghost use Rattle.constriction_model.specs.Rows.{contiguous_rows, uniform_rows};
ghost use Rattle.constriction_client.specs.Replies.{in_numbers, replies_by_scan};
ghost use Rattle.constriction_theorem.specs.private.Ranges.{IsRangeOf};

use crate::weights::{RepliesByEncoder, asked_beside_both};
use constriction_client::Query;
use constriction_model::{EncoderModel, UniformModel};
use constriction_words::{IndexWord, WholeNumber};
use std::alloc::{AllocError, Global};

/// A word that has dividing models. Each says so itself: a dividing model holds three words, and
/// not every word type is small enough for that.
pub trait DividingWord<const PRECISION: usize>: IndexWord {
    /// The replies of the dividing model of the symbols `0..range`, beside itself and beside
    /// another encoder of its rows.
    fn asked_by_division<E: EncoderModel<PRECISION, Symbol = usize, Probability = Self>>(
        alloc: Global,
        range: usize,
        hashed: &E,
        queries: &[Query<usize, Self>],
    ) -> Result<RepliesByEncoder<Self>, AllocError>
        requires precision { IsLookupPrecision Self.BITS PRECISION }
        requires some { 2 ≤ range }
        requires within { range ≤ 2 ^ PRECISION }
        requires hashed { SameEntries E.symbol_eq (E.rows hashed.now)
            (uniform_rows PRECISION range) }
        ensures contiguous { IfOk result (λ replies. map (in_numbers Self.whole Self.base)
            replies.contiguous.items ≡ replies_by_scan PRECISION Self.whole nat_eq queries.now
            (uniform_rows PRECISION range)) }
        ensures hashed { IfOk result (λ replies. map (in_numbers Self.whole Self.base)
            replies.hashed.items ≡ replies_by_scan PRECISION Self.whole E.symbol_eq queries.now
            (uniform_rows PRECISION range)) };
}

impl<const PRECISION: usize> DividingWord<PRECISION> for u8 {
    fn asked_by_division<E: EncoderModel<PRECISION, Symbol = usize, Probability = u8>>(
        alloc: Global,
        range: usize,
        hashed: &E,
        queries: &[Query<usize, u8>],
    ) -> Result<RepliesByEncoder<u8>, AllocError> {
        let model = UniformModel::<u8, PRECISION>::new(range);
        asked_beside_both(alloc, &model, &model, hashed, queries)
    }
}

impl<const PRECISION: usize> DividingWord<PRECISION> for u16 {
    fn asked_by_division<E: EncoderModel<PRECISION, Symbol = usize, Probability = u16>>(
        alloc: Global,
        range: usize,
        hashed: &E,
        queries: &[Query<usize, u16>],
    ) -> Result<RepliesByEncoder<u16>, AllocError> {
        let model = UniformModel::<u16, PRECISION>::new(range);
        asked_beside_both(alloc, &model, &model, hashed, queries)
    }
}

impl<const PRECISION: usize> DividingWord<PRECISION> for u32 {
    fn asked_by_division<E: EncoderModel<PRECISION, Symbol = usize, Probability = u32>>(
        alloc: Global,
        range: usize,
        hashed: &E,
        queries: &[Query<usize, u32>],
    ) -> Result<RepliesByEncoder<u32>, AllocError> {
        let model = UniformModel::<u32, PRECISION>::new(range);
        asked_beside_both(alloc, &model, &model, hashed, queries)
    }
}

impl<const PRECISION: usize> DividingWord<PRECISION> for u64 {
    fn asked_by_division<E: EncoderModel<PRECISION, Symbol = usize, Probability = u64>>(
        alloc: Global,
        range: usize,
        hashed: &E,
        queries: &[Query<usize, u64>],
    ) -> Result<RepliesByEncoder<u64>, AllocError> {
        let model = UniformModel::<u64, PRECISION>::new(range);
        asked_beside_both(alloc, &model, &model, hashed, queries)
    }
}

impl<const PRECISION: usize> DividingWord<PRECISION> for u128 {
    fn asked_by_division<E: EncoderModel<PRECISION, Symbol = usize, Probability = u128>>(
        alloc: Global,
        range: usize,
        hashed: &E,
        queries: &[Query<usize, u128>],
    ) -> Result<RepliesByEncoder<u128>, AllocError> {
        let model = UniformModel::<u128, PRECISION>::new(range);
        asked_beside_both(alloc, &model, &model, hashed, queries)
    }
}

impl<const PRECISION: usize> DividingWord<PRECISION> for usize {
    fn asked_by_division<E: EncoderModel<PRECISION, Symbol = usize, Probability = usize>>(
        alloc: Global,
        range: usize,
        hashed: &E,
        queries: &[Query<usize, usize>],
    ) -> Result<RepliesByEncoder<usize>, AllocError> {
        let model = UniformModel::<usize, PRECISION>::new(range);
        asked_beside_both(alloc, &model, &model, hashed, queries)
    }
}

/// Whether a word has this number.
fn has_number<Word: IndexWord>(word: Word, number: usize) -> bool
    requires { number < usize.MAX }
    ensures { IsTrue result ↔ (Word.whole word ≡ number) }
{
    word.to_index() == number
}

/// Whether all words have this number.
fn all_have_number<Word: IndexWord>(words: &[Word], number: usize) -> bool
    requires { number < usize.MAX }
    ensures { IsTrue result ↔ All (λ word. Word.whole word ≡ number) words.now }
{
    for word in words {
        if !has_number(*word, number) {
            return false;
        }
    }
    true
}

/// All weights but the last one, which may be inferred. No weights have no last one.
fn all_but_last<'w, Word: WholeNumber, const PRECISION: usize>(
    weights: &'w [Word],
    infer_last_probability: bool,
) -> Option<&'w [Word]>
    ensures { let all = completed PRECISION infer_last_probability (map Word.whole weights.now) in
        MatchOption result (all ≡ [])
        (λ before. (last : ℕ) × (all ≡ map Word.whole before.now ++ last ∷ [])) }
{
    if infer_last_probability {
        return Some(weights);
    }
    match weights.split_last() {
        Some((_, before)) => Some(before),
        None => None,
    }
}

/// How many quantiles there are.
fn quantiles<const PRECISION: usize>() -> usize
    requires { PRECISION ≤ 63 }
    ensures { result ≡ 2 ^ PRECISION }
{
    1 << PRECISION
}

/// How many symbols the dividing model of weights has, if there is one: if there are two weights or
/// more, and each but the last is `2^PRECISION` divided by their number.
pub(crate) fn range_of<Word: IndexWord, const PRECISION: usize>(
    weights: &[Word],
    infer_last_probability: bool,
) -> Option<usize>
    requires { PRECISION ≤ 63 }
    ensures { let all = completed PRECISION infer_last_probability (map Word.whole weights.now) in
        Tiles PRECISION all → IsRangeOf PRECISION (contiguous_rows all) result }
{
    let before = all_but_last::<Word, PRECISION>(weights, infer_last_probability)?;
    let quantiles = quantiles::<PRECISION>();
    let last = before.len();
    if last == 0 || last >= quantiles || !all_have_number(before, quantiles / (last + 1)) {
        return None;
    }
    Some(last + 1)
}
