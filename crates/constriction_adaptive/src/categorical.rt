//! Symbols of an alphabet of any size, by one cdf.

ghost use Rattle.std.specs.Prelude.{◌≡◌, ◌↔◌, ◌⊎◌, ◌+◌, ◌-◌, ◌*◌, ◌/◌, ◌^◌, ◌<◌, ◌≤◌, ℕ, IfOk, Err, List, length, map, nat_eq, slice_index};
ghost use Rattle.std.specs.Cmp.{nat_eq_equiv};
ghost use Rattle.constriction_model.specs.Precision.{IsPrecision};
ghost use Rattle.constriction_model.specs.Rows.{contiguous_rows};
ghost use Rattle.constriction_stored_rows.specs.Stored.{IsCdf, lefts_in, weights_of};
ghost use Rattle.constriction_stored_rows.specs.lemmas.StoredRows.{stored-within, stored-tiles};
ghost use Rattle.constriction_adaptive.specs.Categorical.{even_lefts, even_many, lefts_after};
ghost use Rattle.constriction_adaptive.specs.lemmas.Categorical.{after-same};

use crate::predictor::{Predictor, Snapshot};
use constriction_model::{DecoderModel, EncoderModel, EntropyModel, ModelError, Weight};
use constriction_stored_rows::{contiguous_entry_of, contiguous_row_of_quantile};
use std::alloc::{AllocError, Global};

/// Predicts the symbols `0, 1, ..` of an alphabet of any size by a cdf, which moves towards each
/// symbol that came.
///
/// Each left cumulative moves by a `2^RATE`-th of its way to where it is if the symbol has all
/// quantiles but one for each other symbol. So each symbol always has a quantile. The greater
/// `RATE` is, the longer the cdf remembers.
///
/// The predictor is its own model, in 4 bytes a symbol. The row of a quantile takes a search, and
/// learning one pass over the cdf, without a division and without memory.
#[derive(Drop)]
pub struct AdaptiveCategorical<const RATE: u32, const PRECISION: usize> {
    cdf: Vec<u32>,
    ghost rate: { RATE < 32 },
    ghost precise: { IsPrecision 32 PRECISION },
    ghost stored: { IsCdf 32 PRECISION cdf.items },
}

/// The cdf of symbols that are all as likely.
fn even_cdf<const PRECISION: usize>(alloc: Global, symbols: usize) -> Result<Vec<u32>, AllocError>
    requires precision { IsPrecision 32 PRECISION }
    requires some { 0 < symbols }
    requires few { symbols ≤ 2 ^ PRECISION }
    requires word { 2 ^ PRECISION < 2 ^ 32 * symbols }
    ensures cdf { IfOk result (λ cdf. IsCdf 32 PRECISION cdf.items) }
    ensures lefts { IfOk result (λ cdf. lefts_in cdf.items ≡ even_lefts PRECISION symbols) }
{
    let quantiles = 1u64 << PRECISION;
    let weight = (quantiles / symbols as u64) as u32;
    let mut cdf = Vec::with_capacity(alloc, symbols + 1)?;
    for i in 0..symbols {
        cdf.push_reserved(i as u32 * weight);
    }
    cdf.push_reserved((quantiles % 4_294_967_296) as u32);
    Ok(cdf)
}

/// Moves the left cumulatives of the first symbols down.
#[inline]
fn lower<const RATE: u32>(cdf: &mut [u32], end: usize)
    requires rate { RATE < 32 }
    requires within { end ≤ length cdf.old }
    requires least { (k : ℕ) → k < end → k ≤ slice_index cdf.old k }
    ensures moved { (k : ℕ) → k < end
        → slice_index cdf.new k ≡ slice_index cdf.old k - (slice_index cdf.old k - k) / 2 ^ RATE }
    ensures same { (k : ℕ) → end ≤ k → slice_index cdf.new k ≡ slice_index cdf.old k }
{
    for i in 0..end {
        let left = cdf[i];
        cdf[i] = left - ((left - i as u32) >> RATE);
    }
}

/// Moves the left cumulatives of the symbols from `begin` to `end` up.
#[inline]
fn raise<const RATE: u32>(cdf: &mut [u32], begin: usize, end: usize, others: u32)
    requires rate { RATE < 32 }
    requires in_order { begin ≤ end }
    requires within { end ≤ length cdf.old }
    requires words { others + end ≤ 2 ^ 32 }
    requires most { (k : ℕ) → k < end → slice_index cdf.old k ≤ others + k }
    ensures moved { (k : ℕ) → begin ≤ k → k < end → slice_index cdf.new k
        ≡ slice_index cdf.old k + (others + k - slice_index cdf.old k) / 2 ^ RATE }
    ensures before { (k : ℕ) → k < begin → slice_index cdf.new k ≡ slice_index cdf.old k }
    ensures after { (k : ℕ) → end ≤ k → slice_index cdf.new k ≡ slice_index cdf.old k }
{
    for i in begin..end {
        let left = cdf[i];
        cdf[i] = left + ((others + i as u32 - left) >> RATE);
    }
}

/// Moves a cdf towards a symbol.
fn move_towards<const RATE: u32, const PRECISION: usize>(cdf: &mut [u32], symbol: usize)
    requires rate { RATE < 32 }
    requires precision { IsPrecision 32 PRECISION }
    requires cdf { IsCdf 32 PRECISION cdf.old }
    ensures cdf { IsCdf 32 PRECISION cdf.new }
    ensures lefts { lefts_in cdf.new ≡ lefts_after PRECISION RATE (lefts_in cdf.old) symbol }
{
    let symbols = cdf.len() - 1;
    let others = ((1u64 << PRECISION) - symbols as u64) as u32;
    let last = symbol.min(symbols - 1);
    lower::<RATE>(cdf, last + 1);
    raise::<RATE>(cdf, last + 1, symbols, others);
}

impl<const RATE: u32, const PRECISION: usize> AdaptiveCategorical<RATE, PRECISION> {
    /// Nothing was learned, and all of the symbols `0..symbols` are as likely, but for the last
    /// one, which also has what is left over.
    ///
    /// `InvalidTable` comes if there are no symbols, or more than quantiles, or only one at 32
    /// bits, whose weight is no word.
    pub fn new(alloc: Global, symbols: usize) -> Result<Self, ModelError>
        requires rate { RATE < 32 }
        requires precision { IsPrecision 32 PRECISION }
        ensures ok { IfOk result (λ made.
            ⟦<AdaptiveCategorical<RATE, PRECISION> as Predictor<PRECISION>>⟧.state made
            ≡ even_lefts PRECISION symbols) }
        ensures invalid { (result ≡ Err ModelError.InvalidTable)
            ↔ ((symbols ≡ 0) ⊎ ((2 ^ PRECISION < symbols) ⊎ ((PRECISION ≡ 32) × (symbols ≡ 1)))) }
    {
        if symbols == 0 || symbols as u64 > 1u64 << PRECISION || PRECISION == 32 && symbols == 1 {
            return Err(ModelError::InvalidTable);
        }
        match even_cdf::<PRECISION>(alloc, symbols) {
            Ok(cdf) => Ok(AdaptiveCategorical { cdf }),
            Err(_) => Err(ModelError::OutOfMemory),
        }
    }

    /// So many predictors, each as [`new`](Self::new) makes one, for a
    /// [`ByContext`](crate::ByContext).
    #[tactic(auto, unfolding(crate::specs::Categorical::even_many))]
    pub fn new_many(alloc: Global, symbols: usize, count: usize) -> Result<Vec<Self>, ModelError>
        requires rate { RATE < 32 }
        requires precision { IsPrecision 32 PRECISION }
        ensures ok { IfOk result (λ made.
            map ⟦<AdaptiveCategorical<RATE, PRECISION> as Predictor<PRECISION>>⟧.state made.items
            ≡ even_many count PRECISION symbols) }
        ensures many { IfOk result (λ made. length made.items ≡ count) }
        ensures invalid { result ≡ Err ModelError.InvalidTable
            → (symbols ≡ 0) ⊎ ((2 ^ PRECISION < symbols) ⊎ ((PRECISION ≡ 32) × (symbols ≡ 1))) }
    {
        let mut made = match Vec::with_capacity(alloc, count) {
            Ok(made) => made,
            Err(_) => return Err(ModelError::OutOfMemory),
        };
        for _ in 0..count {
            match Self::new(alloc, symbols) {
                Ok(predictor) => made.push_reserved(predictor),
                Err(error) => return Err(error),
            }
        }
        Ok(made)
    }
}

impl<const RATE: u32, const PRECISION: usize> EntropyModel<PRECISION>
    for AdaptiveCategorical<RATE, PRECISION> {
    type Symbol = usize;

    type Probability = u32;

    ghost rows = { λ m. contiguous_rows (weights_of PRECISION (lefts_in m.cdf.items)) };

    ghost precision_law = { λ m. m.precise };
}

impl<const RATE: u32, const PRECISION: usize> EncoderModel<PRECISION>
    for AdaptiveCategorical<RATE, PRECISION> {
    ghost symbol_eq = { nat_eq };

    #[inline]
    fn left_cumulative_and_probability(&self, symbol: &usize) -> Option<(u32, Weight<u32>)> {
        contiguous_entry_of::<u32, PRECISION>(&self.cdf, *symbol)
    }

    ghost equality_law = { nat_eq_equiv };

    ghost within_law = { λ m. stored-within 32 PRECISION (lefts_in m.cdf.items) m.stored.stored };
}

impl<const RATE: u32, const PRECISION: usize> DecoderModel<PRECISION>
    for AdaptiveCategorical<RATE, PRECISION> {
    /// The row of a quantile, by a search.
    #[inline]
    fn quantile_function(&self, quantile: u32) -> Result<(usize, u32, Weight<u32>), AllocError> {
        Ok(contiguous_row_of_quantile::<u32, PRECISION>(&self.cdf, quantile))
    }

    ghost tile_law = { λ m. stored-tiles 32 PRECISION (lefts_in m.cdf.items) m.stored.stored };
}

impl<const RATE: u32, const PRECISION: usize> Predictor<PRECISION>
    for AdaptiveCategorical<RATE, PRECISION> {
    type Symbol = usize;

    type Model = AdaptiveCategorical<RATE, PRECISION>;

    ghost State = { List ℕ };

    ghost state = { λ p. lefts_in p.cdf.items };

    ghost rows = { λ lefts. contiguous_rows (weights_of PRECISION lefts) };

    ghost next = { lefts_after PRECISION RATE };

    #[inline]
    fn model(&self) -> &AdaptiveCategorical<RATE, PRECISION> {
        self
    }

    #[inline]
    fn reserve(&mut self) -> Result<(), AllocError> {
        Ok(())
    }

    /// Moves the cdf. A number above all symbols counts as the last one.
    #[inline]
    fn learn(&mut self, symbol: &usize) {
        move_towards::<RATE, PRECISION>(&mut self.cdf, *symbol);
    }

    ghost next_law = { after-same (lefts_after PRECISION RATE) };
}

impl<const RATE: u32, const PRECISION: usize> Snapshot<PRECISION>
    for AdaptiveCategorical<RATE, PRECISION> {
    fn snapshot(&self, alloc: Global) -> Result<Self, AllocError> {
        let cdf = Vec::from_slice(alloc, &self.cdf)?;
        Ok(AdaptiveCategorical { cdf })
    }
}
