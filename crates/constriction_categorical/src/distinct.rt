//! Constructors of the decoder over any symbols that do not compare each symbol with all before it.
//!
//! [`into_lookup_decoder_model`](NonContiguousCategoricalDecoderModel::into_lookup_decoder_model)
//! turns their models into lookup models.

ghost use Rattle.std.specs.Iterator.{IsFiniteIterable};
ghost use Rattle.constriction_model.specs.Acceptance.{AreAccepted, WasReadOf, GivesDistinct};
ghost use Rattle.constriction_model.specs.Precision.{IsPrecision};
ghost use Rattle.constriction_categorical.specs.InOrder.{AreInOrder};
ghost use Rattle.constriction_categorical.specs.ModelRows.{MakesDecoder};
ghost use Rattle.constriction_categorical.specs.private.Entries.{MakesEntries};

use crate::non_contiguous::{NonContiguousCategoricalDecoderModel, decoder_over};
use constriction_model::ModelError;
use constriction_numbers::WholeNumber;
use constriction_stored_rows::{are_apart, are_in_order, entries_read};
use std::alloc::Global;
use std::hash::Hash;

/// The entries of these symbols and weights, for symbols that are known to differ.
#[inline]
fn entries_of_distinct<
    Probability: WholeNumber,
    Symbol: Eq + Drop,
    S: IntoIterator<Item = Symbol>,
    P: IntoIterator<Item = Probability>,
    const PRECISION: usize,
>(
    alloc: Global,
    symbols: S,
    probabilities: P,
    infer_last_probability: bool,
) -> Result<Vec<(Probability, Symbol)>, ModelError>
    requires precision { IsPrecision Probability.BITS PRECISION }
    requires symbols_end { IsFiniteIterable S.into_iter_gives S.IntoIter.can_next
        S.IntoIter.remaining symbols }
    requires probabilities_end { IsFiniteIterable P.into_iter_gives P.IntoIter.can_next
        P.IntoIter.remaining probabilities }
    requires distinct { GivesDistinct S.into_iter_gives S.IntoIter.next_gives Symbol.eq symbols }
    ensures { MakesEntries Symbol.eq (AreAccepted Symbol.eq Probability.BITS PRECISION)
        Probability.whole Probability.BITS PRECISION infer_last_probability
        (WasReadOf S.into_iter_gives S.IntoIter.next_gives symbols)
        (WasReadOf P.into_iter_gives P.IntoIter.next_gives probabilities) result }
{
    entries_read::<_, _, _, _, PRECISION>(alloc, symbols, probabilities, infer_last_probability)
}

/// The entries of these symbols and weights, if no two of the symbols are equal. Each symbol is
/// hashed.
#[inline]
fn entries_hashed<
    Probability: WholeNumber,
    Symbol: Hash + Eq + Drop,
    S: IntoIterator<Item = Symbol>,
    P: IntoIterator<Item = Probability>,
    const PRECISION: usize,
>(
    alloc: Global,
    symbols: S,
    probabilities: P,
    infer_last_probability: bool,
) -> Result<Vec<(Probability, Symbol)>, ModelError>
    requires precision { IsPrecision Probability.BITS PRECISION }
    requires symbols_end { IsFiniteIterable S.into_iter_gives S.IntoIter.can_next
        S.IntoIter.remaining symbols }
    requires probabilities_end { IsFiniteIterable P.into_iter_gives P.IntoIter.can_next
        P.IntoIter.remaining probabilities }
    ensures { MakesEntries Symbol.eq (AreAccepted Symbol.eq Probability.BITS PRECISION)
        Probability.whole Probability.BITS PRECISION infer_last_probability
        (WasReadOf S.into_iter_gives S.IntoIter.next_gives symbols)
        (WasReadOf P.into_iter_gives P.IntoIter.next_gives probabilities) result }
{
    let entries = entries_read::<_, _, _, _, PRECISION>(
        alloc,
        symbols,
        probabilities,
        infer_last_probability,
    )?;
    let apart = are_apart(alloc, &entries)?;
    if !apart {
        return Err(ModelError::InvalidTable);
    }
    Ok(entries)
}

/// The entries of these symbols and weights, if each symbol is less than the next one.
#[inline]
fn entries_in_order<
    Probability: WholeNumber,
    Symbol: Ord + Drop,
    S: IntoIterator<Item = Symbol>,
    P: IntoIterator<Item = Probability>,
    const PRECISION: usize,
>(
    alloc: Global,
    symbols: S,
    probabilities: P,
    infer_last_probability: bool,
) -> Result<Vec<(Probability, Symbol)>, ModelError>
    requires precision { IsPrecision Probability.BITS PRECISION }
    requires symbols_end { IsFiniteIterable S.into_iter_gives S.IntoIter.can_next
        S.IntoIter.remaining symbols }
    requires probabilities_end { IsFiniteIterable P.into_iter_gives P.IntoIter.can_next
        P.IntoIter.remaining probabilities }
    ensures { MakesEntries Symbol.eq (AreInOrder Symbol.eq Symbol.cmp Probability.BITS PRECISION)
        Probability.whole Probability.BITS PRECISION infer_last_probability
        (WasReadOf S.into_iter_gives S.IntoIter.next_gives symbols)
        (WasReadOf P.into_iter_gives P.IntoIter.next_gives probabilities) result }
{
    let entries = entries_read::<_, _, _, _, PRECISION>(
        alloc,
        symbols,
        probabilities,
        infer_last_probability,
    )?;
    let in_order = are_in_order(&entries);
    if !in_order {
        return Err(ModelError::InvalidTable);
    }
    Ok(entries)
}

impl<
    Symbol: Eq + Drop,
    Probability: WholeNumber,
    const PRECISION: usize,
> NonContiguousCategoricalDecoderModel<Symbol, Probability, Vec<(Probability, Symbol)>, PRECISION> {
    /// As [`Self::from_symbols_and_nonzero_fixed_point_probabilities`], for a caller who knows that
    /// no two of the symbols are equal. None are compared.
    pub fn from_distinct_symbols_and_nonzero_fixed_point_probabilities<
        S: IntoIterator<Item = Symbol>,
        P: IntoIterator<Item = Probability>,
    >(
        alloc: Global,
        symbols: S,
        probabilities: P,
        infer_last_probability: bool,
    ) -> Result<Self, ModelError>
        requires precision { IsPrecision Probability.BITS PRECISION }
        requires symbols_end { IsFiniteIterable S.into_iter_gives S.IntoIter.can_next
            S.IntoIter.remaining symbols }
        requires probabilities_end { IsFiniteIterable P.into_iter_gives P.IntoIter.can_next
            P.IntoIter.remaining probabilities }
        requires distinct { GivesDistinct S.into_iter_gives S.IntoIter.next_gives Symbol.eq
            symbols }
        ensures { MakesDecoder (AreAccepted Symbol.eq Probability.BITS PRECISION)
            infer_last_probability S.into_iter_gives S.IntoIter.next_gives symbols P.into_iter_gives
            P.IntoIter.next_gives probabilities result }
    {
        let entries = entries_of_distinct::<Probability, Symbol, S, P, PRECISION>(
            alloc,
            symbols,
            probabilities,
            infer_last_probability,
        )?;
        Ok(decoder_over(entries))
    }

    /// As [`Self::from_symbols_and_nonzero_fixed_point_probabilities`], for symbols that have a
    /// hash. Two equal symbols are found only after both iterators were read to their ends.
    /// `OutOfMemory` comes also if memory for a set of references to the symbols is refused.
    ///
    /// One hash a symbol in place of the comparisons. The set has as many places as there are
    /// symbols, and is dropped before the call returns.
    pub fn from_hashable_symbols_and_nonzero_fixed_point_probabilities<
        S: IntoIterator<Item = Symbol>,
        P: IntoIterator<Item = Probability>,
    >(
        alloc: Global,
        symbols: S,
        probabilities: P,
        infer_last_probability: bool,
    ) -> Result<Self, ModelError>
    where
        Symbol: Hash,
        requires precision { IsPrecision Probability.BITS PRECISION }
        requires symbols_end { IsFiniteIterable S.into_iter_gives S.IntoIter.can_next
            S.IntoIter.remaining symbols }
        requires probabilities_end { IsFiniteIterable P.into_iter_gives P.IntoIter.can_next
            P.IntoIter.remaining probabilities }
        ensures { MakesDecoder (AreAccepted Symbol.eq Probability.BITS PRECISION)
            infer_last_probability S.into_iter_gives S.IntoIter.next_gives symbols P.into_iter_gives
            P.IntoIter.next_gives probabilities result }
    {
        let entries = entries_hashed::<Probability, Symbol, S, P, PRECISION>(
            alloc,
            symbols,
            probabilities,
            infer_last_probability,
        )?;
        Ok(decoder_over(entries))
    }
}

impl<
    Symbol: Ord + Drop,
    Probability: WholeNumber,
    const PRECISION: usize,
> NonContiguousCategoricalDecoderModel<Symbol, Probability, Vec<(Probability, Symbol)>, PRECISION> {
    /// As [`Self::from_symbols_and_nonzero_fixed_point_probabilities`], for symbols in increasing
    /// order: a symbol that is not less than the next one is refused. So after `InvalidTable`
    /// another constructor may accept the lists.
    ///
    /// One comparison of each two neighbours.
    pub fn from_sorted_symbols_and_nonzero_fixed_point_probabilities<
        S: IntoIterator<Item = Symbol>,
        P: IntoIterator<Item = Probability>,
    >(
        alloc: Global,
        symbols: S,
        probabilities: P,
        infer_last_probability: bool,
    ) -> Result<Self, ModelError>
        requires precision { IsPrecision Probability.BITS PRECISION }
        requires symbols_end { IsFiniteIterable S.into_iter_gives S.IntoIter.can_next
            S.IntoIter.remaining symbols }
        requires probabilities_end { IsFiniteIterable P.into_iter_gives P.IntoIter.can_next
            P.IntoIter.remaining probabilities }
        ensures { MakesDecoder (AreInOrder Symbol.eq Symbol.cmp Probability.BITS PRECISION)
            infer_last_probability S.into_iter_gives S.IntoIter.next_gives symbols P.into_iter_gives
            P.IntoIter.next_gives probabilities result }
    {
        let entries = entries_in_order::<Probability, Symbol, S, P, PRECISION>(
            alloc,
            symbols,
            probabilities,
            infer_last_probability,
        )?;
        Ok(decoder_over(entries))
    }
}
