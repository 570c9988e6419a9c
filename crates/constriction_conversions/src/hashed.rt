//! Models of any symbols for encoders, which find the entry of a symbol by its hash.

ghost use Rattle.std.specs.Prelude.{◌≡◌, All, length};
ghost use Rattle.std.specs.Iterator.{IsFiniteIterable};
ghost use Rattle.std.specs.List.{IsDistinct};
ghost use Rattle.std.specs.Map.{keys_of};
ghost use Rattle.std.proofs.Props.{props};
ghost use Rattle.constriction_model.specs.Acceptance.{completed, AreAccepted, IsDecidedByBoth};
ghost use Rattle.constriction_conversions.specs.Hashed.{rows_of_table};
ghost use Rattle.constriction_model.specs.Model.{LiesWithin, StandForRows};
ghost use Rattle.constriction_model.specs.Precision.{IsPrecision};

use crate::hash_table::{Entry, HashedRows};
use constriction_model::{EncoderModel, EntropyModel, ModelError, Weight};
use constriction_numbers::WholeNumber;
use constriction_stored_rows::{rows_announced, rows_read};
use std::alloc::{AllocError, Global};
use std::collections::HashMap;
use std::fmt::Debug;
use std::hash::Hash;

/// A model of any symbols for encoders: it finds the entry of a symbol by its hash.
///
/// Its rows are the entries of its hash table, in an order without meaning.
#[derive(Drop)]
#[derive_where(Debug; Symbol: Debug, Probability: Debug, Weight<Probability>: Debug)]
pub struct NonContiguousCategoricalEncoderModel<
    Symbol: Hash + Eq,
    Probability: WholeNumber,
    const PRECISION: usize,
> {
    pub(crate) table: HashMap<Symbol, Entry<Probability, Weight<Probability>>>,
    ghost precise: { IsPrecision Probability.BITS PRECISION },
    ghost distinct: { IsDistinct Symbol.eq (keys_of table.entries) } by { Prim.hlevel props },
    ghost within: { All (LiesWithin PRECISION) (rows_of_table (λ e.
        (Probability.whole e.left, Probability.whole (Probability.base e.weight))) table.entries) },
}

/// Over 24 bits of `u32`, for most uses.
pub type DefaultNonContiguousCategoricalEncoderModel<Symbol> = NonContiguousCategoricalEncoderModel<
    Symbol,
    u32,
    24,
>;

/// Over 12 bits of `u16`, for few symbols.
pub type SmallNonContiguousCategoricalEncoderModel<Symbol> = NonContiguousCategoricalEncoderModel<
    Symbol,
    u16,
    12,
>;

impl<Symbol: Hash + Eq, Probability: WholeNumber, const PRECISION: usize> EntropyModel<PRECISION>
    for NonContiguousCategoricalEncoderModel<Symbol, Probability, PRECISION> {
    type Symbol = Symbol;

    type Probability = Probability;

    ghost use Rattle.constriction_conversions.specs.EncoderRows.{encoder_model_rows};

    ghost rows = { encoder_model_rows };

    ghost precision_law = { λ m. m.precise };
}

impl<Symbol: Hash + Eq, Probability: WholeNumber, const PRECISION: usize> EncoderModel<PRECISION>
    for NonContiguousCategoricalEncoderModel<Symbol, Probability, PRECISION> {
    ghost symbol_eq = { Symbol.eq };

    /// The entry of a symbol, by one hash. It takes no memory.
    #[inline]
    fn left_cumulative_and_probability(
        &self,
        symbol: &Symbol,
    ) -> Option<(Probability, Weight<Probability>)> {
        match self.table.get(symbol) {
            Some(entry) => Some((entry.left, entry.weight)),
            None => None,
        }
    }

    ghost equality_law = { Symbol.Eq.laws };

    ghost within_law = { λ m. m.within };
}

impl<
    Symbol: Hash + Eq,
    Probability: WholeNumber,
    const PRECISION: usize,
> NonContiguousCategoricalEncoderModel<Symbol, Probability, PRECISION> {
    ghost use Rattle.constriction_conversions.specs.EncoderRows.{encoder_model_rows, AreHashedRowsOf};

    /// How many symbols have an entry.
    #[inline]
    pub fn support_size(&self) -> usize
        ensures { result ≡ length (encoder_model_rows self.now) }
    {
        self.table.len()
    }

    /// The model of these symbols and weights. They are accepted and refused as by the decoder's
    /// constructor of this name. `OutOfMemory` comes if memory for the hash table is refused.
    ///
    /// One pass over both, and one hash a symbol. If the symbols' iterator announces their number,
    /// memory is requested before the first symbol and not again: the hash table has four
    /// allocations.
    pub fn from_symbols_and_nonzero_fixed_point_probabilities<
        S: IntoIterator<Item = Symbol>,
        P: IntoIterator<Item = Probability>,
    >(
        alloc: Global,
        symbols: S,
        probabilities: P,
        infer_last_probability: bool,
    ) -> Result<Self, ModelError>
    where
        Symbol: Drop,
        requires precision { IsPrecision Probability.BITS PRECISION }
        requires symbols_end { IsFiniteIterable S.into_iter_gives S.IntoIter.can_next
            S.IntoIter.remaining symbols }
        requires probabilities_end { IsFiniteIterable P.into_iter_gives P.IntoIter.can_next
            P.IntoIter.remaining probabilities }
        ensures { IsDecidedByBoth (AreAccepted Symbol.eq Probability.BITS PRECISION)
            (completed PRECISION infer_last_probability) S.into_iter_gives S.IntoIter.next_gives
            symbols P.into_iter_gives P.IntoIter.next_gives probabilities Probability.whole
            (λ m ss ws. AreHashedRowsOf Symbol.eq (encoder_model_rows m) ss ws) result }
    {
        let symbols = symbols.into_iter();
        let probabilities = probabilities.into_iter();
        let table = HashMap::with_capacity(
            alloc,
            rows_announced::<PRECISION>(symbols.size_hint().0),
        )?;
        let read = rows_read::<
            Probability,
            Symbol,
            HashedRows<Symbol, Probability>,
            _,
            _,
            PRECISION,
        >(
            HashedRows { table },
            symbols,
            probabilities,
            infer_last_probability,
        )?;
        Ok(Self { table: read.table })
    }
}

impl<Symbol: Hash + Eq + Clone, Probability: WholeNumber, const PRECISION: usize> Clone
    for NonContiguousCategoricalEncoderModel<Symbol, Probability, PRECISION> {
    ghost use Rattle.constriction_conversions.specs.EncoderRows.{encoder_model_rows};

    ghost is_clone = { λ x y.
        StandForRows Symbol.is_clone (encoder_model_rows y) (encoder_model_rows x) };

    /// A copy of the model, with clones of the symbols. Its hash table comes from the allocator of
    /// this model's.
    ///
    /// A copy of the hash table and a clone of each symbol. The call fails if memory for one of
    /// these is refused.
    fn clone(&self) -> Result<Self, AllocError> {
        let table = self.table.clone()?;
        // The contract of this call says that no two keys of the clone are equal, whatever is known
        // of clones.
        let _len = table.len();
        Ok(Self { table })
    }
}
