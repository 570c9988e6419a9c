//! Laws of symbol tables and of models over any symbols. Each is the contract of a function. The
//! laws of symbol tables hold for each type that implements the trait, a caller's own too.

ghost use Rattle.std.specs.Prelude.{◌≡◌, ◌++◌, ℕ, List, length, map, reverse, false, true};
ghost use Rattle.std.specs.Iterator.{Yields, Drains};
ghost use Rattle.std.specs.List.{IsDistinct};
ghost use Rattle.constriction_model.specs.Acceptance.{AreAccepted};
ghost use Rattle.constriction_model.specs.Laws.{AreRows, IsInTable};
ghost use Rattle.constriction_model.specs.Tables.{YieldsLastRow};
ghost use Rattle.constriction_conversions.specs.BothEnds.{EitherStep, marked};
ghost use Rattle.constriction_model.specs.Rows.{Row, IsRowOf, rows_of, symbols_of};

use constriction_buffers::SafeBuf;
use constriction_categorical::{
    IterableEntropyModel, NonContiguousCategoricalDecoderModel, NonContiguousLookupDecoderModel,
    SlottedNonContiguousLookupDecoderModel,
};
use constriction_model::{DecoderModel, EntropyModel};
use constriction_numbers::{IndexWord, WholeNumber};

/// Steps of a symbol table give the first of the rows that are left, in order, and leave the
/// others.
pub fn table_walks_rows<M: IterableEntropyModel<PRECISION>, const PRECISION: usize>()
    ensures { (t : M.SymbolTable) (items : _) (u : M.SymbolTable) → Yields M.SymbolTable.next_gives
        t items u → (rows : List (Row M.Symbol)) × (M.rows_left t ≡ rows ++ M.rows_left u)
        × AreRows M.stands_for M.may_refuse M.Probability.whole M.Probability.base items rows }
{}

/// A walk to the end of a symbol table gives all rows that were left, in order and each once: all
/// rows of the model if the symbol table is fresh.
pub fn table_gives_all_rows<M: IterableEntropyModel<PRECISION>, const PRECISION: usize>()
    ensures { (t : M.SymbolTable) (items : _) → Drains M.SymbolTable.next_gives t items → AreRows
        M.stands_for M.may_refuse M.Probability.whole M.Probability.base items (M.rows_left t) }
{}

/// A walk to the end of a symbol table gives as many items as rows were left, refusals counted:
/// `support_size` of the model if the symbol table is fresh.
pub fn table_length<M: IterableEntropyModel<PRECISION>, const PRECISION: usize>()
    ensures { (t : M.SymbolTable) (items : _) → Drains M.SymbolTable.next_gives t items
        → length items ≡ length (M.rows_left t) }
{}

/// Steps of a symbol table from both ends, in any order, give each row once: those from the front
/// (`next`) the first rows, those from the back (`next_back`) the last ones in reverse. The others
/// are left, and none if both ends have met.
pub fn table_walks_rows_from_both_ends<M, const PRECISION: usize>()
where
    M: IterableEntropyModel<PRECISION>,
    M::SymbolTable: DoubleEndedIterator,
    // Each step from the back gives the last row left, as the library's symbol tables say.
    requires { (t : M.SymbolTable) (r : _) (u : M.SymbolTable)
        → M.SymbolTable.next_back_gives t r u → YieldsLastRow M.stands_for M.may_refuse
        M.Probability.whole M.Probability.base M.rows_left t r u }
    ensures { (t : M.SymbolTable) (items : _) (u : M.SymbolTable)
        → Yields (EitherStep M.SymbolTable.next_gives M.SymbolTable.next_back_gives) t items u
        → (first : List (Row M.Symbol)) × (last : List (Row M.Symbol))
        × (M.rows_left t ≡ first ++ M.rows_left u ++ last)
        × AreRows M.stands_for M.may_refuse M.Probability.whole M.Probability.base
        (marked true items) first
        × AreRows M.stands_for M.may_refuse M.Probability.whole M.Probability.base
        (reverse (marked false items)) last }
{}

/// The row of a quantile is in the model's symbol table: in a walk to the end, an item or a refusal
/// stands for the row, and no item that holds the quantile stands for another row. So a decoder may
/// look quantiles up in a symbol table that was read before. If clones are the same values, it
/// finds the very answer of [`DecoderModel::quantile_function`].
pub fn answers_are_in_table<M, const PRECISION: usize>()
where
    M: DecoderModel<PRECISION> + IterableEntropyModel<PRECISION>,
    ensures { (m : M) (t : M.SymbolTable) (items : _) (q : ℕ) (r : Row M.Symbol)
        → M.rows_left t ≡ M.rows m → Drains M.SymbolTable.next_gives t items
        → IsRowOf (M.rows m) q r → IsInTable M.IterableEntropyModel.stands_for
        M.IterableEntropyModel.may_refuse M.Probability.whole M.Probability.base items q r }
{}

/// If no two symbols of a model are equal, the constructors from symbols and weights, without
/// inference, accept those of its symbol table, and these give its rows again. So a symbol table
/// can be stored as its symbols and weights, and a constructor that reads them answers a model of
/// the same rows, or `OutOfMemory`.
pub fn symbols_and_weights_rebuild<M, const PRECISION: usize>()
where
    M: IterableEntropyModel<PRECISION>,
    M::Symbol: Eq,
    ensures { (m : M) → IsDistinct M.Symbol.eq (symbols_of (M.rows m)) → AreAccepted M.Symbol.eq
        M.Probability.BITS PRECISION (symbols_of (M.rows m)) (map (λ r. r.weight) (M.rows m))
        × (rows_of (symbols_of (M.rows m)) (map (λ r. r.weight) (M.rows m)) ≡ M.rows m) }
{}

/// No two symbols of a decoder over any symbols are equal, however it was made. So a hashed encoder
/// that is made of it has the entry of each of its rows, and
/// [`pairs_are_quantiles`](constriction_model::laws::pairs_are_quantiles) applies.
pub fn non_contiguous_symbols_differ<Symbol, Probability, Cdf, const PRECISION: usize>()
where
    Symbol: Eq,
    Probability: WholeNumber,
    Cdf: SafeBuf<(Probability, Symbol)>,
    ensures { (m : _) → IsDistinct Symbol.eq (symbols_of
        (⟦<NonContiguousCategoricalDecoderModel<Symbol, Probability, Cdf, PRECISION> as EntropyModel<PRECISION>>⟧.rows m)) }
{}

/// The same for a lookup model over any symbols.
pub fn non_contiguous_lookup_symbols_differ<
    Symbol,
    Probability,
    Cdf,
    LookupTable,
    const PRECISION: usize,
>()
where
    Symbol: Eq,
    Probability: IndexWord,
    Cdf: SafeBuf<(Probability, Symbol)>,
    LookupTable: SafeBuf<Probability>,
    ensures { (m : _) → IsDistinct Symbol.eq (symbols_of
        (⟦<NonContiguousLookupDecoderModel<Symbol, Probability, Cdf, LookupTable, PRECISION> as EntropyModel<PRECISION>>⟧.rows m)) }
{}

/// The same for one with any number of slots.
pub fn slotted_non_contiguous_lookup_symbols_differ<
    Symbol,
    Probability,
    Cdf,
    LookupTable,
    const PRECISION: usize,
    const SLOT_BITS: usize,
>()
where
    Symbol: Eq,
    Probability: IndexWord,
    Cdf: SafeBuf<(Probability, Symbol)>,
    LookupTable: SafeBuf<Probability>,
    ensures { (m : _) → IsDistinct Symbol.eq (symbols_of
        (⟦<SlottedNonContiguousLookupDecoderModel<Symbol, Probability, Cdf, LookupTable, PRECISION, SLOT_BITS> as EntropyModel<PRECISION>>⟧.rows m)) }
{}
