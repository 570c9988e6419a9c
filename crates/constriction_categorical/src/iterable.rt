//! The trait of models whose rows can be walked through.
//!
//! The trait stands beside its impls for references to models. A crate finds an impl for a
//! reference if it uses the crate of the trait, directly or through another one, but not through
//! the crate of the model alone.

ghost use Rattle.std.specs.Prelude.{◌≡◌, List, length};
ghost use Rattle.std.specs.Iterator.{UpTo};
ghost use Rattle.constriction_model.specs.Rows.{Row, RowsTile};
ghost use Rattle.constriction_model.specs.Tables.{YieldsRow};

use constriction_model::{EntropyModel, Weight};
use std::alloc::AllocError;

/// A model whose rows can be walked through: a reference to a model that a symbol table borrows
/// from, or a model that can be copied into its symbol table, and references to it.
pub trait IterableEntropyModel<const PRECISION: usize>: EntropyModel<PRECISION> {
    /// The walk through the rows.
    type SymbolTable: Iterator<
        Item = Result<(Self::Symbol, Self::Probability, Weight<Self::Probability>), AllocError>,
    >;

    // An item may have the second symbol for a row with the first one, as an answer of a
    // `DecoderModel`.
    ghost stands_for: { Self.Symbol → Self.Symbol → Type 0 } = { λ s t. t ≡ s };

    // Memory for a row with this symbol may be refused. By default it never is.
    ghost may_refuse: { Self.Symbol → Type 0 } = { λ _. ⊥ };

    // The rows that a symbol table has yet to give.
    ghost rows_left: { Self.SymbolTable → List (Row Self.Symbol) };

    /// All rows in order, each once: symbol, left cumulative and weight. If memory for a clone of a
    /// symbol is refused, the row's item is the refusal, and the walk goes on after it.
    fn symbol_table(self) -> Self::SymbolTable
        ensures all { rows_left result ≡ Self.rows self }
        ensures callable { Self.SymbolTable.can_next result }
        ensures ends { UpTo (Self.SymbolTable.remaining result) (length (Self.rows self)) };

    // Each step gives the first of the rows that are left, and `None` if and only if none is left.
    ghost steps_law: { (t : Self.SymbolTable) (r : _) (u : Self.SymbolTable)
        → Self.SymbolTable.next_gives t r u → YieldsRow stands_for may_refuse Self.Probability.whole
        Self.Probability.base rows_left t r u };

    // The rows tile the quantiles, so each quantile has exactly one row.
    ghost tile_law: { (m : Self) → RowsTile Self.Probability.BITS PRECISION (Self.rows m) };
}
