//! The walk through the rows of a uniform model.

ghost use Rattle.std.specs.Prelude.{◌+◌};
ghost use Rattle.constriction_model.specs.Rows.{uniform_rows};
ghost use Rattle.constriction_model.specs.Tables.{rows_between};
ghost use Rattle.constriction_model.specs.lemmas.UniformRows.{uniform-tiles};

use crate::iterable::IterableEntropyModel;
use constriction_model::{EntropyModel, UniformModel, UniformSymbolTable};
use constriction_numbers::WholeNumber;

impl<Probability: WholeNumber, const PRECISION: usize> IterableEntropyModel<PRECISION>
    for UniformModel<Probability, PRECISION> {
    type SymbolTable = UniformSymbolTable<Probability, PRECISION>;

    ghost rows_left = { λ t. rows_between t.from t.to
        (uniform_rows PRECISION (Probability.whole t.model.last_symbol + 1)) };

    /// All rows in order, each once: symbol, left cumulative and weight. The walk takes no memory,
    /// and every item is a row.
    #[inline]
    fn symbol_table(self) -> UniformSymbolTable<Probability, PRECISION> {
        UniformSymbolTable::new(self)
    }

    ghost steps_law = { λ t r u step. step };

    ghost tile_law = { λ m. uniform-tiles PRECISION _ m.within _ m.precise.fits m.some };
}
