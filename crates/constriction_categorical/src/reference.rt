//! If a model is copied into its symbol table, a reference to it is walked through in the same way.

use crate::iterable::IterableEntropyModel;

impl<M: IterableEntropyModel<PRECISION> + Copy, const PRECISION: usize> IterableEntropyModel<
    PRECISION,
> for &M {
    type SymbolTable = M::SymbolTable;

    ghost stands_for = { M.stands_for };

    ghost may_refuse = { M.may_refuse };

    ghost rows_left = { M.rows_left };

    fn symbol_table(self) -> M::SymbolTable {
        (*self).symbol_table()
    }

    ghost steps_law = { M.steps_law };

    ghost tile_law = { λ m. M.tile_law m.now };
}
