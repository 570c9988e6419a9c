//! Entries of 32 bits: 8 have the symbol, 12 the left cumulative, and 12 the weight less one.

ghost use Rattle.std.specs.Prelude.{◌+◌, ◌/◌, ◌%◌, refl};
ghost use Rattle.std.proofs.Common.{arith};

use crate::entry::TableEntry;

impl TableEntry for u32 {
    type Symbol = u8;

    const SYMBOL_BITS: usize = 8;

    ghost SYMBOL_BITS = { 8 };

    const ROW_BITS: usize = 12;

    ghost ROW_BITS = { 12 };

    ghost row_in = { λ e. record
        { symbol = e / 16777216; left = e / 4096 % 4096; weight = e % 4096 + 1 } };

    ghost number = { λ s. s };

    ghost symbol_of = { λ n. n };

    #[inline(always)]
    fn pack(symbol: u8, left: u32, weight: u32) -> u32 {
        (u32::from(symbol) * 4096 + left % 4096) * 4096 + (weight - 1) % 4096
    }

    #[inline(always)]
    fn symbol(self) -> u8 {
        (self / 16777216) as u8
    }

    #[inline(always)]
    fn left_cumulative(self) -> u32 {
        self / 4096 % 4096
    }

    #[inline(always)]
    fn weight(self) -> u32 {
        self % 4096 + 1
    }

    #[inline(always)]
    fn to_index(symbol: u8) -> usize {
        usize::from(symbol)
    }

    #[inline(always)]
    fn from_index(index: usize) -> u8 {
        index as u8
    }

    ghost same_law = { λ s t e. e };

    ghost number_law = { λ n. refl };

    ghost width_law = { Prim.omega arith };
}
