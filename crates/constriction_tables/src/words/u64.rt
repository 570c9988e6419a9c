//! Entries of 64 bits: 16 have the symbol, 16 the left cumulative, and 16 the weight less one.

ghost use Rattle.std.specs.Prelude.{◌+◌, ◌/◌, ◌%◌, refl};
ghost use Rattle.std.proofs.Common.{arith};

use crate::entry::TableEntry;

impl TableEntry for u64 {
    type Symbol = u16;

    const SYMBOL_BITS: usize = 16;

    ghost SYMBOL_BITS = { 16 };

    const ROW_BITS: usize = 16;

    ghost ROW_BITS = { 16 };

    ghost row_in = { λ e. record {
      symbol = e / 4294967296 % 65536;
      left = e / 65536 % 65536;
      weight = e % 65536 + 1;
    } };

    ghost number = { λ s. s };

    ghost symbol_of = { λ n. n };

    #[inline(always)]
    fn pack(symbol: u16, left: u32, weight: u32) -> u64 {
        (u64::from(symbol) * 65536 + u64::from(left % 65536)) * 65536
            + u64::from((weight - 1) % 65536)
    }

    #[inline(always)]
    fn symbol(self) -> u16 {
        (self / 4294967296 % 65536) as u16
    }

    #[inline(always)]
    fn left_cumulative(self) -> u32 {
        (self / 65536 % 65536) as u32
    }

    #[inline(always)]
    fn weight(self) -> u32 {
        (self % 65536) as u32 + 1
    }

    #[inline(always)]
    fn to_index(symbol: u16) -> usize {
        usize::from(symbol)
    }

    #[inline(always)]
    fn from_index(index: usize) -> u16 {
        index as u16
    }

    ghost same_law = { λ s t e. e };

    ghost number_law = { λ n. refl };

    ghost width_law = { Prim.omega arith };
}
