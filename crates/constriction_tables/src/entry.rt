//! Words that hold a row.

ghost use Rattle.std.specs.Prelude.{◌≡◌, ◌+◌, ◌^◌, ◌<◌, ◌≤◌, ℕ};
ghost use Rattle.constriction_model.specs.Rows.{Row};

/// A word that holds a row: a symbol, a left cumulative and a weight.
pub trait TableEntry: Copy {
    /// The type of symbols: the unsigned integer of `SYMBOL_BITS` bits.
    type Symbol: Copy;

    /// How many bits of the word have the symbol.
    const SYMBOL_BITS: usize;

    ghost SYMBOL_BITS: { ℕ };

    /// How many bits have the left cumulative, and as many the weight less one. It is the greatest
    /// `PRECISION` of a model.
    const ROW_BITS: usize;

    ghost ROW_BITS: { ℕ };

    // The row in a word.
    ghost row_in: { Self → Row Self.Symbol };

    // The number of a symbol.
    ghost number: { Self.Symbol → ℕ };

    // The symbol of a number.
    ghost symbol_of: { ℕ → Self.Symbol };

    /// The word of a row. If the row does not fit, the word holds some row.
    fn pack(symbol: Self::Symbol, left: u32, weight: u32) -> Self
        requires { 0 < weight }
        ensures { left + weight ≤ 2 ^ ROW_BITS
            → row_in result ≡ record { symbol = symbol; left = left; weight = weight } };

    /// The symbol.
    fn symbol(self) -> Self::Symbol
        ensures { result ≡ (row_in self).symbol };

    /// The left cumulative.
    fn left_cumulative(self) -> u32
        ensures { result ≡ (row_in self).left };

    /// The weight.
    fn weight(self) -> u32
        ensures value { result ≡ (row_in self).weight }
        ensures positive { 0 < result };

    /// The number of a symbol, as an index.
    fn to_index(symbol: Self::Symbol) -> usize
        ensures value { result ≡ number symbol }
        ensures small { result < 65536 };

    /// The symbol of a number.
    fn from_index(index: usize) -> Self::Symbol
        requires { index < 2 ^ SYMBOL_BITS }
        ensures { result ≡ symbol_of index };

    // Symbols with the same number are equal.
    ghost same_law: { (s t : Self.Symbol) → number s ≡ number t → s ≡ t };

    // The symbol of a number has this number.
    ghost number_law: { (n : ℕ) → number (symbol_of n) ≡ n };

    // A row fits words of 32 bits.
    ghost width_law: { ROW_BITS ≤ 16 };
}
