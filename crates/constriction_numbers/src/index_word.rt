//! Words that may be indices of a lookup table.

ghost use Rattle.std.specs.Prelude.{◌≡◌, ◌<◌, ◌^◌, min};

use crate::whole_number::WholeNumber;

/// A word that is read as an index, as the constructors of lookup models ask, except `with_table`.
///
/// The unsigned integers of std are index words. A caller's own type needs only an empty `impl`.
pub trait IndexWord: WholeNumber {
    /// The number of the word, or `usize::MAX` if that is less.
    #[inline]
    fn to_index(self) -> usize
        ensures { result ≡ min (Self.whole self) usize.MAX }
    {
        // No law says that the number is below `2^BITS`; the contract of this difference does.
        let _is_a_word = self.wrapping_minus(Self::least());
        if Self::BITS > 64 && Self::greatest_of_bits(64).is_below(self) {
            return usize::MAX;
        }
        self.to_number()
    }

    /// The word of an index below `2^BITS`.
    #[inline]
    fn from_index(i: usize) -> Self
        requires { i < 2 ^ Self.BITS }
        ensures { Self.whole result ≡ i }
    {
        Self::from_number(i)
    }
}
