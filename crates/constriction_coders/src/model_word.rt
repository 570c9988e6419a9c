//! Which words a model may have that codes.

ghost use Rattle.std.specs.Prelude.{◌≡◌, ◌<◌, ◌≤◌, ◌^◌};

use constriction_words::WholeNumber;

/// A model's word that goes into a coder's word: it has at most 32 bits.
///
/// `u8`, `u16` and `u32` are model words. A caller's own type needs an `impl` with the law alone.
pub trait ModelWord: WholeNumber {
    /// The coder's word of the same number.
    #[inline]
    final fn to_coder_word(self) -> u32
        ensures { result ≡ Self.whole self }
    {
        // No law says that the number is below `2^BITS`; the contract of this difference does.
        let _is_a_word = self.wrapping_minus(Self::least());
        self.to_number() as u32
    }

    /// The word of a number below `2^BITS`.
    #[inline]
    final fn from_coder_word(word: u32) -> Self
        requires { word < 2 ^ Self.BITS }
        ensures { Self.whole result ≡ word }
    {
        Self::from_number(word as usize)
    }

    // A word has at most 32 bits.
    ghost width_law: { Self.BITS ≤ 32 };
}

impl ModelWord for u8 {
    ghost use Rattle.std.proofs.Common.{rules};

    ghost width_law = { Prim.search rules };
}

impl ModelWord for u16 {
    ghost use Rattle.std.proofs.Common.{rules};

    ghost width_law = { Prim.search rules };
}

impl ModelWord for u32 {
    ghost use Rattle.std.proofs.Common.{rules};

    ghost width_law = { Prim.search rules };
}
