//! Words as numbers: the little that models ask of a word.

ghost use Rattle.std.specs.Prelude.{◌≡◌, ◌↔◌, ◌+◌, ◌-◌, ◌*◌, ◌/◌, ◌%◌, ◌<◌, ◌≤◌, ◌^◌, ℕ, IsTrue};

/// A word as the whole number that it stands for. Models ask nothing more of their words.
///
/// A word of `BITS` bits stands for a number from 0 to `2^BITS - 1`, and words with the same number
/// are equal. `plus`, `minus` and `times` are exact, and require that the result is a word. Only
/// `wrapping_minus` and `wrapping_pow2` are modulo `2^BITS`.
///
/// Each `BitArray` of `constriction_words` is a `WholeNumber`. A caller's own type may be one
/// without being a `BitArray`: it serves for models, and for coders that neither shift left nor
/// wrap sums. Generic code over a `BitArray` takes more than five times as long to check.
pub trait WholeNumber: Copy {
    /// How many bits a word has.
    const BITS: usize;

    ghost BITS: { ℕ };

    /// The words other than 0. Answers hold weights in this type.
    type NonZero: Copy;

    // The whole number.
    ghost whole: { Self → ℕ };

    // A weight as a word.
    ghost base: { Self.NonZero → Self };

    /// The greatest word: `2^BITS - 1`.
    fn greatest_word() -> Self
        ensures { whole result + 1 ≡ 2 ^ BITS };

    /// The quotient by `2^places`, rounded down.
    fn shifted_right(self, places: usize) -> Self
        requires { places < BITS }
        ensures { whole result ≡ whole self / 2 ^ places };

    /// The greatest number of `bits` bits: `2^bits - 1`.
    #[inline]
    fn greatest_of_bits(bits: usize) -> Self
        requires some { 0 < bits }
        requires fits { bits ≤ BITS }
        ensures value { whole result + 1 ≡ 2 ^ bits }
        ensures within { 2 ^ bits ≤ 2 ^ BITS }
    {
        Self::greatest_word().shifted_right(Self::BITS - bits)
    }

    /// The word `2^exponent`, modulo `2^BITS`. It is 0 if the exponent is `BITS`.
    fn wrapping_pow2(exponent: usize) -> Self
        requires some { 0 < exponent }
        requires fits { exponent ≤ BITS }
        ensures { whole result ≡ 2 ^ exponent % 2 ^ BITS };

    /// Whether `self <= other`, as numbers.
    fn is_at_most(self, other: Self) -> bool
        ensures { IsTrue result ↔ (whole self ≤ whole other) };

    /// Whether `self < other`, as numbers.
    fn is_below(self, other: Self) -> bool
        ensures { IsTrue result ↔ (whole self < whole other) };

    /// Whether the word is 0.
    fn is_zero_word(self) -> bool
        ensures { IsTrue result ↔ (whole self ≡ 0) };

    /// Whether the word is the greatest one.
    fn is_greatest(self) -> bool
        ensures { IsTrue result ↔ (whole self + 1 ≡ 2 ^ BITS) };

    /// The exact sum.
    fn plus(self, other: Self) -> Self
        requires { whole self + whole other < 2 ^ BITS }
        ensures { whole result ≡ whole self + whole other };

    /// The exact difference.
    fn minus(self, other: Self) -> Self
        requires { whole other ≤ whole self }
        ensures { whole result ≡ whole self - whole other };

    /// The difference, modulo `2^BITS`.
    fn wrapping_minus(self, other: Self) -> Self
        ensures range { whole result < 2 ^ BITS }
        ensures difference { (whole result + whole other) % 2 ^ BITS ≡ whole self };

    /// The exact product.
    fn times(self, other: Self) -> Self
        requires { whole self * whole other < 2 ^ BITS }
        ensures { whole result ≡ whole self * whole other };

    /// The quotient, rounded down.
    fn divided_by(self, other: Self) -> Self
        requires { 0 < whole other }
        ensures { whole result ≡ whole self / whole other };

    /// The word of a number below `2^BITS`.
    fn from_number(number: usize) -> Self
        requires { number < 2 ^ BITS }
        ensures { whole result ≡ number };

    /// The number of a word below `2^64`.
    fn to_number(self) -> usize
        requires { whole self < 2 ^ 64 }
        ensures { result ≡ whole self };

    /// The word 0.
    fn least() -> Self
        ensures { whole result ≡ 0 };

    /// A word other than 0 as a weight.
    fn to_weight(self) -> Self::NonZero
        requires { 0 < whole self }
        ensures { base result ≡ self };

    /// A weight as a word.
    fn from_weight(weight: Self::NonZero) -> Self
        ensures { result ≡ base weight };

    // Words with the same number are equal.
    ghost same_law: { (a b : Self) → whole a ≡ whole b → a ≡ b };

    // Each number below `2^BITS` is the number of a word.
    ghost number_law: { (n : ℕ) → n < 2 ^ BITS → (x : Self) × (whole x ≡ n) };

    // A weight is not 0.
    ghost weight_law: { (x : Self.NonZero) → 0 < whole (base x) };

    // Weights with the same word are equal.
    ghost same_weight_law: { (a b : Self.NonZero) → base a ≡ base b → a ≡ b };
}
