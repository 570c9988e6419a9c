//! An entry that divides a state without a division.

ghost use Rattle.std.specs.Prelude.{◌≡◌, ◌+◌, ◌-◌, ◌*◌, ◌/◌, ◌%◌, ◌^◌, ◌<◌, ◌≤◌};
ghost use Rattle.constriction_coders.specs.States.{put};

/// The entry of a symbol, a left cumulative and a weight, with the reciprocal of the weight: a
/// symbol that is put on a coder by it costs multiplications and no division.
///
/// It takes 16 bytes. A model that encodes many symbols makes the entry of each once.
#[derive(Debug, Clone, Copy, PartialEq, Eq)]
pub struct PreparedEntry {
    pub(crate) left: u32,
    pub(crate) weight: u32,
    // (2^64 - 1) / weight, rounded down
    pub(crate) reciprocal: u64,
    pub ghost some: { 0 < weight },
    pub ghost at_most: { reciprocal * weight < 2 ^ 64 },
    pub ghost no_less: { 2 ^ 64 ≤ (reciprocal + 1) * weight },
}

impl PreparedEntry {
    /// The entry of this left cumulative and weight. It costs a division.
    #[inline]
    #[tactic(auto, using(crate::proofs::Reciprocals::is_reciprocal))]
    pub fn new(left: u32, weight: u32) -> Self
        requires { 0 < weight }
        ensures left { result.left ≡ left }
        ensures weight { result.weight ≡ weight }
    {
        PreparedEntry {
            left,
            weight,
            reciprocal: u64::MAX / weight as u64,
        }
    }

    /// The left cumulative.
    #[inline]
    pub fn left(&self) -> u32
        ensures { result ≡ self.now.left }
    {
        self.left
    }

    /// The weight, which is not 0.
    #[inline]
    pub fn weight(&self) -> u32
        ensures value { result ≡ self.now.weight }
        ensures some { 0 < result }
    {
        self.weight
    }

    /// The quotient and the remainder of a state by the weight.
    ///
    /// The high half of the product by the reciprocal is the quotient, or one less.
    #[inline]
    pub(crate) fn divided(&self, state: u64) -> (u64, u64)
        ensures quotient { result.0 ≡ state / self.now.weight }
        ensures remainder { result.1 ≡ state % self.now.weight }
    {
        let weight = self.weight as u64;
        let estimate = ((state as u128 * self.reciprocal as u128) >> 64) as u64;
        let rest = state - estimate * weight;
        if rest < weight {
            return (estimate, rest);
        }
        (estimate + 1, rest - weight)
    }

    /// The state with a symbol of this entry on top.
    #[inline]
    pub(crate) fn put_on<const PRECISION: usize>(&self, state: u64) -> u64
        requires fits { PRECISION ≤ 32 }
        requires within { self.now.left + self.now.weight ≤ 2 ^ PRECISION }
        requires room { state < self.now.weight * 2 ^ (64 - PRECISION) }
        ensures { result ≡ put PRECISION self.now.left self.now.weight state }
    {
        let (quotient, remainder) = self.divided(state);
        (quotient << PRECISION) + (self.left as u64 + remainder)
    }
}
