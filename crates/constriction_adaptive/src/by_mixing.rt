//! Bits by several predictors, whose predictions are mixed.

ghost use Rattle.std.specs.Prelude.{◌≡◌, ◌+◌, ◌≤◌, ◌∷◌, [], ℕ, Bool, List, IfOk, OnOk, length};
ghost use Rattle.constriction_adaptive.specs.Bit.{at_least_one, bit_rows, zero_weight};
ghost use Rattle.constriction_adaptive.specs.ByMixing.{
  Mixture,
  joint_rows,
  mixture_after,
  mixture_of,
};
ghost use Rattle.constriction_adaptive.specs.Mixing.{mixed, squash, strength};
ghost use Rattle.constriction_adaptive.specs.lemmas.Bit.{next-same};

use crate::bit::Bit;
use crate::mixing::{adjust, mix, squash, strength};
use crate::predictor::{Predictor, Snapshot};
use constriction_model::EntropyModel;
use std::alloc::{AllocError, Global};

/// Several predictors of bits: `()` is none, and `(P, R)` is one before others. So
/// `(a, (b, (c, ())))` is three, each of a type of its own.
pub trait BitPredictors {
    // What the predictors know.
    ghost State: { Type 0 };

    ghost state: { Self → State };

    // How many there are.
    ghost count: { ℕ };

    // How strongly each speaks for 0.
    ghost strengths: { State → List ℕ };

    // The state after a bit.
    ghost next: { State → Bool → State };

    // The predictors have the memory to learn a bit.
    ghost can_learn: { Self → Type 0 };

    /// Writes how strongly each predictor speaks for 0: its [`strength`].
    fn ask(&self, said: &mut [u16])
        requires { length said.old ≡ count }
        ensures { said.new ≡ strengths (state self.now) };

    /// Asks for the memory that learning a bit takes. The state stays.
    fn reserve(&mut self) -> Result<(), AllocError>
        ensures ready { OnOk result (can_learn self.new) }
        ensures same { state self.new ≡ state self.old };

    /// Lets all predictors learn a bit.
    fn learn(&mut self, bit: bool)
        requires { can_learn self.old }
        ensures { state self.new ≡ next (state self.old) bit };
}

/// No predictor.
impl BitPredictors for () {
    ghost State = { Unit {0} };

    ghost state = { λ p. p };

    ghost count = { 0 };

    ghost strengths = { λ _. [] };

    ghost next = { λ s _. s };

    ghost can_learn = { λ _. Unit {0} };

    #[inline]
    fn ask(&self, _said: &mut [u16]) {}

    #[inline]
    fn reserve(&mut self) -> Result<(), AllocError> {
        Ok(())
    }

    #[inline]
    fn learn(&mut self, _bit: bool) {}
}

/// A predictor before others.
impl<P, R> BitPredictors for (P, R)
where
    P: Predictor<16, Symbol = bool, Model = Bit>,
    R: BitPredictors,
{
    ghost State = { P.State × R.State };

    ghost state = { λ p. (P.state p.0, R.state p.1) };

    ghost count = { R.count + 1 };

    ghost strengths = { λ s. strength (zero_weight (P.rows s.0)) ∷ R.strengths s.1 };

    ghost next = { λ s bit. (P.next s.0 bit, R.next s.1 bit) };

    ghost can_learn = { λ p. P.can_learn p.0 × R.can_learn p.1 };

    #[inline]
    fn ask(&self, said: &mut [u16]) {
        let (first, others) = said.split_at_mut(1);
        first[0] = strength(self.0.model().weight());
        self.1.ask(others);
    }

    #[inline]
    fn reserve(&mut self) -> Result<(), AllocError> {
        self.0.reserve()?;
        self.1.reserve()
    }

    #[inline]
    fn learn(&mut self, bit: bool) {
        self.0.learn(&bit);
        self.1.learn(bit);
    }
}

/// Predictors of bits that can be copied together.
pub trait BitSnapshots: BitPredictors {
    /// Copies in the same states. It fails only if memory is refused.
    fn snapshots(&self, alloc: Global) -> Result<Self, AllocError>
        ensures { IfOk result (λ copies. Self.state copies ≡ Self.state self.now) };
}

impl BitSnapshots for () {
    fn snapshots(&self, _alloc: Global) -> Result<Self, AllocError> {
        Ok(())
    }
}

impl<P, R> BitSnapshots for (P, R)
where
    P: Snapshot<16, Symbol = bool, Model = Bit> + Drop,
    R: BitSnapshots + Drop,
{
    fn snapshots(&self, alloc: Global) -> Result<Self, AllocError> {
        let first = self.0.snapshot(alloc)?;
        let others = self.1.snapshots(alloc)?;
        Ok((first, others))
    }
}

/// Predicts each bit by `N` predictors, all of which learn it: what they say is mixed, and those
/// that were right count more from then on.
///
/// It asks for no memory but what they ask for. A bit takes a few operations for each of them, and
/// a division.
#[derive(Drop)]
pub struct ByMixing<P, const N: usize>
where
    P: BitPredictors,
{
    predictors: P,
    weights: [u32; N],
    strengths: [u16; N],
    weight: u16,
    current: Bit,
    ghost each: { N ≡ P.count },
    ghost few: { N ≤ 32768 },
    ghost strengths_are: { strengths ≡ P.strengths (P.state predictors) },
    ghost weight_is: { weight ≡ squash (mixed weights strengths) },
    ghost is: { ⟦<Bit as EntropyModel<16>>⟧.rows current ≡ bit_rows (at_least_one weight) },
}

impl<P, const N: usize> ByMixing<P, N>
where
    P: BitPredictors,
{
    /// Takes `N` predictors, and how much each of them counts at first, of 65,536 for once.
    ///
    /// A good beginning is 32,768 each, or 16,384 if there are many.
    pub fn new(predictors: P, weights: [u32; N]) -> Self
        requires each { N ≡ P.count }
        requires few { N ≤ 32768 }
        ensures { ⟦<ByMixing<P, N> as Predictor<16>>⟧.state result
            ≡ mixture_of (P.state predictors) weights.entry }
    {
        let mut strengths = [0u16; N];
        predictors.ask(&mut strengths);
        let weight = squash(mix(&weights, &strengths));
        ByMixing {
            predictors,
            weights,
            strengths,
            weight,
            current: Bit::new(weight),
        }
    }
}

impl<P, const N: usize> Predictor<16> for ByMixing<P, N>
where
    P: BitPredictors,
{
    type Symbol = bool;

    type Model = Bit;

    ghost State = { Mixture P.State };

    ghost state = { λ p. mixture_of (P.state p.predictors) p.weights };

    ghost rows = { joint_rows P.strengths };

    ghost next = { mixture_after P.strengths P.next };

    ghost can_learn = { λ p. P.can_learn p.predictors };

    #[inline]
    fn model(&self) -> &Bit {
        &self.current
    }

    #[inline]
    fn reserve(&mut self) -> Result<(), AllocError> {
        self.predictors.reserve()
    }

    #[inline]
    fn learn(&mut self, symbol: &bool) {
        let bit = *symbol;
        adjust(&mut self.weights, &self.strengths, self.weight, bit);
        self.predictors.learn(bit);
        self.predictors.ask(&mut self.strengths);
        self.weight = squash(mix(&self.weights, &self.strengths));
        self.current = Bit::new(self.weight);
    }

    ghost next_law = { next-same (mixture_after P.strengths P.next) };
}

impl<P, const N: usize> Snapshot<16> for ByMixing<P, N>
where
    P: BitSnapshots + Drop,
{
    fn snapshot(&self, alloc: Global) -> Result<Self, AllocError> {
        let predictors = self.predictors.snapshots(alloc)?;
        Ok(ByMixing {
            predictors,
            weights: self.weights,
            strengths: self.strengths,
            weight: self.weight,
            current: self.current,
        })
    }
}
