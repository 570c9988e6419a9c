//! Bits of bytes, by a mixer of hashed contexts.

mod inputs;
mod past;
mod tables;

ghost use Rattle.std.specs.Prelude.{◌≡◌, ◌+◌, ◌*◌, ◌<◌, ◌≤◌, ◌^◌, ℕ, IfOk, [], length, map, slice_index, slice_index_or, slice_set};
ghost use Rattle.constriction_adaptive.specs.Bit.{at_least_one, bit_rows};
ghost use Rattle.constriction_adaptive.specs.lemmas.Bit.{next-same};
ghost use Rattle.constriction_adaptive.specs.Mixer.{MixerState, even_rows, mixer_after, mixer_begun, mixer_rows, places_in, places_of, predicted, mixer_state, strengths_of};
ghost use Rattle.constriction_adaptive.specs.Mixing.{error_of, mixed, squash, strength, weights_after};
ghost use Rattle.constriction_adaptive.specs.Past.{past_after};

use crate::bit::Bit;
use crate::contexts::even;
use crate::mixer::inputs::{ask, find, learn};
use crate::mixer::past::Past;
use crate::mixer::tables::Tables;
use crate::mixing::{adjust, mix};
use crate::predictor::{Predictor, Snapshot};
use constriction_model::EntropyModel;
use std::alloc::{AllocError, Global};

/// Predicts the next bit of bytes by `N` contexts at once, at most 16: each sees the bits of the
/// byte so far, and some bytes before it or the byte that came last after the same bytes.
///
/// What the contexts say is mixed, and a context that was right counts more from then on. Learning
/// takes no memory.
#[derive(Drop)]
pub struct Mixer<const N: usize> {
    contexts: [u32; N],
    groups: u32,
    slots: Vec<u16>,
    weights: Vec<[u32; N]>,
    past: Past,
    tables: Tables,
    places: [usize; N],
    strengths: [u16; N],
    weight: u16,
    current: Bit,
    ghost few: { N ≤ 16 },
    ghost some: { 0 < groups },
    ghost many: { length slots.items ≡ 16 * groups },
    ghost rows: { length weights.items ≡ 16 },
    ghost seen: { (k : ℕ) → k < N → slice_index contexts k ≤ 8 },
    ghost inside: { (k : ℕ) → k < N → slice_index places k + 16 ≤ 16 * groups },
    ghost places_are: { places
        ≡ places_of (mixer_state contexts groups slots.items weights.items past) },
    ghost strengths_are: { strengths
        ≡ strengths_of (mixer_state contexts groups slots.items weights.items past) },
    ghost weight_is: { weight
        ≡ predicted (mixer_state contexts groups slots.items weights.items past) },
    ghost is: { ⟦<Bit as EntropyModel<16>>⟧.rows current ≡ bit_rows (at_least_one weight) },
}

/// Finds the place of each context.
#[inline]
fn find_places<const N: usize>(
    past: &Past,
    contexts: &[u32; N],
    groups: u32,
    places: &mut [usize; N],
)
    requires some { 0 < groups }
    requires few { (k : ℕ) → k < N → slice_index contexts.now k ≤ 8 }
    ensures are { places.new ≡ places_in groups past.now contexts.now }
    ensures inside { (k : ℕ) → k < N → slice_index places.new k + 16 ≤ 16 * groups }
{
    let (history, half, followed) = past.seen();
    find(contexts, groups, history, half, followed, places);
}

/// A bit came. Where half a byte is whole, the contexts have other places.
#[inline]
fn move_on<const N: usize>(
    past: &mut Past,
    contexts: &[u32; N],
    groups: u32,
    places: &mut [usize; N],
    bit: bool,
)
    requires some { 0 < groups }
    requires few { (k : ℕ) → k < N → slice_index contexts.now k ≤ 8 }
    requires are { places.old ≡ places_in groups past.old contexts.now }
    requires inside { (k : ℕ) → k < N → slice_index places.old k + 16 ≤ 16 * groups }
    ensures after { past.new ≡ past_after bit past.old }
    ensures are { places.new ≡ places_in groups past.new contexts.now }
    ensures inside { (k : ℕ) → k < N → slice_index places.new k + 16 ≤ 16 * groups }
{
    if past.advance(bit) {
        find_places(past, contexts, groups, places);
    }
}

/// Asks all contexts, and mixes what they say to the weight of 0 for the next bit.
#[inline]
fn predict<const N: usize>(
    tables: &Tables,
    slots: &[u16],
    weights: &[[u32; N]],
    past: &Past,
    places: &[usize; N],
    strengths: &mut [u16; N],
) -> u16
    requires few { N ≤ 16 }
    requires rows { length weights.now ≡ 16 }
    requires within { (k : ℕ) → k < N → slice_index places.now k + 16 ≤ length slots.now }
    ensures strengths { strengths.new
        ≡ map (λ p. strength (slice_index slots.now (p + past.now.path))) places.now }
    ensures weight { result
        ≡ squash (mixed (slice_index_or weights.now past.now.told []) strengths.new) }
{
    ask(tables, slots, places, past.path(), strengths);
    tables.squash(mix(&weights[past.told()], strengths))
}

/// A bit came: the row of inputs counts otherwise, and the slots of all contexts move.
#[inline]
fn adjust_row<const N: usize>(
    weights: &mut [[u32; N]],
    told: usize,
    strengths: &[u16; N],
    weight: u16,
    bit: bool,
)
    requires told { told < length weights.old }
    ensures { weights.new ≡ slice_set weights.old told (weights_after bit (error_of bit weight)
        strengths.now (slice_index_or weights.old told [])) }
{
    adjust(&mut weights[told], strengths, weight, bit);
}

/// The weights of the inputs before they learned anything.
fn even_inputs<const N: usize>(alloc: Global) -> Result<Vec<[u32; N]>, AllocError>
    ensures items { IfOk result (λ weights. weights.items ≡ even_rows N) }
    ensures many { IfOk result (λ weights. length weights.items ≡ 16) }
{
    vec![in alloc; [16384u32; N]; 16]
}

impl<const N: usize> Mixer<N> {
    /// Nothing was learned, and all contexts count as much.
    ///
    /// Each context sees so many of the last bytes, at most 8, or for 0 the byte that came last
    /// after the last `reach` bytes. There are `groups` groups of 16 slots of two bytes, which the
    /// contexts share, and `followers` bytes for those that came last.
    pub fn new(
        alloc: Global,
        contexts: [u32; N],
        groups: u32,
        followers: usize,
        reach: u32,
    ) -> Result<Self, AllocError>
        requires contexts { N ≤ 16 }
        requires seen { (k : ℕ) → k < N → slice_index contexts k ≤ 8 }
        requires groups { 0 < groups }
        requires some { 0 < followers }
        requires few { followers < 2 ^ 32 }
        requires near { 0 < reach }
        requires far { reach ≤ 8 }
        ensures { IfOk result (λ made. ⟦<Mixer<N> as Predictor<16>>⟧.state made
            ≡ mixer_begun contexts.entry groups followers reach) }
    {
        let slots = even(alloc, 16 * groups as usize)?;
        let weights = even_inputs(alloc)?;
        let past = Past::new(alloc, followers, reach)?;
        let tables = Tables::new(alloc)?;
        let mut places = [0usize; N];
        let mut strengths = [0u16; N];
        find_places(&past, &contexts, groups, &mut places);
        let weight = predict(&tables, &slots, &weights, &past, &places, &mut strengths);
        Ok(Mixer {
            contexts,
            groups,
            slots,
            weights,
            past,
            tables,
            places,
            strengths,
            weight,
            current: Bit::new(weight),
        })
    }
}

impl<const N: usize> Predictor<16> for Mixer<N> {
    type Symbol = bool;

    type Model = Bit;

    ghost State = { MixerState };

    ghost state = { λ p. mixer_state p.contexts p.groups p.slots.items p.weights.items p.past };

    ghost rows = { mixer_rows };

    ghost next = { mixer_after };

    #[inline]
    fn model(&self) -> &Bit {
        &self.current
    }

    #[inline]
    fn reserve(&mut self) -> Result<(), AllocError> {
        Ok(())
    }

    fn learn(&mut self, symbol: &bool) {
        let bit = *symbol;
        let told = self.past.told();
        adjust_row(&mut self.weights, told, &self.strengths, self.weight, bit);
        learn(&mut self.slots, &self.places, self.past.path(), bit);
        move_on(
            &mut self.past,
            &self.contexts,
            self.groups,
            &mut self.places,
            bit,
        );
        self.weight = predict(
            &self.tables,
            &self.slots,
            &self.weights,
            &self.past,
            &self.places,
            &mut self.strengths,
        );
        self.current = Bit::new(self.weight);
    }

    ghost next_law = { next-same mixer_after };
}

impl<const N: usize> Snapshot<16> for Mixer<N> {
    fn snapshot(&self, alloc: Global) -> Result<Self, AllocError> {
        let slots = Vec::from_slice(alloc, &self.slots)?;
        let weights = Vec::from_slice(alloc, &self.weights)?;
        let past = self.past.copied(alloc)?;
        let tables = self.tables.copied(alloc)?;
        Ok(Mixer {
            contexts: self.contexts,
            groups: self.groups,
            slots,
            weights,
            past,
            tables,
            places: self.places,
            strengths: self.strengths,
            weight: self.weight,
            current: self.current,
        })
    }
}
