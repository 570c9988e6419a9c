//! Bits of bytes, by the bytes before.

ghost use Rattle.std.specs.Prelude.{◌≡◌, ◌<◌, ◌≤◌, ◌^◌, ℕ, IfOk, length, slice_index};
ghost use Rattle.constriction_adaptive.specs.Bit.{at_least_one, bit_rows};
ghost use Rattle.constriction_adaptive.specs.lemmas.Bit.{next-same};
ghost use Rattle.constriction_adaptive.specs.Contexts.{Contexts, contexts_after, even_weights, history_after, moved, node_after, rows_in, slot_of, untouched};

use crate::bit::Bit;
use crate::predictor::{Predictor, Snapshot};
use constriction_model::EntropyModel;
use std::alloc::{AllocError, Global};

/// An odd number near `2^64` divided by the golden ratio, whose products have all bits of a context
/// in their highest bits.
const MULTIPLIER: u64 = 11_400_714_819_323_198_485;

/// The weights in slots in which nothing was learned.
pub(crate) fn even(alloc: Global, slots: usize) -> Result<Vec<u16>, AllocError>
    ensures items { IfOk result (λ weights. weights.items ≡ even_weights slots) }
    ensures many { IfOk result (λ weights. length weights.items ≡ slots) }
{
    vec![in alloc; 32768u16; slots]
}

/// So many bytes as a number are below this.
#[inline]
fn modulus_of(bytes: usize) -> u64
    requires { bytes ≤ 7 }
    ensures value { result ≡ 256 ^ bytes }
    ensures some { 0 < result }
    ensures few { result ≤ 72057594037927936 }
{
    match bytes {
        0 => 1,
        1 => 1 << 8,
        2 => 1 << 16,
        3 => 1 << 24,
        4 => 1 << 32,
        5 => 1 << 40,
        6 => 1 << 48,
        _ => 1 << 56,
    }
}

/// A weight of 0 after a bit.
#[inline]
fn moved_by(weight: u16, bit: bool) -> u16
    ensures { result ≡ moved bit weight }
{
    if bit {
        weight - weight / 32
    } else {
        weight + (65535 - weight) / 32
    }
}

/// The bits of the byte so far, after one bit more.
#[inline]
fn grown_node(node: u8, bit: bool) -> u8
    ensures { result ≡ node_after node bit }
{
    let grown = 2 * node as u32 + u32::from(bit);
    if grown < 256 { grown as u8 } else { 1 }
}

/// The bytes before, after one bit more. `modulus` is at most `2^56`.
#[inline]
fn grown_history(modulus: u64, history: u64, node: u8, bit: bool) -> u64
    requires some { 0 < modulus }
    requires few { modulus ≤ 72057594037927936 }
    requires kept { history < modulus }
    ensures value { result ≡ history_after modulus history node bit }
    ensures kept { result < modulus }
{
    let grown = 2 * node as u64 + u64::from(bit);
    if grown < 256 {
        history
    } else {
        (history * 256 + (grown - 256)) % modulus
    }
}

/// The slot of a context.
#[inline]
fn slot<const SLOTS: usize, const ORDER: usize>(history: u64, node: u8) -> usize
    requires few { history < 72057594037927936 }
    requires kept { history < 256 ^ ORDER }
    requires below { (h n : ℕ) → h < 256 ^ ORDER → n < 256 → slot_of SLOTS h n < SLOTS }
    ensures value { result ≡ slot_of SLOTS history node }
    ensures below { result < SLOTS }
{
    let context = history * 256 + node as u64;
    if SLOTS == 65_536 {
        context as usize
    } else {
        (context.wrapping_mul(MULTIPLIER) >> 42) as usize
    }
}

/// Predicts the next bit of bytes by the bits of the byte so far and the last `ORDER` bytes before
/// it, at most 7. Learning takes no memory.
#[derive(Drop)]
pub struct ByteContexts<const SLOTS: usize, const ORDER: usize> {
    weights: Vec<u16>,
    history: u64,
    node: u8,
    current: Bit,
    ghost few: { ORDER ≤ 7 },
    ghost kept: { history < 256 ^ ORDER },
    ghost many: { length weights.items ≡ SLOTS },
    ghost below: { (h n : ℕ) → h < 256 ^ ORDER → n < 256 → slot_of SLOTS h n < SLOTS },
    ghost is: { ⟦<Bit as EntropyModel<16>>⟧.rows current
        ≡ bit_rows (at_least_one (slice_index weights.items (slot_of SLOTS history node))) },
}

/// Contexts of the byte before, in 128 KiB: each has a slot of its own.
pub type OrderOne = ByteContexts<65_536, 1>;

/// Contexts of the last `ORDER` bytes, in 8 MiB: they share 4,194,304 slots.
pub type HashedContexts<const ORDER: usize> = ByteContexts<4_194_304, ORDER>;

impl<const SLOTS: usize, const ORDER: usize> ByteContexts<SLOTS, ORDER> {
    fn begun(alloc: Global) -> Result<Self, AllocError>
        requires few { ORDER ≤ 7 }
        requires below { (h n : ℕ) → h < 256 ^ ORDER → n < 256 → slot_of SLOTS h n < SLOTS }
        ensures { IfOk result (λ made.
            ⟦<ByteContexts<SLOTS, ORDER> as Predictor<16>>⟧.state made ≡ untouched SLOTS) }
    {
        let weights = even(alloc, SLOTS)?;
        // It says that 0 is below the modulus.
        let _modulus = modulus_of(ORDER);
        let current = Bit::new(weights[slot::<SLOTS, ORDER>(0, 1)]);
        Ok(ByteContexts {
            weights,
            history: 0,
            node: 1,
            current,
        })
    }
}

impl OrderOne {
    /// Nothing was learned, and both bits are as likely.
    pub fn new(alloc: Global) -> Result<Self, AllocError>
        ensures { IfOk result (λ made. ⟦<OrderOne as Predictor<16>>⟧.state made ≡ untouched 65536) }
    {
        Self::begun(alloc)
    }
}

impl<const ORDER: usize> HashedContexts<ORDER> {
    /// Nothing was learned, and both bits are as likely.
    pub fn new(alloc: Global) -> Result<Self, AllocError>
        requires { ORDER ≤ 7 }
        ensures { IfOk result (λ made.
            ⟦<HashedContexts<ORDER> as Predictor<16>>⟧.state made ≡ untouched 4194304) }
    {
        Self::begun(alloc)
    }
}

impl<const SLOTS: usize, const ORDER: usize> Predictor<16> for ByteContexts<SLOTS, ORDER> {
    type Symbol = bool;

    type Model = Bit;

    ghost State = { Contexts };

    ghost state = { λ p. record { weights = p.weights.items; history = p.history; node = p.node } };

    ghost rows = { rows_in SLOTS };

    ghost next = { contexts_after SLOTS (256 ^ ORDER) };

    #[inline]
    fn model(&self) -> &Bit {
        &self.current
    }

    #[inline]
    fn reserve(&mut self) -> Result<(), AllocError> {
        Ok(())
    }

    #[inline]
    fn learn(&mut self, symbol: &bool) {
        let bit = *symbol;
        let modulus = modulus_of(ORDER);
        let place = slot::<SLOTS, ORDER>(self.history, self.node);
        self.weights[place] = moved_by(self.weights[place], bit);
        self.history = grown_history(modulus, self.history, self.node, bit);
        self.node = grown_node(self.node, bit);
        self.current = Bit::new(self.weights[slot::<SLOTS, ORDER>(self.history, self.node)]);
    }

    ghost next_law = { next-same (contexts_after SLOTS (256 ^ ORDER)) };
}

impl<const SLOTS: usize, const ORDER: usize> Snapshot<16> for ByteContexts<SLOTS, ORDER> {
    fn snapshot(&self, alloc: Global) -> Result<Self, AllocError> {
        let weights = Vec::from_slice(alloc, &self.weights)?;
        Ok(ByteContexts {
            weights,
            history: self.history,
            node: self.node,
            current: self.current,
        })
    }
}
