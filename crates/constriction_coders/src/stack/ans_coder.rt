//! A stack coder, an asymmetric numeral system: what was encoded last is decoded first.

ghost use Rattle.std.specs.Prelude.{◌≡◌, ◌≢◌, ◌+◌, ◌-◌, ◌*◌, ◌%◌, ◌^◌, ◌<◌, ◌≤◌, ℕ, [], IfOk, OnOk, OnErr, vec_capacity};
ghost use Rattle.constriction_coders.specs.States.{put};
ghost use Rattle.constriction_coders.specs.Steps.{content, IsWhole, Refills, IsOnTop, NeedsWord, ReadsAtMostOne, WritesAtMostOne};
ghost use Rattle.constriction_model.specs.Precision.{IsPrecision};

use crate::stack::state::{is_full_for, with_entry, without_entry};
use constriction_backends::{StackSource, WordStack};
use std::alloc::Global;

/// A coder with a state of 64 bits over a stack of words of 32 bits, in the format of the Rust
/// crate's `DefaultAnsCoder`.
///
/// It decodes from any source of a stack, as from a `Cursor` over words that are only lent, and
/// encodes if its backend is a [`WordStack`]. If the state is below `2^32`, there is no word under
/// it. A symbol costs a division to encode, or multiplications alone if its entry is prepared
/// ([`PreparedEntry`](crate::stack::PreparedEntry)), and a multiplication to decode. At most one
/// word is written or read.
#[derive(Drop)]
pub struct AnsCoder<Backend: StackSource<u32>> {
    pub(crate) state: u64,
    pub(crate) words: Backend,
    ghost whole: { state < 2 ^ 32 → Backend.words_of words ≡ [] },
}

impl AnsCoder<Vec<u32>> {
    ghost use Rattle.constriction_coders.specs.AnsCoder.{held_by};

    /// A coder that holds nothing. No memory is asked for.
    pub fn new(alloc: Global) -> Self
        ensures empty { held_by result ≡ content 0 [] }
        ensures capacity { vec_capacity result.words ≡ 0 }
    {
        AnsCoder {
            state: 0,
            words: Vec::new(alloc),
        }
    }
}

/// The state with room for a symbol of this weight over this precision. If it has no room, its low
/// word is first moved to the stack.
#[inline]
pub(crate) fn with_room<Backend: WordStack<u32>>(
    words: &mut Backend,
    state: u64,
    precision: usize,
    weight: u32,
) -> Result<u64, Backend::WriteError>
    requires precision { IsPrecision 32 precision }
    requires some { 0 < weight }
    requires whole { IsWhole state (Backend.words_of words.old) }
    ensures room { IfOk result (λ kept. kept < weight * 2 ^ (64 - precision)) }
    ensures whole { IfOk result (λ kept. (left : ℕ) → left + weight ≤ 2 ^ precision
        → IsWhole (put precision left weight kept) (Backend.words_of words.new)) }
    ensures ok { IfOk result (λ kept.
        Refills kept (Backend.words_of words.new) (content state (Backend.words_of words.old))) }
    ensures wrote { WritesAtMostOne Backend.write_gives words.old result words.new }
    ensures err { OnErr result (Backend.words_of words.new ≡ Backend.words_of words.old) }
{
    if !is_full_for(state, precision, weight) {
        return Ok(state);
    }
    match words.push((state % (1 << 32)) as u32) {
        Ok(()) => Ok(state >> 32),
        Err(error) => Err(error),
    }
}

/// The state, which takes a word if it is below `2^32` and there is one.
#[inline]
pub(crate) fn refilled<Backend: StackSource<u32>>(
    words: &mut Backend,
    state: u64,
) -> Result<u64, Backend::ReadError>
    requires some { state ≡ 0 → Backend.words_of words.old ≡ [] }
    ensures whole { IfOk result (λ new. IsWhole new (Backend.words_of words.new)) }
    ensures ok { IfOk result (λ new.
        Refills state (Backend.words_of words.old) (content new (Backend.words_of words.new))) }
    ensures read { ReadsAtMostOne Backend.read_gives words.old result words.new }
    ensures below { OnErr result (state < 2 ^ 32) }
    ensures left { OnErr result (Backend.words_of words.old ≢ []) }
    ensures err { OnErr result (Backend.words_of words.new ≡ Backend.words_of words.old) }
{
    if state >= 1 << 32 {
        return Ok(state);
    }
    match words.pop()? {
        Some(word) => Ok((state << 32) + word as u64),
        None => Ok(state),
    }
}

impl<Backend: WordStack<u32>> AnsCoder<Backend> {
    ghost use Rattle.constriction_coders.specs.AnsCoder.{held_by};

    /// Puts on top a symbol that has this left cumulative and weight.
    /// [`encode_symbol`](crate::Encode::encode_symbol) asks a model for them; symbols whose entries
    /// are known before they are encoded need no model any more.
    ///
    /// The error is that of a write. It leaves the state and the words.
    #[inline]
    pub fn put_entry<const PRECISION: usize>(
        &mut self,
        left: u32,
        weight: u32,
    ) -> Result<(), Backend::WriteError>
        requires precision { IsPrecision 32 PRECISION }
        requires some { 0 < weight }
        requires within { left + weight ≤ 2 ^ PRECISION }
        ensures ok { OnOk result
            (IsOnTop PRECISION left weight (held_by self.new) (held_by self.old)) }
        ensures wrote { WritesAtMostOne Backend.write_gives self.old.words result self.new.words }
        ensures same { OnErr result (held_by self.new ≡ held_by self.old) }
    {
        match with_room(&mut self.words, self.state, PRECISION, weight) {
            Ok(kept) => {
                self.state = with_entry::<PRECISION>(kept, left, weight);
                Ok(())
            }
            Err(error) => Err(error),
        }
    }
}

impl<Backend: StackSource<u32>> AnsCoder<Backend> {
    ghost use Rattle.constriction_coders.specs.AnsCoder.{held_by};

    /// Takes from the top the symbol that has this left cumulative and weight. The entry holds the
    /// coder's [`quantile`](Self::quantile).
    ///
    /// The error is that of a read. It leaves the state and the words.
    #[inline]
    pub fn take_entry<const PRECISION: usize>(
        &mut self,
        left: u32,
        weight: u32,
    ) -> Result<(), Backend::ReadError>
        requires fits { PRECISION ≤ 32 }
        requires some { 0 < weight }
        requires within { left + weight ≤ 2 ^ PRECISION }
        requires from { left ≤ self.old.state % 2 ^ PRECISION }
        requires to { self.old.state % 2 ^ PRECISION < left + weight }
        ensures ok { OnOk result
            (IsOnTop PRECISION left weight (held_by self.old) (held_by self.new)) }
        ensures needs { OnErr result (NeedsWord PRECISION left weight (held_by self.old)) }
        ensures read { ReadsAtMostOne Backend.read_gives self.old.words result self.new.words }
        ensures same { OnErr result (held_by self.new ≡ held_by self.old) }
    {
        let state = without_entry::<PRECISION>(self.state, left, weight);
        match refilled(&mut self.words, state) {
            Ok(state) => {
                self.state = state;
                Ok(())
            }
            Err(error) => Err(error),
        }
    }
}
