//! A coder as words alone, and the coder of such words.

ghost use Rattle.std.specs.Prelude.{◌≡◌, ◌≢◌, ◌↔◌, ◌<◌, ◌≤◌, ◌^◌, ◌++◌, ◌∷◌, [], List, ℕ, Err, IfOk, IsTrue, length};
ghost use Rattle.constriction_coders.specs.AnsCoder.{held_by, ReadsState, WritesState};
ghost use Rattle.constriction_coders.specs.Compressed.{IsCompressed};
ghost use Rattle.constriction_coders.specs.Steps.{content};

use crate::stack::ans_coder::AnsCoder;
use constriction_backends::{StackSource, WordStack};
use constriction_words::CoderError;
use std::alloc::{AllocError, Global};

/// How many words a state has.
#[inline]
fn words_of_state(state: u64) -> usize
    ensures none { state ≡ 0 → result ≡ 0 }
    ensures one { 0 < state → state < 2 ^ 32 → result ≡ 1 }
    ensures two { 2 ^ 32 ≤ state → result ≡ 2 }
    ensures few { result ≤ 2 }
{
    if state == 0 {
        0
    } else if state < 1 << 32 {
        1
    } else {
        2
    }
}

impl<Backend: StackSource<u32>> AnsCoder<Backend> {
    /// Whether the coder holds nothing.
    pub fn is_empty(&self) -> bool
        ensures { IsTrue result ↔ (held_by self.now ≡ content 0 []) }
    {
        self.state == 0
    }
}

impl<Backend: WordStack<u32> + Drop> AnsCoder<Backend> {
    /// The words with those of the state on top, from which
    /// [`from_compressed`](Self::from_compressed) makes the coder again.
    ///
    /// At most two words are written. If a write fails, the words are dropped.
    pub fn into_compressed(self) -> Result<Backend, Backend::WriteError>
        ensures ok { IfOk result (λ words. IsCompressed (held_by self) (Backend.words_of words)) }
        ensures end { IfOk result (λ words. (others : List ℕ)
            → Backend.words_of words ≢ others ++ 0 ∷ []) }
        ensures wrote { WritesState Backend.write_gives self result }
    {
        let state = self.state;
        let mut words = self.words;
        if state == 0 {
            return Ok(words);
        }
        match words.push((state % (1 << 32)) as u32) {
            Ok(()) => {}
            Err(error) => return Err(error),
        }
        if state < 1 << 32 {
            return Ok(words);
        }
        match words.push((state >> 32) as u32) {
            Ok(()) => Ok(words),
            Err(error) => Err(error),
        }
    }
}

impl<Backend: StackSource<u32> + Drop> AnsCoder<Backend> {
    /// The coder of such words.
    ///
    /// At most two words are read. Words that end in 0 belong to no coder: they are handed back
    /// without that 0.
    pub fn from_compressed(words: Backend) -> Result<Self, CoderError<Backend, Backend::ReadError>>
        ensures ok { IfOk result (λ coder. IsCompressed (held_by coder) (Backend.words_of words)) }
        ensures refused { (left : _) → result ≡ Err (CoderError.Frontend left)
            → Backend.words_of words ≡ Backend.words_of left ++ 0 ∷ [] }
        ensures read { ReadsState words result }
    {
        let mut words = words;
        let high = match words.pop() {
            Ok(None) => return Ok(Self { state: 0, words }),
            Ok(Some(0)) => return Err(CoderError::Frontend(words)),
            Ok(Some(high)) => high as u64,
            Err(error) => return Err(CoderError::Backend(error)),
        };
        match words.pop() {
            Ok(None) => Ok(Self { state: high, words }),
            Ok(Some(low)) => Ok(Self {
                state: (high << 32) + low as u64,
                words,
            }),
            Err(error) => Err(CoderError::Backend(error)),
        }
    }
}

impl AnsCoder<Vec<u32>> {
    /// How many words [`get_compressed`](Self::get_compressed) gives.
    #[tactic(auto, using(crate::proofs::Closing::counted))]
    pub fn num_words(&self) -> usize
        ensures { (all : List ℕ) → IsCompressed (held_by self.now) all → result ≡ length all }
    {
        let words = self.words.as_slice();
        words.len() + words_of_state(self.state)
    }

    /// A copy of the words with those of the state on top. Memory for it is asked for once.
    pub fn get_compressed(&self, alloc: Global) -> Result<Vec<u32>, AllocError>
        ensures ok { IfOk result (λ all. IsCompressed (held_by self.now) all.items) }
        ensures end { IfOk result (λ all. (others : List ℕ) → all.items ≢ others ++ 0 ∷ []) }
    {
        let mut all = Vec::with_capacity(alloc, self.num_words())?;
        all.extend_from_slice(&self.words)?;
        if self.state > 0 {
            all.push((self.state % (1 << 32)) as u32)?;
        }
        if self.state >= 1 << 32 {
            all.push((self.state >> 32) as u32)?;
        }
        Ok(all)
    }
}
