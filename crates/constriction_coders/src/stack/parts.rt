//! The parts of a stack coder: its words, and its state.

ghost use Rattle.std.specs.Prelude.{◌≡◌, ◌%◌, ◌^◌, ◌≤◌, [], vec_capacity};
ghost use Rattle.constriction_coders.specs.AnsCoder.{held_by};
ghost use Rattle.constriction_coders.specs.Steps.{content, IsWhole};

use crate::stack::ans_coder::AnsCoder;
use crate::stack::state::quantile_of;
use constriction_backends::StackSource;

impl AnsCoder<Vec<u32>> {
    /// Forgets all symbols. The memory of the words is kept.
    pub fn clear(&mut self)
        ensures empty { held_by self.new ≡ content 0 [] }
        ensures capacity { vec_capacity self.new.words ≡ vec_capacity self.old.words }
    {
        self.words.clear();
        self.state = 0;
    }
}

impl<Backend: StackSource<u32>> AnsCoder<Backend> {
    /// The quantile that says which symbol is on top: the state modulo `2^PRECISION`. Nothing is
    /// taken.
    #[inline]
    pub fn quantile<const PRECISION: usize>(&self) -> u32
        requires { PRECISION ≤ 32 }
        ensures { result ≡ self.now.state % 2 ^ PRECISION }
    {
        quantile_of::<PRECISION>(self.state)
    }
}

impl<Backend: StackSource<u32> + Drop> AnsCoder<Backend> {
    /// The coder of these words under this state, as [`into_raw_parts`](Self::into_raw_parts) gives
    /// them. No word is read.
    pub fn from_raw_parts(words: Backend, state: u64) -> Self
        requires { IsWhole state (Backend.words_of words) }
        ensures words { result.words ≡ words }
        ensures held { held_by result ≡ content state (Backend.words_of words) }
    {
        Self { state, words }
    }

    /// The words under the state, and the state. No word is written.
    pub fn into_raw_parts(self) -> (Backend, u64)
        ensures words { result.0 ≡ self.words }
        ensures held { content result.1 (Backend.words_of result.0) ≡ held_by self }
        ensures whole { IsWhole result.1 (Backend.words_of result.0) }
    {
        (self.words, self.state)
    }
}
