//! A coder of any words, from which symbols can be decoded, and the words of such a coder.

ghost use Rattle.std.specs.Prelude.{◌≡◌, List, ℕ, Option, Ok, Err, Some, None, IfOk, MatchResult, min};
ghost use Rattle.constriction_coders.specs.AnsCoder.{held_by};
ghost use Rattle.constriction_coders.specs.Compressed.{IsBinary, HasValidBits};
ghost use Rattle.constriction_coders.specs.Steps.{WritesAtMostOne};

use crate::stack::ans_coder::AnsCoder;
use constriction_backends::{BoundedReadWords, StackSource, WordStack};
use constriction_words::Stack;

impl<Backend: StackSource<u32> + Drop> AnsCoder<Backend> {
    /// The coder that holds the bits of these words, whatever they are, also if they end in 0.
    ///
    /// Symbols can be decoded from it as from random bits. If they are encoded again,
    /// [`into_binary`](Self::into_binary) gives the words back. At most one word is read.
    pub fn from_binary(words: Backend) -> Result<Self, Backend::ReadError>
        ensures ok { IfOk result (λ coder. IsBinary (held_by coder) (Backend.words_of words)) }
        ensures read { MatchResult result
            (λ coder. (word : Option ℕ) × Backend.read_gives words (Ok word) coder.words)
            (λ error. (left : Backend) × Backend.read_gives words (Err error) left) }
    {
        let mut words = words;
        match words.pop() {
            Ok(Some(word)) => Ok(Self {
                state: (1 << 32) + word as u64,
                words,
            }),
            Ok(None) => Ok(Self { state: 1, words }),
            Err(error) => Err(error),
        }
    }
}

impl<Backend: WordStack<u32> + Drop> AnsCoder<Backend> {
    /// The words whose bits the coder holds, from which [`from_binary`](Self::from_binary) makes it
    /// again.
    ///
    /// It fails with `None` if there are no such words: the coder holds nothing, or its
    /// [`num_valid_bits`](Self::num_valid_bits) are no multiple of 32. At most one word is written.
    /// After an error the words are dropped.
    pub fn into_binary(self) -> Result<Backend, Option<Backend::WriteError>>
        ensures ok { IfOk result (λ words. IsBinary (held_by self) (Backend.words_of words)) }
        ensures refused { result ≡ Err None → (words : List ℕ) → ¬ (IsBinary (held_by self) words) }
        ensures wrote { IfOk result (λ words.
            WritesAtMostOne Backend.write_gives self.words (Ok words) words) }
        ensures failed { (error : _) → result ≡ Err (Some error)
            → (word : ℕ) × (left : Backend) × Backend.write_gives self.words word (Err error) left }
    {
        let state = self.state;
        let mut words = self.words;
        if state == 1 {
            return Ok(words);
        }
        if state >> 32 != 1 {
            return Err(None);
        }
        match words.push((state % (1 << 32)) as u32) {
            Ok(()) => Ok(words),
            Err(error) => Err(Some(error)),
        }
    }
}

impl<Backend: StackSource<u32> + BoundedReadWords<u32, Stack>> AnsCoder<Backend> {
    /// How many bits the coder has below its highest one-bit, and `usize::MAX` if they are more. A
    /// coder that holds nothing has none.
    pub fn num_valid_bits(&self) -> usize
        requires { Backend.is_exact self.now.words }
        ensures { (bits : ℕ) × HasValidBits (held_by self.now) bits
            × (result ≡ min bits usize.MAX) }
    {
        if self.state == 0 {
            return 0;
        }
        let own = self.state.ilog2() as usize;
        self.words
            .remaining()
            .saturating_mul(32)
            .saturating_add(own)
    }
}
