//! Sinks over callbacks that take every word.

ghost use Rattle.std.specs.Prelude.{◌≡◌, MatchResult};

use crate::write::WriteWords;
use std::convert::Infallible;
use std::fmt::Debug;
use std::marker::PhantomData;

/// A sink that hands each word to a callback, which never refuses one.
///
/// The callback keeps its state from call to call.
#[derive(Drop)]
#[derive_where(Debug; C: Debug)]
pub struct InfallibleCallbackWriteWords<Word, C: FnMut(Word)> {
    write_callback: C,
    phantom: PhantomData<Word>,
}

impl<Word, C: FnMut(Word)> InfallibleCallbackWriteWords<Word, C> {
    /// A sink over the callback.
    #[inline]
    pub fn new(write_callback: C) -> Self
        requires { C.IsAlwaysCallable write_callback }
        ensures { result.write_callback ≡ write_callback }
    {
        Self {
            write_callback,
            phantom: PhantomData,
        }
    }

    /// The callback, in its present state.
    #[inline]
    pub fn into_inner(self) -> C
        ensures { result ≡ self.write_callback }
    {
        let Self {
            write_callback,
            phantom: _,
        } = self;
        write_callback
    }
}

impl<Word, C: FnMut(Word)> WriteWords<Word> for InfallibleCallbackWriteWords<Word, C> {
    type WriteError = Infallible;

    ghost write_gives = { λ s w r t.
        MatchResult r (λ x. C.step s.write_callback w x t.write_callback) (λ _. ⊥) };

    ghost can_write = { λ s. C.IsAlwaysCallable s.write_callback };

    /// Calls the callback, and answers `Ok`.
    #[inline]
    fn write(&mut self, word: Word) -> Result<(), Infallible> {
        (self.write_callback)(word);
        Ok(())
    }

    ghost writes_append = { λ _ _ _ _ _ _ h. absurd h };

    ghost room_suffices = { λ _ _ _ _ _ h. absurd h };
}
