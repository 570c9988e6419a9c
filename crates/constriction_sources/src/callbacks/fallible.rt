//! Sinks over callbacks that may refuse a word.

ghost use Rattle.std.specs.Prelude.{◌≡◌};

use crate::write::WriteWords;
use std::fmt::Debug;
use std::marker::PhantomData;

/// A sink that hands each word to a callback, which may refuse it.
///
/// The callback keeps its state from call to call.
#[derive(Drop)]
#[derive_where(Debug; C: Debug)]
pub struct FallibleCallbackWriteWords<Word, E, C: FnMut(Word) -> Result<(), E>> {
    write_callback: C,
    phantom: PhantomData<(Word, E)>,
}

impl<Word, E, C: FnMut(Word) -> Result<(), E>> FallibleCallbackWriteWords<Word, E, C> {
    /// A sink over the callback.
    #[inline]
    pub fn new(write_callback: C) -> Self
        requires { C.IsAlwaysCallable write_callback }
        ensures { result.write_callback ≡ write_callback }
    {
        Self {
            write_callback,
            phantom: PhantomData,
        }
    }

    /// The callback, in its present state.
    #[inline]
    pub fn into_inner(self) -> C
        ensures { result ≡ self.write_callback }
    {
        let Self {
            write_callback,
            phantom: _,
        } = self;
        write_callback
    }
}

impl<Word, E: Debug, C: FnMut(Word) -> Result<(), E>> WriteWords<Word>
    for FallibleCallbackWriteWords<Word, E, C> {
    type WriteError = E;

    ghost write_gives = { λ s w r t. C.step s.write_callback w r t.write_callback };

    ghost can_write = { λ s. C.IsAlwaysCallable s.write_callback };

    /// Answers what the callback answers.
    #[inline]
    fn write(&mut self, word: Word) -> Result<(), E> {
        (self.write_callback)(word)
    }

    ghost writes_append = { λ _ _ _ _ _ _ h. absurd h };

    ghost room_suffices = { λ _ _ _ _ _ h. absurd h };
}
