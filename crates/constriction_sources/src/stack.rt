//! Stacks: sources that read the last word first, and backends that so read what was written to
//! them.

ghost use Rattle.std.specs.Prelude.{◌≡◌, List, refl, reverse};
ghost use Rattle.constriction_sources.specs.Stack.{Pushes, PopsOrFails};

use crate::read::ReadWords;
use crate::write::WriteWords;
use constriction_words::Stack;
use smallvec::SmallVec;
use std::alloc::Allocator;
use std::default::MadeWith;

/// A source that reads the last word first, and whose words are known, so a contract can name them.
///
/// [`pop`](Self::pop) is a read with clauses about them. On a known `Vec` or `SmallVec`, `pop` is
/// the call of that type.
pub trait StackSource<Word>: ReadWords<Word, Stack> {
    // The words, the one on top last.
    ghost words_of: { Self → List Word };

    // They are the upcoming words, the one on top first,
    ghost words_come: { (s : Self) → Self.tells_upcoming s (reverse (words_of s)) };

    // and no others.
    ghost no_others_come: { (s : Self) (words : List Word) → Self.tells_upcoming s words
        → words ≡ reverse (words_of s) };

    // It may be read in every state.
    ghost always_readable: { (s : Self) → Self.can_read s };

    /// Takes the word on top, or answers `Ok(None)` if there is none. It fails only if there is
    /// one, and then keeps the words.
    #[inline]
    final fn pop(&mut self) -> Result<Option<Word>, Self::ReadError>
        ensures gives { Self.read_gives self.old result self.new }
        ensures pops { PopsOrFails (words_of self.old) result (words_of self.new) }
    {
        self.read()
    }
}

/// A source of this kind that is also a sink, and reads what was written to it.
///
/// [`push`](Self::push) is a write with clauses about the words. On a known `Vec` or `SmallVec`,
/// `push` is the call of that type.
pub trait WordStack<Word>: WriteWords<Word> + StackSource<Word> {
    // The words are the written words,
    ghost tells_words: { (s : Self) → Self.tells_written s (Self.words_of s) };

    // and no others.
    ghost tells_no_others: { (s : Self) (words : List Word) → Self.tells_written s words
        → words ≡ Self.words_of s };

    // A stack may be written in every state.
    ghost always_writable: { (s : Self) → Self.can_write s };

    /// Puts a word on top, or is refused and keeps the words.
    #[inline]
    final fn push(&mut self, word: Word) -> Result<(), Self::WriteError>
        ensures gives { Self.write_gives self.old word result self.new }
        ensures pushes { Pushes (Self.words_of self.old) word result (Self.words_of self.new) }
    {
        self.write(word)
    }
}

impl<Word: Drop> StackSource<Word> for Vec<Word> {
    ghost words_of = { λ s. s.items };

    ghost words_come = { λ s. refl };

    ghost no_others_come = { λ s words known. known };

    ghost always_readable = { λ s. tt };
}

impl<Word: Drop> WordStack<Word> for Vec<Word> {
    ghost tells_words = { λ s. refl };

    ghost tells_no_others = { λ s words known. known };

    ghost always_writable = { λ s. tt };
}

impl<Word: MadeWith<A> + Drop, const N: usize, A: Allocator + Copy> StackSource<Word>
    for SmallVec<Word, N, A> {
    ghost words_of = { λ s. s.items };

    ghost words_come = { λ s. refl };

    ghost no_others_come = { λ s words known. known };

    ghost always_readable = { λ s. tt };
}

impl<Word: MadeWith<A> + Drop, const N: usize, A: Allocator + Copy> WordStack<Word>
    for SmallVec<Word, N, A> {
    ghost tells_words = { λ s. refl };

    ghost tells_no_others = { λ s words known. known };

    ghost always_writable = { λ s. tt };
}
