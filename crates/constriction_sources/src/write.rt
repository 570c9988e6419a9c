//! Sinks of words.

ghost use Rattle.std.specs.Prelude.{◌≡◌, ◌<◌, ◌↔◌, ℕ, List, ⊤, Result, IsTrue, IfErr};
ghost use Rattle.std.specs.Bool.{OnFalse};
ghost use Rattle.std.specs.Iterator.{IsFinite};
ghost use Rattle.constriction_sources.specs.Sink.{WritesAppend, CountsWrite, ExtendsBy};

use std::fmt::Debug;

/// A sink of words.
///
/// An implementer says which answers a write may give (`write_gives`), and may name the written
/// words (`tells_written`) and the states that have room for a word (`has_room`).
pub trait WriteWords<Word> {
    /// Why a write may be refused.
    type WriteError: Debug;

    // A write of the word to the first state may give this answer and leave the second one.
    ghost write_gives: { Self → Word → Result (Unit {0}) Self.WriteError → Self → Type 0 };

    // The written words, the first one first. A sink that tells no list relates to none.
    ghost tells_written: { Self → List Word → Type 0 } = { λ _ _. ⊥ };

    // The sink takes one more word, unless memory for it is refused.
    ghost has_room: { Self → Type 0 } = { λ _. ⊥ };

    // The error says that memory was refused. By default none does.
    ghost lacks_memory: { Self.WriteError → Type 0 } = { λ _. ⊥ };

    // The states in which the sink may be written. A write leads from one to another.
    ghost can_write: { Self → Type 0 } = { λ _. ⊤ };

    /// Writes a word. A refused word is dropped.
    fn write(&mut self, word: Word) -> Result<(), Self::WriteError>
        requires { can_write self.old }
        ensures gives { write_gives self.old word result self.new }
        ensures goes_on { can_write self.new };

    /// Writes the words of an iterator in order, and stops at the first one that is refused. The
    /// words before it stay written.
    fn extend_from_iter<I: Iterator<Item = Word>>(
        &mut self,
        iter: I,
    ) -> Result<(), Self::WriteError>
        requires can_write { can_write self.old }
        requires can_next { I.can_next iter }
        requires ends { IsFinite (I.remaining iter) }
        ensures goes_on { can_write self.new }
        ensures gives { ExtendsBy write_gives I.next_gives self.old iter result self.new }
    {
        for word in iter {
            self.write(word)?;
        }
        Ok(())
    }

    /// Whether the sink may be full. `false` means that there is room; `true` means nothing.
    fn maybe_full(&self) -> bool
        ensures { OnFalse result (has_room self.now) }
    {
        true
    }

    // A write appends to the written words.
    ghost writes_append: { (s : Self) (w : Word) (r : Result (Unit {0}) Self.WriteError) (t : Self)
        → write_gives s w r t → (words : List Word) → tells_written s words
        → WritesAppend tells_written words w r t };

    // With room, a write fails only if memory is refused.
    ghost room_suffices: { (s : Self) (w : Word) (r : Result (Unit {0}) Self.WriteError) (t : Self)
        → write_gives s w r t → has_room s → IfErr r lacks_memory };
}

/// A sink that knows how many words it still takes.
///
/// `extend_from_iter` is refused if and only if there are more words than free places.
pub trait BoundedWriteWords<Word>: WriteWords<Word> {
    // How many places are free.
    ghost free_places: { Self → ℕ };

    /// How many more words the sink takes.
    fn space_left(&self) -> usize
        ensures { result ≡ free_places self.now };

    /// Whether no place is free.
    fn is_full(&self) -> bool
        ensures { IsTrue result ↔ (free_places self.now ≡ 0) }
    {
        self.space_left() == 0
    }

    // A write takes a free place, and is refused if and only if there is none.
    ghost counts_writes: { (s : Self) (w : Word) (r : Result (Unit {0}) Self.WriteError) (t : Self)
        → Self.write_gives s w r t → CountsWrite (free_places s) r (free_places t) };

    // A sink with room has a free place.
    ghost room_counts: { (s : Self) → Self.has_room s → 0 < free_places s };
}
