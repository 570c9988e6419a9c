//! Laws that follow from the contracts of sources and sinks. Each is the contract of a function.

ghost use Rattle.std.specs.Prelude.{◌≡◌, ◌+◌, ◌≤◌, ◌↔◌, ℕ, [], ◌∷◌, ◌++◌, List, length, slice_get, Option, Some, None, Result, Ok, Err, IfOk, IsOk};
ghost use Rattle.std.specs.Iterator.{IsFinite};
ghost use Rattle.constriction_words.specs.Rewinding.{Rewinds};
ghost use Rattle.constriction_sources.specs.Source.{GivesAnswers};
ghost use Rattle.constriction_sources.specs.Sink.{TakesItems, ExtendsBy};
ghost use Rattle.constriction_sources.specs.Stack.{Pops, PopsOrFails, Pushes, ReadsWhatWasWritten};

mod iterators;

pub use self::iterators::{item_end_is_for_good, word_end_is_for_good};
use crate::read::BoundedReadWords;
use crate::stack::{StackSource, WordStack};
use crate::write::{BoundedWriteWords, WriteWords};
use constriction_words::{ReadWriteError, Semantics};

/// A word that was written to a stack is read next, and then the stack has its old words again.
pub fn pushed_is_popped<Word, WriteError, ReadError>()
    ensures { (old between new : List Word) (w : Word) (r : Result (Option Word) ReadError)
        → (let written : Result (Unit {0}) WriteError = Ok tt in Pushes old w written between)
        → Pops between r new → (r ≡ Ok (Some w)) × (new ≡ old) }
{}

/// A stack reads back what was written to it.
pub fn written_is_read<Word, Backend: WordStack<Word>>()
    ensures { ReadsWhatWasWritten Backend.write_gives Backend.read_gives Backend.words_of }
{}

/// What a write to a stack does in each state, as [`push`](WordStack::push) ensures of its call.
pub fn writes_push<Word, Backend: WordStack<Word>>()
    ensures { (s : Backend) (w : Word) (r : Result (Unit {0}) Backend.WriteError) (t : Backend)
        → Backend.write_gives s w r t → Pushes (Backend.words_of s) w r (Backend.words_of t) }
{}

/// What a read of a stack does in each state, as [`pop`](StackSource::pop) ensures of its call.
pub fn reads_pop<Word, Backend: StackSource<Word>>()
    ensures { (s : Backend) (r : Result (Option Word) Backend.ReadError) (t : Backend)
        → Backend.read_gives s r t → PopsOrFails (Backend.words_of s) r (Backend.words_of t) }
{}

/// Writes a word to a stack and reads it back.
pub fn push_then_pop<Word, Backend: WordStack<Word>>(
    backend: &mut Backend,
    word: Word,
) -> Result<Option<Word>, ReadWriteError<Backend::ReadError, Backend::WriteError>>
    ensures steps { IfOk result (λ read. (between : Backend) × Backend.write_gives backend.old word
        (Ok tt) between × Backend.read_gives between (Ok read) backend.new) }
    ensures read { IfOk result (λ read. (read ≡ Some word)
        × (Backend.words_of backend.new ≡ Backend.words_of backend.old)) }
    ensures refused { (error : Backend.WriteError) → result ≡ Err (ReadWriteError.Write error)
        → Backend.words_of backend.new ≡ Backend.words_of backend.old }
    ensures failed { (error : Backend.ReadError) → result ≡ Err (ReadWriteError.Read error)
        → Backend.words_of backend.new ≡ Backend.words_of backend.old ++ word ∷ [] }
{
    match backend.push(word) {
        Ok(()) => {}
        Err(error) => return Err(ReadWriteError::Write(error)),
    }
    match backend.pop() {
        Ok(read) => Ok(read),
        Err(error) => Err(ReadWriteError::Read(error)),
    }
}

/// A seek goes to an earlier position of a stack, at which its words were `taken`, if the stack is
/// no shorter now.
pub fn seek_back<Word>()
    ensures { (taken old new : List Word) (r : Result (Unit {0}) (Unit {0}))
        → Rewinds old (length taken) r new → (IsOk r ↔ (length taken ≤ length old))
        × ((later : List Word) → old ≡ taken ++ later → new ≡ taken) }
{}

/// Writes the words of an iterator in order to a sink that counts its free places.
pub fn extending_counts<Word, Sink: BoundedWriteWords<Word>, Words: Iterator<Item = Word>>(
    sink: &mut Sink,
    words: Words,
) -> Result<(), Sink::WriteError>
    requires can_write { Sink.can_write sink.old }
    requires can_next { Words.can_next words }
    requires ends { IsFinite (Words.remaining words) }
    ensures goes_on { Sink.can_write sink.new }
    ensures gives { ExtendsBy Sink.write_gives Words.next_gives sink.old words result sink.new }
    ensures counted { TakesItems Words.next_gives words result
        (λ ws. Sink.free_places sink.old ≡ length ws + Sink.free_places sink.new)
        (λ ws _ _. (Sink.free_places sink.old ≡ length ws) × (Sink.free_places sink.new ≡ 0)) }
{
    sink.extend_from_iter(words)
}

/// After `extend_from_iter` the written words are the old ones and then the iterator's words, up to
/// the first refused one.
pub fn extending_tells<Word, Sink: WriteWords<Word>, Words: Iterator<Item = Word>>()
    ensures { (s : Sink) (items : Words) (r : Result (Unit {0}) Sink.WriteError) (t : Sink)
        (old : List Word) → ExtendsBy Sink.write_gives Words.next_gives s items r t
        → Sink.tells_written s old → TakesItems Words.next_gives items r
        (λ ws. Sink.tells_written t (old ++ ws)) (λ ws _ _. Sink.tells_written t (old ++ ws)) }
{}

/// If the count of a source is exact, its reads give that many items, and then answer `Ok(None)`.
pub fn remaining_counts<Word, S: Semantics, Source: BoundedReadWords<Word, S>>()
    ensures { (s : Source) (answers : List (Result (Option Word) Source.ReadError)) (t : Source)
        → Source.is_exact s → GivesAnswers Source.read_gives s answers t
        → (k : ℕ) (r : Result (Option Word) Source.ReadError) → slice_get answers k ≡ Some r
        → (r ≡ Ok None) ↔ (Source.items_left s ≤ k) }
{}
