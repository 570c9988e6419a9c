//! Sources of words.

ghost use Rattle.std.specs.Prelude.{◌≡◌, ◌≢◌, ◌↔◌, ℕ, List, [], ⊤, Option, Result, IsTrue, length};
ghost use Rattle.std.specs.Bool.{OnFalse};
ghost use Rattle.constriction_sources.specs.Source.{ReadsUpcoming, CountsRead};

use constriction_words::Semantics;
use std::fmt::Debug;

/// A source of words, which are read in the order of `S`.
///
/// At the end of the words a read answers `Ok(None)`, which is not an error. An implementer says
/// which answers a read may give (`read_gives`), and may name the upcoming words
/// (`tells_upcoming`).
pub trait ReadWords<Word, S: Semantics> {
    /// Why a read may fail. The end of the words is no failure.
    type ReadError: Debug;

    // A read of the first state may give this answer and leave the second one.
    ghost read_gives: { Self → Result (Option Word) Self.ReadError → Self → Type 0 };

    // The upcoming words, in the order of their reads. A source that tells no list relates to none.
    ghost tells_upcoming: { Self → List Word → Type 0 } = { λ _ _. ⊥ };

    // The states in which the source may be read. A read leads from one to another.
    ghost can_read: { Self → Type 0 } = { λ _. ⊤ };

    /// Takes the next word, or answers `Ok(None)` if there is none.
    fn read(&mut self) -> Result<Option<Word>, Self::ReadError>
        requires { can_read self.old }
        ensures gives { read_gives self.old result self.new }
        ensures goes_on { can_read self.new };

    /// Whether the source may be at its end. `false` means that words are to come, if the source
    /// tells them; `true` means nothing.
    fn maybe_exhausted(&self) -> bool
        ensures { OnFalse result
            ((words : List Word) → tells_upcoming self.now words → words ≢ []) }
    {
        true
    }

    // A read answers the upcoming words in order.
    ghost reads_upcoming: { (s : Self) (r : Result (Option Word) Self.ReadError) (t : Self)
        → read_gives s r t → (words : List Word) → tells_upcoming s words
        → ReadsUpcoming tells_upcoming words r t };
}

/// A source that knows how many items it still has: words, and errors in place of words.
///
/// A source in memory counts exactly (`is_exact`). A `Reverse` does if its backend does, and a
/// source over an iterator does if the iterator's contract counts its items.
pub trait BoundedReadWords<Word, S: Semantics>: ReadWords<Word, S> {
    // How many items are left.
    ghost items_left: { Self → ℕ };

    // The count is exact, and stays so with each read. By default it always is.
    ghost is_exact: { Self → Type 0 } = { λ _. ⊤ };

    /// How many items are left.
    fn remaining(&self) -> usize
        ensures { result ≡ items_left self.now };

    /// Whether no item is left.
    fn is_exhausted(&self) -> bool
        ensures { IsTrue result ↔ (items_left self.now ≡ 0) }
    {
        self.remaining() == 0
    }

    // A read takes an item, and answers `Ok(None)` if and only if there is none.
    ghost counts_reads: { (s : Self) (r : Result (Option Word) Self.ReadError) (t : Self)
        → is_exact s → Self.read_gives s r t
        → CountsRead (items_left s) r (items_left t) × is_exact t };

    // The upcoming words are as many as the items.
    ghost counts_upcoming: { (s : Self) → is_exact s → (words : List Word)
        → Self.tells_upcoming s words → items_left s ≡ length words };
}
