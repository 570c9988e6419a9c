//! Sources over iterators of words.

ghost use Rattle.std.specs.Prelude.{◌≡◌, false, true};
ghost use Rattle.std.specs.Iterator.{AlwaysYields, size, count_unless};
ghost use Rattle.std.specs.Iterator.Adapters.{fuse_source, fuse_done, fuse_steps};
ghost use Rattle.constriction_sources.specs.Items.{GivesWord, CountsDown};
ghost use Rattle.constriction_sources.specs.lemmas.Items.{word-upcoming, word-counted, upcoming-counted, none-left, none-upcoming};

use crate::iterators::FusedWords;
use crate::read::{BoundedReadWords, ReadWords};
use constriction_words::Semantics;
use std::convert::Infallible;

/// A source over an iterator whose items are words.
///
/// A read takes the next item, in either order of reading. After the first end the iterator is not
/// asked again, and each read answers `Ok(None)`.
#[derive(Debug, Drop)]
pub struct InfallibleIteratorReadWords<Iter: Iterator> {
    inner: FusedWords<Iter>,
}

impl<Iter: Iterator> InfallibleIteratorReadWords<Iter> {
    /// A source over the items of `iter`.
    #[inline]
    pub fn new<I: IntoIterator<IntoIter = Iter>>(iter: I) -> Self
        ensures source { I.into_iter_gives iter (fuse_source result.inner) }
        ensures fresh { fuse_done result.inner ≡ false }
    {
        Self {
            inner: iter.into_iter().fuse(),
        }
    }
}

impl<Iter: Iterator> IntoIterator for InfallibleIteratorReadWords<Iter> {
    type Item = Iter::Item;

    type IntoIter = FusedWords<Iter>;

    ghost into_iter_gives = { λ s items. items ≡ s.inner };

    /// The words that are left.
    #[inline]
    fn into_iter(self) -> FusedWords<Iter> {
        self.inner
    }
}

impl<Word, S: Semantics, Iter: Iterator<Item = Word>> ReadWords<Word, S>
    for InfallibleIteratorReadWords<Iter> {
    type ReadError = Infallible;

    ghost read_gives = { λ s r t. GivesWord (fuse_steps Iter.next_gives) s.inner r t.inner };

    ghost tells_upcoming = { λ s. AlwaysYields (fuse_steps Iter.next_gives) (λ w. w) s.inner };

    ghost can_read = { λ s. fuse_done s.inner ≡ false → Iter.can_next (fuse_source s.inner) };

    #[inline]
    fn read(&mut self) -> Result<Option<Word>, Infallible> {
        Ok(self.inner.next())
    }

    #[inline]
    fn maybe_exhausted(&self) -> bool
        ensures { result ≡ true }
    {
        true
    }

    ghost reads_upcoming = { λ s r t.
        word-upcoming Iter.next_gives fuse_done fuse_source s.inner r t.inner };
}

impl<Word, S: Semantics, Iter: ExactSizeIterator<Item = Word>> BoundedReadWords<Word, S>
    for InfallibleIteratorReadWords<Iter> {
    ghost items_left = { λ s.
        size (count_unless (fuse_done s.inner) (Iter.remaining (fuse_source s.inner))) };

    ghost is_exact = { λ s. CountsDown (fuse_steps Iter.next_gives)
        (λ it. size (count_unless (fuse_done it) (Iter.remaining (fuse_source it))))
        (AlwaysYields (fuse_steps Iter.next_gives) (λ w. w))
        (size (count_unless (fuse_done s.inner) (Iter.remaining (fuse_source s.inner)))) s.inner };

    #[inline]
    fn remaining(&self) -> usize {
        self.inner.len()
    }

    ghost counts_reads = { λ s r t. word-counted Iter.next_gives fuse_done fuse_source
        (λ it. size (count_unless (fuse_done it) (Iter.remaining (fuse_source it))))
        (AlwaysYields (fuse_steps Iter.next_gives) (λ w. w))
        (none-left fuse_done fuse_source Iter.remaining)
        (none-upcoming Iter.next_gives fuse_done fuse_source) s.inner r t.inner };

    ghost counts_upcoming = { λ s. upcoming-counted Iter.next_gives fuse_done fuse_source
        (λ it. size (count_unless (fuse_done it) (Iter.remaining (fuse_source it))))
        (AlwaysYields (fuse_steps Iter.next_gives) (λ w. w))
        (none-left fuse_done fuse_source Iter.remaining)
        (none-upcoming Iter.next_gives fuse_done fuse_source) s.inner };
}
