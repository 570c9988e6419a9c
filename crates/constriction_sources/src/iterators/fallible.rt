//! Sources over iterators of words and errors.

ghost use Rattle.std.specs.Prelude.{◌≡◌, false, true};
ghost use Rattle.std.specs.Iterator.{size, count_unless};
ghost use Rattle.std.specs.Iterator.Adapters.{fuse_source, fuse_done, fuse_steps};
ghost use Rattle.constriction_sources.specs.Items.{item_of, CountsDown};
ghost use Rattle.constriction_sources.specs.lemmas.Items.{item-counted, none-left};

use crate::iterators::FusedWords;
use crate::read::{BoundedReadWords, ReadWords};
use constriction_words::Semantics;
use std::fmt::Debug;

/// A source over an iterator whose items are words or errors.
///
/// A read takes the next item, in either order of reading. It answers the word or the error, and
/// reading may go on after an error. After the first end the iterator is not asked again, and each
/// read answers `Ok(None)`.
#[derive(Debug, Drop)]
pub struct FallibleIteratorReadWords<Iter: Iterator> {
    inner: FusedWords<Iter>,
}

impl<Iter: Iterator> FallibleIteratorReadWords<Iter> {
    /// A source over the items of `iter`. Items other than results do not compile here.
    #[inline]
    pub fn new<I, Word, ReadError>(iter: I) -> Self
    where
        I: IntoIterator<Item = Result<Word, ReadError>, IntoIter = Iter>,
        ensures source { I.into_iter_gives iter (fuse_source result.inner) }
        ensures fresh { fuse_done result.inner ≡ false }
    {
        Self {
            inner: iter.into_iter().fuse(),
        }
    }
}

impl<Iter: Iterator> IntoIterator for FallibleIteratorReadWords<Iter> {
    type Item = Iter::Item;

    type IntoIter = FusedWords<Iter>;

    ghost into_iter_gives = { λ s items. items ≡ s.inner };

    /// The items that are left.
    #[inline]
    fn into_iter(self) -> FusedWords<Iter> {
        self.inner
    }
}

impl<
    Word,
    ReadError: Debug,
    S: Semantics,
    Iter: Iterator<Item = Result<Word, ReadError>>,
> ReadWords<Word, S> for FallibleIteratorReadWords<Iter> {
    type ReadError = ReadError;

    ghost read_gives = { λ s r t. fuse_steps Iter.next_gives s.inner (item_of r) t.inner };

    ghost can_read = { λ s. fuse_done s.inner ≡ false → Iter.can_next (fuse_source s.inner) };

    #[inline]
    fn read(&mut self) -> Result<Option<Word>, ReadError> {
        match self.inner.next() {
            None => Ok(None),
            Some(Ok(word)) => Ok(Some(word)),
            Some(Err(error)) => Err(error),
        }
    }

    #[inline]
    fn maybe_exhausted(&self) -> bool
        ensures { result ≡ true }
    {
        true
    }

    ghost reads_upcoming = { λ _ _ _ _ _ h. absurd h };
}

impl<
    Word,
    ReadError: Debug,
    S: Semantics,
    Iter: ExactSizeIterator<Item = Result<Word, ReadError>>,
> BoundedReadWords<Word, S> for FallibleIteratorReadWords<Iter> {
    ghost items_left = { λ s.
        size (count_unless (fuse_done s.inner) (Iter.remaining (fuse_source s.inner))) };

    ghost is_exact = { λ s. CountsDown {W = Word} (fuse_steps Iter.next_gives)
        (λ it. size (count_unless (fuse_done it) (Iter.remaining (fuse_source it)))) (λ _ _. ⊥)
        (size (count_unless (fuse_done s.inner) (Iter.remaining (fuse_source s.inner)))) s.inner };

    #[inline]
    fn remaining(&self) -> usize {
        self.inner.len()
    }

    ghost counts_reads = { λ s r t. item-counted Iter.next_gives fuse_done fuse_source
        (λ it. size (count_unless (fuse_done it) (Iter.remaining (fuse_source it))))
        (none-left fuse_done fuse_source Iter.remaining) s.inner r t.inner };

    ghost counts_upcoming = { λ _ _ _ h. absurd h };
}
