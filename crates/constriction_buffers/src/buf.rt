//! Buffers: values that hold a list of words and lend it as a slice.

ghost use Rattle.std.specs.Prelude.{◌≡◌, List, length};
ghost use Rattle.std.specs.Borrow.{Lends, sem, Array};
ghost use Rattle.std.specs.Vec.{with_items};
ghost use Rattle.std.specs.Box.{boxed_slice_items};
ghost use Rattle.std.proofs.Common.{ap, refl};
ghost use denote.Ref.{at_last};
ghost use Rattle.constriction_buffers.specs.Buffer.{refilled, with_now};
ghost use Rattle.constriction_buffers.specs.lemmas.Buffer.{refilled_same, refilled_again, length-refilled};
ghost use Rattle.constriction_buffers.specs.lemmas.VecBuffer.{with_items_stand, with_items-length, with_items_unchanged, with_items_again};

use smallvec::SmallVec;
use std::alloc::Allocator;
use std::boxed::BoxedSlice;

/// A buffer of words. A caller's own type may be one.
pub trait SafeBuf<Word> {
    // The words of the buffer.
    ghost words_of: { Self → List Word };

    /// Lends the words of the buffer, without a copy.
    fn words(&self) -> &[Word]
        ensures { result.now ≡ words_of self.now };
}

/// A buffer whose words can be overwritten. Their number never changes. A caller's own type may be
/// one.
pub trait SafeBufMut<Word>: SafeBuf<Word> {
    // The buffer with other words in it. They are the given ones if these have the buffer's length.
    ghost with_words: { Self → List Word → Self };

    /// Lends the words of the buffer for writing, without a copy. The buffer keeps what the slice
    /// holds at the end of the loan.
    fn words_mut(&mut self) -> &mut [Word]
        ensures* writes_back { sem 𝓛
            (Lends Self.row (Array Word.row 0) self.entry result (with_words self.old)) }
        ensures value { result.now ≡ Self.words_of self.old };

    // A list of the buffer's length becomes its words.
    ghost stand: { (s : Self) (ws : List Word) → length ws ≡ length (Self.words_of s)
        → Self.words_of (with_words s ws) ≡ ws };

    // The number of words stays the same for every list.
    ghost keeps_length: { (s : Self) (ws : List Word)
        → length (Self.words_of (with_words s ws)) ≡ length (Self.words_of s) };

    // The buffer with its own words in it is the buffer.
    ghost unchanged: { (s : Self) → with_words s (Self.words_of s) ≡ s };

    // The last of two lists counts.
    ghost again: { (s : Self) (ws vs : List Word) → length vs ≡ length (Self.words_of s)
        → with_words (with_words s ws) vs ≡ with_words s vs };
}

impl<Word> SafeBuf<Word> for Vec<Word> {
    ghost words_of = { λ buf. buf.items };

    #[inline]
    fn words(&self) -> &[Word] {
        &self[..]
    }
}

impl<Word> SafeBufMut<Word> for Vec<Word> {
    ghost with_words = { with_items };

    #[inline]
    fn words_mut(&mut self) -> &mut [Word] {
        self.as_mut_slice()
    }

    ghost stand = { with_items_stand };

    ghost keeps_length = { with_items-length };

    ghost unchanged = { with_items_unchanged };

    ghost again = { with_items_again };
}

impl<Word> SafeBuf<Word> for BoxedSlice<Word> {
    ghost words_of = { boxed_slice_items };

    #[inline]
    fn words(&self) -> &[Word] {
        self.as_slice()
    }
}

impl<Word, const N: usize, A: Allocator> SafeBuf<Word> for SmallVec<Word, N, A> {
    ghost words_of = { λ buf. buf.items };

    #[inline]
    fn words(&self) -> &[Word] {
        self.as_slice()
    }
}

impl<Word> SafeBuf<Word> for &[Word] {
    ghost words_of = { λ buf. buf.now };

    #[inline]
    fn words(&self) -> &[Word] {
        *self
    }
}

impl<Word, const N: usize> SafeBuf<Word> for [Word; N] {
    ghost words_of = { λ buf. buf };

    #[inline]
    fn words(&self) -> &[Word] {
        self.as_slice()
    }
}

impl<Word, const N: usize> SafeBufMut<Word> for [Word; N] {
    ghost with_words = { refilled };

    #[inline]
    fn words_mut(&mut self) -> &mut [Word] {
        self
    }

    ghost stand = { refilled_same };

    ghost keeps_length = { length-refilled };

    ghost unchanged = { λ s. refilled_same s s refl };

    ghost again = { refilled_again };
}

impl<Word, Buf: SafeBuf<Word>> SafeBuf<Word> for &Buf {
    ghost words_of = { λ buf. Buf.words_of buf.now };

    #[inline]
    fn words(&self) -> &[Word] {
        (**self).words()
    }
}

impl<Word> SafeBuf<Word> for &mut [Word] {
    ghost words_of = { λ buf. buf.now };

    #[inline]
    fn words(&self) -> &[Word] {
        &**self
    }
}

impl<Word> SafeBufMut<Word> for &mut [Word] {
    ghost with_words = { with_now };

    #[inline]
    fn words_mut(&mut self) -> &mut [Word] {
        &mut **self
    }

    ghost stand = { λ s ws same. refilled_same s.now ws same };

    ghost keeps_length = { λ s ws. length-refilled s.now ws };

    ghost unchanged = { λ s. ap (at_last s) (refilled_same s.now s.now refl) };

    ghost again = { λ s ws vs same. ap (at_last s) (refilled_again s.now ws vs same) };
}

impl<Word, Buf: SafeBuf<Word>> SafeBuf<Word> for &mut Buf {
    ghost words_of = { λ buf. Buf.words_of buf.now };

    #[inline]
    fn words(&self) -> &[Word] {
        (**self).words()
    }
}

impl<Word, Buf: SafeBufMut<Word>> SafeBufMut<Word> for &mut Buf {
    ghost with_words = { λ s ws. at_last s (Buf.with_words s.now ws) };

    #[inline]
    fn words_mut(&mut self) -> &mut [Word] {
        (**self).words_mut()
    }

    ghost stand = { λ s ws same. Buf.stand s.now ws same };

    ghost keeps_length = { λ s ws. Buf.keeps_length s.now ws };

    ghost unchanged = { λ s. ap (at_last s) (Buf.unchanged s.now) };

    ghost again = { λ s ws vs same. ap (at_last s) (Buf.again s.now ws vs same) };
}
