//! A walk through the words of a coder.

ghost use Rattle.std.specs.Iterator.{YieldsFirst, item_count};
ghost use Rattle.constriction_coders.specs.Compressed.{IsCompressed};
ghost use Rattle.constriction_coders.specs.AnsCoder.{held_by};
ghost use Rattle.constriction_coders.specs.CompressedWords.{words_left};

use crate::stack::ans_coder::AnsCoder;
use std::iter::FusedIterator;

/// The words of a coder that are left to be given, as
/// [`into_compressed`](AnsCoder::into_compressed) gives them, that on top of the stack last.
#[derive(Debug, Drop)]
pub struct CompressedWords<'c> {
    words: &'c [u32],
    low: Option<u32>,
    high: Option<u32>,
}

impl AnsCoder<Vec<u32>> {
    /// A walk through the words that [`into_compressed`](Self::into_compressed) gives, while the
    /// coder stays as it is. No memory is asked for, and no word is copied.
    pub fn iter_compressed(&self) -> CompressedWords<'_>
        ensures { IsCompressed (held_by self.now) (words_left result) }
    {
        let low = if self.state == 0 {
            None
        } else {
            Some((self.state % (1 << 32)) as u32)
        };
        let high = if self.state < 1 << 32 {
            None
        } else {
            Some((self.state >> 32) as u32)
        };
        CompressedWords {
            words: self.words.as_slice(),
            low,
            high,
        }
    }
}

impl<'c> Iterator for CompressedWords<'c> {
    type Item = u32;

    ghost next_gives = { YieldsFirst words_left };

    ghost remaining = { item_count words_left };

    fn next(&mut self) -> Option<u32> {
        match self.words {
            [first, others @ ..] => {
                self.words = others;
                Some(*first)
            }
            [] => match self.low.take() {
                Some(word) => Some(word),
                None => self.high.take(),
            },
        }
    }
}

impl<'c> FusedIterator for CompressedWords<'c> {}
