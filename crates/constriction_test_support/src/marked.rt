//! A buffer of a caller's own: words that stand between two marks.

ghost use Rattle.std.proofs.Common.{ap};
ghost use Rattle.std.specs.Vec.{with_items};
ghost use Rattle.constriction_buffers.specs.lemmas.VecBuffer.{with_items_stand, with_items-length, with_items_unchanged, with_items_again};

use constriction_buffers::{SafeBuf, SafeBufMut};

#[derive(Debug, Drop)]
pub struct Marked {
    pub first: u8,
    pub words: Vec<u8>,
    pub last: u8,
}

impl Marked {
    /// The words between the marks 7 and 9.
    pub fn new(words: Vec<u8>) -> Marked {
        Marked {
            first: 7,
            words,
            last: 9,
        }
    }
}

impl SafeBuf<u8> for Marked {
    ghost words_of = { λ s. s.words.items };

    fn words(&self) -> &[u8] {
        self.words.as_slice()
    }
}

impl SafeBufMut<u8> for Marked {
    ghost with_words = { λ s ws. record s { words = with_items s.words ws } };

    fn words_mut(&mut self) -> &mut [u8] {
        self.words.as_mut_slice()
    }

    ghost stand = { λ s. with_items_stand s.words };

    ghost keeps_length = { λ s. with_items-length s.words };

    ghost unchanged = { λ s. ap (λ v. record s { words = v }) (with_items_unchanged s.words) };

    ghost again = { λ s ws vs same.
        ap (λ v. record s { words = v }) (with_items_again s.words ws vs same) };
}
