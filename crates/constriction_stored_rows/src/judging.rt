//! Whether words are a cdf.

ghost use Rattle.std.specs.Prelude.{◌≡◌, ◌↔◌, map, IsTrue};
ghost use Rattle.constriction_model.specs.Precision.{IsPrecision};
ghost use Rattle.constriction_stored_rows.specs.Stored.{total_of, IsCdf, IsStored};

use crate::filling::is_inferred_last;
use constriction_numbers::WholeNumber;

/// Whether these words are the left cumulatives of accepted weights.
fn are_lefts<Word: WholeNumber, const PRECISION: usize>(lefts: &[Word]) -> bool
    requires { IsPrecision Word.BITS PRECISION }
    ensures { IsTrue result ↔ IsStored Word.BITS PRECISION (map Word.whole lefts.now) }
{
    let Some((first, rest)) = lefts.split_first() else {
        return false;
    };
    if !first.is_zero_word() {
        return false;
    }
    let mut before = *first;
    for left in rest {
        if left.is_at_most(before) {
            return false;
        }
        before = *left;
    }
    let greatest = Word::greatest_of_bits(PRECISION);
    if !before.is_at_most(greatest) {
        return false;
    }
    is_inferred_last(greatest.minus(before), true)
}

/// Whether the word is the total, or 0 if the total is no word.
fn is_total<Word: WholeNumber, const PRECISION: usize>(word: Word) -> bool
    requires { IsPrecision Word.BITS PRECISION }
    ensures { IsTrue result ↔ (Word.whole word ≡ total_of Word.BITS PRECISION) }
{
    let total = Word::wrapping_pow2(PRECISION);
    word.is_at_most(total) && total.is_at_most(word)
}

/// Whether these words are a cdf: the left cumulatives of accepted weights, and after them the
/// total. One pass.
pub fn is_cdf<Word: WholeNumber, const PRECISION: usize>(words: &[Word]) -> bool
    requires { IsPrecision Word.BITS PRECISION }
    ensures { IsTrue result ↔ IsCdf Word.BITS PRECISION (map Word.whole words.now) }
{
    let Some((total, lefts)) = words.split_last() else {
        return false;
    };
    is_total::<Word, PRECISION>(*total) && are_lefts::<Word, PRECISION>(lefts)
}
