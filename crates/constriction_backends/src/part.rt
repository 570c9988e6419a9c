//! A run of a buffer's words, lent for writing.

ghost use Rattle.std.specs.Prelude.{◌≡◌, ◌≤◌, ◌-◌, length, take, drop};
ghost use Rattle.std.specs.Borrow.{Lends, sem, Array};
ghost use Rattle.constriction_backends.specs.private.Part.{with_part};

use constriction_buffers::SafeBufMut;
use std::slice::from_raw_parts_mut;

/// Lends the words from one index up to another for writing. The buffer keeps what the slice holds
/// at the end of the loan. The other words stay.
#[inline]
pub(crate) fn part_mut<Word, Buf: SafeBufMut<Word>>(
    buf: &mut Buf,
    from: usize,
    to: usize,
) -> &mut [Word]
    requires { (from ≤ to) × (to ≤ length (Buf.words_of buf.old)) }
    ensures* writes_back { sem 𝓛 (Lends Buf.row (Array Word.row 0) buf.entry result
        (λ ws. Buf.with_words buf.old (with_part (Buf.words_of buf.old) from to ws))) }
    ensures value { result.now ≡ take (to - from) (drop from (Buf.words_of buf.old)) }
{
    let words = buf.words_mut();
    let first = words.as_mut_ptr();
    unsafe { from_raw_parts_mut(first.add(from), to - from) }
}
