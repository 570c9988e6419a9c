//! Messages over models of several words, proved from the contracts alone.

ghost use Rattle.std.specs.Prelude.{◌≡◌, IfSome};
ghost use Rattle.constriction_coders.specs.AnsCoder.{held_by};

use constriction::backends::Cursor;
use constriction::stream::model::UniformModel;
use constriction_coders::laws::{range_symbols_come_back, sealed_words_tell, symbols_come_back};
use constriction_coders::queue::{RangeDecoder, RangeEncoder};
use constriction_coders::stack::AnsCoder;
use constriction_coders::{Decode, Encode};
use std::alloc::Global;

/// Numbers below a range, over words of 8 bits.
type Narrow = UniformModel<u8, 8>;

/// Numbers below a range, over words of 16 bits.
type Middle = UniformModel<u16, 12>;

/// Numbers below a range, over words of 32 bits.
type Wide = UniformModel<u32, 24>;

/// Three numbers, each by a model of its own. They come back from the stack, and so does what it
/// held.
pub fn on_a_stack(
    coder: &mut AnsCoder<Vec<u32>>,
    models: (&Narrow, &Middle, &Wide),
    numbers: (usize, usize, usize),
) -> Option<(usize, usize, usize)>
    ensures numbers { IfSome result (λ answers. (answers.0 ≡ numbers.0) × (answers.1 ≡ numbers.1)
        × (answers.2 ≡ numbers.2)) }
    ensures coder { IfSome result (λ _. held_by coder.new ≡ held_by coder.old) }
{
    let (narrow, middle, wide) = models;
    symbols_come_back::<Narrow, Narrow, 8>(narrow, narrow);
    symbols_come_back::<Middle, Middle, 12>(middle, middle);
    symbols_come_back::<Wide, Wide, 24>(wide, wide);
    let Ok(()) = coder.encode_symbol::<Wide>(&numbers.2, wide) else {
        return None;
    };
    let Ok(()) = coder.encode_symbol::<Middle>(&numbers.1, middle) else {
        return None;
    };
    let Ok(()) = coder.encode_symbol::<Narrow>(&numbers.0, narrow) else {
        return None;
    };
    let Ok(first) = coder.decode_symbol::<Narrow>(narrow) else {
        return None;
    };
    let Ok(second) = coder.decode_symbol::<Middle>(middle) else {
        return None;
    };
    let Ok(third) = coder.decode_symbol::<Wide>(wide) else {
        return None;
    };
    Some((first, second, third))
}

/// Three numbers of a message, each by a model of its own. They come back.
pub fn in_a_queue(
    alloc: Global,
    models: (&Narrow, &Middle, &Wide),
    numbers: (usize, usize, usize),
) -> Option<(usize, usize, usize)>
    ensures { IfSome result (λ answers. (answers.0 ≡ numbers.0) × (answers.1 ≡ numbers.1)
        × (answers.2 ≡ numbers.2)) }
{
    let (narrow, middle, wide) = models;
    range_symbols_come_back::<Narrow, Narrow, Cursor<u32, Vec<u32>>, 8>(narrow, narrow);
    range_symbols_come_back::<Middle, Middle, Cursor<u32, Vec<u32>>, 12>(middle, middle);
    range_symbols_come_back::<Wide, Wide, Cursor<u32, Vec<u32>>, 24>(wide, wide);
    sealed_words_tell();
    let mut coder = RangeEncoder::new(alloc);
    let Ok(()) = coder.encode_symbol::<Narrow>(&numbers.0, narrow) else {
        return None;
    };
    let Ok(()) = coder.encode_symbol::<Middle>(&numbers.1, middle) else {
        return None;
    };
    let Ok(()) = coder.encode_symbol::<Wide>(&numbers.2, wide) else {
        return None;
    };
    let Ok(words) = coder.into_compressed() else {
        return None;
    };
    let Ok(mut opened) = RangeDecoder::from_compressed(Cursor::new_at_write_beginning(words)) else {
        return None;
    };
    let Ok(first) = opened.decode_symbol::<Narrow>(narrow) else {
        return None;
    };
    let Ok(second) = opened.decode_symbol::<Middle>(middle) else {
        return None;
    };
    let Ok(third) = opened.decode_symbol::<Wide>(wide) else {
        return None;
    };
    Some((first, second, third))
}
