//! A message by any coder.

ghost use Rattle.std.specs.Prelude.{◌≡◌, IfSome, reverse};
ghost use Rattle.std.specs.List.{AllZip};
ghost use Rattle.constriction.specs.Coding.{StandsForEqual};
ghost use Rattle.constriction.specs.Entries.{SameEntries};

use constriction::stream::model::{DecoderModel, EncoderModel, UniformModel};
use constriction_coders::laws::ComesBack;
use constriction_coders::queue::RangeEncoder;
use constriction_coders::stack::AnsCoder;
use constriction_coders::{Decode, Encode, IntoDecoder, ModelWord};
use std::alloc::Global;

/// Encodes symbols by any coder, and decodes them by the decoder that it becomes. They come back in
/// the coder's order.
pub fn by_any_coder<C, D, E, const PRECISION: usize>(
    alloc: Global,
    mut coder: C,
    decoder: &D,
    encoder: &E,
    symbols: &[D::Symbol],
) -> Option<Vec<D::Symbol>>
where
    C: ComesBack<PRECISION> + Drop,
    D: DecoderModel<PRECISION, Probability: ModelWord>,
    D::Symbol: Drop,
    E: EncoderModel<PRECISION, Symbol = D::Symbol, Probability: ModelWord>,
    C::FrontendError: Drop,
    C::BackendError: Drop,
    <C::Decoder as Decode<PRECISION>>::FrontendError: Drop,
    <C::Decoder as Decode<PRECISION>>::BackendError: Drop,
    C::Decoder: Drop,
    requires begun { C.is_begun coder }
    requires alike { SameEntries E.symbol_eq (E.rows encoder.now) (D.rows decoder.now) }
    ensures { IfSome result (λ answers. AllZip (StandsForEqual D.stands_for E.symbol_eq)
        (C.back D.Symbol symbols.now) answers.items) }
{
    C::come_back::<D, E>(decoder, encoder);
    match coder.encode_iid_slice(symbols, encoder) {
        Ok(()) => {}
        Err(_) => return None,
    }
    let Ok(mut opened) = coder.into_decoder() else {
        return None;
    };
    match opened.decode_iid_vec(alloc, symbols.len(), decoder) {
        Ok(answers) => Some(answers),
        Err(_) => None,
    }
}

/// Numbers below ten on a stack, from the top on.
pub fn on_a_stack(alloc: Global, numbers: &[usize]) -> Option<Vec<usize>>
    ensures { IfSome result (λ answers. answers.items ≡ reverse numbers.now) }
{
    let model = UniformModel::<u32, 24>::new(10);
    by_any_coder(alloc, AnsCoder::new(alloc), &model, &model, numbers)
}

/// Numbers below ten in a queue.
pub fn in_a_queue(alloc: Global, numbers: &[usize]) -> Option<Vec<usize>>
    ensures { IfSome result (λ answers. answers.items ≡ numbers.now) }
{
    let model = UniformModel::<u32, 24>::new(10);
    by_any_coder(alloc, RangeEncoder::new(alloc), &model, &model, numbers)
}

#[cfg(test)]
mod tests {
    use super::*;
    use crate::checks::same;

    #[test]
    fn numbers_come_back_from_either_coder(rt: HostRuntime) {
        let numbers = [3, 1, 4, 1, 5];
        let stacked = on_a_stack(rt.alloc(), &numbers).expect(&rt, "memory");
        same(&rt, stacked.as_slice(), [5, 1, 4, 1, 3].as_slice());
        let queued = in_a_queue(rt.alloc(), &numbers).expect(&rt, "memory");
        same(&rt, queued.as_slice(), numbers.as_slice());
    }
}
