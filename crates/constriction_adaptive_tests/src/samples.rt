//! Samples of 16 bits in one message: a class by the class before, and then as many bits as it has.

ghost use Rattle.std.specs.Prelude.{◌≡◌, ◌++◌, ◌^◌, ◌<◌, ◌≤◌, All, IfOk, List, false, length, nat_eq, ℕ};
ghost use Rattle.std.specs.List.{range_with_len};
ghost use Rattle.either.specs.declared.Either.{Either};
ghost use Rattle.constriction_adaptive.specs.ByContext.{context_state};
ghost use Rattle.constriction_adaptive.specs.Categorical.{even_many};
ghost use Rattle.constriction_adaptive.specs.LastSymbols.{none_recent};
ghost use Rattle.constriction_adaptive.specs.Pair.{equal_on_sides, pair_state};
ghost use Rattle.constriction_adaptive.specs.Predicted.{predicted_entry};
ghost use Rattle.constriction_coders.specs.Places.{IsMessageFrom};

use constriction::CoderError;
use constriction::stream::model::ModelError;
use constriction_adaptive::queue::{decode_message_of, encode_message};
use constriction_adaptive::{
    AdaptiveCategorical, ByContext, EncoderFrontendError, LastSymbols, Pair, Predictor,
    UniformBits, pairs_of_numbers_are_same,
};
use constriction_coders::queue::DecoderFrontendError;
use either::Either;
use std::alloc::{AllocError, Global};

pub type Classes = ByContext<AdaptiveCategorical<5, 16>, LastSymbols, 16>;

pub type Samples = Pair<Classes, UniformBits<16>, LastSymbols, 16>;

/// A class, or the bits of a number of this class.
type Symbol = Either<usize, usize>;

/// Predicts classes by the class before, and the bits of a class all alike.
pub fn by_classes(alloc: Global) -> Result<Samples, ModelError>
    ensures { IfOk result (λ made. ⟦<Samples as Predictor<16>>⟧.state made ≡ pair_state
        (context_state (even_many 17 16 17) (none_recent 17 1))
        (context_state (range_with_len 0 17) (none_recent 17 1)) false) }
{
    let before = LastSymbols::new(17, 1);
    let predictors = AdaptiveCategorical::new_many(alloc, 17, before.contexts())?;
    let classes = ByContext::new(predictors, before);
    match UniformBits::new_many(alloc, 17) {
        Ok(bits) => Ok(Pair::new(classes, bits, LastSymbols::new(17, 1))),
        Err(_) => Err(ModelError::OutOfMemory),
    }
}

/// What a sample differs by from the line through the two before, small if the difference is.
fn residual(sample: u16, last: u16, before: u16) -> usize
    ensures { result < 65536 }
{
    let difference = sample.wrapping_sub(last.wrapping_add(last).wrapping_sub(before));
    if difference < 32768 {
        2 * difference as usize
    } else {
        2 * (65535 - difference) as usize + 1
    }
}

/// The sample of a residual.
fn sample(residual: u16, last: u16, before: u16) -> u16 {
    let half = residual / 2;
    let difference = if residual % 2 == 0 {
        half
    } else {
        65535 - half
    };
    last.wrapping_add(last)
        .wrapping_sub(before)
        .wrapping_add(difference)
}

/// How many bits a number below `2^17` has after its first one.
fn class(number: usize) -> usize
    ensures { result ≤ 16 }
{
    for bits in 0..16 {
        if number < 2 << bits {
            return bits;
        }
    }
    16
}

/// The classes of samples, with their bits.
pub fn symbols(alloc: Global, samples: &[u16]) -> Result<Vec<Symbol>, AllocError> {
    let mut symbols = Vec::new(alloc);
    let (mut last, mut before) = (0, 0);
    for now in samples {
        let number = residual(*now, last, before) + 1;
        let class = class(number);
        symbols.push(Either::Left(class))?;
        symbols.push(Either::Right(number % (1 << class)))?;
        before = last;
        last = *now;
    }
    Ok(symbols)
}

/// The samples of these symbols.
pub fn samples(alloc: Global, symbols: &[Symbol]) -> Result<Vec<u16>, AllocError> {
    let mut samples = Vec::new(alloc);
    let (mut last, mut before, mut class) = (0, 0, 0);
    for symbol in symbols {
        match symbol {
            Either::Left(symbol) => class = *symbol,
            Either::Right(bits) => {
                let residual = (1 << class.min(16)) - 1 + (*bits).min(65535);
                let now = sample((residual % 65536) as u16, last, before);
                samples.push(now)?;
                before = last;
                last = now;
            }
        }
    }
    Ok(samples)
}

/// The words of symbols.
pub fn encoded(
    alloc: Global,
    symbols: &[Symbol],
) -> Result<Vec<u32>, CoderError<EncoderFrontendError, AllocError>>
    ensures { IfOk result (λ words. IsMessageFrom
        (predicted_entry ⟦<Samples as Predictor<16>>⟧.rows (equal_on_sides nat_eq nat_eq))
        ⟦<Samples as Predictor<16>>⟧.next 16
        (pair_state (context_state (even_many 17 16 17) (none_recent 17 1))
        (context_state (range_with_len 0 17) (none_recent 17 1)) false) symbols.now
        words.items) }
{
    match by_classes(alloc) {
        Ok(mut predictor) => encode_message(alloc, &mut predictor, symbols),
        Err(_) => Err(CoderError::Frontend(EncoderFrontendError::OutOfMemory)),
    }
}

/// The symbols of words, which may have others after them.
pub fn decoded(
    alloc: Global,
    count: usize,
    words: &[u32],
) -> Result<Vec<Symbol>, DecoderFrontendError>
    ensures { IfOk result (λ answers. (symbols : List (Either ℕ ℕ)) (message more : List ℕ)
        → length symbols ≡ count → IsMessageFrom
        (predicted_entry ⟦<Samples as Predictor<16>>⟧.rows (equal_on_sides nat_eq nat_eq))
        ⟦<Samples as Predictor<16>>⟧.next 16
        (pair_state (context_state (even_many 17 16 17) (none_recent 17 1))
        (context_state (range_with_len 0 17) (none_recent 17 1)) false) symbols message
        → All (λ w. w < 2 ^ 32) more → words.now ≡ message ++ more → answers.items ≡ symbols) }
{
    pairs_of_numbers_are_same::<AdaptiveCategorical<5, 16>, UniformBits<16>, 16>();
    match by_classes(alloc) {
        Ok(mut predictor) => decode_message_of(alloc, &mut predictor, count, words),
        Err(_) => Err(DecoderFrontendError::OutOfMemory),
    }
}
