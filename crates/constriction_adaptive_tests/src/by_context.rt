//! What programs that code numbers by a predictor for each context learn from contracts alone.

ghost use Rattle.std.specs.Prelude.{◌≡◌, ◌++◌, ◌^◌, ◌<◌, All, Bool, IfOk, List, if◌then◌else◌, length, nat_eq, true, ℕ};
ghost use Rattle.constriction_adaptive.specs.ByContext.{context_state};
ghost use Rattle.constriction_adaptive.specs.Categorical.{even_many};
ghost use Rattle.constriction_adaptive.specs.LastSymbols.{none_recent};
ghost use Rattle.constriction_adaptive.specs.Predicted.{predicted_entry};
ghost use Rattle.constriction_adaptive.specs.lemmas.Categorical.{after-same};
ghost use Rattle.constriction_coders.specs.Places.{IsMessageFrom};

use crate::checks::{holds, same};
use constriction::CoderError;
use constriction::stream::model::ModelError;
use constriction_adaptive::queue::{decode_message_of, encode_message, message_comes_back};
use constriction_adaptive::{
    AdaptiveCategorical, ByContext, Context, EncoderFrontendError, LastSymbols, Predictor,
};
use constriction_coders::queue::DecoderFrontendError;
use std::alloc::{AllocError, Global};
use std::process::Abort;

type Numbers = ByContext<AdaptiveCategorical<5, 16>, LastSymbols, 16>;

/// Predicts numbers below 200 by the number before.
fn by_the_last(alloc: Global) -> Result<Numbers, ModelError>
    ensures { IfOk result (λ made. ⟦<Numbers as Predictor<16>>⟧.state made
        ≡ context_state (even_many 200 16 200) (none_recent 200 1)) }
{
    let context = LastSymbols::new(200, 1);
    let predictors = AdaptiveCategorical::new_many(alloc, 200, context.contexts())?;
    Ok(ByContext::new(predictors, context))
}

/// The words of numbers below 200.
fn encoded_numbers(
    alloc: Global,
    numbers: &[usize],
) -> Result<Vec<u32>, CoderError<EncoderFrontendError, AllocError>>
    ensures { IfOk result (λ words. IsMessageFrom
        (predicted_entry ⟦<Numbers as Predictor<16>>⟧.rows nat_eq) ⟦<Numbers as Predictor<16>>⟧.next
        16 (context_state (even_many 200 16 200) (none_recent 200 1)) numbers.now words.items) }
{
    match by_the_last(alloc) {
        Ok(mut predictor) => encode_message(alloc, &mut predictor, numbers),
        Err(_) => Err(CoderError::Frontend(EncoderFrontendError::OutOfMemory)),
    }
}

/// The numbers of words, which may have others after them.
fn decoded_numbers(
    alloc: Global,
    count: usize,
    words: &[u32],
) -> Result<Vec<usize>, DecoderFrontendError>
    ensures { IfOk result (λ answers. (numbers message more : List ℕ) → length numbers ≡ count
        → IsMessageFrom (predicted_entry ⟦<Numbers as Predictor<16>>⟧.rows nat_eq)
        ⟦<Numbers as Predictor<16>>⟧.next 16
        (context_state (even_many 200 16 200) (none_recent 200 1)) numbers message
        → All (λ w. w < 2 ^ 32) more
        → words.now ≡ message ++ more → answers.items ≡ numbers) }
{
    match by_the_last(alloc) {
        Ok(mut predictor) => decode_message_of(alloc, &mut predictor, count, words),
        Err(_) => Err(DecoderFrontendError::OutOfMemory),
    }
}

#[test]
fn numbers_come_back_by_the_number_before(rt: HostRuntime) {
    let alloc = rt.alloc();
    let numbers = [3, 199, 0, 3, 199, 3, 199, 4];
    let Ok(mut words) = encoded_numbers(alloc, &numbers) else {
        panic!(rt; "the numbers were not encoded");
    };
    words.push(7).expect(&rt, "memory");
    match decoded_numbers(alloc, 8, &words) {
        Ok(again) => holds(&rt, &again, &numbers),
        Err(_) => panic!(rt; "the numbers were not decoded"),
    }
}

/// Predicts numbers below 4 by the two numbers before.
fn by_the_last_two(alloc: Global) -> Result<Numbers, ModelError>
    ensures { IfOk result (λ made. ⟦<Numbers as Predictor<16>>⟧.state made
        ≡ context_state (even_many 16 16 4) (none_recent 4 2)) }
{
    let context = LastSymbols::new(4, 2);
    let predictors = AdaptiveCategorical::new_many(alloc, 4, context.contexts())?;
    Ok(ByContext::new(predictors, context))
}

/// A caller's own context, of whether the last number is 0.
#[derive(Drop)]
struct Zeros {
    was_zero: bool,
}

impl Context<AdaptiveCategorical<5, 16>, 16> for Zeros {
    ghost State = { Bool };

    ghost state = { λ c. c.was_zero };

    ghost number = { λ s. if s then 1 else 0 };

    ghost contexts = { λ _. 2 };

    ghost next = { λ _ number. nat_eq number 0 };

    fn index(&self) -> usize {
        usize::from(self.was_zero)
    }

    fn learn(&mut self, symbol: &usize) {
        self.was_zero = *symbol == 0;
    }

    ghost next_law = { after-same (λ _ number. nat_eq number 0) };
}

type AfterZeros = ByContext<AdaptiveCategorical<5, 16>, Zeros, 16>;

/// Predicts numbers below 4 by whether the number before is 0.
fn by_zeros(alloc: Global) -> Result<AfterZeros, ModelError>
    ensures { IfOk result (λ made. ⟦<AfterZeros as Predictor<16>>⟧.state made
        ≡ context_state (even_many 2 16 4) true) }
{
    let predictors = AdaptiveCategorical::new_many(alloc, 4, 2)?;
    Ok(ByContext::new(predictors, Zeros { was_zero: true }))
}

/// The numbers that come back from a message by contexts of a caller's own.
fn numbers_back(alloc: Global, numbers: &[usize]) -> Option<Vec<usize>> {
    let mut encoding = by_zeros(alloc).ok()?;
    let mut decoding = by_zeros(alloc).ok()?;
    message_comes_back(alloc, &mut encoding, &mut decoding, numbers).ok()
}

#[test]
fn numbers_come_back_by_contexts_of_a_callers_own(rt: HostRuntime) {
    let numbers = [0, 1, 0, 0, 2, 3, 3, 0];
    match numbers_back(rt.alloc(), &numbers) {
        Some(answers) => holds(&rt, &answers, &numbers),
        None => panic!(rt; "no message came back"),
    }
}

/// Whether 0, 1, 0, 2, 3 and so on, 2,500 numbers, take few words by the two numbers before.
fn take_few_words(rt: &impl Abort, alloc: Global) -> bool {
    let mut numbers = Vec::new(alloc);
    for _ in 0..500 {
        for number in [0, 1, 0, 2, 3] {
            numbers.push(number).expect(rt, "memory");
        }
    }
    let Ok(mut predictor) = by_the_last_two(alloc) else {
        return false;
    };
    match encode_message(alloc, &mut predictor, &numbers) {
        Ok(words) => words.len() < 40,
        Err(_) => false,
    }
}

#[test]
fn numbers_that_follow_two_others_take_few_words(rt: HostRuntime) {
    same(&rt, take_few_words(&rt, rt.alloc()), true);
}

#[test]
fn predictors_of_no_symbols_are_refused(rt: HostRuntime) {
    let refused = AdaptiveCategorical::<5, 16>::new_many(rt.alloc(), 0, 2).err();
    same(&rt, refused, Some(ModelError::InvalidTable));
}
