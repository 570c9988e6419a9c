//! The counted search of a probe of the caller's own, and of a model of 4,194,304 rows.

ghost use Rattle.std.specs.Prelude.{◌≤◌, ◌<◌, ◌^◌, ◌+◌};
ghost use Rattle.constriction_models_tests.specs.Evens.{evens};

use crate::checks::{same, same_at};
use constriction::laws::contiguous_symbols_differ;
use constriction::stream::model::{
    CdfEntry, CdfProbe, Cumulative, CumulativeAndSymbol, DecoderModel,
    DefaultContiguousCategoricalEntropyModel, EncoderModel, Probe, row_of_quantile,
    to_generic_decoder_model_of_distinct, to_generic_encoder_model,
};
use constriction_test_support::plain_rows::row;
use constriction_words::{NonZeroBitArray, WholeNumber};
use std::cell::Cell;
use std::iter;

/// A probe of the caller's own that computes its cumulatives, the even numbers from 0 on. The count
/// of its questions outlives it.
#[derive(Drop)]
struct Evens<'c> {
    size: usize,
    asked: usize,
    questions: &'c Cell<usize>,
    ghost few: { size ≤ 1000 },
}

impl<'c> Probe for Evens<'c> {
    type Word = u16;

    ghost number = { λ word. word };

    ghost cumulatives = { λ p. evens p.size };

    ghost questions = { λ p. p.asked };

    #[tactic(auto, using(crate::proofs::EvenLemmas::length_evens))]
    fn len(&self) -> usize {
        self.size
    }

    fn asked(&self) -> usize {
        self.asked
    }

    #[tactic(auto, using(crate::proofs::EvenLemmas::length_evens, crate::proofs::EvenLemmas::evens_at))]
    fn at_most(&mut self, index: usize, q: u16) -> bool {
        self.asked += 1;
        self.questions.set(self.asked);
        2 * index <= q as usize
    }
}

#[test]
#[tactic(auto, using(crate::proofs::EvenLemmas::length_evens))]
fn a_probe_of_the_caller_is_searched(rt: HostRuntime) {
    let questions = Cell::new(0);
    let mut rows = Evens {
        size: 1000,
        asked: 0,
        questions: &questions,
    };
    same(&rt, row_of_quantile(&mut rows, 999u16), 499);
    same(&rt, [rows.asked(), questions.get()], [10, 10]);
}

type Wide = DefaultContiguousCategoricalEntropyModel;

/// Whether the last of the four quantiles from `left` on has the row of this symbol, and the
/// counted search finds that row by at most 22 questions.
fn is_found(model: &Wide, symbol: usize, left: u32) -> bool
    requires { left + 3 < 2 ^ 24 }
{
    let (_, mut rows) = model.quantile_probe(left + 3);
    let found = row_of_quantile(&mut rows, left + 3);
    let answer = row(Some(model.quantile_function(left + 3)));
    answer == Some((symbol, left, 4)) && found == symbol && rows.asked() <= 22
}

/// The last quantile of each of 4,194,304 rows is looked up. A search of the probe finds its row by
/// at most 22 questions. No clause says that a look-up searches too. If it went over the rows,
/// these look-ups would not end within a minute.
#[test]
fn a_look_up_does_not_go_over_all_rows(rt: HostRuntime) {
    let fours = iter::repeat_n(4u32, 4_194_304);
    let model = Wide::from_nonzero_fixed_point_probabilities(rt.alloc(), fours, false);
    let model = model.expect(&rt, "accepted");
    for symbol in 0..4_194_304u32 {
        let found = is_found(&model, symbol as usize, 4 * symbol);
        same_at(&rt, symbol, found, true);
    }
}

/// The same for the decoder over any symbols with these rows.
#[test]
fn a_look_up_of_any_symbols_does_not_go_over_all_rows(rt: HostRuntime) {
    let fours = iter::repeat_n(4u32, 4_194_304);
    let numbers = Wide::from_nonzero_fixed_point_probabilities(rt.alloc(), fours, false);
    let numbers = numbers.expect(&rt, "accepted");
    contiguous_symbols_differ();
    let made = to_generic_decoder_model_of_distinct(rt.alloc(), &numbers);
    let model = made.expect(&rt, "a model");
    for symbol in 0..4_194_304u32 {
        let answer = row(Some(model.quantile_function(4 * symbol + 3)));
        same_at(&rt, symbol, answer, Some((symbol as usize, 4 * symbol, 4)));
    }
}

/// The encoder has 1,048,576 entries. If a look-up went over these, 1,048,576 look-ups would not
/// end within a minute.
#[test]
fn a_look_up_of_an_encoder_does_not_go_over_all_symbols(rt: HostRuntime) {
    let sixteens = iter::repeat_n(16u32, 1_048_576);
    let numbers = Wide::from_nonzero_fixed_point_probabilities(rt.alloc(), sixteens, false);
    let made = to_generic_encoder_model(rt.alloc(), &numbers.expect(&rt, "accepted"));
    let model = made.expect(&rt, "a model");
    for symbol in 0..1_048_576usize {
        let found = match model.left_cumulative_and_probability(&symbol) {
            Some((left, weight)) => Some((left as usize, weight.get())),
            None => None,
        };
        same_at(&rt, symbol, found, Some((16 * symbol, 16)));
    }
}
