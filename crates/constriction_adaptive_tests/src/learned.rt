//! Symbols whose models are learned: what comes back, and a predictor of a caller's own.

ghost use Rattle.std.specs.Prelude.{◌≡◌, ◌<◌, ℕ, List, OnSome, fold, refl};
ghost use Rattle.constriction.specs.Rows.{Row};
ghost use Rattle.constriction_adaptive.specs.Categorical.{even_lefts};
ghost use Rattle.constriction_adaptive.specs.Predicted.{predicted_entry, AreStacked};
ghost use Rattle.constriction_coders.specs.AnsCoder.{held_by};
ghost use Rattle.constriction_coders.specs.Places.{entry_at};

use crate::checks::{holds, same};
use constriction::backends::Cursor;
use constriction::stream::model::{ContiguousCategoricalEntropyModel, EntropyModel};
use constriction_adaptive::bytes::{decode_byte, encode_byte};
use constriction_adaptive::{AdaptiveCategorical, OrderOne, Predictor, decode_next, queue, stack};
use constriction_coders::queue::{RangeDecoder, RangeEncoder};
use constriction_coders::stack::AnsCoder;
use std::alloc::{AllocError, Global};
use std::process::Abort;

pub mod known_models;
mod other_symbols;

pub type Letters = ContiguousCategoricalEntropyModel<u32, Vec<u32>, 6>;

/// Predicts letters by two models in turn, and has memory to learn some of them.
#[derive(Drop)]
pub struct ByTurns<'m> {
    pub this: &'m Letters,
    pub other: &'m Letters,
    pub room: usize,
}

impl<'m> Predictor<6> for ByTurns<'m> {
    type Symbol = usize;

    type Model = Letters;

    ghost State = { List (Row ℕ) × List (Row ℕ) };

    ghost state = { λ p. (
      ⟦<Letters as EntropyModel<6>>⟧.rows p.this.now,
      ⟦<Letters as EntropyModel<6>>⟧.rows p.other.now,
    ) };

    ghost rows = { λ s. s.0 };

    ghost next = { λ s _. (s.1, s.0) };

    ghost can_learn = { λ p. 0 < p.room };

    fn model(&self) -> &Letters {
        self.this
    }

    fn reserve(&mut self) -> Result<(), AllocError> {
        if self.room == 0 {
            return Err(AllocError);
        }
        Ok(())
    }

    fn learn(&mut self, _symbol: &usize) {
        let this = self.this;
        self.this = self.other;
        self.other = this;
        self.room -= 1;
    }

    ghost next_law = { λ _ _ _ _. refl };
}

/// The model of these weights.
pub fn letters(rt: &impl Abort, alloc: Global, weights: [u32; 3]) -> Letters {
    match Letters::from_nonzero_fixed_point_probabilities(alloc, weights, false) {
        Ok(model) => model,
        Err(_) => panic!(rt; "the weights are not accepted"),
    }
}

pub const SYMBOLS: [usize; 7] = [0, 2, 1, 1, 0, 2, 0];

/// A caller knows from the contract that both predictors have learned the symbols.
fn message_back<P, const PRECISION: usize>(
    alloc: Global,
    encoding: &mut P,
    decoding: &mut P,
    symbols: &[P::Symbol],
) -> Option<Vec<P::Symbol>>
where
    P: Predictor<PRECISION>,
    P::Symbol: Drop,
    requires { P.state decoding.old ≡ P.state encoding.old }
    ensures learned { OnSome result
        (P.state encoding.new ≡ fold P.next (P.state encoding.old) symbols.now) }
    ensures one_state { OnSome result (P.state decoding.new ≡ P.state encoding.new) }
{
    match queue::message_comes_back(alloc, encoding, decoding, symbols) {
        Ok(answers) => Some(answers),
        Err(_) => None,
    }
}

#[test]
fn letters_come_back_by_two_models_in_turn(rt: HostRuntime) {
    let alloc = rt.alloc();
    let this = letters(&rt, alloc, [1, 2, 61]);
    let other = letters(&rt, alloc, [40, 20, 4]);
    let mut encoding = ByTurns {
        this: &this,
        other: &other,
        room: 7,
    };
    let mut decoding = ByTurns {
        this: &this,
        other: &other,
        room: 9,
    };
    match message_back(alloc, &mut encoding, &mut decoding, &SYMBOLS) {
        Some(answers) => holds(&rt, &answers, &SYMBOLS),
        None => panic!(rt; "no message came back"),
    }
    same(&rt, (encoding.room, decoding.room), (0, 2));
}

#[test]
fn letters_come_back_from_a_stack(rt: HostRuntime) {
    let alloc = rt.alloc();
    let this = letters(&rt, alloc, [1, 2, 61]);
    let other = letters(&rt, alloc, [40, 20, 4]);
    let mut encoding = ByTurns {
        this: &this,
        other: &other,
        room: 9,
    };
    let mut decoding = ByTurns {
        this: &this,
        other: &other,
        room: 9,
    };
    let mut coder = AnsCoder::new(alloc);
    match stack::there_and_back(alloc, &mut encoding, &mut decoding, &SYMBOLS, &mut coder) {
        Ok(answers) => holds(&rt, &answers, &SYMBOLS),
        Err(_) => panic!(rt; "nothing came back"),
    }
    same(&rt, coder.is_empty(), true);
}

/// A caller knows from the contract that the symbols of a `Vec` are learned and encoded.
pub fn on_a_stack<P, const PRECISION: usize>(
    alloc: Global,
    predictor: &mut P,
    symbols: Vec<P::Symbol>,
    coder: &mut AnsCoder<Vec<u32>>,
) -> Option<()>
where
    P: Predictor<PRECISION>,
    P::Symbol: Drop,
    ensures { OnSome result
        (AreStacked P.next (entry_at (predicted_entry P.rows P.Model.symbol_eq)) PRECISION
        symbols.items (P.state predictor.old) (held_by coder.old) (P.state predictor.new)
        (held_by coder.new)) }
{
    match stack::encode_adaptively_from_iter(alloc, predictor, symbols, coder) {
        Ok(()) => Some(()),
        Err(_) => None,
    }
}

#[test]
fn a_letter_is_taken_from_a_stack(rt: HostRuntime) {
    let alloc = rt.alloc();
    let this = letters(&rt, alloc, [1, 2, 61]);
    let mut encoding = ByTurns {
        this: &this,
        other: &this,
        room: 1,
    };
    let mut coder = AnsCoder::new(alloc);
    let encoded = stack::encode_adaptively(alloc, &mut encoding, &[1], &mut coder);
    same(&rt, encoded.is_ok(), true);
    let refused = decode_next(&mut encoding, &mut coder);
    same(&rt, refused.is_err(), true);
    encoding.room = 1;
    match decode_next(&mut encoding, &mut coder) {
        Ok(decoded) => same(&rt, decoded, 1),
        Err(_) => panic!(rt; "the letter was not decoded"),
    }
}

#[test]
fn bytes_are_coded_one_at_a_time(rt: HostRuntime) {
    let alloc = rt.alloc();
    let (Ok(mut encoding), Ok(mut decoding)) = (OrderOne::new(alloc), OrderOne::new(alloc)) else {
        panic!(rt; "memory was refused");
    };
    let mut encoder = RangeEncoder::new(alloc);
    for byte in [b'a', 0, 255] {
        same(&rt, encode_byte(&mut encoding, byte, &mut encoder), Ok(()));
    }
    let words = encoder.into_compressed().expect(&rt, "memory");
    let Ok(mut decoder) = RangeDecoder::from_compressed(Cursor::new_at_write_beginning(words))
    else {
        panic!(rt; "a read failed");
    };
    for byte in [b'a', 0, 255] {
        match decode_byte(&mut decoding, &mut decoder) {
            Ok(decoded) => same(&rt, decoded, byte),
            Err(_) => panic!(rt; "a byte was not decoded"),
        }
    }
}

pub const TEXT: &[u8] = b"the cat sat on the mat, and the other cat sat on the other mat";

/// The bytes of the text as numbers.
pub fn numbers(rt: &impl Abort, alloc: Global) -> Vec<usize> {
    let mut numbers = Vec::new(alloc);
    for byte in TEXT {
        numbers.push(*byte as usize).expect(rt, "memory");
    }
    numbers
}

/// A predictor of bytes that learned nothing.
pub fn adaptive(rt: &impl Abort, alloc: Global) -> AdaptiveCategorical<4, 16>
    ensures { ⟦<AdaptiveCategorical<4, 16> as Predictor<16>>⟧.state result ≡ even_lefts 16 256 }
{
    match AdaptiveCategorical::new(alloc, 256) {
        Ok(made) => made,
        Err(_) => panic!(rt; "no predictor was made"),
    }
}
