//! The symbols that came last, as a context.

ghost use Rattle.std.specs.Prelude.{◌≡◌, ◌*◌, ◌^◌, ◌<◌, ℕ};
ghost use Rattle.constriction_model.specs.Coding.{StandsForEqual};
ghost use Rattle.constriction_adaptive.specs.LastSymbols.{Recent, after_recent, none_recent};
ghost use Rattle.constriction_adaptive.specs.lemmas.Categorical.{number-same};
ghost use Rattle.constriction_adaptive.specs.lemmas.LastSymbols.{recent-same};

use crate::by_context::Context;
use crate::categorical::AdaptiveCategorical;
use constriction_model::{DecoderModel, EncoderModel};
use std::marker::Model;

/// A model of numbers, each of which comes back as it was.
pub trait NumberModel<const PRECISION: usize>: EncoderModel<PRECISION, Symbol = usize>
    + DecoderModel<PRECISION> {
    // What comes back for a number is this number.
    ghost same_law: { (symbol answer : ℕ)
        → StandsForEqual Self.stands_for Self.symbol_eq symbol answer → answer ≡ symbol };
}

impl<const RATE: u32, const PRECISION: usize> NumberModel<PRECISION>
    for AdaptiveCategorical<RATE, PRECISION> {
    ghost same_law = { number-same };
}

/// The context of the last symbols, which are numbers below a bound. Each greater one counts as the
/// greatest below it.
#[derive(Clone, Copy)]
pub struct LastSymbols {
    symbols: usize,
    older: usize,
    number: usize,
}

impl Model for LastSymbols {
    ghost use Rattle.constriction_adaptive.specs.LastSymbols.{IsRecent, Recent, recent};

    ghost Value = { Recent };

    ghost view = { λ c. recent c.symbols c.older c.number };

    ghost invariant = { λ c. IsRecent (recent c.symbols c.older c.number) };

    ghost inverse = { λ d. record { symbols = d.symbols; older = d.older; number = d.number } };
}

impl LastSymbols {
    /// The last `order` of the symbols `0..symbols`. Those before the first one count as 0.
    ///
    /// There are `symbols^order` contexts.
    pub fn new(symbols: usize, order: u32) -> Self
        requires some { 0 < symbols }
        requires order { 0 < order }
        requires few { symbols ^ order < 2 ^ 64 }
        ensures { result ≡ none_recent symbols order }
    {
        LastSymbols {
            symbols,
            older: symbols.pow(order - 1),
            number: 0,
        }
    }

    /// How many contexts there are.
    #[inline]
    pub fn contexts(&self) -> usize
        ensures { result ≡ self.now.symbols * self.now.older }
    {
        self.symbols * self.older
    }
}

impl<M, const PRECISION: usize> Context<M, PRECISION> for LastSymbols
where
    M: NumberModel<PRECISION>,
{
    ghost State = { Recent };

    ghost state = { λ c. c };

    ghost number = { λ s. s.number };

    ghost contexts = { λ c. c.symbols * c.older };

    ghost next = { after_recent };

    #[inline]
    fn index(&self) -> usize {
        self.number
    }

    #[inline]
    fn learn(&mut self, symbol: &usize) {
        let last = (*symbol).min(self.symbols - 1);
        self.number = self.number % self.older * self.symbols + last;
    }

    ghost next_law = { recent-same (StandsForEqual M.stands_for M.symbol_eq) M.same_law };
}
