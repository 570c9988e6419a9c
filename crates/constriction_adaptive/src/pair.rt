//! Symbols in pairs, by two kinds of predictors.

ghost use Rattle.std.specs.Prelude.{◌≡◌, ℕ, IfSome, false, length, map, slice_get, true};
ghost use Rattle.constriction_model.specs.Coding.{StandsForEqual};
ghost use Rattle.constriction_model.specs.Precision.{IsPrecision};
ghost use Rattle.constriction_model.specs.Rows.{RowsTile};
ghost use Rattle.constriction_model.specs.lemmas.Coding.{rows-within};
ghost use Rattle.either.specs.Either.{MatchEither, SameSide};
ghost use Rattle.either.specs.declared.Either.{Either};
ghost use Rattle.constriction_adaptive.specs.ByContext.{context_state};
ghost use Rattle.constriction_adaptive.specs.Pair.{PairState, pair_state, after_side, equal_on_sides, rows_of_side, without_symbols};
ghost use Rattle.constriction_adaptive.specs.lemmas.Pair.{after-side-same, sides-equivalence, tile-without};

use crate::by_context::{Context, snapshots};
use crate::coder_words::{entry_in_coder_words, row_in_coder_words, rows_tile};
use crate::last_symbols::NumberModel;
use crate::predictor::{Predictor, Snapshot};
use constriction_model::{DecoderModel, EncoderModel, EntropyModel, Weight};
use either::Either;
use std::alloc::{AllocError, Global};

/// Predicts symbols in pairs: one by `A`, which is `Left`, and then one by a `B`, which is `Right`,
/// and so on. There is a `B` for each context, and `C` says from the left symbols that came in
/// which one the right symbol is.
///
/// The left symbols may be classes, for instance, and each class has a predictor of what it leaves
/// open. A symbol of the side that is not next has no entry.
///
/// The predictor is its own model. It asks for no memory but what the one that is next asks for.
#[derive(Drop)]
pub struct Pair<A, B, C, const PRECISION: usize>
where
    A: Predictor<PRECISION>,
    B: Predictor<PRECISION>,
    C: Context<A::Model, PRECISION>,
{
    left: A,
    rights: Vec<B>,
    context: C,
    is_right: bool,
    ghost each: { length rights.items ≡ C.contexts context },
    ghost precise: { IsPrecision 32 PRECISION },
    // A ghost field may not say that symbols of any type are equal, so it leaves them out.
    ghost tile: { RowsTile 32 PRECISION (without_symbols (rows_of_side A.rows B.rows C.number
        (pair_state (A.state left) (context_state (map B.state rights.items) (C.state context))
        is_right))) },
}

impl<A, B, C, const PRECISION: usize> Pair<A, B, C, PRECISION>
where
    A: Predictor<PRECISION>,
    B: Predictor<PRECISION>,
    C: Context<A::Model, PRECISION>,
{
    /// Takes the predictor of left symbols, and those of right ones in the order of their contexts.
    /// The first symbol is a left one.
    pub fn new(left: A, rights: Vec<B>, context: C) -> Self
        requires { length rights.items ≡ C.contexts context }
        ensures { ⟦<Pair<A, B, C, PRECISION> as Predictor<PRECISION>>⟧.state result ≡ pair_state
            (A.state left) (context_state (map B.state rights.items) (C.state context)) false }
    {
        rows_tile(&left);
        Pair {
            left,
            rights,
            context,
            is_right: false,
        }
    }
}

impl<A, B, C, const PRECISION: usize> EntropyModel<PRECISION> for Pair<A, B, C, PRECISION>
where
    A: Predictor<PRECISION>,
    B: Predictor<PRECISION>,
    C: Context<A::Model, PRECISION>,
{
    type Symbol = Either<A::Symbol, B::Symbol>;

    type Probability = u32;

    ghost rows = { λ m. rows_of_side A.rows B.rows C.number (pair_state (A.state m.left)
        (context_state (map B.state m.rights.items) (C.state m.context)) m.is_right) };

    ghost precision_law = { λ m. m.precise };
}

impl<A, B, C, const PRECISION: usize> EncoderModel<PRECISION> for Pair<A, B, C, PRECISION>
where
    A: Predictor<PRECISION>,
    B: Predictor<PRECISION>,
    C: Context<A::Model, PRECISION>,
{
    ghost symbol_eq = { equal_on_sides A.Model.symbol_eq B.Model.symbol_eq };

    #[inline]
    fn left_cumulative_and_probability(
        &self,
        symbol: &Either<A::Symbol, B::Symbol>,
    ) -> Option<(u32, Weight<u32>)> {
        match symbol {
            Either::Left(symbol) => {
                if self.is_right {
                    return None;
                }
                entry_in_coder_words(self.left.model(), symbol)
            }
            Either::Right(symbol) => {
                if !self.is_right {
                    return None;
                }
                entry_in_coder_words(self.rights[self.context.index()].model(), symbol)
            }
        }
    }

    ghost equality_law = { sides-equivalence A.Model.equality_law B.Model.equality_law };

    ghost within_law = { λ m. rows-within 32 PRECISION _ (tile-without 32 PRECISION _ m.tile) };
}

impl<A, B, C, const PRECISION: usize> DecoderModel<PRECISION> for Pair<A, B, C, PRECISION>
where
    A: Predictor<PRECISION>,
    B: Predictor<PRECISION>,
    C: Context<A::Model, PRECISION>,
{
    ghost stands_for = { SameSide A.Model.stands_for B.Model.stands_for };

    ghost may_refuse = { λ s. MatchEither s A.Model.may_refuse B.Model.may_refuse };

    #[inline]
    fn quantile_function(
        &self,
        quantile: u32,
    ) -> Result<(Either<A::Symbol, B::Symbol>, u32, Weight<u32>), AllocError> {
        if self.is_right {
            match row_in_coder_words(self.rights[self.context.index()].model(), quantile) {
                Ok((symbol, left, weight)) => Ok((Either::Right(symbol), left, weight)),
                Err(error) => Err(error),
            }
        } else {
            match row_in_coder_words(self.left.model(), quantile) {
                Ok((symbol, left, weight)) => Ok((Either::Left(symbol), left, weight)),
                Err(error) => Err(error),
            }
        }
    }

    ghost tile_law = { λ m. tile-without 32 PRECISION _ m.tile };
}

impl<A, B, C, const PRECISION: usize> Predictor<PRECISION> for Pair<A, B, C, PRECISION>
where
    A: Predictor<PRECISION>,
    B: Predictor<PRECISION>,
    C: Context<A::Model, PRECISION>,
{
    type Symbol = Either<A::Symbol, B::Symbol>;

    type Model = Pair<A, B, C, PRECISION>;

    ghost State = { PairState A.State B.State C.State };

    ghost state = { λ p. pair_state (A.state p.left)
        (context_state (map B.state p.rights.items) (C.state p.context)) p.is_right };

    ghost rows = { rows_of_side A.rows B.rows C.number };

    ghost next = { after_side A.next B.next C.number C.next };

    ghost can_learn = { λ p. (p.is_right ≡ false → A.can_learn p.left) × (p.is_right ≡ true
        → IfSome (slice_get p.rights.items (C.number (C.state p.context))) B.can_learn) };

    #[inline]
    fn model(&self) -> &Pair<A, B, C, PRECISION> {
        self
    }

    #[inline]
    fn reserve(&mut self) -> Result<(), AllocError> {
        if !self.is_right {
            return self.left.reserve();
        }
        let index = self.context.index();
        self.rights[index].reserve()
    }

    /// The predictor that is next learns its symbol, and the context a left one. A symbol of the
    /// other side changes nothing.
    #[inline]
    fn learn(&mut self, symbol: &Either<A::Symbol, B::Symbol>) {
        match symbol {
            Either::Left(symbol) => {
                if !self.is_right {
                    self.left.learn(symbol);
                    self.context.learn(symbol);
                    rows_tile(&self.rights[self.context.index()]);
                    self.is_right = true;
                }
            }
            Either::Right(symbol) => {
                if self.is_right {
                    let index = self.context.index();
                    self.rights[index].learn(symbol);
                    rows_tile(&self.left);
                    self.is_right = false;
                }
            }
        }
    }

    ghost next_law = { after-side-same A.next B.next C.number C.next A.Model.stands_for
        A.Model.symbol_eq B.Model.stands_for B.Model.symbol_eq A.next_law B.next_law C.next_law };
}

/// The pair of these predictors, in the state of another pair.
fn in_state_of<A, B, C, const PRECISION: usize>(
    pair: &Pair<A, B, C, PRECISION>,
    left: A,
    rights: Vec<B>,
) -> Pair<A, B, C, PRECISION>
where
    A: Predictor<PRECISION>,
    B: Predictor<PRECISION>,
    C: Context<A::Model, PRECISION> + Copy,
    requires left { A.state left ≡ A.state pair.now.left }
    requires rights { map B.state rights.items ≡ map B.state pair.now.rights.items }
    ensures { ⟦<Pair<A, B, C, PRECISION> as Predictor<PRECISION>>⟧.state result
        ≡ ⟦<Pair<A, B, C, PRECISION> as Predictor<PRECISION>>⟧.state pair.now }
{
    Pair {
        left,
        rights,
        context: pair.context,
        is_right: pair.is_right,
    }
}

impl<A, B, C, const PRECISION: usize> Snapshot<PRECISION> for Pair<A, B, C, PRECISION>
where
    A: Snapshot<PRECISION> + Drop,
    B: Snapshot<PRECISION> + Drop,
    C: Context<A::Model, PRECISION> + Copy,
{
    fn snapshot(&self, alloc: Global) -> Result<Self, AllocError> {
        let left = self.left.snapshot(alloc)?;
        let rights = snapshots(alloc, &self.rights)?;
        Ok(in_state_of(self, left, rights))
    }
}

/// If both sides are numbers, what comes back for a symbol of a [`Pair`] is this symbol.
pub fn pairs_of_numbers_are_same<L, R, const PRECISION: usize>()
where
    L: NumberModel<PRECISION>,
    R: NumberModel<PRECISION>,
    ensures { (symbol answer : Either ℕ ℕ) → StandsForEqual (SameSide L.stands_for R.stands_for)
        (equal_on_sides L.symbol_eq R.symbol_eq) symbol answer → answer ≡ symbol }
{}
