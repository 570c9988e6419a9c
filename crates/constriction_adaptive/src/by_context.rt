//! A predictor for each context.

ghost use Rattle.std.specs.Prelude.{◌≡◌, ◌<◌, ℕ, IfOk, IfSome, length, map, slice_get};
ghost use Rattle.constriction_model.specs.Coding.{StandsForEqual};
ghost use Rattle.constriction_adaptive.specs.ByContext.{ByContexts, learned_in, rows_by_context, context_state};
ghost use Rattle.constriction_adaptive.specs.lemmas.ByContext.{learned-same};

use crate::predictor::{Predictor, Snapshot};
use constriction_model::{DecoderModel, EncoderModel};
use std::alloc::{AllocError, Global};

/// Says from the symbols that came in which context the next symbol is.
///
/// The symbols are those of a model `M`, which says which of them are equal.
pub trait Context<M, const PRECISION: usize>
where
    M: EncoderModel<PRECISION> + DecoderModel<PRECISION>,
{
    // What is known of the symbols that came.
    ghost State: { Type 0 };

    ghost state: { Self → State };

    // The number of the context of the next symbol.
    ghost number: { State → ℕ };

    // How many contexts there are. No symbol changes it.
    ghost contexts: { Self → ℕ };

    // The state after a symbol.
    ghost next: { State → M.Symbol → State };

    /// The number of the context of the next symbol, from 0 on.
    fn index(&self) -> usize
        ensures number { result ≡ number (state self.now) }
        ensures below { result < contexts self.now };

    /// A symbol came.
    fn learn(&mut self, symbol: &M::Symbol)
        ensures next { state self.new ≡ next (state self.old) symbol.now }
        ensures as_many { contexts self.new ≡ contexts self.old };

    // What comes back for a symbol leads to the same state as the symbol.
    ghost next_law: { (s : State) (symbol answer : M.Symbol)
        → StandsForEqual M.stands_for M.symbol_eq symbol answer
        → next s answer ≡ next s symbol };
}

/// Predicts each symbol by the predictor of its context, which alone learns it.
///
/// It asks for no memory but what that predictor asks for. How many contexts there are does not
/// change how long a call takes.
#[derive(Drop)]
pub struct ByContext<P, C, const PRECISION: usize>
where
    P: Predictor<PRECISION>,
    C: Context<P::Model, PRECISION>,
{
    predictors: Vec<P>,
    context: C,
    ghost each: { length predictors.items ≡ C.contexts context },
}

impl<P, C, const PRECISION: usize> ByContext<P, C, PRECISION>
where
    P: Predictor<PRECISION>,
    C: Context<P::Model, PRECISION>,
{
    /// Takes the predictors of the contexts, in the order of their numbers.
    pub fn new(predictors: Vec<P>, context: C) -> Self
        requires { length predictors.items ≡ C.contexts context }
        ensures { ⟦<ByContext<P, C, PRECISION> as Predictor<PRECISION>>⟧.state result
            ≡ context_state (map P.state predictors.items) (C.state context) }
    {
        ByContext {
            predictors,
            context,
        }
    }
}

impl<P, C, const PRECISION: usize> Predictor<PRECISION> for ByContext<P, C, PRECISION>
where
    P: Predictor<PRECISION>,
    C: Context<P::Model, PRECISION>,
{
    type Symbol = P::Symbol;

    type Model = P::Model;

    ghost State = { ByContexts P.State C.State };

    ghost state = { λ p. context_state (map P.state p.predictors.items) (C.state p.context) };

    ghost rows = { rows_by_context P.rows C.number };

    ghost next = { learned_in P.next C.number C.next };

    ghost can_learn = { λ p.
        IfSome (slice_get p.predictors.items (C.number (C.state p.context))) P.can_learn };

    #[inline]
    fn model(&self) -> &P::Model {
        self.predictors[self.context.index()].model()
    }

    #[inline]
    fn reserve(&mut self) -> Result<(), AllocError> {
        let index = self.context.index();
        self.predictors[index].reserve()
    }

    #[inline]
    fn learn(&mut self, symbol: &P::Symbol) {
        let index = self.context.index();
        self.predictors[index].learn(symbol);
        self.context.learn(symbol);
    }

    ghost next_law = { learned-same P.next C.number C.next
        (StandsForEqual P.Model.stands_for P.Model.symbol_eq) P.next_law C.next_law };
}

/// Copies of predictors, each in the state of its own.
pub(crate) fn snapshots<P, const PRECISION: usize>(
    alloc: Global,
    predictors: &[P],
) -> Result<Vec<P>, AllocError>
where
    P: Snapshot<PRECISION> + Drop,
    ensures { IfOk result (λ copies. map P.state copies.items ≡ map P.state predictors.now) }
{
    let mut copies = Vec::with_capacity(alloc, predictors.len())?;
    for predictor in predictors {
        copies.push_reserved(predictor.snapshot(alloc)?);
    }
    Ok(copies)
}

impl<P, C, const PRECISION: usize> Snapshot<PRECISION> for ByContext<P, C, PRECISION>
where
    P: Snapshot<PRECISION> + Drop,
    C: Context<P::Model, PRECISION> + Copy,
{
    fn snapshot(&self, alloc: Global) -> Result<Self, AllocError> {
        let predictors = snapshots(alloc, &self.predictors)?;
        Ok(ByContext {
            predictors,
            context: self.context,
        })
    }
}
