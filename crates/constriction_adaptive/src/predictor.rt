//! What predicts the next symbol.

ghost use Rattle.std.specs.Prelude.{◌≡◌, IfOk, List, OnOk};
ghost use Rattle.constriction_model.specs.Coding.{StandsForEqual};
ghost use Rattle.constriction_model.specs.Rows.{Row};

use constriction_coders::ModelWord;
use constriction_model::{DecoderModel, EncoderModel, EntropyModel};
use std::alloc::{AllocError, Global};

/// Predicts the next symbol by a model, and learns each symbol that came.
///
/// What it predicts depends on its state alone, and the state on the symbols that it learned. So an
/// encoder and a decoder whose predictors begin in one state stay in one state.
pub trait Predictor<const PRECISION: usize> {
    /// The type that is coded.
    type Symbol;

    /// The model of the next symbol.
    type Model: EncoderModel<PRECISION, Symbol = Self::Symbol, Probability: ModelWord>
        + DecoderModel<PRECISION>;

    // What a predictor knows.
    ghost State: { Type 0 };

    ghost state: { Self → State };

    // The rows of the next symbol.
    ghost rows: { State → List (Row Self.Symbol) };

    // The state after a symbol.
    ghost next: { State → Self.Symbol → State };

    // The predictor has the memory to learn a symbol. By default it needs none.
    ghost can_learn: { Self → Type 0 } = { λ _. Unit {0} };

    /// The model of the next symbol.
    fn model(&self) -> &Self::Model
        ensures { Self.Model.rows result.now ≡ rows (state self.now) };

    /// Asks for the memory that learning a symbol takes. The state stays.
    fn reserve(&mut self) -> Result<(), AllocError>
        ensures ready { OnOk result (can_learn self.new) }
        ensures same { state self.new ≡ state self.old };

    /// Learns a symbol.
    fn learn(&mut self, symbol: &Self::Symbol)
        requires { can_learn self.old }
        ensures { state self.new ≡ next (state self.old) symbol.now };

    // What comes back for a symbol leads to the same state as the symbol.
    ghost next_law: { (s : State) (symbol answer : Self.Symbol)
        → StandsForEqual Self.Model.stands_for Self.Model.symbol_eq symbol answer
        → next s answer ≡ next s symbol };
}

/// A predictor that can be copied, so that a caller can go back to what was known.
pub trait Snapshot<const PRECISION: usize>: Predictor<PRECISION> {
    /// A copy in the same state. It fails only if memory is refused.
    fn snapshot(&self, alloc: Global) -> Result<Self, AllocError>
        ensures { IfOk result (λ copy. Self.state copy ≡ Self.state self.now) };
}
