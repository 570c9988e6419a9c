//! A model that has the entries of its symbols prepared.

ghost use Rattle.std.specs.Prelude.{◌≡◌};
ghost use Rattle.std.specs.Option.{option_map};
ghost use Rattle.constriction_model.specs.Rows.{entry_of};

use crate::model_word::ModelWord;
use crate::stack::prepared_entry::PreparedEntry;
use constriction_model::EncoderModel;

/// A model for an encoder that answers prepared entries, from the same rows as its other answers.
pub trait PreparedModel<const PRECISION: usize>: EncoderModel<PRECISION, Probability: ModelWord> {
    /// The prepared entry of a symbol. `None` means that the model has no such symbol, so it cannot
    /// be encoded.
    fn prepared_entry(&self, symbol: &Self::Symbol) -> Option<PreparedEntry>
        ensures { option_map (λ e. (e.left, e.weight)) result
            ≡ entry_of Self.symbol_eq (Self.rows self.now) symbol.now };
}

impl<M: PreparedModel<PRECISION>, const PRECISION: usize> PreparedModel<PRECISION> for &M {
    fn prepared_entry(&self, symbol: &M::Symbol) -> Option<PreparedEntry> {
        (**self).prepared_entry(symbol)
    }
}
