//! What models answer, in the words of a coder.

ghost use Rattle.std.specs.Prelude.{◌≡◌, ◌+◌, ◌^◌, ◌<◌, ◌≤◌, None, Some, IfErr, IfOk, IfSome};
ghost use Rattle.constriction_model.specs.Model.{AnswersQuantile, RowMayBeRefused};
ghost use Rattle.constriction_model.specs.Precision.{IsPrecision};
ghost use Rattle.constriction_model.specs.Rows.{entry_of};

use crate::model_word::ModelWord;
use constriction_model::{DecoderModel, EncoderModel};
use constriction_words::WholeNumber;
use std::alloc::AllocError;

/// A left cumulative and a weight.
pub(crate) type Entry = (u32, u32);

/// The entry of a symbol.
#[inline]
pub(crate) fn entry_of_symbol<E, const PRECISION: usize>(
    model: &E,
    symbol: &E::Symbol,
) -> Option<Entry>
where
    E: EncoderModel<PRECISION, Probability: ModelWord>,
    ensures precision { IsPrecision 32 PRECISION }
    ensures known { IfSome result (λ entry.
        entry_of E.symbol_eq (E.rows model.now) symbol.now ≡ Some (entry.0, entry.1)) }
    ensures none { result ≡ None → entry_of E.symbol_eq (E.rows model.now) symbol.now ≡ None }
    ensures some { IfSome result (λ entry. 0 < entry.1) }
    ensures within { IfSome result (λ entry. entry.0 + entry.1 ≤ 2 ^ PRECISION) }
{
    match model.left_cumulative_and_probability(symbol) {
        Some((left, weight)) => Some((
            left.to_coder_word(),
            E::Probability::from_weight(weight).to_coder_word(),
        )),
        None => None,
    }
}

/// The symbol of a quantile, and its entry.
#[inline]
pub(crate) fn symbol_and_entry<D, const PRECISION: usize>(
    model: &D,
    quantile: u32,
) -> Result<(D::Symbol, Entry), AllocError>
where
    D: DecoderModel<PRECISION, Probability: ModelWord>,
    requires { quantile < 2 ^ PRECISION }
    ensures row { IfOk result (λ answer. AnswersQuantile D.stands_for (λ n. n) (λ n. n)
        (D.rows model.now) quantile (answer.0, answer.1.0, answer.1.1)) }
    ensures some { IfOk result (λ answer. 0 < answer.1.1) }
    ensures within { IfOk result (λ answer. answer.1.0 + answer.1.1 ≤ 2 ^ PRECISION) }
    ensures from { IfOk result (λ answer. answer.1.0 ≤ quantile) }
    ensures to { IfOk result (λ answer. quantile < answer.1.0 + answer.1.1) }
    ensures refused { IfErr result (λ _.
        RowMayBeRefused D.may_refuse (D.rows model.now) quantile) }
{
    match model.quantile_function(D::Probability::from_coder_word(quantile)) {
        Ok((symbol, left, weight)) => Ok((
            symbol,
            (
                left.to_coder_word(),
                D::Probability::from_weight(weight).to_coder_word(),
            ),
        )),
        Err(error) => Err(error),
    }
}
