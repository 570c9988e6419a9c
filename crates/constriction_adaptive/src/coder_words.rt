//! What the models of predictors answer, in the words of a coder.

ghost use Rattle.std.specs.Prelude.{◌≡◌, ◌^◌, ◌<◌, IfErr, IfOk};
ghost use Rattle.std.specs.Int.NonZero.{non_zero_u32_get};
ghost use Rattle.std.specs.Option.{option_map};
ghost use Rattle.constriction_model.specs.Model.{AnswersQuantile, RowMayBeRefused, entry_in};
ghost use Rattle.constriction_model.specs.Precision.{IsPrecision};
ghost use Rattle.constriction_model.specs.Rows.{RowsTile, entry_of};

use crate::predictor::Predictor;
use constriction_coders::ModelWord;
use constriction_model::{DecoderModel, EncoderModel, Weight};
use constriction_words::WholeNumber;
use std::alloc::AllocError;

/// The rows of a predictor tile the quantiles over the words of a coder.
///
/// The call is for its clauses alone: a model that is only lent takes no time.
#[inline]
pub(crate) fn rows_tile<P, const PRECISION: usize>(predictor: &P)
where
    P: Predictor<PRECISION>,
    ensures precision { IsPrecision 32 PRECISION }
    ensures tile { RowsTile 32 PRECISION (P.rows (P.state predictor.now)) }
{
    let _model = predictor.model();
}

/// The entry of a symbol.
#[inline]
pub(crate) fn entry_in_coder_words<E, const PRECISION: usize>(
    model: &E,
    symbol: &E::Symbol,
) -> Option<(u32, Weight<u32>)>
where
    E: EncoderModel<PRECISION, Probability: ModelWord>,
    ensures { option_map (entry_in (λ n. n) non_zero_u32_get) result
        ≡ entry_of E.symbol_eq (E.rows model.now) symbol.now }
{
    match model.left_cumulative_and_probability(symbol) {
        Some((left, weight)) => Some((
            left.to_coder_word(),
            E::Probability::from_weight(weight)
                .to_coder_word()
                .to_weight(),
        )),
        None => None,
    }
}

/// The row of a quantile.
#[inline]
pub(crate) fn row_in_coder_words<D, const PRECISION: usize>(
    model: &D,
    quantile: u32,
) -> Result<(D::Symbol, u32, Weight<u32>), AllocError>
where
    D: DecoderModel<PRECISION, Probability: ModelWord>,
    requires { quantile < 2 ^ PRECISION }
    ensures row { IfOk result (AnswersQuantile D.stands_for (λ n. n) non_zero_u32_get
        (D.rows model.now) quantile) }
    ensures refused { IfErr result (λ _.
        RowMayBeRefused D.may_refuse (D.rows model.now) quantile) }
{
    match model.quantile_function(D::Probability::from_coder_word(quantile)) {
        Ok((symbol, left, weight)) => Ok((
            symbol,
            left.to_coder_word(),
            D::Probability::from_weight(weight)
                .to_coder_word()
                .to_weight(),
        )),
        Err(error) => Err(error),
    }
}
