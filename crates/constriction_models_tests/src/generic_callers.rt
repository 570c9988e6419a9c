//! Callers that are generic in the model or in its words, and compute with these words.

ghost use Rattle.std.specs.Prelude.{◌≡◌, ◌+◌, ◌%◌, ◌^◌, ◌<◌, ◌≤◌, IfOk};
ghost use Rattle.constriction.specs.Rows.{Row, IsRowOf};

use crate::checks::same;
use crate::model_checks::small;
use constriction::stream::model::{DecoderModel, EncoderModel, SmallUniformModel};
use constriction_words::{BitArray, NonZeroBitArray};
use std::alloc::AllocError;

/// The end of the row of a quantile, modulo `2^BITS`, by any decoder over these words.
pub fn end_of_row<Word: BitArray, D, const PRECISION: usize>(
    model: &D,
    quantile: Word,
) -> Result<Word, AllocError>
where
    D: DecoderModel<PRECISION, Probability = Word>,
    D::Symbol: Drop,
    requires in_range { Word.whole quantile < 2 ^ PRECISION }
    ensures { IfOk result (λ end. (row : Row D.Symbol) × IsRowOf (D.rows model.now)
        (Word.whole quantile) row × (Word.whole end ≡ (row.left + row.weight) % 2 ^ Word.BITS)) }
{
    let (_symbol, left, weight) = model.quantile_function(quantile)?;
    Ok(left.wrapping_add(&weight.get()))
}

/// The weight of the row of a quantile, by a decoder over any `BitArray`.
pub fn weight_of_row<M: DecoderModel<PRECISION>, const PRECISION: usize>(
    model: &M,
    quantile: M::Probability,
) -> Result<M::Probability, AllocError>
where
    M::Symbol: Drop,
    M::Probability: BitArray,
    requires in_range { M.Probability.whole quantile < 2 ^ PRECISION }
    ensures { IfOk result (λ weight. M.Probability.whole weight ≤ 2 ^ PRECISION) }
{
    let (_symbol, _left, weight) = model.quantile_function(quantile)?;
    Ok(weight.get())
}

/// The weight of a symbol as a word, by any encoder over these words, or 0 if the symbol has none.
pub fn weight_or_0<Word: BitArray, E, const PRECISION: usize>(model: &E, symbol: &E::Symbol) -> Word
where
    E: EncoderModel<PRECISION, Probability = Word>,
{
    match model.left_cumulative_and_probability(symbol) {
        Some((_left, weight)) => weight.get(),
        None => Word::zero(),
    }
}

/// The last quantile of the row that holds a quantile, by any decoder over `u16`.
fn last_of_row<M: DecoderModel<12, Probability = u16>>(
    model: &M,
    quantile: u16,
) -> Result<u16, AllocError>
where
    M::Symbol: Drop,
    requires in_range { quantile < 2 ^ 12 }
{
    let (_symbol, left, weight) = model.quantile_function(quantile)?;
    Ok(left.wrapping_add(weight.get() - 1))
}

#[test]
fn callers_that_compute_with_words(rt: HostRuntime) {
    let model = small(&rt, rt.alloc());
    same(
        &rt,
        [
            end_of_row(&model, 20),
            end_of_row(&model, 63),
            weight_of_row(&model, 20),
        ],
        [Ok(21), Ok(64), Ok(18)],
    );
    let weights: [u8; 2] = [weight_or_0(&model, &1), weight_or_0(&model, &4)];
    same(&rt, weights, [18, 0]);
}

#[test]
fn callers_that_compute_with_words_of_16_bits(rt: HostRuntime) {
    let uniform = SmallUniformModel::new(5);
    let rows = (
        end_of_row(&uniform, 4095),
        weight_or_0(&uniform, &4),
        last_of_row(&uniform, 3276),
    );
    same(&rt, rows, (Ok(4096u16), 820u16, Ok(4095)));
}
