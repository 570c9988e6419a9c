//! The answer to a line.

ghost use Rattle.std.specs.Prelude.{◌≡◌, ◌<◌, ◌++◌, false, true};
ghost use Rattle.std.specs.Prelude.{IfNone, IfOk, IfSome, OnOk, string_bytes};
ghost use Rattle.constriction_categorical.specs.ModelRows.{contiguous_model_rows};
ghost use Rattle.constriction_model.specs.Acceptance.{completed};
ghost use Rattle.constriction_model.specs.Precision.{IsPrecision};
ghost use Rattle.constriction_model.specs.Rows.{contiguous_rows};
ghost use Rattle.constriction_text.specs.private.Answering.{answer_of, answer_to, are_accepted, text_of_model};
ghost use Rattle.constriction_text.specs.Grammar.{width_of, format_of, precision_of, view};
ghost use Rattle.constriction_text.specs.Text.{IsAnswer, rows_text, quantile_text, symbol_text, uniform_text};

use crate::format_word::{FormatWord, UniformWord, push_row, push_rows};
use crate::line::{Command, Format, parse};
use constriction_categorical::ContiguousCategoricalEntropyModel;
use constriction_model::{DecoderModel, EncoderModel, ModelError};
use constriction_numbers::WholeNumber;
use std::alloc::{AllocError, Global};

/// A model of the symbols 0, 1, .. by weights.
type Weighted<Word, const PRECISION: usize> = ContiguousCategoricalEntropyModel<
    Word,
    Vec<Word>,
    PRECISION,
>;

/// The model of the weights of a line, with the last weight inferred if `infer`, if they are
/// accepted. A weight that is no word is read as 0, which no model accepts, so the weights are read
/// once and not copied.
fn contiguous_model<Word: FormatWord, const PRECISION: usize>(
    alloc: Global,
    weights: &[u64],
    infer: bool,
) -> Result<Option<Weighted<Word, PRECISION>>, AllocError>
    requires { IsPrecision Word.BITS PRECISION }
    ensures accepted { IfOk result (λ found. IfSome found (λ _.
        are_accepted Word.BITS PRECISION (completed PRECISION infer weights.now) ≡ true)) }
    ensures rows { IfOk result (λ found. IfSome found (λ model.
        contiguous_model_rows model ≡ contiguous_rows (completed PRECISION infer weights.now))) }
    ensures refused { IfOk result (λ found. IfNone found
        (are_accepted Word.BITS PRECISION (completed PRECISION infer weights.now) ≡ false)) }
{
    let words = weights.iter().map(|weight| Word::narrowed(*weight));
    match ContiguousCategoricalEntropyModel::from_nonzero_fixed_point_probabilities(
        alloc, words, infer,
    ) {
        Ok(model) => Ok(Some(model)),
        Err(ModelError::InvalidTable) => Ok(None),
        Err(ModelError::OutOfMemory) => Err(AllocError),
    }
}

/// Adds the lines of all rows of weights, or says that the weights are not accepted.
fn push_table<Word: FormatWord, const PRECISION: usize>(
    alloc: Global,
    text: &mut String,
    weights: &[u64],
    infer: bool,
) -> Result<(), AllocError>
    requires { IsPrecision Word.BITS PRECISION }
    ensures { OnOk result (string_bytes text.new ≡ string_bytes text.old
        ++ text_of_model Word.BITS PRECISION (completed PRECISION infer weights.now) rows_text) }
{
    match contiguous_model::<Word, PRECISION>(alloc, weights, infer)? {
        Some(model) => push_rows(text, &model),
        None => text.push_str("invalid\n"),
    }
}

/// Adds the line of a quantile's row, or says that the quantile is out of range.
fn push_row_of_quantile<Word: FormatWord, const PRECISION: usize>(
    text: &mut String,
    model: &Weighted<Word, PRECISION>,
    quantile: u64,
) -> Result<(), AllocError>
    requires { PRECISION < 64 }
    ensures { OnOk result (string_bytes text.new ≡ string_bytes text.old
        ++ quantile_text PRECISION (contiguous_model_rows model.now) quantile) }
{
    if quantile >> PRECISION != 0 {
        return text.push_str("range\n");
    }
    let (symbol, left, weight) = model.quantile_function(Word::narrowed(quantile))?;
    push_row(
        text,
        symbol,
        left.number(),
        Word::from_weight(weight).number(),
    )
}

/// Adds the line of a quantile's row among the rows of weights, or says what is wrong.
fn push_quantile<Word: FormatWord, const PRECISION: usize>(
    alloc: Global,
    text: &mut String,
    quantile: u64,
    weights: &[u64],
) -> Result<(), AllocError>
    requires precision { IsPrecision Word.BITS PRECISION }
    requires small { PRECISION < 64 }
    ensures { OnOk result (string_bytes text.new ≡ string_bytes text.old ++ text_of_model Word.BITS
        PRECISION weights.now (λ rows. quantile_text PRECISION rows quantile)) }
{
    match contiguous_model::<Word, PRECISION>(alloc, weights, false)? {
        Some(model) => push_row_of_quantile(text, &model, quantile),
        None => text.push_str("invalid\n"),
    }
}

/// Adds the line of a symbol's row, or says that the symbol has none.
fn push_row_of_symbol<Word: FormatWord, const PRECISION: usize>(
    text: &mut String,
    model: &Weighted<Word, PRECISION>,
    symbol: u64,
) -> Result<(), AllocError>
    ensures { OnOk result (string_bytes text.new ≡ string_bytes text.old
        ++ symbol_text (contiguous_model_rows model.now) symbol) }
{
    let symbol = symbol as usize;
    match model.left_cumulative_and_probability(&symbol) {
        Some((left, weight)) => {
            push_row(
                text,
                symbol,
                left.number(),
                Word::from_weight(weight).number(),
            )
        }
        None => text.push_str("none\n"),
    }
}

/// Adds the line of a symbol's row among the rows of weights, or says what is wrong.
fn push_symbol<Word: FormatWord, const PRECISION: usize>(
    alloc: Global,
    text: &mut String,
    symbol: u64,
    weights: &[u64],
) -> Result<(), AllocError>
    requires { IsPrecision Word.BITS PRECISION }
    ensures { OnOk result (string_bytes text.new ≡ string_bytes text.old
        ++ text_of_model Word.BITS PRECISION weights.now (λ rows. symbol_text rows symbol)) }
{
    match contiguous_model::<Word, PRECISION>(alloc, weights, false)? {
        Some(model) => push_row_of_symbol(text, &model, symbol),
        None => text.push_str("invalid\n"),
    }
}

/// Adds the lines of all rows of a uniform model, or says that no uniform model has this many
/// symbols.
fn push_uniform<Word: UniformWord<PRECISION>, const PRECISION: usize>(
    text: &mut String,
    range: u64,
) -> Result<(), AllocError>
    requires precision { IsPrecision Word.BITS PRECISION }
    requires small { PRECISION < 64 }
    ensures { OnOk result
        (string_bytes text.new ≡ string_bytes text.old ++ uniform_text PRECISION range) }
{
    if range < 2 || range > 1 << PRECISION {
        return text.push_str("range\n");
    }
    Word::push_uniform_rows(text, range as usize)
}

/// Adds the answer to a command whose format has these words and this precision.
#[tactic(auto, unfolding(crate::specs::private::Answering::answer_of))]
fn push_at<Word: UniformWord<PRECISION>, const PRECISION: usize>(
    alloc: Global,
    text: &mut String,
    command: &Command,
) -> Result<(), AllocError>
    requires precise { IsPrecision Word.BITS PRECISION }
    requires small { PRECISION < 64 }
    requires bits { Word.BITS ≡ width_of (format_of (view command.now)) }
    requires precision { PRECISION ≡ precision_of (format_of (view command.now)) }
    ensures { OnOk result (string_bytes text.new ≡ string_bytes text.old
        ++ answer_of (view command.now)) }
{
    match command {
        Command::Table { weights, .. } => {
            push_table::<Word, PRECISION>(alloc, text, weights, false)
        }
        Command::Infer { weights, .. } => {
            push_table::<Word, PRECISION>(alloc, text, weights, true)
        }
        Command::Quantile {
            quantile,
            weights,
            ..
        } => push_quantile::<Word, PRECISION>(alloc, text, *quantile, weights),
        Command::Symbol {
            symbol,
            weights,
            ..
        } => push_symbol::<Word, PRECISION>(alloc, text, *symbol, weights),
        Command::Uniform { range, .. } => push_uniform::<Word, PRECISION>(text, *range),
    }
}

/// Adds the answer to a command.
fn push_command(alloc: Global, text: &mut String, command: &Command) -> Result<(), AllocError>
    ensures { OnOk result (string_bytes text.new ≡ string_bytes text.old
        ++ answer_of (view command.now)) }
{
    match command.format() {
        Format::U8Precision6 => push_at::<u8, 6>(alloc, text, command),
        Format::U8Precision8 => push_at::<u8, 8>(alloc, text, command),
        Format::U16Precision12 => push_at::<u16, 12>(alloc, text, command),
    }
}

/// Adds the answer to a line, which is given without the byte 10 that ends it.
#[tactic(auto, using(crate::proofs::OneAnswer::answer_found, crate::proofs::OneAnswer::answer_none))]
pub(crate) fn push_answer(alloc: Global, text: &mut String, line: &[u8]) -> Result<(), AllocError>
    ensures { OnOk result (string_bytes text.new ≡ string_bytes text.old ++ answer_to line.now) }
{
    match parse(alloc, line)? {
        Some(command) => push_command(alloc, text, &command),
        None => text.push_str("bad line\n"),
    }
}

/// The answer to a line, which is given without the byte 10 that ends it.
pub fn answer(alloc: Global, line: &[u8]) -> Result<String, AllocError>
    ensures { IfOk result (λ text. IsAnswer line.now (string_bytes text)) }
{
    let mut text = String::new(alloc);
    push_answer(alloc, &mut text, line)?;
    Ok(text)
}
