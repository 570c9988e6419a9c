//! The words of the formats, and the lines of rows over them.

ghost use Rattle.std.specs.Prelude.{◌≡◌, ◌^◌, ◌<◌, ◌≤◌, ◌++◌, ℕ, OnOk, string_bytes};
ghost use Rattle.std.proofs.Common.{refl};
ghost use Rattle.constriction_model.specs.Model.{ClonesAreSame};
ghost use Rattle.constriction_model.specs.Precision.{IsPrecision};
ghost use Rattle.constriction_model.specs.Rows.{uniform_rows};
ghost use Rattle.constriction_text.specs.private.NumberWords.{narrowed_to};
ghost use Rattle.constriction_text.specs.Text.{row_text, rows_text};

use constriction_categorical::IterableEntropyModel;
use constriction_model::UniformModel;
use constriction_numbers::WholeNumber;
use std::alloc::AllocError;
use std::fmt::Write;

/// The word of a format's probabilities, which a text shows as a number.
pub(crate) trait FormatWord: WholeNumber {
    // The word of a number.
    ghost word_of: { ℕ → Self };

    /// The word of a number, or 0 if no word has the number.
    fn narrowed(number: u64) -> Self
        ensures { Self.whole result ≡ narrowed_to Self.BITS number };

    /// The number of a word.
    fn number(self) -> u64
        ensures { result ≡ Self.whole self };

    // Words have all numbers below `2^BITS`.
    ghost word_of_law: { (n : ℕ) → n < 2 ^ Self.BITS → Self.whole (word_of n) ≡ n };
}

impl FormatWord for u8 {
    ghost word_of = { λ n. n };

    fn narrowed(number: u64) -> u8 {
        u8::try_from(number).unwrap_or(0)
    }

    fn number(self) -> u64 {
        u64::from(self)
    }

    ghost word_of_law = { λ n h. refl };
}

impl FormatWord for u16 {
    ghost word_of = { λ n. n };

    fn narrowed(number: u64) -> u16 {
        u16::try_from(number).unwrap_or(0)
    }

    fn number(self) -> u64 {
        u64::from(self)
    }

    ghost word_of_law = { λ n h. refl };
}

/// Adds the line of a row.
pub(crate) fn push_row(
    text: &mut String,
    symbol: usize,
    left: u64,
    weight: u64,
) -> Result<(), AllocError>
    ensures { OnOk result (string_bytes text.new ≡ string_bytes text.old
        ++ row_text (record { symbol = symbol; left = left; weight = weight })) }
{
    writeln!(text, "{symbol} {left} {weight}")
}

/// Adds the lines of all rows of a model, each as its symbol table gives it.
pub(crate) fn push_rows<M: IterableEntropyModel<PRECISION, Symbol = usize>, const PRECISION: usize>(
    text: &mut String,
    model: M,
) -> Result<(), AllocError>
where
    M::Probability: FormatWord,
    M::SymbolTable: Drop,
    requires { ClonesAreSame M.IterableEntropyModel.stands_for }
    ensures { OnOk result
        (string_bytes text.new ≡ string_bytes text.old ++ rows_text (M.rows model)) }
{
    let mut table = model.symbol_table();
    while let Some(row) = table.next() {
        let (symbol, left, weight) = row?;
        let weight = M::Probability::from_weight(weight);
        push_row(text, symbol, left.number(), weight.number())?;
    }
    Ok(())
}

/// A word that has uniform models. Each says so itself: a uniform model holds three words, and not
/// every word type is small enough for that.
pub(crate) trait UniformWord<const PRECISION: usize>: FormatWord {
    /// Adds the lines of all rows of the uniform model of the symbols `0..range`.
    fn push_uniform_rows(text: &mut String, range: usize) -> Result<(), AllocError>
        requires precision { IsPrecision Self.BITS PRECISION }
        requires small { PRECISION < 64 }
        requires some { 2 ≤ range }
        requires within { range ≤ 2 ^ PRECISION }
        ensures { OnOk result (string_bytes text.new ≡ string_bytes text.old
            ++ rows_text (uniform_rows PRECISION range)) };
}

impl<const PRECISION: usize> UniformWord<PRECISION> for u8 {
    fn push_uniform_rows(text: &mut String, range: usize) -> Result<(), AllocError> {
        push_rows(text, UniformModel::<u8, PRECISION>::new(range))
    }
}

impl<const PRECISION: usize> UniformWord<PRECISION> for u16 {
    fn push_uniform_rows(text: &mut String, range: usize) -> Result<(), AllocError> {
        push_rows(text, UniformModel::<u16, PRECISION>::new(range))
    }
}
