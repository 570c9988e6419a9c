//! Models of given letters and weights.

ghost use Rattle.constriction.specs.Precision.{IsPrecision};

use constriction::stream::model::{
    EncoderModel, ModelError, NonContiguousCategoricalDecoderModel,
    NonContiguousCategoricalEncoderModel, Weight,
};
use constriction_words::NonZeroBitArray;
use std::alloc::{AllocError, Global};

/// A decoder model over letters.
pub type Decoder<const PRECISION: usize> = NonContiguousCategoricalDecoderModel<
    char,
    u8,
    Vec<(u8, char)>,
    PRECISION,
>;

/// An encoder model over letters.
pub type Encoder<const PRECISION: usize> = NonContiguousCategoricalEncoderModel<
    char,
    u8,
    PRECISION,
>;

/// A row as tests write it: symbol, left cumulative and weight.
pub type Row = (char, u8, u8);

pub const SYMBOLS: [char; 4] = ['a', 'x', 'c', 'y'];

pub const WEIGHTS: [u8; 4] = [3, 18, 1, 42];

/// The decoder model of these letters and weights.
pub fn decoder<const PRECISION: usize>(
    alloc: Global,
    symbols: &[char],
    weights: &[u8],
    infer: bool,
) -> Result<Decoder<PRECISION>, ModelError>
    requires { IsPrecision 8 PRECISION }
{
    Decoder::from_symbols_and_nonzero_fixed_point_probabilities(
        alloc,
        symbols.iter().copied(),
        weights.iter().copied(),
        infer,
    )
}

/// The encoder model of these letters and weights.
pub fn encoder<const PRECISION: usize>(
    alloc: Global,
    symbols: &[char],
    weights: &[u8],
    infer: bool,
) -> Result<Encoder<PRECISION>, ModelError>
    requires { IsPrecision 8 PRECISION }
{
    Encoder::from_symbols_and_nonzero_fixed_point_probabilities(
        alloc,
        symbols.iter().copied(),
        weights.iter().copied(),
        infer,
    )
}

/// The row that was answered, with its weight as a plain word.
pub fn plain<Symbol: Drop>(
    answer: Result<(Symbol, u8, Weight<u8>), AllocError>,
) -> Result<(Symbol, u8, u8), AllocError> {
    let (symbol, left, weight) = answer?;
    Ok((symbol, left, weight.get()))
}

/// The entry that was answered, with its weight as a plain word.
pub fn plain_entry(answer: Option<(u8, Weight<u8>)>) -> Option<(u8, u8)> {
    let (left, weight) = answer?;
    Some((left, weight.get()))
}

/// The left cumulative and the weight of a letter.
pub fn entry<const PRECISION: usize>(model: &Encoder<PRECISION>, symbol: char) -> Option<(u8, u8)> {
    plain_entry(model.left_cumulative_and_probability(&symbol))
}
