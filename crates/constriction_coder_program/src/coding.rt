//! Symbols and words by the coders of the library.

ghost use Rattle.constriction.specs.Precision.{IsPrecision};

use constriction::CoderError;
use constriction::backends::Cursor;
use constriction::stream::model::{ContiguousCategoricalEntropyModel, ModelError};
use constriction_coders::queue::{DecoderFrontendError, RangeDecoder, RangeEncoder};
use constriction_coders::stack::AnsCoder;
use constriction_coders::{Decode, Encode};
use std::alloc::{AllocError, Global};

/// Why a line has no words or symbols as its answer.
#[derive(Drop)]
pub(crate) enum Refusal {
    /// The line spells no call.
    BadLine,
    /// The weights do not tile.
    Invalid,
    /// A symbol has no weight.
    ImpossibleSymbol,
    /// The words end in 0, so they are those of no stack coder.
    EndsInZero,
    /// The range decoder found the words invalid.
    Damaged,
    OutOfMemory,
}

impl From<AllocError> for Refusal {
    fn from(_error: AllocError) -> Self {
        Refusal::OutOfMemory
    }
}

/// A model of the symbols 0, 1, .. by weights of 32 bits.
type Model<const PRECISION: usize> = ContiguousCategoricalEntropyModel<u32, Vec<u32>, PRECISION>;

/// These numbers as words, if each is below `2^32`.
pub(crate) fn to_words(alloc: Global, numbers: &[u64]) -> Result<Option<Vec<u32>>, AllocError> {
    let mut words = Vec::with_capacity(alloc, numbers.len())?;
    for number in numbers {
        match u32::try_from(*number) {
            Ok(word) => words.push(word)?,
            Err(_) => return Ok(None),
        }
    }
    Ok(Some(words))
}

/// These numbers as symbols.
pub(crate) fn to_symbols(alloc: Global, numbers: &[u64]) -> Result<Vec<usize>, AllocError> {
    let mut symbols = Vec::with_capacity(alloc, numbers.len())?;
    for number in numbers {
        symbols.push(*number as usize)?;
    }
    Ok(symbols)
}

/// The model of these weights.
fn contiguous_model_of<const PRECISION: usize>(
    alloc: Global,
    weights: &[u64],
) -> Result<Model<PRECISION>, Refusal>
    requires { IsPrecision 32 PRECISION }
{
    let Some(weights) = to_words(alloc, weights)? else {
        return Err(Refusal::Invalid);
    };
    match Model::<PRECISION>::from_nonzero_fixed_point_probabilities(alloc, weights, false) {
        Ok(model) => Ok(model),
        Err(ModelError::InvalidTable) => Err(Refusal::Invalid),
        Err(ModelError::OutOfMemory) => Err(Refusal::OutOfMemory),
    }
}

/// The words of the stack coder from which these symbols are decoded in order.
pub(crate) fn stack_encode<const PRECISION: usize>(
    alloc: Global,
    weights: &[u64],
    symbols: &[usize],
) -> Result<Vec<u32>, Refusal>
    requires { IsPrecision 32 PRECISION }
{
    let model = contiguous_model_of::<PRECISION>(alloc, weights)?;
    let mut coder = AnsCoder::new(alloc);
    match coder.encode_iid_slice_reverse(symbols, &model) {
        Ok(()) => {}
        Err(CoderError::Frontend(_)) => return Err(Refusal::ImpossibleSymbol),
        Err(CoderError::Backend(_)) => return Err(Refusal::OutOfMemory),
    }
    match coder.into_compressed() {
        Ok(words) => Ok(words),
        Err(_) => Err(Refusal::OutOfMemory),
    }
}

/// The `count` symbols that the stack coder decodes from these words.
pub(crate) fn stack_decode<const PRECISION: usize>(
    alloc: Global,
    weights: &[u64],
    count: usize,
    words: Vec<u32>,
) -> Result<Vec<usize>, Refusal>
    requires { IsPrecision 32 PRECISION }
{
    let model = contiguous_model_of::<PRECISION>(alloc, weights)?;
    let mut coder = match AnsCoder::from_compressed(words) {
        Ok(coder) => coder,
        Err(_) => return Err(Refusal::EndsInZero),
    };
    match coder.decode_iid_vec(alloc, count, &model) {
        Ok(symbols) => Ok(symbols),
        Err(_) => Err(Refusal::OutOfMemory),
    }
}

/// The words of the range encoder for these symbols.
pub(crate) fn queue_encode<const PRECISION: usize>(
    alloc: Global,
    weights: &[u64],
    symbols: &[usize],
) -> Result<Vec<u32>, Refusal>
    requires { IsPrecision 32 PRECISION }
{
    let model = contiguous_model_of::<PRECISION>(alloc, weights)?;
    let mut encoder = RangeEncoder::new(alloc);
    match encoder.encode_iid_slice(symbols, &model) {
        Ok(()) => {}
        Err(CoderError::Frontend(_)) => return Err(Refusal::ImpossibleSymbol),
        Err(CoderError::Backend(_)) => return Err(Refusal::OutOfMemory),
    }
    match encoder.into_compressed() {
        Ok(words) => Ok(words),
        Err(_) => Err(Refusal::OutOfMemory),
    }
}

/// The `count` symbols that the range decoder decodes from these words.
pub(crate) fn queue_decode<const PRECISION: usize>(
    alloc: Global,
    weights: &[u64],
    count: usize,
    words: Vec<u32>,
) -> Result<Vec<usize>, Refusal>
    requires { IsPrecision 32 PRECISION }
{
    let model = contiguous_model_of::<PRECISION>(alloc, weights)?;
    let mut decoder = match RangeDecoder::from_compressed(Cursor::new_at_write_beginning(words)) {
        Ok(decoder) => decoder,
        Err(_) => return Err(Refusal::Damaged),
    };
    match decoder.decode_iid_vec(alloc, count, &model) {
        Ok(symbols) => Ok(symbols),
        Err(CoderError::Frontend(DecoderFrontendError::OutOfMemory)) => Err(Refusal::OutOfMemory),
        Err(_) => Err(Refusal::Damaged),
    }
}
