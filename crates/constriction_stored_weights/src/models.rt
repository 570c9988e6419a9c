//! Models that are written as the weights of their rows, and read with given symbols.

ghost use Rattle.std.specs.Prelude.{◌≡◌, ◌≢◌, ◌^◌, ◌≤◌, length, map, Err, IfOk, IfErr, OnOk};
ghost use Rattle.std.specs.List.{IsDistinct};
ghost use Rattle.constriction.specs.Acceptance.{AreAccepted};
ghost use Rattle.constriction.specs.ModelRows.{decoder_model_rows};
ghost use Rattle.constriction.specs.Precision.{IsPrecision};
ghost use Rattle.constriction.specs.Rows.{rows_of, symbols_of};
ghost use Rattle.constriction_stored_weights.specs.StoredWeights.{ReadsModel, StopsReadingWeights, StopsWritingWeights, WritesWeights};

use crate::errors::{ReadingError, StoringError};
use crate::weights::{read_weights, write_weights};
use constriction::backends::{Cursor, ReadWords, ReadWriteError, WriteWords};
use constriction::stream::model::{
    IterableEntropyModel, ModelError, NonContiguousCategoricalDecoderModel,
};
use constriction::{CoderError, Queue};
use std::alloc::{AllocError, Global};
use std::convert::Infallible;

/// A decoder of given symbols that was read from stored weights.
pub type StoredModel<Symbol, const PRECISION: usize> = NonContiguousCategoricalDecoderModel<
    Symbol,
    u32,
    Vec<(u32, Symbol)>,
    PRECISION,
>;

/// The model of these symbols and weights.
fn stored_model_of<Symbol: Eq + Drop, const PRECISION: usize>(
    alloc: Global,
    symbols: Vec<Symbol>,
    weights: Vec<u32>,
) -> Result<StoredModel<Symbol, PRECISION>, ReadingError>
    requires precision { IsPrecision 32 PRECISION }
    ensures accepted { IfOk result (λ _.
        AreAccepted Symbol.eq 32 PRECISION symbols.items weights.items) }
    ensures rows { IfOk result (λ model.
        decoder_model_rows model ≡ rows_of symbols.items weights.items) }
    ensures not_accepted { result ≡ Err ReadingError.NotAccepted
        → ¬ (AreAccepted Symbol.eq 32 PRECISION symbols.items weights.items) }
    ensures whole { result ≢ Err ReadingError.TooFewWords }
{
    match StoredModel::from_symbols_and_nonzero_fixed_point_probabilities(
        alloc, symbols, weights, false,
    ) {
        Ok(table) => Ok(table),
        Err(ModelError::InvalidTable) => Err(ReadingError::NotAccepted),
        Err(ModelError::OutOfMemory) => Err(ReadingError::OutOfMemory),
    }
}

/// Reads the stored weights of a model of these symbols, one for each symbol, and no word after
/// them.
pub fn read_model<Symbol: Eq + Drop, Source: ReadWords<u32, Queue>, const PRECISION: usize>(
    alloc: Global,
    symbols: Vec<Symbol>,
    source: &mut Source,
) -> Result<StoredModel<Symbol, PRECISION>, CoderError<ReadingError, Source::ReadError>>
    requires precision { IsPrecision 32 PRECISION }
    requires can_read { Source.can_read source.old }
    ensures goes_on { Source.can_read source.new }
    ensures ok { IfOk result (λ model. ReadsModel Source.read_gives Source.tells_upcoming Symbol.eq
        PRECISION symbols.items source.old (decoder_model_rows model) source.new) }
    ensures err { IfErr result (λ error. StopsReadingWeights Source.read_gives Source.tells_upcoming
        (λ weights. ¬ (AreAccepted Symbol.eq 32 PRECISION symbols.items weights)) source.old error
        source.new) }
{
    let weights = match read_weights(alloc, source) {
        Ok(weights) => weights,
        Err(error) => return Err(error),
    };
    match stored_model_of(alloc, symbols, weights) {
        Ok(table) => Ok(table),
        Err(error) => Err(CoderError::Frontend(error)),
    }
}

/// The weights of a model's rows, in order.
fn row_weights<M, const PRECISION: usize>(alloc: Global, model: M) -> Result<Vec<u32>, AllocError>
where
    M: IterableEntropyModel<PRECISION, Probability = u32>,
    M::Symbol: Drop,
    ensures { IfOk result (λ weights. weights.items ≡ map (λ r. r.weight) (M.rows model)) }
{
    let mut weights = Vec::new(alloc);
    for row in model.symbol_table() {
        let (_symbol, _left, weight) = row?;
        weights.push(weight.get())?;
    }
    Ok(weights)
}

/// Writes the number of a model's rows, and then their weights in order.
pub fn write_model<M, Sink: WriteWords<u32>, const PRECISION: usize>(
    alloc: Global,
    model: M,
    sink: &mut Sink,
) -> Result<(), CoderError<StoringError, Sink::WriteError>>
where
    M: IterableEntropyModel<PRECISION, Probability = u32>,
    M::Symbol: Drop,
    requires { Sink.can_write sink.old }
    ensures goes_on { Sink.can_write sink.new }
    ensures ok { OnOk result (WritesWeights Sink.write_gives Sink.tells_written sink.old
        (map (λ r. r.weight) (M.rows model)) sink.new) }
    ensures err { IfErr result (λ error. StopsWritingWeights Sink.write_gives sink.old
        (map (λ r. r.weight) (M.rows model)) error sink.new) }
{
    let Ok(weights) = row_weights(alloc, model) else {
        return Err(CoderError::Frontend(StoringError::OutOfMemory));
    };
    write_weights(&weights, sink)
}

/// Writes the weights of a model and reads them with the symbols of its rows.
pub fn model_comes_back<M, const PRECISION: usize>(
    alloc: Global,
    model: M,
    symbols: Vec<M::Symbol>,
) -> Result<
    StoredModel<M::Symbol, PRECISION>,
    ReadWriteError<CoderError<ReadingError, Infallible>, CoderError<StoringError, AllocError>>,
>
where
    M: IterableEntropyModel<PRECISION, Probability = u32>,
    M::Symbol: Eq + Drop,
    requires { symbols.items ≡ symbols_of (M.rows model) }
    ensures rows { IfOk result (λ read. decoder_model_rows read ≡ M.rows model) }
    ensures too_many { result
        ≡ Err (ReadWriteError.Write (CoderError.Frontend StoringError.TooManyWeights))
        → 2 ^ 32 ≤ length (M.rows model) }
    ensures whole { result
        ≢ Err (ReadWriteError.Read (CoderError.Frontend ReadingError.TooFewWords)) }
    ensures accepted { result
        ≡ Err (ReadWriteError.Read (CoderError.Frontend ReadingError.NotAccepted))
        → ¬ (IsDistinct M.Symbol.eq symbols.items) }
{
    let mut words = Vec::new(alloc);
    match write_model(alloc, model, &mut words) {
        Ok(()) => {}
        Err(error) => return Err(ReadWriteError::Write(error)),
    }
    let mut source = Cursor::new_at_write_beginning(words);
    match read_model(alloc, symbols, &mut source) {
        Ok(table) => Ok(table),
        Err(error) => Err(ReadWriteError::Read(error)),
    }
}
