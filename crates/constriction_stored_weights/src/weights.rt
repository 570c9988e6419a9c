//! The number of weights and then the weights, as words.

ghost use Rattle.std.specs.Prelude.{◌≡◌, ◌≢◌, [], ◌∷◌, ◌++◌, ◌+◌, ◌*◌, ◌≤◌, length, Err, IfOk, IfErr, OnOk, vec_capacity};
ghost use Rattle.constriction_stored_weights.specs.StoredWeights.{ReadsWeights, StopsReadingWeights, StopsWritingWeights, WritesWeights};

use crate::errors::{ReadingError, StoringError};
use constriction::backends::{ReadWords, WriteWords};
use constriction::{CoderError, Queue};
use std::alloc::{AllocError, Global};

/// Adds a weight that was read. A full list asks for room for as many weights as it has, and for at
/// least four.
fn push_weight(weights: &mut Vec<u32>, weight: u32) -> Result<(), AllocError>
    // There is room only for the weights that were read, as many again, and four.
    requires room { vec_capacity weights.old ≤ 2 * length weights.old.items + 4 }
    ensures items { OnOk result (weights.new.items ≡ weights.old.items ++ weight ∷ []) }
    ensures room { OnOk result (vec_capacity weights.new ≤ 2 * length weights.new.items + 4) }
{
    if weights.len() == weights.capacity() {
        weights.reserve_exact(weights.len().max(4))?;
    }
    weights.push_reserved(weight);
    Ok(())
}

/// Reads stored weights, and no word after them. Memory is asked for only for the weights that were
/// read, as many again, and four, whatever number of weights is announced.
pub fn read_weights<Source: ReadWords<u32, Queue>>(
    alloc: Global,
    source: &mut Source,
) -> Result<Vec<u32>, CoderError<ReadingError, Source::ReadError>>
    requires { Source.can_read source.old }
    ensures goes_on { Source.can_read source.new }
    ensures ok { IfOk result (λ weights.
        ReadsWeights Source.read_gives Source.tells_upcoming source.old weights.items source.new) }
    // No weights are refused.
    ensures err { IfErr result (λ error. StopsReadingWeights Source.read_gives Source.tells_upcoming
        (λ _. ⊥) source.old error source.new) }
{
    let Some(count) = source.read()? else {
        return Err(CoderError::Frontend(ReadingError::TooFewWords));
    };
    let mut weights = Vec::new(alloc);
    for done in 0..count {
        let Some(weight) = source.read()? else {
            return Err(CoderError::Frontend(ReadingError::TooFewWords));
        };
        match push_weight(&mut weights, weight) {
            Ok(()) => {}
            Err(_) => return Err(CoderError::Frontend(ReadingError::OutOfMemory)),
        }
    }
    Ok(weights)
}

/// Writes the number of weights, and then the weights.
pub fn write_weights<Sink: WriteWords<u32>>(
    weights: &[u32],
    sink: &mut Sink,
) -> Result<(), CoderError<StoringError, Sink::WriteError>>
    requires { Sink.can_write sink.old }
    ensures goes_on { Sink.can_write sink.new }
    ensures ok { OnOk result
        (WritesWeights Sink.write_gives Sink.tells_written sink.old weights.now sink.new) }
    ensures err { IfErr result (λ error.
        StopsWritingWeights Sink.write_gives sink.old weights.now error sink.new) }
    ensures memory { result ≢ Err (CoderError.Frontend StoringError.OutOfMemory) }
{
    if weights.len() > u32::MAX as usize {
        return Err(CoderError::Frontend(StoringError::TooManyWeights));
    }
    sink.write(weights.len() as u32)?;
    for weight in weights {
        sink.write(*weight)?;
    }
    Ok(())
}
