//! Reads that stop at a number of bytes.

ghost use Rattle.std.specs.Prelude.{◌≡◌, ◌≢◌, ◌<◌, ◌≤◌, ◌+◌, ◌++◌, [], List, ℕ};
ghost use Rattle.std.specs.Prelude.{IfErr, OnOk, length};
ghost use Rattle.std.specs.Io.{ReadsAtMost};
ghost use Rattle.std.specs.Io.KnownBytes.{Consumes, IsAtEnd, ReadConsumes};
ghost use Rattle.std.specs.IoError.{error_kind};

use std::io::{self, ErrorKind, Read};
use thiserror::Error;

/// What stops [`read_up_to`].
#[derive(Debug, Clone, Copy, Drop, Error)]
pub enum ReadError {
    /// The reader answered this error, which is no interruption.
    #[error("{0}")]
    Reader(io::Error),
    /// Memory was refused.
    #[error("Memory was refused.")]
    OutOfMemory,
}

/// The most bytes that one turn of a reader takes.
const CHUNK: usize = 8192;

/// Reads once. A read that is interrupted is tried again, and is `TimedOut` after 2^64 - 1 tries.
fn read_turn<R: Read>(reader: &mut R, chunk: &mut [u8]) -> io::Result<usize>
    ensures bound { ReadsAtMost result chunk.new }
    ensures bytes { ReadConsumes (R.remaining reader.old) (R.remaining reader.new) result
        chunk.new }
    ensures retried { IfErr result (λ error. error_kind error ≢ ErrorKind.Interrupted) }
{
    for _ in 0..u64::MAX {
        match reader.read(chunk) {
            Err(error) if error.kind() == ErrorKind::Interrupted => {}
            done => return done,
        }
    }
    Err(io::Error::from(ErrorKind::TimedOut))
}

/// Reads until the input has `most` bytes, or the reader has no more. Memory is asked for as they
/// come. A read that is interrupted is tried again.
///
/// After an error the reader is not called again. If memory is refused, the last piece that was
/// read is lost, at most 8,192 bytes.
pub fn read_up_to<R: Read>(
    reader: &mut R,
    most: usize,
    input: &mut Vec<u8>,
) -> Result<(), ReadError>
    requires { length input.old.items ≤ most }
    ensures ok { OnOk result ((bytes : List ℕ)
        × Consumes (R.remaining reader.old) (R.remaining reader.new) bytes
        × (input.new.items ≡ input.old.items ++ bytes)) }
    ensures most { OnOk result (length input.new.items ≤ most) }
    ensures end { OnOk result (length input.new.items < most → IsAtEnd (R.remaining reader.new)) }
    ensures err { IfErr result (λ error. (kept lost : List ℕ)
        × Consumes (R.remaining reader.old) (R.remaining reader.new) (kept ++ lost)
        × (input.new.items ≡ input.old.items ++ kept) × (length input.new.items < most)
        × (length input.new.items + length lost ≤ most)
        × (error ≢ ReadError.OutOfMemory → lost ≡ [])) }
    ensures retried { (error : _) → result ≡ Err (ReadError.Reader error)
        → error_kind error ≢ ErrorKind.Interrupted }
{
    let mut chunk = [0u8; CHUNK];
    while input.len() < most {
        let room = CHUNK.min(most - input.len());
        let part = &mut chunk[..room];
        let count = match read_turn(reader, part) {
            Ok(0) => return Ok(()),
            Ok(count) => count,
            Err(error) => return Err(ReadError::Reader(error)),
        };
        if input.extend_from_slice(&part[..count]).is_err() {
            return Err(ReadError::OutOfMemory);
        }
    }
    Ok(())
}
