//! Writes of whole pieces.

ghost use Rattle.std.specs.Prelude.{◌≡◌, ◌≢◌, ◌<◌, ◌++◌, List, ℕ, IfErr, OnErr, OnOk, length};
ghost use Rattle.std.specs.Io.{WritesAtMost};
ghost use Rattle.std.specs.Io.KnownBytes.{Appends, WriteAppends};
ghost use Rattle.std.specs.IoError.{error_kind};

use std::io::{self, ErrorKind, Write};
use thiserror::Error;

/// What stops [`write_whole`]: the writer's error, which is no interruption, or `WriteZero` if it
/// took no byte.
#[derive(Debug, Clone, Copy, Drop, Error)]
#[error("{0}")]
pub struct WriteError(pub io::Error);

/// Writes once. A write that is interrupted is tried again, and is `TimedOut` after 2^64 - 1 tries.
fn write_turn<W: Write>(writer: &mut W, bytes: &[u8]) -> io::Result<usize>
    ensures bound { WritesAtMost result bytes.now }
    ensures bytes { WriteAppends (W.contents writer.old) (W.contents writer.new) result bytes.now }
    ensures retried { IfErr result (λ error. error_kind error ≢ ErrorKind.Interrupted) }
{
    for _ in 0..u64::MAX {
        match writer.write(bytes) {
            Err(error) if error.kind() == ErrorKind::Interrupted => {}
            done => return done,
        }
    }
    Err(io::Error::from(ErrorKind::TimedOut))
}

/// Writes all of these bytes, in as many calls as the writer needs. One that is interrupted is made
/// again. After an error the writer is not called again.
pub fn write_whole<W: Write>(writer: &mut W, bytes: &[u8]) -> Result<(), WriteError>
    ensures ok { OnOk result (Appends (W.contents writer.old) (W.contents writer.new) bytes.now) }
    ensures err { OnErr result ((written lost : List ℕ)
        × Appends (W.contents writer.old) (W.contents writer.new) written
        × (written ++ lost ≡ bytes.now) × (0 < length lost)) }
    ensures retried { IfErr result (λ error. error_kind error.0 ≢ ErrorKind.Interrupted) }
{
    let mut rest = bytes;
    while !rest.is_empty() {
        match write_turn(writer, rest) {
            Ok(0) => return Err(WriteError(io::Error::from(ErrorKind::WriteZero))),
            Ok(count) => rest = &rest[count..],
            Err(error) => return Err(WriteError(error)),
        }
    }
    Ok(())
}
