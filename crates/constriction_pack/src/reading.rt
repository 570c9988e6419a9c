//! What packed files begin with, and their end.

ghost use Rattle.std.specs.Prelude.{◌≡◌, ◌≢◌, ◌<◌, ◌++◌, ◌∷◌, ℕ, List, Some, IfErr, IfOk};
ghost use Rattle.std.specs.Prelude.{OnOk, [], length};
ghost use Rattle.std.specs.Io.KnownBytes.{Consumes, IsAtEnd};
ghost use Rattle.constriction_coders.specs.Bytes.{bytes_of_words};
ghost use Rattle.constriction_pack.specs.Faults.{IsRefusal};
ghost use Rattle.constriction_pack.specs.Formats.{signature};

use crate::fault::PackError;
use crate::format::{Format, SIGNATURE};
use constriction_io::read_up_to;
use std::io::Read;

/// The number of these four bytes.
pub(crate) fn little_endian(bytes: &[u8]) -> u32
    requires { length bytes.now ≡ 4 }
    ensures { bytes_of_words (result ∷ []) ≡ bytes.now }
{
    u32::from_le_bytes([bytes[0], bytes[1], bytes[2], bytes[3]])
}

/// Reads what packed files begin with.
pub(crate) fn read_signature<R: Read>(
    reader: &mut R,
    input: &mut Vec<u8>,
) -> Result<Format, PackError>
    ensures ok { IfOk result (λ format. Consumes (R.remaining reader.old)
        (R.remaining reader.new) (signature format)) }
    ensures accepted { (format : Format) (rest : List ℕ)
        → R.remaining reader.old ≡ Some (signature format ++ rest)
        → IfErr result (λ error. ¬ (IsRefusal error)) }
    ensures errors { IfErr result (λ error. error ≢ PackError.TooLong) }
{
    input.clear();
    read_up_to(reader, SIGNATURE, input)?;
    match Format::of_signature(input) {
        Some(format) => Ok(format),
        None => Err(PackError::NotPacked),
    }
}

/// Reads that nothing follows.
pub(crate) fn read_end<R: Read>(reader: &mut R, input: &mut Vec<u8>) -> Result<(), PackError>
    ensures ok { OnOk result (Consumes (R.remaining reader.old) (R.remaining reader.new) []
        × IsAtEnd (R.remaining reader.new)) }
    ensures accepted { R.remaining reader.old ≡ Some []
        → IfErr result (λ error. ¬ (IsRefusal error)) }
    ensures errors { IfErr result (λ error. error ≢ PackError.TooLong) }
{
    input.clear();
    read_up_to(reader, 1, input)?;
    if input.is_empty() {
        Ok(())
    } else {
        Err(PackError::Damaged)
    }
}
