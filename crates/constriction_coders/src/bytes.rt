//! Words of 32 bits as bytes, the lowest byte of each first, and back.

ghost use Rattle.std.specs.Prelude.{◌≡◌, ◌≢◌, ◌↔◌, ◌++◌, ◌%◌, Err, IfOk, OnErr, OnOk, length};
ghost use Rattle.constriction_coders.specs.Bytes.{bytes_of_words};

use std::alloc::{AllocError, Global};
use thiserror::Error;

/// Why bytes are no words.
#[derive(Debug, PartialEq, Eq, Drop, Error)]
pub enum BytesError {
    /// Their number is no multiple of 4.
    #[error("The last word was cut.")]
    CutWord,
    #[error("Memory for the words was refused.")]
    OutOfMemory,
}

/// Adds the bytes of words, four each.
///
/// Memory is asked for at most once. If it is refused, the bytes stay.
pub fn push_words(bytes: &mut Vec<u8>, words: &[u32]) -> Result<(), AllocError>
    ensures ok { OnOk result (bytes.new.items ≡ bytes.old.items ++ bytes_of_words words.now) }
    ensures err { OnErr result (bytes.new.items ≡ bytes.old.items) }
{
    bytes.reserve(4 * words.len())?;
    for word in words {
        bytes.extend_from_slice(&word.to_le_bytes())?;
    }
    Ok(())
}

/// The words of bytes, four bytes a word.
///
/// Memory is asked for once.
pub fn words_of(alloc: Global, bytes: &[u8]) -> Result<Vec<u32>, BytesError>
    ensures ok { IfOk result (λ words. bytes_of_words words.items ≡ bytes.now) }
    ensures cut { (result ≡ Err BytesError.CutWord) ↔ (length bytes.now % 4 ≢ 0) }
{
    if bytes.len() % 4 != 0 {
        return Err(BytesError::CutWord);
    }
    let count = bytes.len() / 4;
    let Ok(mut words) = Vec::with_capacity(alloc, count) else {
        return Err(BytesError::OutOfMemory);
    };
    for at in 0..count {
        let first = 4 * at;
        let word = [
            bytes[first],
            bytes[first + 1],
            bytes[first + 2],
            bytes[first + 3],
        ];
        words.push_reserved(u32::from_le_bytes(word));
    }
    Ok(words)
}
