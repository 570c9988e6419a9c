//! Bytes whose bits a mixer of contexts predicts.

ghost use Rattle.std.specs.Prelude.{◌≡◌, ◌≢◌, ◌↔◌, ◌<◌, ◌≤◌, ◌*◌, ◌^◌, ◌++◌, [], ◌∷◌, ℕ, List};
ghost use Rattle.std.specs.Prelude.{IfErr, IfOk, IfSome, IsTrue, length};
ghost use Rattle.std.specs.Option.{ForSome};
ghost use Rattle.constriction_coders.specs.Bytes.{bytes_of_words};
ghost use Rattle.constriction_pack.specs.Contents.{IsContent, IsPredicted, few_contexts, many_contexts};
ghost use Rattle.constriction_pack.specs.Formats.{HasEnoughWords, IsAdmitted};

use crate::block::MOST_BYTES;
use crate::fault::PackError;
use crate::format::Format;
use crate::kind::{
    FEW_CONTEXTS, FEW_FOLLOWERS, FEW_GROUPS, FEW_REACH, Kind, MANY_CONTEXTS, MANY_FOLLOWERS,
    MANY_GROUPS, MANY_REACH,
};
use crate::level::Level;
use crate::reading::little_endian;
use constriction::CoderError;
use constriction::backends::Cursor;
use constriction_adaptive::bytes::{decode_bytes, encode_bytes};
use constriction_adaptive::{Bit, Mixer, Predictor};
use constriction_coders::bytes::{BytesError, push_words, words_of};
use constriction_coders::queue::DecoderFrontendError;
use std::alloc::{AllocError, Global};

/// The fewest words of so many bytes: one for each 2^12.
fn fewest_words(count: usize) -> usize
    ensures { (words : ℕ) → result ≤ words ↔ (count ≤ 2 ^ 12 * words) }
{
    count.div_ceil(4096)
}

/// Whether a content has enough words for as many bytes as it says.
pub(crate) fn has_enough_words(content: &[u8]) -> bool
    ensures { (block rest : List ℕ) → content.now ≡ bytes_of_words (length block ∷ []) ++ rest
        → IsTrue result ↔ HasEnoughWords block content.now }
{
    let [first, second, third, fourth, words @ ..] = content else {
        return false;
    };
    let count = little_endian(&[*first, *second, *third, *fourth]) as usize;
    fewest_words(count) <= words.len() / 4
}

/// The content of bytes by what predicts their bits, if it is shorter than `below` and has enough
/// words.
fn by_predictor<P>(
    alloc: Global,
    predictor: &mut P,
    bytes: &[u8],
    below: usize,
) -> Result<Option<Vec<u8>>, AllocError>
where
    P: Predictor<16, Symbol = bool, Model = Bit>,
    requires some { 0 < length bytes.now }
    requires short { length bytes.now ≤ 2 ^ 23 }
    ensures coded { IfOk result (λ coded. IfSome coded (λ content.
        IsPredicted P.rows P.next (P.state predictor.old) bytes.now content.items)) }
    ensures enough { IfOk result (λ coded. IfSome coded (λ content.
        HasEnoughWords bytes.now content.items)) }
    ensures shorter { IfOk result (λ coded. IfSome coded (λ content.
        length content.items < below)) }
{
    let words = encode_bytes(alloc, predictor, bytes)?;
    if words.len() + 1 >= below / 4 || words.len() < fewest_words(bytes.len()) {
        return Ok(None);
    }
    let mut content = Vec::new(alloc);
    push_words(&mut content, &[bytes.len() as u32])?;
    push_words(&mut content, &words)?;
    Ok(Some(content))
}

/// The bytes of such a content.
fn of_predicted<P>(alloc: Global, predictor: &mut P, content: &[u8]) -> Result<Vec<u8>, PackError>
where
    P: Predictor<16, Symbol = bool, Model = Bit>,
    ensures ok { IfOk result (λ bytes.
        IsPredicted P.rows P.next (P.state predictor.old) bytes.items content.now) }
    ensures accepted { (bytes : List ℕ) → IsPredicted P.rows P.next (P.state predictor.old) bytes
        content.now → IfErr result (λ error. error ≡ PackError.OutOfMemory) }
    ensures errors { IfErr result (λ error. error ≢ PackError.OutOfMemory
        → error ≡ PackError.Damaged) }
{
    let [first, second, third, fourth, coded @ ..] = content else {
        return Err(PackError::Damaged);
    };
    let count = little_endian(&[*first, *second, *third, *fourth]) as usize;
    if count == 0 || count > MOST_BYTES {
        return Err(PackError::Damaged);
    }
    let words = match words_of(alloc, coded) {
        Ok(words) => words,
        Err(BytesError::CutWord) => return Err(PackError::Damaged),
        Err(BytesError::OutOfMemory) => return Err(PackError::OutOfMemory),
    };
    let source = Cursor::new_at_write_beginning(words);
    match decode_bytes(alloc, predictor, count, source) {
        Ok(bytes) => Ok(bytes),
        Err(CoderError::Frontend(DecoderFrontendError::InvalidData)) => Err(PackError::Damaged),
        Err(CoderError::Frontend(DecoderFrontendError::OutOfMemory)) => Err(PackError::OutOfMemory),
        Err(CoderError::Backend(error)) => match error {},
    }
}

/// A mixer of two contexts that learned nothing.
fn two_contexts(alloc: Global) -> Result<Mixer<2>, AllocError>
    ensures { IfOk result (λ mixer. ⟦<Mixer<2> as Predictor<16>>⟧.state mixer ≡ few_contexts) }
{
    Mixer::<2>::new(alloc, FEW_CONTEXTS, FEW_GROUPS, FEW_FOLLOWERS, FEW_REACH)
}

/// A mixer of six contexts that learned nothing.
fn six_contexts(alloc: Global) -> Result<Mixer<6>, AllocError>
    ensures { IfOk result (λ mixer. ⟦<Mixer<6> as Predictor<16>>⟧.state mixer ≡ many_contexts) }
{
    Mixer::<6>::new(
        alloc,
        MANY_CONTEXTS,
        MANY_GROUPS,
        MANY_FOLLOWERS,
        MANY_REACH,
    )
}

/// The content `FewContexts` of bytes, if it is shorter than `below` and has enough words.
fn by_few_contexts(alloc: Global, bytes: &[u8], below: usize) -> Result<Option<Vec<u8>>, AllocError>
    requires some { 0 < length bytes.now }
    requires short { length bytes.now ≤ 2 ^ 23 }
    ensures coded { IfOk result (λ coded. IfSome coded (λ content.
        IsContent Kind.FewContexts bytes.now content.items)) }
    ensures enough { IfOk result (λ coded. IfSome coded (λ content.
        HasEnoughWords bytes.now content.items)) }
    ensures shorter { IfOk result (λ coded. IfSome coded (λ content.
        length content.items < below)) }
{
    let mut mixer = two_contexts(alloc)?;
    by_predictor(alloc, &mut mixer, bytes, below)
}

/// The content `ManyContexts` of bytes, if it is shorter than `below` and has enough words.
fn by_many_contexts(
    alloc: Global,
    bytes: &[u8],
    below: usize,
) -> Result<Option<Vec<u8>>, AllocError>
    requires some { 0 < length bytes.now }
    requires short { length bytes.now ≤ 2 ^ 23 }
    ensures coded { IfOk result (λ coded. IfSome coded (λ content.
        IsContent Kind.ManyContexts bytes.now content.items)) }
    ensures enough { IfOk result (λ coded. IfSome coded (λ content.
        HasEnoughWords bytes.now content.items)) }
    ensures shorter { IfOk result (λ coded. IfSome coded (λ content.
        length content.items < below)) }
{
    let mut mixer = six_contexts(alloc)?;
    by_predictor(alloc, &mut mixer, bytes, below)
}

/// The length of a content, or `most` if there is none.
pub(crate) fn length_to_beat(content: &Option<Vec<u8>>, most: usize) -> usize
    requires { ForSome content.now (λ content. length content.items < most) }
    ensures { result ≤ most }
{
    match content {
        Some(content) => content.len(),
        None => most,
    }
}

/// The shorter content of `FewContexts` and `ManyContexts`, if it is shorter than `below`.
fn by_either(
    alloc: Global,
    bytes: &[u8],
    below: usize,
) -> Result<Option<(Kind, Vec<u8>)>, AllocError>
    requires some { 0 < length bytes.now }
    requires short { length bytes.now ≤ 2 ^ 23 }
    ensures coded { IfOk result (λ coded. IfSome coded (λ block.
        IsContent block.0 bytes.now block.1.items)) }
    ensures admitted { IfOk result (λ coded. IfSome coded (λ block.
        IsAdmitted Format.Cpk3 block.0 bytes.now block.1.items)) }
    ensures shorter { IfOk result (λ coded. IfSome coded (λ block. length block.1.items < below)) }
{
    let few = by_few_contexts(alloc, bytes, below)?;
    let left = length_to_beat(&few, below);
    if let Some(content) = by_many_contexts(alloc, bytes, left)? {
        return Ok(Some((Kind::ManyContexts, content)));
    }
    match few {
        Some(content) => Ok(Some((Kind::FewContexts, content))),
        None => Ok(None),
    }
}

/// The content by the contexts of the level, if it has any, and the content is shorter than
/// `below`.
pub(crate) fn by_contexts(
    alloc: Global,
    level: Level,
    bytes: &[u8],
    below: usize,
) -> Result<Option<(Kind, Vec<u8>)>, AllocError>
    requires some { 0 < length bytes.now }
    requires short { length bytes.now ≤ 2 ^ 23 }
    ensures coded { IfOk result (λ coded. IfSome coded (λ block.
        IsContent block.0 bytes.now block.1.items)) }
    ensures admitted { IfOk result (λ coded. IfSome coded (λ block.
        IsAdmitted Format.Cpk3 block.0 bytes.now block.1.items)) }
    ensures shorter { IfOk result (λ coded. IfSome coded (λ block. length block.1.items < below)) }
{
    match level {
        Level::Fast | Level::Default => Ok(None),
        Level::Best => by_either(alloc, bytes, below),
    }
}

/// The bytes of the content `FewContexts`.
pub(crate) fn of_few_contexts(alloc: Global, content: &[u8]) -> Result<Vec<u8>, PackError>
    ensures ok { IfOk result (λ bytes. IsContent Kind.FewContexts bytes.items content.now) }
    ensures accepted { (bytes : List ℕ) → IsContent Kind.FewContexts bytes content.now
        → IfErr result (λ error. error ≡ PackError.OutOfMemory) }
    ensures errors { IfErr result (λ error. error ≢ PackError.OutOfMemory
        → error ≡ PackError.Damaged) }
{
    let mut mixer = two_contexts(alloc)?;
    of_predicted(alloc, &mut mixer, content)
}

/// The bytes of the content `ManyContexts`.
pub(crate) fn of_many_contexts(alloc: Global, content: &[u8]) -> Result<Vec<u8>, PackError>
    ensures ok { IfOk result (λ bytes. IsContent Kind.ManyContexts bytes.items content.now) }
    ensures accepted { (bytes : List ℕ) → IsContent Kind.ManyContexts bytes content.now
        → IfErr result (λ error. error ≡ PackError.OutOfMemory) }
    ensures errors { IfErr result (λ error. error ≢ PackError.OutOfMemory
        → error ≡ PackError.Damaged) }
{
    let mut mixer = six_contexts(alloc)?;
    of_predicted(alloc, &mut mixer, content)
}
