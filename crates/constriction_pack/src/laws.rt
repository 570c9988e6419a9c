//! What comes back, each law the contract of a function.

ghost use Rattle.std.specs.Prelude.{◌≡◌, ◌≢◌, ◌<◌, ◌≤◌, ◌*◌, ◌^◌, ℕ, List, [], ◌∷◌, ◌++◌, IfErr, IfOk};
ghost use Rattle.std.specs.Prelude.{length};
ghost use Rattle.constriction_pack.specs.Contents.{IsContent};
ghost use Rattle.constriction_pack.specs.Faults.{IsRefusal};
ghost use Rattle.constriction_pack.specs.Packed.{IsPacked};

use crate::block::{pack_block, unpack_block};
use crate::fault::PackError;
use crate::kind::Kind;
use crate::level::Level;
use crate::packing::pack;
use crate::unpacking::unpack;
use std::alloc::Global;

/// A content of one kind is that of one block.
pub fn block_once()
    ensures { (kind : Kind) (bytes others content : List ℕ) → IsContent kind bytes content
        → IsContent kind others content → bytes ≡ others }
{}

/// A block by matches has at most 2^15 bytes for each byte of its content.
pub fn matches_are_bounded()
    ensures { (bytes content : List ℕ) → IsContent Kind.Matched bytes content
        → length bytes ≤ 2 ^ 15 * length content }
{}

/// A packed file has one content.
pub fn packed_once()
    ensures { (bytes others packed : List ℕ) → IsPacked bytes packed → IsPacked others packed
        → bytes ≡ others }
{}

/// No packed file is the beginning of another.
pub fn nothing_follows()
    ensures { (bytes others packed more : List ℕ) → IsPacked bytes packed
        → IsPacked others (packed ++ more) → more ≡ [] }
{}

/// A packed file is none any more once one of its bytes is changed.
pub fn changed_byte_is_refused()
    ensures { (bytes others before after : List ℕ) (x y : ℕ) → x < 256 → y < 256 → y ≢ x
        → IsPacked bytes (before ++ x ∷ after) → ¬ (IsPacked others (before ++ y ∷ after)) }
{}

/// The bytes of a block come back, unless memory is refused.
#[tactic(auto, using(crate::proofs::FrameLemmas::content_once))]
pub fn block_comes_back(alloc: Global, level: Level, bytes: &[u8]) -> Result<Vec<u8>, PackError>
    requires { length bytes.now ≤ 2 ^ 23 }
    ensures back { IfOk result (λ again. again.items ≡ bytes.now) }
    ensures memory { IfErr result (λ error. error ≡ PackError.OutOfMemory) }
{
    match pack_block(alloc, level, bytes)? {
        Some((kind, content)) => {
            let again = unpack_block(alloc, kind, &content)?;
            Ok(again)
        }
        None => unpack_block(alloc, Kind::Stored, bytes),
    }
}

/// The bytes of a file come back, and no error is a refusal.
pub fn file_comes_back(alloc: Global, level: Level, bytes: &[u8]) -> Result<Vec<u8>, PackError>
    ensures back { IfOk result (λ again. again.items ≡ bytes.now) }
    ensures errors { IfErr result (λ error. ¬ (IsRefusal error)) }
{
    let mut packed = Vec::new(alloc);
    let mut reader = bytes;
    pack(alloc, level, &mut reader, &mut packed)?;
    let mut again = Vec::new(alloc);
    let mut reader = packed.as_slice();
    unpack(alloc, u64::MAX, &mut reader, &mut again)?;
    Ok(again)
}
