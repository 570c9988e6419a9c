//! A range decoder decodes a bit, without a division.

ghost use Rattle.std.specs.Prelude.{◌≡◌, ◌+◌, ◌-◌, ◌*◌, ◌^◌, ◌<◌, ◌≤◌, [], ◌∷◌, None, Err, true, false};
ghost use Rattle.std.specs.Prelude.{IfOk, IfSome, IsFalse, IsTrue};
ghost use Rattle.constriction_coders.specs.Intervals.{DecodesFromQueue, IsRead};
ghost use Rattle.constriction_coders.specs.RangeDecoder.{held_by};
ghost use Rattle.constriction_model.specs.Rows.{rows_of};

use crate::queue::interval::unit_of;
use crate::queue::range_decoder::{DecoderFrontendError, RangeDecoder};
use constriction_backends::ReadWords;
use constriction_words::{CoderError, Queue};

/// Whether the point lies above the first `weight` quantiles, with how many numbers its part has,
/// and how far it lies above the lower end of it.
#[inline]
fn side_of<const PRECISION: usize>(unit: u64, offset: u64, weight: u32) -> Option<(bool, u64, u64)>
    requires fits { PRECISION ≤ 32 }
    requires within { unit * 2 ^ PRECISION < 2 ^ 64 }
    requires below { weight < 2 ^ PRECISION }
    ensures first { IfSome result (λ side. IsFalse side.0 → (side.1 ≡ unit * weight)
        × (side.2 ≡ offset)) }
    ensures second { IfSome result (λ side. IsTrue side.0
        → (side.1 ≡ unit * (2 ^ PRECISION - weight)) × (unit * weight ≤ offset)
        × (side.2 ≡ offset - unit * weight)) }
    ensures inside { IfSome result (λ side. side.2 < side.1) }
    ensures none { result ≡ None → unit * 2 ^ PRECISION ≤ offset }
{
    let first = unit * weight as u64;
    if offset < first {
        return Some((false, first, offset));
    }
    let second = unit * ((1u64 << PRECISION) - weight as u64);
    let rest = offset - first;
    if rest >= second {
        return None;
    }
    Some((true, second, rest))
}

impl<Source: ReadWords<u32, Queue>> RangeDecoder<Source> {
    /// Decodes a bit that is `false` with this weight out of `2^PRECISION`, as a call of
    /// [`decode_symbol`](crate::Decode::decode_symbol) by a model of the two rows does, but without
    /// a division.
    #[inline]
    pub fn decode_bit<const PRECISION: usize>(
        &mut self,
        weight: u32,
    ) -> Result<bool, CoderError<DecoderFrontendError, Source::ReadError>>
        requires can_read { Source.can_read self.old.words }
        requires fits { PRECISION ≤ 32 }
        requires some { 0 < weight }
        requires below { weight < 2 ^ PRECISION }
        ensures goes_on { Source.can_read self.new.words }
        ensures ok { IfOk result (λ bit. IsRead (λ s t. t ≡ s)
            (rows_of (false ∷ true ∷ []) (weight ∷ (2 ^ PRECISION - weight) ∷ []))
            Source.read_gives PRECISION bit (held_by self.old) (held_by self.new)) }
        ensures step { DecodesFromQueue (λ _. ⊥)
            (rows_of (false ∷ true ∷ []) (weight ∷ (2 ^ PRECISION - weight) ∷ []))
            Source.read_gives PRECISION (held_by self.old) result (held_by self.new) }
        ensures same { (fault : _) → result ≡ Err (CoderError.Frontend fault)
            → held_by self.new ≡ held_by self.old }
    {
        let unit = unit_of::<PRECISION>(self.range);
        let Some((bit, range, offset)) = side_of::<PRECISION>(unit, self.offset, weight) else {
            return Err(CoderError::Frontend(DecoderFrontendError::InvalidData));
        };
        match self.hold(range, offset) {
            Ok(()) => Ok(bit),
            Err(error) => Err(CoderError::Backend(error)),
        }
    }
}
