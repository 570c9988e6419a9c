//! Bits and numbers that are read from bytes.

ghost use Rattle.std.specs.Prelude.{◌≡◌, [], ◌∷◌, ◌++◌, ◌+◌, ◌*◌, ◌-◌, ◌^◌, ◌<◌, ◌≤◌, IfSome, length, None};
ghost use Rattle.constriction_stored_weights.specs.Bits.{bits};
ghost use Rattle.constriction_stored_weights.specs.Tables.{number_bits};
ghost use Rattle.constriction_stored_weights.specs.private.Entries.{EndsInBits, EndsInNumber};
ghost use Rattle.constriction_stored_weights.specs.private.Places.{upcoming};

use crate::places::ReadPlace;

/// Reads a bit.
fn read_bit(bytes: &[u8], place: &mut ReadPlace) -> Option<u32>
    requires { place.old.next ≤ length bytes.now }
    ensures within { place.new.next ≤ length bytes.now }
    ensures some { IfSome result (λ bit.
        (upcoming bytes.now place.old ≡ bit ∷ upcoming bytes.now place.new) × (bit < 2)) }
    ensures none { result ≡ None → upcoming bytes.now place.old ≡ [] }
{
    let (next, byte, left) = if place.left > 0 {
        (place.next, place.byte, place.left)
    } else if place.next < bytes.len() {
        (place.next + 1, bytes[place.next], 8)
    } else {
        return None;
    };
    *place = ReadPlace {
        next,
        byte,
        left: left - 1,
    };
    Some(((byte >> (left - 1)) % 2) as u32)
}

/// Reads bits and puts them below those of a number.
fn read_bits(bytes: &[u8], place: &mut ReadPlace, above: u32, count: u32) -> Option<u32>
    requires within { place.old.next ≤ length bytes.now }
    requires above { above < 2 }
    requires few { count < 16 }
    ensures within { place.new.next ≤ length bytes.now }
    ensures some { IfSome result (λ number.
        (upcoming bytes.now place.old ≡ bits count number ++ upcoming bytes.now place.new)
        × (above * 2 ^ count ≤ number) × (number < (above + 1) * 2 ^ count)) }
    ensures none { result ≡ None → EndsInBits above count (upcoming bytes.now place.old) }
{
    let mut number = above;
    for at in 0..count {
        number = 2 * number + read_bit(bytes, place)?;
    }
    Some(number)
}

/// Reads a number.
pub(crate) fn read_number(bytes: &[u8], place: &mut ReadPlace) -> Option<u32>
    requires { place.old.next ≤ length bytes.now }
    ensures within { place.new.next ≤ length bytes.now }
    ensures some { IfSome result (λ number. (number < 2 ^ 15)
        × (upcoming bytes.now place.old ≡ number_bits number ++ upcoming bytes.now place.new)) }
    ensures none { result ≡ None → EndsInNumber (upcoming bytes.now place.old) }
{
    let length = read_bits(bytes, place, 0, 4)?;
    if length == 0 {
        return Some(0);
    }
    read_bits(bytes, place, 1, length - 1)
}
