//! Bits and numbers that are written to bytes.

ghost use Rattle.std.specs.Prelude.{◌≡◌, [], ℕ, ◌∷◌, ◌++◌, ◌+◌, ◌*◌, ◌-◌, ◌^◌, ◌<◌, OnOk, length, replicate};
ghost use Rattle.constriction_stored_weights.specs.Bits.{bits, bits_of_bytes};
ghost use Rattle.constriction_stored_weights.specs.Tables.{number_bits, run_bits};
ghost use Rattle.constriction_stored_weights.specs.private.Places.{Extends, held};

use crate::places::WritePlace;
use std::alloc::AllocError;

/// Adds a bit.
fn push_bit(bytes: &mut Vec<u8>, place: &mut WritePlace, bit: u8) -> Result<(), AllocError>
    requires { bit < 2 }
    ensures extends { Extends bytes.old.items bytes.new.items }
    ensures ok { OnOk result
        (held bytes.new.items place.new ≡ held bytes.old.items place.old ++ bit ∷ []) }
{
    let byte = 2 * place.byte as u32 + bit as u32;
    if place.filled == 7 {
        bytes.push(byte as u8)?;
        *place = WritePlace { byte: 0, filled: 0 };
    } else {
        *place = WritePlace {
            byte: byte as u8,
            filled: place.filled + 1,
        };
    }
    Ok(())
}

/// Adds the lowest bits of a number.
fn push_bits(
    bytes: &mut Vec<u8>,
    place: &mut WritePlace,
    number: u32,
    count: u32,
) -> Result<(), AllocError>
    requires { count < 16 }
    ensures extends { Extends bytes.old.items bytes.new.items }
    ensures ok { OnOk result
        (held bytes.new.items place.new ≡ held bytes.old.items place.old ++ bits count number) }
{
    let mut left = count;
    while left > 0 {
        left -= 1;
        push_bit(bytes, place, ((number >> left) % 2) as u8)?;
    }
    Ok(())
}

/// Adds a number.
pub(crate) fn push_number(
    bytes: &mut Vec<u8>,
    place: &mut WritePlace,
    number: u32,
) -> Result<(), AllocError>
    requires { number < 2 ^ 15 }
    ensures extends { Extends bytes.old.items bytes.new.items }
    ensures ok { OnOk result
        (held bytes.new.items place.new ≡ held bytes.old.items place.old ++ number_bits number) }
{
    let length = u32::BITS - number.leading_zeros();
    push_bits(bytes, place, length, 4)?;
    push_bits(bytes, place, number, length.saturating_sub(1))
}

/// Adds a run of zeros.
pub(crate) fn push_run(
    bytes: &mut Vec<u8>,
    place: &mut WritePlace,
    zeros: u32,
) -> Result<(), AllocError>
    requires { zeros < 2 ^ 15 }
    ensures extends { Extends bytes.old.items bytes.new.items }
    ensures ok { OnOk result
        (held bytes.new.items place.new ≡ held bytes.old.items place.old ++ run_bits zeros) }
{
    if zeros > 0 {
        push_number(bytes, place, 0)?;
        push_number(bytes, place, zeros)?;
    }
    Ok(())
}

/// Fills the last byte with zeros.
pub(crate) fn fill_byte(bytes: &mut Vec<u8>, place: WritePlace) -> Result<(), AllocError>
    ensures extends { Extends bytes.old.items bytes.new.items }
    ensures ok { OnOk result ((padding : ℕ) × (padding < 8)
        × (bits_of_bytes bytes.new.items ≡ held bytes.old.items place ++ replicate padding 0)) }
{
    if place.filled > 0 {
        bytes.push(place.byte << (8 - place.filled))?;
    }
    Ok(())
}
