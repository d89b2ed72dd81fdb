ghost use Rattle.std.specs.Prelude.{◌≡◌, ◌+◌, ◌*◌, ◌<◌, ◌≤◌, ◌^◌, length, IfOk, IsOk, ◌↔◌, slice_range, unsigned_abs};
ghost use Rattle.dirac_bits.specs.Cursor.{bit_next};
ghost use Rattle.dirac_bits.specs.Fields.{number_on, signed_on, literal_on, bytes_on};
ghost use Rattle.dirac_bits.specs.BitPlaces.{cursor_at, bit_number, ReadsToBitPlace, StepsBy};

use crate::bit_place::BitPlace;
use dirac_common::{Cause, MOST_DIGITS, with_sign};

/// The bit at `spot`, and the spot behind it.
pub fn next_bit(bytes: &[u8], bit_place: BitPlace) -> Result<(bool, BitPlace), Cause>
    ensures value { ReadsToBitPlace bytes.now result (bit_next (cursor_at bytes.now bit_place)) }
    ensures inside { IfOk result (λ x. bit_number x.1 ≤ 8 * length bytes.now) }
{
    if bit_place.byte < bytes.len() {
        let bit = (bytes[bit_place.byte] >> (7 - bit_place.bit)) & 1 == 1;
        Ok((bit, bit_place.after()))
    } else {
        Err(Cause::UnitShort)
    }
}

/// The unsigned number at `first`, and the spot behind it.
pub fn next_number(bytes: &[u8], first: BitPlace) -> Result<(u64, BitPlace), Cause>
    ensures value { ReadsToBitPlace bytes.now result (number_on MOST_DIGITS 1 (cursor_at bytes.now first)) }
    ensures inside { IfOk result (λ x. bit_number x.1 ≤ 8 * length bytes.now) }
    ensures below_2_39 { IfOk result (λ x. x.0 + 1 < 2 ^ 39) }
{
    let mut bit_place = first;
    let mut value = 1;
    'digits: for doublings in 0..38u8 {
        let (ends, behind) = next_bit(bytes, bit_place)?;
        if ends {
            return Ok((value - 1, behind));
        }
        let (digit, next) = next_bit(bytes, behind)?;
        value = 2 * value + u64::from(digit);
        bit_place = next;
    }
    let (ends, behind) = next_bit(bytes, bit_place)?;
    if ends {
        Ok((value - 1, behind))
    } else {
        Err(Cause::NumberTooLong)
    }
}

/// The signed number at `first`, and the spot behind it.
#[tactic(auto, unfolding(crate::specs::Fields::sign_on))]
pub fn next_signed(bytes: &[u8], first: BitPlace) -> Result<(i64, BitPlace), Cause>
    ensures value { ReadsToBitPlace bytes.now result (signed_on (cursor_at bytes.now first)) }
    ensures inside { IfOk result (λ x. bit_number x.1 ≤ 8 * length bytes.now) }
    ensures below_2_39 { IfOk result (λ x. unsigned_abs x.0 + 1 < 2 ^ 39) }
{
    let (magnitude, behind) = next_number(bytes, first)?;
    if magnitude == 0 {
        return Ok((0, behind));
    }
    let (negative, next) = next_bit(bytes, behind)?;
    Ok((with_sign(magnitude, negative), next))
}

/// The four bytes at `first` as a number, and the spot behind them.
pub fn next_literal(bytes: &[u8], first: BitPlace) -> Result<(u32, BitPlace), Cause>
    requires aligned { first.bit ≡ 0 }
    requires inside { bit_number first ≤ 8 * length bytes.now }
    ensures value { ReadsToBitPlace bytes.now result (literal_on (cursor_at bytes.now first)) }
    ensures inside { IfOk result (λ x. bit_number x.1 ≤ 8 * length bytes.now) }
    ensures aligned { IfOk result (λ x. x.1.bit ≡ 0) }
{
    let start = first.byte;
    if bytes.len() - start < 4 {
        return Err(Cause::UnitShort);
    }
    let four = [
        bytes[start],
        bytes[start + 1],
        bytes[start + 2],
        bytes[start + 3],
    ];
    let behind = BitPlace {
        byte: start + 4,
        bit: 0,
    };
    Ok((u32::from_be_bytes(four), behind))
}

/// The `len` bytes at `first`, which aren't copied, and the spot behind them.
pub fn next_block(bytes: &[u8], first: BitPlace, len: u64) -> Result<(&[u8], BitPlace), Cause>
    requires aligned { first.bit ≡ 0 }
    requires inside { bit_number first ≤ 8 * length bytes.now }
    ensures value { StepsBy (λ part. part.now) bytes.now result (bytes_on len (cursor_at bytes.now first)) }
    ensures lent { IfOk result (λ x. x.0.now ≡ slice_range bytes.now first.byte (first.byte + len)) }
    ensures where_held { IsOk result ↔ (first.byte + len ≤ length bytes.now) }
    ensures inside { IfOk result (λ x. bit_number x.1 ≤ 8 * length bytes.now) }
    ensures aligned { IfOk result (λ x. x.1.bit ≡ 0) }
{
    let start = first.byte;
    if ((bytes.len() - start) as u64) < len {
        return Err(Cause::UnitShort);
    }
    let end = start + len as usize;
    Ok((&bytes[start..end], BitPlace { byte: end, bit: 0 }))
}
