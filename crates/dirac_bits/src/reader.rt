ghost use Rattle.std.specs.Prelude.{◌≡◌, ℕ, ℤ, ◌+◌, ◌*◌, ◌<◌, ◌≤◌, ◌^◌, List, length, IfOk, IfErr, IsOk, ◌↔◌};
ghost use Rattle.std.specs.Prelude.{slice_range, unsigned_abs};
ghost use Rattle.dirac_bits.specs.Cursor.{place, aligned, start, IsAligned};
ghost use Rattle.dirac_bits.specs.Fields.{flag_at, uint_at, sint_at, literal_at, block_read_at};
ghost use Rattle.dirac_bits.specs.Syntax.{between, number_field, read};
ghost use Rattle.dirac_bits.specs.Answers.{ReadsSeenBy, TakesSeenBy};

use crate::bit_place::BitPlace;
use crate::numbers::{next_bit, next_block, next_literal, next_number, next_signed};
use dirac_common::{Cause, Refusal};
use std::marker::Model;

/// Reads the fields of a payload from its bytes, from the most significant bit of each byte on.
///
/// It is seen as the payload's bytes and the number of the bit that is read next.
#[derive(Drop)]
pub struct BitReader<'a> {
    bytes: &'a [u8],
    bit_place: BitPlace,
}

impl<'a> Model for BitReader<'a> {
    ghost use Rattle.std.specs.Prelude.{◌≤◌, ◌*◌, length};
    ghost use Rattle.dirac_bits.specs.Cursor.{Cursor};
    ghost use Rattle.dirac_bits.specs.BitPlaces.{cursor_at, bit_number};

    ghost Value = { Cursor };

    ghost view = { λ r. cursor_at r.bytes.now r.bit_place };

    ghost invariant = { λ r. bit_number r.bit_place ≤ 8 * length r.bytes.now };
}

impl<'a> BitReader<'a> {
    /// A reader that stands at the first bit.
    pub fn new(bytes: &'a [u8]) -> BitReader<'a>
        ensures { result ≡ start bytes.now }
    {
        BitReader {
            bytes,
            bit_place: BitPlace { byte: 0, bit: 0 },
        }
    }

    /// Another reader of the same bytes, which stands where this one stands.
    pub fn again(&self) -> BitReader<'a>
        ensures { result ≡ self.now }
    {
        BitReader {
            bytes: self.bytes,
            bit_place: self.bit_place,
        }
    }

    /// The number of the byte that holds the next bit, counted from the payload's first byte.
    pub fn place(&self) -> u64
        ensures value { result ≡ place self.now }
        ensures place_inside { result ≤ length self.now.bytes }
        ensures inside { self.now.at ≤ 8 * length self.now.bytes }
    {
        self.bit_place.byte as u64
    }

    /// One bit, where 1 is true.
    #[tactic(auto, unfolding(crate::specs::Fields::flag_at))]
    pub fn bit(&mut self) -> Result<bool, Refusal>
        ensures value { TakesSeenBy (λ b. b) result self.old self.new (flag_at self.old) }
        ensures place_inside { IfErr result (λ e. e.at ≤ length self.old.bytes) }
        ensures kept { self.new.bytes ≡ self.old.bytes }
    {
        match next_bit(self.bytes, self.bit_place) {
            Ok((bit, behind)) => {
                self.bit_place = behind;
                Ok(bit)
            }
            Err(cause) => Err(self.refusal(cause)),
        }
    }

    /// An unsigned number in interleaved exp-Golomb code; a refusal names the byte of its first bit.
    #[tactic(auto, unfolding(crate::specs::Fields::uint_at))]
    pub fn uint(&mut self) -> Result<u64, Refusal>
        ensures value { TakesSeenBy (λ n. n) result self.old self.new (uint_at self.old) }
        ensures place_inside { IfErr result (λ e. e.at ≤ length self.old.bytes) }
        ensures kept { self.new.bytes ≡ self.old.bytes }
        ensures below_2_39 { IfOk result (λ n. n + 1 < 2 ^ 39) }
    {
        match next_number(self.bytes, self.bit_place) {
            Ok((number, behind)) => {
                self.bit_place = behind;
                Ok(number)
            }
            Err(cause) => Err(self.refusal(cause)),
        }
    }

    /// An unsigned number from `least` to `most`; any other is refused with this cause, at the byte of its first bit.
    pub fn field(&mut self, cause: Cause, least: u64, most: u64) -> Result<u64, Refusal>
        ensures value { ReadsSeenBy (λ n. n) result self.new (read (number_field cause (between least most)) self.old) }
        ensures place_inside { IfErr result (λ e. e.at ≤ length self.old.bytes) }
        ensures kept { self.new.bytes ≡ self.old.bytes }
        ensures inside { IfOk result (λ n. (least ≤ n) × (n ≤ most)) }
    {
        let at = self.place();
        let number = self.uint()?;
        if least <= number && number <= most {
            Ok(number)
        } else {
            Err(Refusal { at, cause })
        }
    }

    /// A signed number: an unsigned one and, where it isn't 0, its sign; a refusal names the byte of its first bit.
    #[tactic(auto, unfolding(crate::specs::Fields::sint_at))]
    pub fn sint(&mut self) -> Result<i64, Refusal>
        ensures value { TakesSeenBy (λ z. z) result self.old self.new (sint_at self.old) }
        ensures place_inside { IfErr result (λ e. e.at ≤ length self.old.bytes) }
        ensures kept { self.new.bytes ≡ self.old.bytes }
        ensures below_2_39 { IfOk result (λ z. unsigned_abs z + 1 < 2 ^ 39) }
    {
        match next_signed(self.bytes, self.bit_place) {
            Ok((number, behind)) => {
                self.bit_place = behind;
                Ok(number)
            }
            Err(cause) => Err(self.refusal(cause)),
        }
    }

    /// Four bytes as a number, the most significant first.
    #[tactic(auto, unfolding(crate::specs::Fields::literal_at))]
    pub fn literal(&mut self) -> Result<u32, Refusal>
        requires { IsAligned self.old }
        ensures value { TakesSeenBy (λ n. n) result self.old self.new (literal_at self.old) }
        ensures place_inside { IfErr result (λ e. e.at ≤ length self.old.bytes) }
        ensures kept { self.new.bytes ≡ self.old.bytes }
        ensures aligned { IsAligned self.new }
    {
        match next_literal(self.bytes, self.bit_place) {
            Ok((number, behind)) => {
                self.bit_place = behind;
                Ok(number)
            }
            Err(cause) => Err(self.refusal(cause)),
        }
    }

    /// Passes over the bits up to the next byte, whatever they are.
    pub fn align(&mut self)
        ensures value { self.new ≡ aligned self.old }
        ensures inside { self.old.at ≤ 8 * length self.old.bytes }
    {
        if self.bit_place.bit > 0 {
            self.bit_place = BitPlace {
                byte: self.bit_place.byte + 1,
                bit: 0,
            };
        }
    }

    /// The next `len` bytes, which aren't copied.
    #[tactic(auto, unfolding(crate::specs::Fields::block_read_at))]
    pub fn block(&mut self, len: u64) -> Result<&'a [u8], Refusal>
        requires { IsAligned self.old }
        ensures value { TakesSeenBy (λ part. part.now) result self.old self.new (block_read_at len self.old) }
        ensures lent { IfOk result (λ part. part.now ≡ slice_range self.old.bytes (place self.old)
            (place self.old + len)) }
        ensures where_held { IsOk result ↔ (place self.old + len ≤ length self.old.bytes) }
        ensures place_inside { IfErr result (λ e. e.at ≤ length self.old.bytes) }
        ensures kept { self.new.bytes ≡ self.old.bytes }
        ensures aligned { IsAligned self.new }
    {
        match next_block(self.bytes, self.bit_place, len) {
            Ok((part, behind)) => {
                self.bit_place = behind;
                Ok(part)
            }
            Err(cause) => Err(self.refusal(cause)),
        }
    }

    fn refusal(&self, cause: Cause) -> Refusal
        ensures { result ≡ record { at = place self.now; cause = cause } }
    {
        Refusal {
            at: self.place(),
            cause,
        }
    }
}
