ghost use Rattle.std.specs.Prelude.{◌≡◌, ◌≤◌};
ghost use Rattle.dirac_costs.specs.Bits.{bits_to_spell, bits_of_vector};

use dirac_common::Vector;

/// How many bits spell a signed number as interleaved exp-Golomb, Dirac specification: for each digit of its magnitude
/// plus 1 behind the leading one a follow bit and the digit, a last follow bit, and a sign where it isn't 0.
#[inline(always)]
pub fn signed_bits(value: i32) -> u32
    ensures value { result ≡ bits_to_spell value }
    ensures at_most_130 { result ≤ 130 }
{
    let magnitude = value.unsigned_abs();
    if magnitude == 0 {
        return 1;
    }
    let digits = (u64::from(magnitude) + 1).ilog2();
    2 * digits + 2
}

/// How many bits spell a vector.
#[inline(always)]
pub fn vector_bits(vector: Vector) -> u32
    ensures value { result ≡ bits_of_vector vector }
    ensures at_most_260 { result ≤ 260 }
{
    signed_bits(vector.x) + signed_bits(vector.y)
}
