ghost use Rattle.std.specs.Prelude.{◌≡◌, ℕ, ◌^◌, ◌*◌, ◌/◌, ◌+◌, ◌<◌, ◌≤◌, ◌-◌, unsigned_abs};
ghost use Rattle.dirac_common.specs.Limits.{IsIndex};
ghost use Rattle.dirac_quant.specs.Quantiser.{factor_of, offset_of, restored, restored_magnitude, reduced, scaled};
ghost use Rattle.dirac_quant.specs.Quantiser.{reciprocal_of, with_sign_of};

use dirac_common::{Kind, LARGEST_NARROW};

/// Four times the greatest magnitude of a narrow plane, and what rounding down by four drops at most.
pub const MOST_QUARTERS: u64 = 16383;

/// Four times the step of the quantiser at an index (quantisation factors, Dirac specification).
#[tactic(auto, using(crate::proofs::Powers::power_bound))]
pub fn factor(index: u8) -> u64
    requires { IsIndex index }
    ensures value { result ≡ factor_of index }
    ensures least { 4 ≤ result }
    ensures below { result < 2 ^ 27 }
{
    let power = 1u64 << (index / 4);
    match index % 4 {
        0 => 4 * power,
        1 => (503829 * power + 52958) / 105917,
        2 => (665857 * power + 58854) / 117708,
        _ => (440253 * power + 32722) / 65444,
    }
}

/// Four times what the quantiser adds to a restored magnitude (quantisation offsets, Dirac specification).
/// An inter picture's lies nearer to zero than an intra picture's.
pub fn offset(index: u8, kind: Kind) -> u64
    requires { IsIndex index }
    ensures value { result ≡ offset_of index kind }
    ensures below { result < 2 ^ 27 }
{
    match index {
        0 => 1,
        1 => 2,
        _ => match kind {
            Kind::Intra => (factor(index) + 1) / 2,
            Kind::Inter => (3 * factor(index) + 4) / 8,
        },
    }
}

/// The coefficient that a coded number stands for (inverse quantisation, Dirac specification).
pub fn restore(value: i64, index: u8, kind: Kind) -> i128
    requires value { unsigned_abs value ≤ 2 ^ 39 - 2 }
    requires index { IsIndex index }
    ensures value { result ≡ restored value index kind }
    ensures below { unsigned_abs result < 2 ^ 64 }
{
    let magnitude = u128::from(value.unsigned_abs());
    if magnitude == 0 {
        return 0;
    }
    let factor = u128::from(factor(index));
    let offset = u128::from(offset(index, kind));
    let restored = ((magnitude * factor + offset + 2) / 4) as i128;
    if value < 0 { -restored } else { restored }
}

/// What a coded number stands for at a factor and an offset, in 32 bits, where it is at most 4,095.
#[inline(always)]
pub fn restore_narrow(value: i32, factor: u32, offset: u32) -> i32
    requires offset { offset < 2 ^ 27 }
    requires no_overflow { 1 ≤ unsigned_abs value → unsigned_abs value * factor + offset + 2 ≤ MOST_QUARTERS }
    ensures { result ≡ scaled value factor offset }
{
    let whole = value.unsigned_abs();
    let quarters = whole * factor + offset + 2;
    let size = if whole == 0 { 0 } else { (quarters / 4) as i32 };
    if value < 0 { -size } else { size }
}

/// The largest coded magnitude whose coefficient is at most 4,095.
pub fn narrow_limit(index: u8, kind: Kind) -> u64
    requires { IsIndex index }
    ensures fits { (m : ℕ) → m ≤ result → restored_magnitude m index kind ≤ LARGEST_NARROW }
    ensures exact { (m : ℕ) → result < m → LARGEST_NARROW < restored_magnitude m index kind }
    ensures no_overflow { (m : ℕ) → 1 ≤ m → m ≤ result
        → m * factor_of index + offset_of index kind + 2 ≤ MOST_QUARTERS }
    ensures below { result < 2 ^ 12 }
{
    let taken = offset(index, kind) + 2;
    MOST_QUARTERS.saturating_sub(taken) / factor(index)
}

/// By what one multiplies to divide by a factor: the whole part of 2^64 over it, one more where something is left.
#[inline(always)]
pub fn reciprocal(factor: u64) -> u64
    requires { 4 ≤ factor }
    ensures { result ≡ reciprocal_of factor }
{
    u64::MAX / factor + 1
}

/// A number over a factor, without a division.
#[tactic(auto, using(crate::proofs::Reciprocals::quotient_is))]
#[inline(always)]
fn quotient(number: u64, factor: u64, reciprocal: u64) -> u64
    requires factor { 4 ≤ factor }
    requires reciprocal { reciprocal ≡ reciprocal_of factor }
    requires exact { number * factor < 2 ^ 64 }
    ensures { result ≡ number / factor }
{
    let product = u128::from(number) * u128::from(reciprocal);
    (product / 18_446_744_073_709_551_616) as u64
}

/// The number that codes a coefficient, by the factor of an index and its reciprocal. A magnitude below 2^35, as most
/// are, is divided by a multiplication.
#[inline(always)]
pub fn reduce_at(value: i64, factor: u64, reciprocal: u64) -> i64
    requires value { unsigned_abs value ≤ 2 ^ 39 - 2 }
    requires factor { 4 ≤ factor }
    requires below { factor < 2 ^ 27 }
    requires reciprocal { reciprocal ≡ reciprocal_of factor }
    ensures { result ≡ with_sign_of value (4 * unsigned_abs value / factor) }
{
    let magnitude = value.unsigned_abs();
    if magnitude >= 34_359_738_368 {
        return reduce_by(value, factor);
    }
    let steps = quotient(4 * magnitude, factor, reciprocal) as i64;
    if value < 0 { -steps } else { steps }
}

/// The number that codes a coefficient of 32 bits, by the factor of an index and its reciprocal: it has no more bits.
#[inline(always)]
pub fn reduce_narrow(value: i32, factor: u64, reciprocal: u64) -> i32
    requires factor { 4 ≤ factor }
    requires below { factor < 2 ^ 27 }
    requires reciprocal { reciprocal ≡ reciprocal_of factor }
    ensures { result ≡ with_sign_of value (4 * unsigned_abs value / factor) }
{
    reduce_at(i64::from(value), factor, reciprocal) as i32
}

/// The number that codes a coefficient, by the factor of an index: its magnitude in steps, rounded towards zero, with
/// its sign.
#[inline(always)]
pub fn reduce_by(value: i64, factor: u64) -> i64
    requires value { unsigned_abs value ≤ 2 ^ 39 - 2 }
    requires factor { 4 ≤ factor }
    ensures value { result ≡ with_sign_of value (4 * unsigned_abs value / factor) }
    ensures no_larger { unsigned_abs result ≤ unsigned_abs value }
{
    let reduced = (4 * value.unsigned_abs() / factor) as i64;
    if value < 0 { -reduced } else { reduced }
}

/// The number that codes a coefficient at an index.
pub fn reduce(value: i64, index: u8) -> i64
    requires value { unsigned_abs value ≤ 2 ^ 39 - 2 }
    requires index { IsIndex index }
    ensures value { result ≡ reduced value index }
    ensures no_larger { unsigned_abs result ≤ unsigned_abs value }
{
    reduce_by(value, factor(index))
}
