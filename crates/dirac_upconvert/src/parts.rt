ghost use Rattle.std.specs.Prelude.{◌≡◌, ℕ, pos, ◌+◌, ◌*◌, ◌^◌, ◌<◌, ◌≤◌, ◌≤ℤ◌, ◌+ℤ◌, ◌*ℤ◌, unsigned_abs};
ghost use Rattle.std.specs.Int.{int_rem_euclid};
ghost use Rattle.dirac_common.specs.Table.{clamped_at};
ghost use Rattle.dirac_upconvert.specs.HalfSamples.{IsSample};
ghost use Rattle.dirac_upconvert.specs.SubSamples.{IsRest, IsWithin, bilinear, mixed, part_sample, place_at, rest_at};
ghost use Rattle.dirac_upconvert.specs.SubSamples.{rounded};

use crate::phases::Phases;

/// How many positions a place has.
#[inline(always)]
fn positions(bits: u32) -> i16
    requires { bits ≤ 2 }
    ensures { result ≡ pos (2 ^ bits) }
{
    1 << bits
}

/// The place at or before a position.
#[inline(always)]
pub fn place(position: i64, bits: u32) -> i64
    requires bits { bits ≤ 2 }
    requires position { unsigned_abs position < 2 ^ 34 }
    ensures value { result ≡ place_at position bits }
    ensures bound { unsigned_abs result ≤ 2 ^ 34 }
    ensures no_further { unsigned_abs result ≤ unsigned_abs position }
{
    position >> bits
}

/// How far a position lies behind its place.
#[inline(always)]
pub fn rest(position: i64, bits: u32) -> i16
    requires { bits ≤ 2 }
    ensures value { result ≡ rest_at position bits }
    ensures within { IsRest bits result }
{
    match bits {
        0 => 0,
        1 => position.rem_euclid(2) as i16,
        _ => position.rem_euclid(4) as i16,
    }
}

#[inline(always)]
fn multiply_add(sum: i16, weight: i16, value: i16) -> i16
    requires { unsigned_abs sum + unsigned_abs weight * unsigned_abs value ≤ 2 ^ 13 }
    ensures value { result ≡ sum +ℤ weight *ℤ value }
{
    sum + weight * value
}

/// Two values, each weighted by the nearness of its place.
#[inline(always)]
pub fn mix(bits: u32, rest: i16, a: i16, b: i16) -> i16
    requires bits { bits ≤ 2 }
    requires rest { IsRest bits rest }
    requires a { IsWithin 4 a }
    requires b { IsWithin 4 b }
    ensures value { result ≡ mixed (2 ^ bits) rest a b }
    ensures within { (m : ℕ) → IsWithin m a → IsWithin m b → IsWithin (2 ^ bits * m) result }
{
    let scale = positions(bits);
    multiply_add(multiply_add(0, scale - rest, a), rest, b)
}

/// A sum divided by 2 to the power `bits`, to the nearest.
#[inline(always)]
pub fn rounded_sum(sum: i16, bits: u32) -> i16
    requires sum { unsigned_abs sum ≤ 2 ^ 13 }
    requires bits { bits ≤ 4 }
    ensures { result ≡ rounded bits sum }
{
    let half = (1i16 << bits) >> 1;
    (sum + half) >> bits
}

/// The sample at a place that is clamped to the table.
#[inline(always)]
pub fn sample(table: &Phases, x: i64, y: i64) -> i16
    ensures value { result ≡ clamped_at table.now x y }
    ensures sample { IsSample result }
{
    table.clamped(x, y)
}

#[inline(always)]
fn next(place: i64) -> i64
    requires { unsigned_abs place ≤ 2 ^ 34 }
    ensures { result ≡ place +ℤ pos 1 }
{
    place + 1
}

/// The samples of row `y` at places `across` and the next, each times its weight.
#[inline(always)]
fn mixed_row(table: &Phases, bits: u32, right: i16, across: i64, y: i64) -> i16
    requires bits { bits ≤ 2 }
    requires right { IsRest bits right }
    requires across { unsigned_abs across ≤ 2 ^ 34 }
    ensures value { result ≡ mixed (2 ^ bits) right (clamped_at table.now across y)
        (clamped_at table.now (across +ℤ pos 1) y) }
    ensures within { IsWithin (2 ^ bits * 1) result }
{
    mix(
        bits,
        right,
        sample(table, across, y),
        sample(table, next(across), y),
    )
}

/// The sum of the four samples round a position, each times its two weights.
#[inline(always)]
fn mixed_rows(table: &Phases, bits: u32, x: i64, y: i64) -> i16
    requires bits { bits ≤ 2 }
    requires x { unsigned_abs x < 2 ^ 34 }
    requires y { unsigned_abs y < 2 ^ 34 }
    ensures value { result ≡ bilinear table.now (2 ^ bits) (place_at x bits) (place_at y bits) (rest_at x bits)
        (rest_at y bits) }
    ensures within { IsWithin (2 ^ bits * (2 ^ bits * 1)) result }
{
    let across = place(x, bits);
    let down = place(y, bits);
    let right = rest(x, bits);
    let above = mixed_row(table, bits, right, across, down);
    let under = mixed_row(table, bits, right, across, next(down));
    mix(bits, rest(y, bits), above, under)
}

/// The sample at a position of the table that is counted in parts, 2 to the power `bits` to a place.
#[inline(always)]
pub fn part(table: &Phases, bits: u32, x: i64, y: i64) -> i16
    requires bits { bits ≤ 2 }
    requires x { unsigned_abs x < 2 ^ 34 }
    requires y { unsigned_abs y < 2 ^ 34 }
    ensures value { result ≡ part_sample table.now bits x y }
    ensures sample { IsSample result }
{
    rounded_sum(mixed_rows(table, bits, x, y), 2 * bits)
}

#[inline(always)]
pub fn twice(position: i64) -> i64
    requires { unsigned_abs position < 2 ^ 34 }
    ensures { result ≡ pos 2 *ℤ position }
{
    2 * position
}

/// The whole sample at a position, which stands at an even column of an even row.
#[inline(always)]
pub fn whole_sample(table: &Phases, x: i64, y: i64) -> i16
    requires x { unsigned_abs x < 2 ^ 34 }
    requires y { unsigned_abs y < 2 ^ 34 }
    ensures value { result ≡ clamped_at table.now (pos 2 *ℤ x) (pos 2 *ℤ y) }
    ensures sample { IsSample result }
{
    sample(table, twice(x), twice(y))
}
