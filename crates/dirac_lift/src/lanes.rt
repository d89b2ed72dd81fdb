//! Eight values of 32 bits at once.
ghost use Rattle.std.specs.Prelude.{◌≡◌, ℕ, ℤ, pos, ◌+◌, ◌-◌, ◌/◌, ◌^◌, ◌<◌, ◌≤◌, ◌+ℤ◌, unsigned_abs, length};
ghost use Rattle.std.specs.Prelude.{slice_index_or, FitsSigned};
ghost use Rattle.std.specs.Int.{int_shr, w32};
ghost use Rattle.dirac_lift.specs.Lanes.{AreInTurn, AreLanes, IsEight, RunPut, lane};
ghost use Rattle.dirac_lift.specs.Lifting.{rounded};

use std::simd::prelude::*;

/// One value in all lanes.
#[inline(always)]
fn lanes_of(value: i32) -> i32x8
    ensures { AreLanes (λ j. value) result }
{
    i32x8::splat(value)
}

/// Eight values of a list, from a place on.
#[inline(always)]
pub fn lanes_at(values: &[i32], at: usize) -> i32x8
    requires inside { at + 8 ≤ length values.now }
    requires fit { (j : ℕ) → j < 8 → FitsSigned w32 (slice_index_or values.now (at + j) (pos 0)) }
    ensures { AreLanes (λ j. slice_index_or values.now (at + j) (pos 0)) result }
{
    i32x8::from_slice(&values[at..])
}

/// Writes eight values to a list, from a place on.
#[inline(always)]
pub fn put_lanes(values: &mut [i32], at: usize, lanes: i32x8)
    requires inside { at + 8 ≤ length values.old }
    requires lanes { IsEight lanes }
    ensures { RunPut at 8 (lane lanes) values.old values.new }
{
    lanes.copy_to_slice(&mut values[at..]);
}

/// Eight sums and what is added to them, shifted down by `bits`.
#[inline(always)]
fn shifted_lanes(sum: i32x8, half: i32x8, bits: i32x8) -> i32x8
    requires lanes { IsEight sum × IsEight half × IsEight bits }
    requires fits { (j : ℕ) → j < 8 → unsigned_abs (lane sum j) + unsigned_abs (lane half j) < 2 ^ 31 }
    requires bits { (j : ℕ) → j < 8
        → (lane bits j ≡ pos (unsigned_abs (lane bits j))) × (unsigned_abs (lane bits j) ≤ 12) }
    ensures { AreLanes (λ j. int_shr (lane sum j +ℤ lane half j) (unsigned_abs (lane bits j))) result }
{
    sum.strict_add(half) >> bits
}

/// Half of 2 to the power `shift`.
#[inline(always)]
fn half_of(shift: u32) -> i32
    requires { shift ≤ 12 }
    ensures { result ≡ pos (2 ^ shift / 2) }
{
    (1i32 << shift) >> 1
}

/// Eight sums divided by 2 to the power `shift`, to the nearest.
#[inline(always)]
pub fn rounded_lanes(sum: i32x8, shift: u32) -> i32x8
    requires shift { shift ≤ 12 }
    requires lanes { IsEight sum }
    requires sum { (j : ℕ) → j < 8 → unsigned_abs (lane sum j) ≤ 2 ^ 31 - 2 ^ 22 }
    ensures { AreLanes (λ j. rounded shift (lane sum j)) result }
{
    shifted_lanes(sum, lanes_of(half_of(shift)), lanes_of(shift as i32))
}

/// The first four lanes of two vectors, in turn.
#[inline(always)]
pub fn first_in_turn(evens: i32x8, odds: i32x8) -> i32x8
    requires lanes { IsEight evens × IsEight odds }
    ensures { AreInTurn 0 evens odds result }
{
    evens.shuffle(odds, [0, 8, 1, 9, 2, 10, 3, 11])
}

/// The last four lanes of two vectors, in turn.
#[inline(always)]
pub fn last_in_turn(evens: i32x8, odds: i32x8) -> i32x8
    requires lanes { IsEight evens × IsEight odds }
    ensures { AreInTurn 4 evens odds result }
{
    evens.shuffle(odds, [4, 12, 5, 13, 6, 14, 7, 15])
}
