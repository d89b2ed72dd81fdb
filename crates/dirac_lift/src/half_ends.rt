ghost use Rattle.std.specs.Prelude.{◌≡◌, ℤ, List, pos, ◌+◌, ◌-◌, ◌*◌, ◌^◌, ◌<◌, ◌≤◌, length, map, slice_index_or};
ghost use Rattle.std.specs.Prelude.{slice_set, unsigned_abs};
ghost use Rattle.std.specs.List.{All};
ghost use Rattle.dirac_lift.specs.Halves.{AreHalvesOfLine};
ghost use Rattle.dirac_lift.specs.Lanes.{EightPairsPut};
ghost use Rattle.dirac_lift.specs.Level.{last_halved};
ghost use Rattle.dirac_lift.specs.Lifting.{rounded};

use crate::halves::rounded_sum;
use crate::lanes::{first_in_turn, lanes_at, last_in_turn, put_lanes, rounded_lanes};
use crate::wavelets::halves;

/// Puts eight pairs of a line from pair `n` on, each value divided by 2 to the power `shift`, to the nearest.
#[inline(always)]
fn put_eight_pairs(low: &[i32], high: &[i32], line: &mut [i32], n: usize, shift: u32)
    requires inside { n + 8 ≤ length low.now }
    requires alike { length high.now ≡ length low.now }
    requires line { length line.old ≡ 2 * length low.now }
    requires shift { shift ≤ 12 }
    requires low { All (λ v. unsigned_abs v ≤ 2 ^ 31 - 2 ^ 22) low.now }
    requires high { All (λ v. unsigned_abs v ≤ 2 ^ 31 - 2 ^ 22) high.now }
    ensures { EightPairsPut n (λ j. rounded shift (slice_index_or low.now (n + j) (pos 0)))
        (λ j. rounded shift (slice_index_or high.now (n + j) (pos 0))) line.old line.new }
{
    let evens = rounded_lanes(lanes_at(low, n), shift);
    let odds = rounded_lanes(lanes_at(high, n), shift);
    put_lanes(line, 2 * n, first_in_turn(evens, odds));
    put_lanes(line, 2 * n + 8, last_in_turn(evens, odds));
}

/// Puts pair `n` of a line, each value divided by 2 to the power `shift`, to the nearest.
#[inline(always)]
fn put_pair(low: &[i32], high: &[i32], line: &mut [i32], n: usize, shift: u32)
    requires pair { n < length low.now }
    requires alike { length high.now ≡ length low.now }
    requires line { length line.old ≡ 2 * length low.now }
    requires shift { shift ≤ 12 }
    requires low { unsigned_abs (slice_index_or low.now n (pos 0)) ≤ 2 ^ 31 - 2 ^ 22 }
    requires high { unsigned_abs (slice_index_or high.now n (pos 0)) ≤ 2 ^ 31 - 2 ^ 22 }
    ensures { line.new ≡ slice_set (slice_set line.old (2 * n) (rounded shift (slice_index_or low.now n (pos 0))))
        (2 * n + 1) (rounded shift (slice_index_or high.now n (pos 0))) }
{
    line[2 * n] = rounded_sum(low[n], shift);
    line[2 * n + 1] = rounded_sum(high[n], shift);
}

/// A line from its two halves, each value divided by 2 to the power `shift`, to the nearest: eight pairs at a time in
/// lanes, and those that are left one by one.
#[inline(always)]
fn put_pairs(low: &[i32], high: &[i32], line: &mut [i32], shift: u32)
    requires alike { length high.now ≡ length low.now }
    requires line { length line.old ≡ 2 * length low.now }
    requires shift { shift ≤ 12 }
    requires low { All (λ v. unsigned_abs v ≤ 2 ^ 31 - 2 ^ 22) low.now }
    requires high { All (λ v. unsigned_abs v ≤ 2 ^ 31 - 2 ^ 22) high.now }
    ensures { (whole : List ℤ) → AreHalvesOfLine 0 low.now high.now whole → line.new ≡ map (rounded shift) whole }
{
    let eights = low.len() / 8;
    'eights: for i in 0..eights {
        put_eight_pairs(low, high, line, i * 8, shift);
    }
    'left: for n in eights * 8..low.len() {
        put_pair(low, high, line, n, shift);
    }
}

/// A line from its two halves as a level ends: halved where the wavelet's shift is 1.
pub fn put_line(wavelet: u8, low: &[i32], high: &[i32], line: &mut [i32])
    requires alike { length high.now ≡ length low.now }
    requires line { length line.old ≡ 2 * length low.now }
    requires low { All (λ v. unsigned_abs v ≤ 2 ^ 31 - 2 ^ 22) low.now }
    requires high { All (λ v. unsigned_abs v ≤ 2 ^ 31 - 2 ^ 22) high.now }
    ensures { (whole : List ℤ) → AreHalvesOfLine 0 low.now high.now whole → line.new ≡ last_halved wavelet whole }
{
    if halves(wavelet) {
        put_pairs(low, high, line, 1);
    } else {
        put_pairs(low, high, line, 0);
    }
}
