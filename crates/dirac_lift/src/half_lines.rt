//! The synthesis and the analysis of lines in 32 bits, from their even and odd places in lists of their own.
ghost use Rattle.std.specs.Prelude.{◌≡◌, List, ℤ, ◌*◌, ◌-◌, ◌^◌, ◌≤◌, length, unsigned_abs};
ghost use Rattle.std.specs.List.{All};
ghost use Rattle.dirac_common.specs.Limits.{IsWavelet};
ghost use Rattle.dirac_lift.specs.Halves.{AreHalvesOfLine};
ghost use Rattle.dirac_lift.specs.HalfRuns.{AreNarrow, HalvesRun};
ghost use Rattle.dirac_lift.specs.Level.{last_halved};
ghost use Rattle.dirac_lift.specs.Wavelets.{analyse, steps_of, synth, taken_back};

use crate::half_ends::put_line;
use crate::halves::Halves;
use crate::wavelets;
use dirac_common::LARGEST_NARROW;

/// The synthesis of a single line from its halves.
#[inline(never)]
pub fn synth_half_line(wavelet: u8, low: &mut [i32], high: &mut [i32])
    requires wavelet { IsWavelet wavelet }
    requires alike { length high.old ≡ length low.old }
    requires narrow { AreNarrow (steps_of wavelet) 1 (length low.old) low.old high.old }
    ensures value { (line : List ℤ) → AreHalvesOfLine 0 low.old high.old line
        → AreHalvesOfLine 0 low.new high.new (synth wavelet line) }
    ensures low_bound { All (λ v. unsigned_abs v ≤ 2 ^ 31 - 2 ^ 22) low.new }
    ensures high_bound { All (λ v. unsigned_abs v ≤ 2 ^ 31 - 2 ^ 22) high.new }
{
    let half = low.len();
    let mut lines = Halves {
        evens: low,
        odds: high,
        width: 1,
        half,
    };
    wavelets::synthesise(wavelet, &mut lines);
}

/// A finished line of a level from its halves: synthesised, then halved where the wavelet's shift is 1.
pub fn finish_half_line(wavelet: u8, low: &mut [i32], high: &mut [i32], line: &mut [i32])
    requires wavelet { IsWavelet wavelet }
    requires alike { length high.old ≡ length low.old }
    requires line { length line.old ≡ 2 * length low.old }
    requires narrow { AreNarrow (steps_of wavelet) 1 (length low.old) low.old high.old }
    ensures { (whole : List ℤ) → AreHalvesOfLine 0 low.old high.old whole → line.new
        ≡ last_halved wavelet (synth wavelet whole) }
{
    synth_half_line(wavelet, low, high);
    put_line(wavelet, low, high, line);
}

/// Analysis of `width` lines of `2 * half` values from their halves, in place.
#[inline(always)]
pub fn analyse_halves(wavelet: u8, evens: &mut [i32], odds: &mut [i32], width: usize, half: usize)
    requires wavelet { IsWavelet wavelet }
    requires narrow { AreNarrow (taken_back (steps_of wavelet)) width half evens.old odds.old }
    ensures { HalvesRun (taken_back (steps_of wavelet)) width half evens.old odds.old evens.new odds.new }
{
    let mut lines = Halves {
        evens,
        odds,
        width,
        half,
    };
    wavelets::analyse(wavelet, &mut lines);
}

/// The analysis of a single line from its halves, whose values have been doubled where the wavelet's shift is 1.
#[inline(never)]
pub fn analyse_half_line(wavelet: u8, low: &mut [i32], high: &mut [i32])
    requires wavelet { IsWavelet wavelet }
    requires alike { length high.old ≡ length low.old }
    requires low_at_most_8190 { All (λ v. unsigned_abs v ≤ 2 * LARGEST_NARROW) low.old }
    requires high_at_most_8190 { All (λ v. unsigned_abs v ≤ 2 * LARGEST_NARROW) high.old }
    ensures { (line : List ℤ) → AreHalvesOfLine 0 low.old high.old line
        → AreHalvesOfLine 0 low.new high.new (analyse wavelet line) }
{
    let half = low.len();
    analyse_halves(wavelet, low, high, 1, half);
}
