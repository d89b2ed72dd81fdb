ghost use Rattle.std.specs.Prelude.{◌≡◌, ℕ, ◌%◌, ◌^◌, ◌≤◌, unsigned_abs, length};
ghost use Rattle.std.specs.List.{All};
ghost use Rattle.dirac_common.specs.Limits.{IsWavelet};
ghost use Rattle.dirac_lift.specs.Liftables.{CanLiftLine, LineLifted};
ghost use Rattle.dirac_lift.specs.Safety.{Safe};
ghost use Rattle.dirac_lift.specs.Wavelets.{analyse, analyse_bound, run, steps_of, synth, synth_bound, taken_back};

use crate::liftable::Liftable;
use crate::step::{Change, Step, lift_by};
use crate::wavelets;

/// A line that is lifted in place.
#[derive(Drop)]
pub struct Line<'a> {
    pub values: &'a mut [i128],
}

impl Liftable for Line<'_> {
    ghost can_lift = { CanLiftLine };

    ghost lifted = { LineLifted };

    #[inline(always)]
    fn lift(&mut self, change: Change, shift: u32, lead: usize, taps: &[i32]) {
        lift_by(self.values, Step::new(change, shift, lead), taps);
    }
}

#[inline(always)]
fn run_synthesis(wavelet: u8, line: &mut [i128])
    requires wavelet { IsWavelet wavelet }
    requires even { length line.old % 2 ≡ 0 }
    requires safe { Safe (steps_of wavelet) line.old }
    ensures { line.new ≡ run (steps_of wavelet) line.old }
{
    let mut line = Line { values: line };
    wavelets::synthesise(wavelet, &mut line);
}

#[inline(always)]
fn run_analysis(wavelet: u8, line: &mut [i128])
    requires wavelet { IsWavelet wavelet }
    requires even { length line.old % 2 ≡ 0 }
    requires safe { Safe (taken_back (steps_of wavelet)) line.old }
    ensures { line.new ≡ run (taken_back (steps_of wavelet)) line.old }
{
    let mut line = Line { values: line };
    wavelets::analyse(wavelet, &mut line);
}

/// The synthesis of a line of even length in place (one-dimensional synthesis, Dirac specification). Wavelets are
/// named by their index: 0 Deslauriers-Dubuc (9,7), 1 LeGall (5,3), 2 Deslauriers-Dubuc (13,7), 3 and 4 Haar without
/// and with shift, 5 Fidelity, 6 Daubechies (9,7).
pub fn synth_line(wavelet: u8, line: &mut [i128])
    requires wavelet { IsWavelet wavelet }
    requires even { length line.old % 2 ≡ 0 }
    requires magnitudes_at_most_2_108 { All (λ v. unsigned_abs v ≤ 2 ^ 108) line.old }
    ensures value { line.new ≡ synth wavelet line.old }
    ensures growth { (b : ℕ) → All (λ v. unsigned_abs v ≤ b) line.old
        → All (λ v. unsigned_abs v ≤ synth_bound wavelet b) line.new }
    ensures undone { analyse wavelet line.new ≡ line.old }
{
    run_synthesis(wavelet, line);
}

/// The analysis of a line of even length in place: the steps of the synthesis backwards, each with the opposite sign.
pub fn analyse_line(wavelet: u8, line: &mut [i128])
    requires wavelet { IsWavelet wavelet }
    requires even { length line.old % 2 ≡ 0 }
    requires magnitudes_at_most_2_108 { All (λ v. unsigned_abs v ≤ 2 ^ 108) line.old }
    ensures value { line.new ≡ analyse wavelet line.old }
    ensures growth { (b : ℕ) → All (λ v. unsigned_abs v ≤ b) line.old
        → All (λ v. unsigned_abs v ≤ analyse_bound b) line.new }
    ensures undone { synth wavelet line.new ≡ line.old }
{
    run_analysis(wavelet, line);
}
