//! Rows of a level that are at work, in rings: row n of the even rows, and that of the odd ones, stands in slot n % 16.
//! In a turn each lifting step changes one row, the one that has come to it.
ghost use Rattle.std.specs.Prelude.{◌≡◌, ℕ, ℤ, List, pos, true, ◌+◌, ◌-◌, ◌*◌, ◌%◌, ◌^◌, ◌<◌, ◌≤◌, unsigned_abs};
ghost use Rattle.std.specs.Prelude.{length};
ghost use Rattle.std.specs.List.{All};
ghost use Rattle.dirac_common.specs.Limits.{IsWavelet};
ghost use Rattle.dirac_lift.specs.Changes.{with_taps};
ghost use Rattle.dirac_lift.specs.Halves.{IsReadable};
ghost use Rattle.dirac_lift.specs.Lanes.{RunPut};
ghost use Rattle.dirac_lift.specs.Liftables.{CanLiftRings, RingsLifted};
ghost use Rattle.dirac_lift.specs.Lifting.{weighted};
ghost use Rattle.dirac_lift.specs.Rings.{AfterTurns, AreNarrowLines, CanTurn, RowLifted, most_of, ring_read};
ghost use Rattle.dirac_lift.specs.Rings.{ring_value};

use crate::halves::{multiply_add, put_changed};
use crate::liftable::Liftable;
use crate::step::{Change, Step};
use crate::wavelets;
use crate::zeros::are_zeros;
use dirac_common::LARGEST_TABLE_SIDE;

/// As many rows as stand in a ring.
pub const RING_ROWS: usize = 16;

/// How many columns and rows the halves of a level have.
#[derive(Clone, Copy)]
pub struct HalfSize {
    pub width: usize,
    pub half: usize,
}

/// The weighted sum for column `x` of row `n`.
#[inline(always)]
fn weighted_in_ring(
    other: &[i32],
    size: HalfSize,
    step: Step,
    taps: &[i32],
    n: usize,
    x: usize,
) -> i32
    requires len { length other.now ≡ size.width * 16 }
    requires across { x < size.width }
    requires down { size.half ≤ LARGEST_TABLE_SIDE }
    requires row { n < size.half }
    requires read { IsReadable taps.now other.now }
    ensures value { result ≡ weighted taps.now (ring_read step.lead size.width size.half other.now n x)
        (length taps.now) }
    ensures bound { unsigned_abs result ≤ 2 ^ 31 - 2 ^ 22 }
{
    let last = size.half - 1;
    let mut sum = 0i32;
    for k in 0..taps.len() {
        let row = (n + k).saturating_sub(step.lead).min(last);
        sum = multiply_add(sum, taps[k], other[row % RING_ROWS * size.width + x]);
    }
    sum
}

/// Whether all that a step reads for row `n`, in columns `from` to `to`, are zeros.
#[inline(always)]
fn reads_zeros(
    other: &[i32],
    size: HalfSize,
    step: Step,
    taps: &[i32],
    n: usize,
    from: usize,
    to: usize,
) -> bool
    requires len { length other.now ≡ size.width * 16 }
    requires down { size.half ≤ LARGEST_TABLE_SIDE }
    requires row { n < size.half }
    requires columns { (from ≤ to) × (to ≤ size.width) }
    ensures { result ≡ true → (k x : ℕ) → k < length taps.now → from ≤ x → x < to
        → ring_read step.lead size.width size.half other.now n x k ≡ pos 0 }
{
    let last = size.half - 1;
    for k in 0..taps.len() {
        let row = (n + k).saturating_sub(step.lead).min(last);
        let start = row % RING_ROWS * size.width;
        let zeros = are_zeros(&other[start + from..start + to]);
        if !zeros {
            return false;
        }
    }
    true
}

/// The first column of row `n` that a step may change: where it reads zeros for the left half, the half is left out.
#[inline(always)]
fn first_changed(other: &[i32], size: HalfSize, step: Step, taps: &[i32], n: usize) -> usize
    requires len { length other.now ≡ size.width * 16 }
    requires down { size.half ≤ LARGEST_TABLE_SIDE }
    requires row { n < size.half }
    ensures inside { result ≤ size.width }
    ensures zeros { (k x : ℕ) → k < length taps.now → x < result
        → ring_read step.lead size.width size.half other.now n x k ≡ pos 0 }
{
    let half = size.width / 2;
    if reads_zeros(other, size, step, taps, n, 0, half) {
        half
    } else {
        0
    }
}

/// The column behind the last one of row `n` that a step may change, likewise.
#[inline(always)]
fn end_of_changed(other: &[i32], size: HalfSize, step: Step, taps: &[i32], n: usize) -> usize
    requires len { length other.now ≡ size.width * 16 }
    requires down { size.half ≤ LARGEST_TABLE_SIDE }
    requires row { n < size.half }
    ensures inside { result ≤ size.width }
    ensures zeros { (k x : ℕ) → k < length taps.now → result ≤ x → x < size.width
        → ring_read step.lead size.width size.half other.now n x k ≡ pos 0 }
{
    let half = size.width / 2;
    if reads_zeros(other, size, step, taps, n, half, size.width) {
        half
    } else {
        size.width
    }
}

/// One lifting step over row `n`, of which the halves where it reads zeros stay.
#[inline(always)]
fn lift_row(own: &mut [i32], other: &[i32], size: HalfSize, step: Step, taps: &[i32], n: usize)
    requires own_len { length own.old ≡ size.width * 16 }
    requires len { length other.now ≡ size.width * 16 }
    requires down { size.half ≤ LARGEST_TABLE_SIDE }
    requires row { n < size.half }
    requires shift { step.shift ≤ 12 }
    requires read { IsReadable taps.now other.now }
    requires changed { All (λ v. unsigned_abs v ≤ 2 ^ 21) own.old }
    ensures { RunPut ((n % 16) * size.width) size.width
        (ring_value (with_taps step taps.now) size.width size.half own.old other.now n) own.old own.new }
{
    let start = n % RING_ROWS * size.width;
    let from = first_changed(other, size, step, taps, n);
    let to = end_of_changed(other, size, step, taps, n);
    for x in from..to {
        let sum = weighted_in_ring(other, size, step, taps, n, x);
        put_changed(own, start + x, sum, step);
    }
}

/// One lifting step over the row that has come to it in a turn, if there is one.
#[inline(always)]
fn lift_in_turn(
    own: &mut &mut [i32],
    other: &&mut [i32],
    size: HalfSize,
    step: Step,
    taps: &[i32],
    turn: usize,
    wait: usize,
)
    requires own_len { length own.old.now ≡ size.width * 16 }
    requires len { length other.now.now ≡ size.width * 16 }
    requires down { size.half ≤ LARGEST_TABLE_SIDE }
    requires shift { step.shift ≤ 12 }
    requires read { IsReadable taps.now other.now.now }
    requires changed { All (λ v. unsigned_abs v ≤ 2 ^ 21) own.old.now }
    ensures value { RowLifted (with_taps step taps.now) size.width size.half turn wait own.old.now other.now.now
        own.new.now }
    ensures same { own.new.ghost_name ≡ own.old.ghost_name }
{
    if turn < wait {
        return;
    }
    let n = turn - wait;
    if n < size.half {
        lift_row(own, other, size, step, taps, n);
    }
}

/// The even rows of a level that are at work, and its odd ones, in a turn.
#[derive(Drop)]
pub struct Rings<'a> {
    pub evens: &'a mut [i32],
    pub odds: &'a mut [i32],
    pub size: HalfSize,
    pub turn: usize,
    /// How many turns the last step waited for its first row.
    pub wait: usize,
    /// How many rows before its own that step reads.
    pub lead: usize,
}

impl Liftable for Rings<'_> {
    ghost can_lift = { CanLiftRings };

    ghost lifted = { RingsLifted };

    #[inline(always)]
    fn lift(&mut self, change: Change, shift: u32, lead: usize, taps: &[i32]) {
        self.wait += self
            .lead
            .max(taps.len().saturating_sub(1).saturating_sub(lead));
        self.lead = lead;
        let Rings {
            evens,
            odds,
            size,
            turn,
            wait,
            ..
        } = self;
        let step = Step::new(change, shift, lead);
        if step.parity == 0 {
            lift_in_turn(evens, odds, *size, step, taps, *turn, *wait);
        } else {
            lift_in_turn(odds, evens, *size, step, taps, *turn, *wait);
        }
    }
}

/// Runs a turn of a wavelet's synthesis.
#[inline(never)]
pub fn run_turn(wavelet: u8, evens: &mut [i32], odds: &mut [i32], size: HalfSize, turn: usize)
    requires wavelet { IsWavelet wavelet }
    requires down { size.half ≤ LARGEST_TABLE_SIDE }
    requires can { CanTurn wavelet size.width size.half turn evens.old odds.old }
    ensures turned { (lines : ℕ → List ℤ) → AreNarrowLines size.width lines
        → AfterTurns wavelet size.width size.half turn (turn + 1) lines evens.old odds.old
        → AfterTurns wavelet size.width size.half (turn + 1) (turn + 1) lines evens.new odds.new }
    ensures evens_bound { All (λ v. unsigned_abs v ≤ (most_of wavelet).0) evens.new }
    ensures odds_bound { All (λ v. unsigned_abs v ≤ (most_of wavelet).1) odds.new }
{
    let mut rings = Rings {
        evens,
        odds,
        size,
        turn,
        wait: 0,
        lead: 0,
    };
    wavelets::synthesise(wavelet, &mut rings);
}
