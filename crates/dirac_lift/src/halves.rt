//! Lifting steps in 32 bits, over lines whose even and odd places stand in lists of their own.
ghost use Rattle.std.specs.Prelude.{◌≡◌, ℤ, pos, ◌+◌, ◌-◌, ◌*◌, ◌^◌, ◌<◌, ◌≤◌, ◌+ℤ◌, ◌*ℤ◌, unsigned_abs};
ghost use Rattle.std.specs.Prelude.{length, slice_index_or, slice_set};
ghost use Rattle.std.specs.List.{All};
ghost use Rattle.dirac_lift.specs.Changes.{with_taps};
ghost use Rattle.dirac_lift.specs.Halves.{HalfLifted, IsReadable, half_read};
ghost use Rattle.dirac_lift.specs.Liftables.{CanLiftHalves, HalvesLifted};
ghost use Rattle.dirac_lift.specs.Lifting.{moved, rounded, weighted};

use crate::liftable::Liftable;
use crate::step::{Change, Step};
use crate::zeros::are_zeros;

/// One more tap of a weighted sum.
#[inline(always)]
pub fn multiply_add(sum: i32, tap: i32, value: i32) -> i32
    requires { unsigned_abs sum + unsigned_abs tap * unsigned_abs value ≤ 2 ^ 31 - 2 ^ 22 }
    ensures { result ≡ sum +ℤ tap *ℤ value }
{
    sum + tap * value
}

/// A sum divided by 2 to the power `shift`, to the nearest.
#[inline(always)]
pub fn rounded_sum(sum: i32, shift: u32) -> i32
    requires sum { unsigned_abs sum ≤ 2 ^ 31 - 2 ^ 22 }
    requires shift { shift ≤ 12 }
    ensures value { result ≡ rounded shift sum }
    ensures bound { unsigned_abs result ≤ 2 ^ 31 - 2 ^ 22 + 2 ^ 11 }
{
    let half = (1i32 << shift) >> 1;
    (sum + half) >> shift
}

/// A value after a change.
#[inline(always)]
fn moved_value(value: i32, change: i32, minus: bool) -> i32
    requires { unsigned_abs value + unsigned_abs change < 2 ^ 31 }
    ensures { result ≡ moved minus value change }
{
    if minus {
        value - change
    } else {
        value + change
    }
}

/// Changes one value by a weighted sum.
#[inline(always)]
pub fn put_changed(own: &mut [i32], at: usize, sum: i32, step: Step)
    requires inside { at < length own.old }
    requires shift { step.shift ≤ 12 }
    requires sum { unsigned_abs sum ≤ 2 ^ 31 - 2 ^ 22 }
    requires changed { unsigned_abs (slice_index_or own.old at (pos 0)) ≤ 2 ^ 21 }
    ensures { own.new ≡ slice_set own.old at (moved step.minus (slice_index_or own.old at (pos 0))
        (rounded step.shift sum)) }
{
    own[at] = moved_value(own[at], rounded_sum(sum, step.shift), step.minus);
}

/// The weighted sum for pair `n` of line `x`, where a tap may read beyond an end of the line.
#[inline(always)]
fn weighted_clamped(
    other: &[i32],
    width: usize,
    half: usize,
    step: Step,
    taps: &[i32],
    n: usize,
    x: usize,
) -> i32
    requires len { length other.now ≡ width * half }
    requires across { x < width }
    requires pair { n < half }
    requires read { IsReadable taps.now other.now }
    ensures value { result ≡ weighted taps.now (half_read step.lead width half other.now n x) (length taps.now) }
    ensures bound { unsigned_abs result ≤ 2 ^ 31 - 2 ^ 22 }
{
    let last = half - 1;
    let mut sum = 0i32;
    for k in 0..taps.len() {
        let pair = (n + k).saturating_sub(step.lead).min(last);
        sum = multiply_add(sum, taps[k], other[pair * width + x]);
    }
    sum
}

/// The weighted sum for pair `n` of a single line, where all taps read inside it.
#[inline(always)]
fn weighted_inside(other: &[i32], step: Step, taps: &[i32], n: usize) -> i32
    requires first { step.lead ≤ n }
    requires last { n + length taps.now ≤ length other.now + step.lead }
    requires read { IsReadable taps.now other.now }
    ensures value { result ≡ weighted taps.now (half_read step.lead 1 (length other.now) other.now n 0)
        (length taps.now) }
    ensures bound { unsigned_abs result ≤ 2 ^ 31 - 2 ^ 22 }
{
    let first = n - step.lead;
    let mut sum = 0i32;
    for k in 0..taps.len() {
        sum = multiply_add(sum, taps[k], other[first + k]);
    }
    sum
}

/// One lifting step over `width` lines at once, pair by pair.
#[inline(always)]
fn lift_lines(own: &mut [i32], other: &[i32], width: usize, half: usize, step: Step, taps: &[i32])
    requires own_len { length own.old ≡ width * half }
    requires len { length other.now ≡ width * half }
    requires shift { step.shift ≤ 12 }
    requires read { IsReadable taps.now other.now }
    requires changed { All (λ v. unsigned_abs v ≤ 2 ^ 21) own.old }
    ensures { HalfLifted (with_taps step taps.now) width half own.old other.now own.new }
{
    for n in 0..half {
        for x in 0..width {
            let sum = weighted_clamped(other, width, half, step, taps, n, x);
            put_changed(own, n * width + x, sum, step);
        }
    }
}

/// One lifting step over a single line, which zeros don't change. The pairs near the ends, whose taps are clamped,
/// stand apart from the inside.
#[inline(always)]
fn lift_line(own: &mut [i32], other: &[i32], step: Step, taps: &[i32])
    requires alike { length other.now ≡ length own.old }
    requires shift { step.shift ≤ 12 }
    requires read { IsReadable taps.now other.now }
    requires changed { All (λ v. unsigned_abs v ≤ 2 ^ 21) own.old }
    ensures { HalfLifted (with_taps step taps.now) 1 (length own.old) own.old other.now own.new }
{
    if are_zeros(other) {
        return;
    }
    let half = own.len();
    let low = step.lead.min(half);
    let reach = taps.len().saturating_sub(step.lead);
    let high = half.saturating_sub(reach).max(low);
    'left: for n in 0..low {
        let sum = weighted_clamped(other, 1, half, step, taps, n, 0);
        put_changed(own, n, sum, step);
    }
    'inside: for n in low..high {
        let sum = weighted_inside(other, step, taps, n);
        put_changed(own, n, sum, step);
    }
    'right: for n in high..half {
        let sum = weighted_clamped(other, 1, half, step, taps, n, 0);
        put_changed(own, n, sum, step);
    }
}

/// One lifting step over one half of `width` lines, which reads the other half.
#[inline(always)]
fn lift_half(
    own: &mut &mut [i32],
    other: &&mut [i32],
    width: usize,
    half: usize,
    step: Step,
    taps: &[i32],
)
    requires own_len { length own.old.now ≡ width * half }
    requires len { length other.now.now ≡ width * half }
    requires shift { step.shift ≤ 12 }
    requires read { IsReadable taps.now other.now.now }
    requires changed { All (λ v. unsigned_abs v ≤ 2 ^ 21) own.old.now }
    ensures value { HalfLifted (with_taps step taps.now) width half own.old.now other.now.now own.new.now }
    ensures same { own.new.ghost_name ≡ own.old.ghost_name }
{
    if width == 1 {
        lift_line(own, other, step, taps);
    } else {
        lift_lines(own, other, width, half, step, taps);
    }
}

/// The even places of `width` lines and their odd ones, `half` of each in a line, in lists of their own.
#[derive(Drop)]
pub struct Halves<'a> {
    pub evens: &'a mut [i32],
    pub odds: &'a mut [i32],
    pub width: usize,
    pub half: usize,
}

impl Liftable for Halves<'_> {
    ghost can_lift = { CanLiftHalves };

    ghost lifted = { HalvesLifted };

    #[inline(always)]
    fn lift(&mut self, change: Change, shift: u32, lead: usize, taps: &[i32]) {
        let Halves {
            evens,
            odds,
            width,
            half,
        } = self;
        let step = Step::new(change, shift, lead);
        if step.parity == 0 {
            lift_half(evens, odds, *width, *half, step, taps);
        } else {
            lift_half(odds, evens, *width, *half, step, taps);
        }
    }
}
