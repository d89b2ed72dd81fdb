ghost use Rattle.std.specs.Prelude.{◌≡◌, true, pos, ◌+◌, ◌-◌, ◌*◌, ◌/◌, ◌%◌, ◌^◌, ◌<◌, ◌≤◌, ◌+ℤ◌, ◌*ℤ◌};
ghost use Rattle.std.specs.Prelude.{length, slice_index_or, slice_set, unsigned_abs};
ghost use Rattle.std.specs.List.{sum_by};
ghost use Rattle.dirac_lift.specs.Changes.{is_minus, parity_of, with_taps};
ghost use Rattle.dirac_lift.specs.Lifting.{PlacesWithin, lift, moved, new_at, own, rounded};
ghost use Rattle.dirac_lift.specs.Lifting.{value_read, weighted};

/// What a lifting step does: it changes the even or the odd places of a line, by taking or adding a rounded
/// weighted sum of the others.
#[derive(Clone, Copy)]
pub enum Change {
    EvenMinus,
    EvenPlus,
    OddMinus,
    OddPlus,
}

/// A lifting step but for its taps. Places stand in pairs, an even one before an odd one.
#[derive(Clone, Copy)]
pub struct Step {
    /// 0: the even places change and the odd ones are read; 1: the other way round.
    pub parity: usize,
    /// Whether the rounded sum is taken away, and not added.
    pub minus: bool,
    /// The sum is divided by 2 to this power.
    pub shift: u32,
    /// How many pairs before the changed one the first tap reads; each further tap reads one pair later.
    pub lead: usize,
}

impl Step {
    #[inline(always)]
    pub fn new(change: Change, shift: u32, lead: usize) -> Step
        ensures value { result ≡ record {
          parity = parity_of change;
          minus = is_minus change;
          shift = shift;
          lead = lead;
        } }
        ensures bound { result.parity ≤ 1 }
    {
        let (parity, minus) = match change {
            Change::EvenMinus => (0, true),
            Change::EvenPlus => (0, false),
            Change::OddMinus => (1, true),
            Change::OddPlus => (1, false),
        };
        Step {
            parity,
            minus,
            shift,
            lead,
        }
    }
}

/// One more tap of a weighted sum.
#[inline(always)]
pub fn multiply_add(sum: i128, tap: i32, value: i128) -> i128
    requires { unsigned_abs sum + unsigned_abs tap * unsigned_abs value ≤ 2 ^ 126 }
    ensures { result ≡ sum +ℤ tap *ℤ value }
{
    sum + i128::from(tap) * value
}

/// A sum divided by 2 to the power `shift`, to the nearest.
#[inline(always)]
pub fn rounded_sum(sum: i128, shift: u32) -> i128
    requires sum { unsigned_abs sum ≤ 2 ^ 126 }
    requires shift { shift ≤ 32 }
    ensures value { result ≡ rounded shift sum }
    ensures bound { unsigned_abs result ≤ 2 ^ 126 + 1 }
{
    let half = (1i128 << shift) >> 1;
    (sum + half) >> shift
}

/// A value after a change.
#[inline(always)]
pub fn moved_value(value: i128, change: i128, minus: bool) -> i128
    requires { unsigned_abs value + unsigned_abs change < 2 ^ 127 }
    ensures { result ≡ moved minus value change }
{
    if minus {
        value - change
    } else {
        value + change
    }
}

/// The weighted sum for pair `n` where a tap may read beyond an end of the line.
#[inline(always)]
fn weighted_clamped(line: &[i128], step: Step, taps: &[i32], n: usize) -> i128
    requires parity { step.parity ≤ 1 }
    requires pair { n < length line.now / 2 }
    requires values { PlacesWithin (2 ^ 112) (1 - step.parity) line.now }
    requires taps { sum_by unsigned_abs taps.now ≤ 2 ^ 14 }
    ensures value { result ≡ weighted taps.now (value_read step.parity step.lead line.now n) (length taps.now) }
    ensures bound { unsigned_abs result ≤ 2 ^ 126 }
{
    let last = line.len() / 2 - 1;
    let mut sum = 0i128;
    for k in 0..taps.len() {
        let pair = (n + k).saturating_sub(step.lead).min(last);
        sum = multiply_add(sum, taps[k], line[2 * pair + (1 - step.parity)]);
    }
    sum
}

/// The weighted sum for pair `n` where all taps read inside the line.
#[inline(always)]
fn weighted_inside(line: &[i128], step: Step, taps: &[i32], n: usize) -> i128
    requires parity { step.parity ≤ 1 }
    requires first { step.lead ≤ n }
    requires last { n + length taps.now ≤ length line.now / 2 + step.lead }
    requires values { PlacesWithin (2 ^ 112) (1 - step.parity) line.now }
    requires taps { sum_by unsigned_abs taps.now ≤ 2 ^ 14 }
    ensures value { result ≡ weighted taps.now (value_read step.parity step.lead line.now n) (length taps.now) }
    ensures bound { unsigned_abs result ≤ 2 ^ 126 }
{
    let first = 2 * (n - step.lead) + (1 - step.parity);
    let mut sum = 0i128;
    for k in 0..taps.len() {
        sum = multiply_add(sum, taps[k], line[first + 2 * k]);
    }
    sum
}

/// The weighted sum for pair `n`, of which all taps read inside the line or some may read beyond an end of it.
#[inline(always)]
fn weighted_sum(line: &[i128], step: Step, taps: &[i32], n: usize, inside: bool) -> i128
    requires parity { step.parity ≤ 1 }
    requires pair { n < length line.now / 2 }
    requires inside { inside ≡ true → (step.lead ≤ n) × (n + length taps.now ≤ length line.now / 2 + step.lead) }
    requires values { PlacesWithin (2 ^ 112) (1 - step.parity) line.now }
    requires taps { sum_by unsigned_abs taps.now ≤ 2 ^ 14 }
    ensures value { result ≡ weighted taps.now (value_read step.parity step.lead line.now n) (length taps.now) }
    ensures bound { unsigned_abs result ≤ 2 ^ 126 }
{
    if inside {
        weighted_inside(line, step, taps, n)
    } else {
        weighted_clamped(line, step, taps, n)
    }
}

/// Changes pair `n`.
#[inline(always)]
fn lift_pair(line: &mut [i128], step: Step, taps: &[i32], n: usize, inside: bool)
    requires parity { step.parity ≤ 1 }
    requires pair { n < length line.old / 2 }
    requires inside { inside ≡ true → (step.lead ≤ n) × (n + length taps.now ≤ length line.old / 2 + step.lead) }
    requires shift { step.shift ≤ 32 }
    requires read { PlacesWithin (2 ^ 112) (1 - step.parity) line.old }
    requires changed { unsigned_abs (slice_index_or line.old (own step.parity n) (pos 0)) ≤ 2 ^ 112 }
    requires taps { sum_by unsigned_abs taps.now ≤ 2 ^ 14 }
    ensures { line.new ≡ slice_set line.old (own step.parity n) (new_at (with_taps step taps.now) line.old n) }
{
    let sum = weighted_sum(line, step, taps, n, inside);
    let at = 2 * n + step.parity;
    line[at] = moved_value(line[at], rounded_sum(sum, step.shift), step.minus);
}

/// One lifting step over a line, in place: it reads only places that it doesn't write. The pairs near the
/// ends, whose taps are clamped, stand apart from the inside of the line.
#[inline(always)]
pub fn lift_by(line: &mut [i128], step: Step, taps: &[i32])
    requires parity { step.parity ≤ 1 }
    requires shift { step.shift ≤ 32 }
    requires taps { sum_by unsigned_abs taps.now ≤ 2 ^ 14 }
    requires even { length line.old % 2 ≡ 0 }
    requires evens { PlacesWithin (2 ^ 112) 0 line.old }
    requires odds { PlacesWithin (2 ^ 112) 1 line.old }
    ensures { line.new ≡ lift (with_taps step taps.now) line.old }
{
    let half = line.len() / 2;
    let low = step.lead.min(half);
    let reach = taps.len().saturating_sub(step.lead);
    let high = half.saturating_sub(reach).max(low);
    'left: for n in 0..low {
        lift_pair(line, step, taps, n, false);
    }
    'inside: for n in low..high {
        lift_pair(line, step, taps, n, true);
    }
    'right: for n in high..half {
        lift_pair(line, step, taps, n, false);
    }
}
