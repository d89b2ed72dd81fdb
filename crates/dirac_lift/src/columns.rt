ghost use Rattle.std.specs.Prelude.{◌≡◌, pos, ◌+◌, ◌-◌, ◌*◌, ◌/◌, ◌%◌, ◌^◌, ◌<◌, ◌≤◌, unsigned_abs, length};
ghost use Rattle.std.specs.Prelude.{slice_index_or, slice_set};
ghost use Rattle.std.specs.List.{sum_by};
ghost use Rattle.dirac_common.specs.Limits.{IsWavelet};
ghost use Rattle.dirac_lift.specs.Changes.{with_taps};
ghost use Rattle.dirac_lift.specs.Level.{column};
ghost use Rattle.dirac_lift.specs.Liftables.{CanLiftColumns, ColumnsLifted};
ghost use Rattle.dirac_lift.specs.Lifting.{PlacesWithin, lift, new_at, own, value_read, weighted};
ghost use Rattle.dirac_lift.specs.Places.{ColumnsBecome, ColumnsSafe, ColumnsSmall};
ghost use Rattle.dirac_lift.specs.Wavelets.{run, steps_of, taken_back};

use crate::liftable::Liftable;
use crate::step::{Change, Step, moved_value, multiply_add, rounded_sum};
use crate::wavelets;

#[inline(always)]
fn value_in_column(values: &[i128], width: usize, height: usize, x: usize, y: usize) -> i128
    requires len { length values.now ≡ width * height }
    requires across { x < width }
    requires down { y < height }
    ensures { result ≡ slice_index_or (column values.now width height x) y (pos 0) }
{
    values[y * width + x]
}

/// The weighted sum for pair `n` of column `x`.
#[inline(always)]
fn weighted_in_column(
    values: &[i128],
    width: usize,
    height: usize,
    step: Step,
    taps: &[i32],
    n: usize,
    x: usize,
) -> i128
    requires len { length values.now ≡ width * height }
    requires across { x < width }
    requires parity { step.parity ≤ 1 }
    requires pair { n < height / 2 }
    requires values { PlacesWithin (2 ^ 112) (1 - step.parity) (column values.now width height x) }
    requires taps { sum_by unsigned_abs taps.now ≤ 2 ^ 14 }
    ensures value { result ≡ weighted taps.now (value_read step.parity step.lead (column values.now width height x) n)
        (length taps.now) }
    ensures bound { unsigned_abs result ≤ 2 ^ 126 }
{
    let last = height / 2 - 1;
    let mut sum = 0i128;
    for k in 0..taps.len() {
        let pair = (n + k).saturating_sub(step.lead).min(last);
        sum = multiply_add(
            sum,
            taps[k],
            value_in_column(values, width, height, x, 2 * pair + (1 - step.parity)),
        );
    }
    sum
}

/// Changes pair `n` of column `x`.
#[inline(always)]
fn lift_column_place(
    values: &mut [i128],
    width: usize,
    height: usize,
    step: Step,
    taps: &[i32],
    n: usize,
    x: usize,
)
    requires len { length values.old ≡ width * height }
    requires across { x < width }
    requires parity { step.parity ≤ 1 }
    requires pair { n < height / 2 }
    requires shift { step.shift ≤ 32 }
    requires read { PlacesWithin (2 ^ 112) (1 - step.parity) (column values.old width height x) }
    requires changed { unsigned_abs (slice_index_or (column values.old width height x) (own step.parity n) (pos 0))
        ≤ 2 ^ 112 }
    requires taps { sum_by unsigned_abs taps.now ≤ 2 ^ 14 }
    ensures { values.new ≡ slice_set values.old (own step.parity n * width + x) (new_at (with_taps step taps.now)
        (column values.old width height x) n) }
{
    let sum = weighted_in_column(values, width, height, step, taps, n, x);
    let y = 2 * n + step.parity;
    let moved = moved_value(
        value_in_column(values, width, height, x, y),
        rounded_sum(sum, step.shift),
        step.minus,
    );
    values[y * width + x] = moved;
}

/// One lifting step over all columns of a plane, in place, row by row: a changed row is itself and a weighted
/// sum of whole rows.
#[inline(always)]
fn lift_columns_by(values: &mut [i128], width: usize, height: usize, step: Step, taps: &[i32])
    requires len { length values.old ≡ width * height }
    requires even { height % 2 ≡ 0 }
    requires parity { step.parity ≤ 1 }
    requires shift { step.shift ≤ 32 }
    requires taps { sum_by unsigned_abs taps.now ≤ 2 ^ 14 }
    requires magnitudes_bounded { ColumnsSmall width height values.old }
    ensures { ColumnsBecome (lift (with_taps step taps.now)) width height values.old values.new }
{
    for n in 0..height / 2 {
        for x in 0..width {
            lift_column_place(values, width, height, step, taps, n, x);
        }
    }
}

/// All columns of a plane, which are lifted in place.
#[derive(Drop)]
pub struct Columns<'a> {
    pub values: &'a mut [i128],
    pub width: usize,
    pub height: usize,
}

impl Liftable for Columns<'_> {
    ghost can_lift = { CanLiftColumns };

    ghost lifted = { ColumnsLifted };

    #[inline(always)]
    fn lift(&mut self, change: Change, shift: u32, lead: usize, taps: &[i32]) {
        let step = Step::new(change, shift, lead);
        lift_columns_by(self.values, self.width, self.height, step, taps);
    }
}

/// Synthesis of all columns of a plane.
#[inline(never)]
pub fn synth_columns(wavelet: u8, values: &mut [i128], width: usize, height: usize)
    requires wavelet { IsWavelet wavelet }
    requires len { length values.old ≡ width * height }
    requires even { height % 2 ≡ 0 }
    requires safe { ColumnsSafe (steps_of wavelet) width height values.old }
    ensures { ColumnsBecome (run (steps_of wavelet)) width height values.old values.new }
{
    let mut columns = Columns {
        values,
        width,
        height,
    };
    wavelets::synthesise(wavelet, &mut columns);
}

/// Analysis of all columns of a plane.
#[inline(never)]
pub fn analyse_columns(wavelet: u8, values: &mut [i128], width: usize, height: usize)
    requires wavelet { IsWavelet wavelet }
    requires len { length values.old ≡ width * height }
    requires even { height % 2 ≡ 0 }
    requires safe { ColumnsSafe (taken_back (steps_of wavelet)) width height values.old }
    ensures { ColumnsBecome (run (taken_back (steps_of wavelet))) width height values.old values.new }
{
    let mut columns = Columns {
        values,
        width,
        height,
    };
    wavelets::analyse(wavelet, &mut columns);
}
