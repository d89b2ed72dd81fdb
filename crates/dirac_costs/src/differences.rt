ghost use Rattle.std.specs.Prelude.{◌≡◌, ℕ, pos, ◌+◌, ◌*◌, ◌<◌, ◌≤◌, ◌^◌, ◌-ℤ◌, unsigned_abs, length, slice_index_or};
ghost use Rattle.std.specs.List.{All};
ghost use Rattle.dirac_upconvert.specs.HalfSamples.{IsSample};
ghost use Rattle.dirac_costs.specs.Windows.{row_from, sample_at, values_apart, values_from};

use dirac_common::Plane;

/// How far two samples are apart.
#[inline(always)]
pub fn difference(a: i16, b: i16) -> u32
    ensures value { result ≡ unsigned_abs (a -ℤ b) }
    ensures at_most_65535 { result ≤ 65535 }
{
    u32::from(a.abs_diff(b))
}

/// The sum of absolute differences of `count` values of two lists, each from a place on.
#[inline(always)]
pub fn values_differences(a: &[i16], first: usize, b: &[i16], second: usize, count: usize) -> u32
    requires inside_a { first + count ≤ length a.now }
    requires inside_b { second + count ≤ length b.now }
    requires at_most_4096 { count ≤ 4096 }
    ensures value { result ≡ values_apart (values_from a.now first) (values_from b.now second) count }
    ensures at_most_65535_each { result ≤ 65535 * count }
{
    let mut sum = 0;
    for k in 0..count {
        sum += difference(a[first + k], b[second + k]);
    }
    sum
}

/// The sum of absolute differences of row `y` of a plane, from column `x` on, and of these values, where the plane
/// ends inside the row.
fn clamped_differences(plane: &Plane, x: u32, y: u32, values: &[i16]) -> u32
    requires at_most_4096 { length values.now ≤ 4096 }
    requires x { x ≤ 2 ^ 20 }
    ensures value { result ≡ values_apart (row_from plane.now x y) (values_from values.now 0) (length values.now) }
    ensures at_most_65535_each { result ≤ 65535 * length values.now }
{
    let mut sum = 0;
    for k in 0..values.len() {
        sum += difference(nearest(plane, x + k as u32, y), values[k]);
    }
    sum
}

/// The sum of absolute differences of row `y` of a plane, from column `x` on, and of these values. Beyond its edges the
/// plane's last samples go on.
pub fn row_differences(plane: &Plane, x: u32, y: u32, values: &[i16]) -> u32
    requires at_most_4096 { length values.now ≤ 4096 }
    requires x { x ≤ 2 ^ 20 }
    ensures value { result ≡ values_apart (row_from plane.now x y) (values_from values.now 0) (length values.now) }
    ensures at_most_65535_each { result ≤ 65535 * length values.now }
{
    if x as usize + values.len() <= plane.width() as usize {
        values_differences(nearest_row(plane, y), x as usize, values, 0, values.len())
    } else {
        clamped_differences(plane, x, y, values)
    }
}

/// The sample in this column and row, or the nearest one.
#[inline(always)]
pub(crate) fn nearest(plane: &Plane, x: u32, y: u32) -> i16
    ensures value { result ≡ sample_at plane.now x y }
    ensures sample { All IsSample plane.now.values → IsSample result }
{
    plane.clamped(i64::from(x), i64::from(y))
}

/// The row, or the last one.
#[inline(always)]
pub(crate) fn nearest_row(plane: &Plane, y: u32) -> &[i16]
    ensures value { (x : ℕ) → x < plane.now.width → slice_index_or result.now x (pos 0) ≡ sample_at plane.now x y }
    ensures len { length result.now ≡ plane.now.width }
    ensures samples { All IsSample plane.now.values → All IsSample result.now }
{
    plane.row(y.min(plane.height() - 1))
}
