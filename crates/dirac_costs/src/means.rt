ghost use Rattle.std.specs.Prelude.{◌≡◌, pos, ◌+◌, ◌*◌, ◌<◌, ◌≤◌, ◌^◌, ◌+ℤ◌, ◌*ℤ◌, unsigned_abs, length};
ghost use Rattle.std.specs.Int.{int_div_euclid};
ghost use Rattle.std.specs.List.{All};
ghost use Rattle.dirac_upconvert.specs.HalfSamples.{IsSample};
ghost use Rattle.dirac_upconvert.specs.SubSamples.{IsWithin};
ghost use Rattle.dirac_costs.specs.Sums.{total_below};
ghost use Rattle.dirac_costs.specs.Windows.{mean_over, row_from, sample_at, total_over, values_from};

use crate::differences::{nearest, nearest_row};
use crate::window::Window;
use dirac_common::Plane;

/// A sum of `count` samples and one more.
#[inline(always)]
fn with_sample(total: i32, count: usize, sample: i16) -> i32
    requires at_most_64 { count ≤ 64 }
    requires total { IsWithin count total }
    requires sample { IsSample sample }
    ensures value { result ≡ total +ℤ sample }
    ensures within { IsWithin (count + 1) result }
{
    total + i32::from(sample)
}

/// A sum of `count` samples and one of `more`.
fn with_row(total: i32, count: u32, row: i32, more: u32) -> i32
    requires at_most_4096 { count ≤ 4096 }
    requires at_most_64_more { more ≤ 64 }
    requires total { IsWithin count total }
    requires row { IsWithin more row }
    ensures value { result ≡ total +ℤ row }
    ensures within { IsWithin (count + more) result }
{
    total + row
}

/// The sum of `count` samples of a row from place `start` on.
#[inline(always)]
fn inner_total(row: &[i16], start: usize, count: usize) -> i32
    requires inside { start + count ≤ length row.now }
    requires at_most_64 { count ≤ 64 }
    requires samples { All IsSample row.now }
    ensures value { result ≡ total_below (values_from row.now start) count }
    ensures within { IsWithin count result }
{
    let mut total = 0;
    for k in 0..count {
        total = with_sample(total, k, row[start + k]);
    }
    total
}

/// The sum of `count` samples of row `y`, from column `x` on, where the plane ends inside the row.
fn clamped_total(plane: &Plane, x: u32, y: u32, count: u32) -> i32
    requires at_most_64 { count ≤ 64 }
    requires x { x ≤ 65536 }
    requires samples { All IsSample plane.now.values }
    ensures value { result ≡ total_below (row_from plane.now x y) count }
    ensures within { IsWithin count result }
{
    let mut total = 0;
    for k in 0..count {
        total = with_sample(total, k as usize, nearest(plane, x + k, y));
    }
    total
}

/// The sum of `count` samples of row `y`, from column `x` on.
fn row_total(plane: &Plane, x: u32, y: u32, count: u32) -> i32
    requires at_most_64 { count ≤ 64 }
    requires x { x ≤ 65536 }
    requires samples { All IsSample plane.now.values }
    ensures value { result ≡ total_below (row_from plane.now x y) count }
    ensures within { IsWithin count result }
{
    if x + count <= plane.width() {
        inner_total(nearest_row(plane, y), x as usize, count as usize)
    } else {
        clamped_total(plane, x, y, count)
    }
}

/// The sum of the samples of a window.
fn window_total(plane: &Plane, window: Window) -> i32
    requires at_most_64_columns { window.columns ≤ 64 }
    requires at_most_64_rows { window.rows ≤ 64 }
    requires x { window.x ≤ 65536 }
    requires y { window.y ≤ 65536 }
    requires samples { All IsSample plane.now.values }
    ensures value { result ≡ total_over window (sample_at plane.now) }
    ensures within { IsWithin (window.columns * window.rows) result }
{
    let mut total = 0;
    for b in 0..window.rows {
        let row = row_total(plane, window.x, window.y + b, window.columns);
        total = with_row(total, window.columns * b, row, window.columns);
    }
    total
}

/// Twice a sum of `count` samples, and `count`.
fn doubled(total: i32, count: u32) -> i32
    requires at_most_4096 { count ≤ 4096 }
    requires total { IsWithin count total }
    ensures value { result ≡ pos 2 *ℤ total +ℤ pos count }
    ensures below_2_24 { unsigned_abs result < 2 ^ 24 }
{
    2 * total + count as i32
}

/// A quotient that is a sample, rounded down.
fn quotient(sum: i32, parts: u32) -> i16
    requires sum { unsigned_abs sum < 2 ^ 24 }
    requires parts { (1 ≤ parts) × (parts ≤ 8192) }
    requires sample { IsSample (int_div_euclid sum (pos parts)) }
    ensures value { result ≡ int_div_euclid sum (pos parts) }
    ensures sample { IsSample result }
{
    sum.div_euclid(parts as i32) as i16
}

/// A sum of `count` samples divided by their number, to the nearest.
fn divided(total: i32, count: u32) -> i16
    requires at_least_1 { 1 ≤ count }
    requires at_most_4096 { count ≤ 4096 }
    requires total { IsWithin count total }
    ensures value { result ≡ int_div_euclid (pos 2 *ℤ total +ℤ pos count) (pos (2 * count)) }
    ensures sample { IsSample result }
{
    quotient(doubled(total, count), 2 * count)
}

/// The mean of a plane's samples in a window, to the nearest, halves up. Beyond its edges the plane's last samples go
/// on, and each place of the window counts.
pub fn mean(plane: &Plane, window: Window) -> i16
    requires columns { (1 ≤ window.columns) × (window.columns ≤ 64) }
    requires rows { (1 ≤ window.rows) × (window.rows ≤ 64) }
    requires x { window.x ≤ 65536 }
    requires y { window.y ≤ 65536 }
    requires samples { All IsSample plane.now.values }
    ensures value { result ≡ mean_over plane.now window }
    ensures sample { IsSample result }
{
    divided(window_total(plane, window), window.columns * window.rows)
}
