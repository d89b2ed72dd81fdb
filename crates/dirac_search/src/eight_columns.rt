ghost use Rattle.std.specs.Prelude.{◌≡◌, ℕ, pos, ◌+◌, ◌^◌, ◌*◌, ◌<◌, ◌≤◌, ◌-ℤ◌, length, slice_index};
ghost use Rattle.dirac_costs.specs.Sums.{sum_below};
ghost use Rattle.dirac_search.specs.Rows.{AddsEight, IsRowNearest, apart_at, four_rows_apart, four_rows_from};

use crate::places::nearest_row;
use dirac_common::Plane;
use dirac_costs::difference;

/// How far two samples are apart, `k` places behind two places.
#[inline(always)]
#[tactic(auto, unfolding(crate::specs::Rows::apart_at))]
fn difference_behind(a: &[i16], first: usize, b: &[i16], second: usize, k: usize) -> u32
    requires inside_a { first + k < length a.now }
    requires inside_b { second + k < length b.now }
    ensures value { result ≡ apart_at a.now first b.now second k }
    ensures at_most_65535 { result ≤ 65535 }
{
    difference(a[first + k], b[second + k])
}

/// Adds the absolute differences of eight samples of two rows, each from a place on, to eight sums.
#[inline(always)]
fn add_eight(lanes: &mut [u32], a: &[i16], first: usize, b: &[i16], second: usize)
    requires eight_lanes { length lanes.old ≡ 8 }
    requires at_most_196605 { (k : ℕ) → k < 8 → slice_index lanes.old k ≤ 196605 }
    requires inside_a { first + 8 ≤ length a.now }
    requires inside_b { second + 8 ≤ length b.now }
    ensures added { AddsEight lanes.old lanes.new (apart_at a.now first b.now second) }
    ensures at_most_65535_more { (k : ℕ) → k < 8 → slice_index lanes.new k ≤ slice_index lanes.old k + 65535 }
{
    let left = &a[first..first + 8];
    let right = &b[second..second + 8];
    for k in 0..8 {
        lanes[k] += difference_behind(left, 0, right, 0, k);
    }
}

/// The sum of eight sums.
#[inline(always)]
fn sum_of_eight(lanes: &[u32]) -> u32
    requires eight_lanes { length lanes.now ≡ 8 }
    requires at_most_262140 { (k : ℕ) → k < 8 → slice_index lanes.now k ≤ 262140 }
    ensures value { result ≡ sum_below (slice_index lanes.now) 8 }
    ensures at_most_2097120 { result ≤ 2097120 }
{
    let mut sum = 0;
    for k in 0..8 {
        sum += lanes[k];
    }
    sum
}

/// Lends row `y` of the source, or the nearest one.
#[inline(always)]
fn source_row(source: &Plane, y: u32) -> &[i16]
    ensures value { IsRowNearest source.now (pos y) result.now }
    ensures len { length result.now ≡ source.now.width }
{
    nearest_row(source, i64::from(y))
}

/// The place among a plane's values, by rows, of the first of eight samples of four rows that it has.
#[inline(always)]
fn place(plane: &Plane, x: usize, y: u32) -> usize
    requires x { x + 8 ≤ plane.now.width }
    requires y { y + 4 ≤ plane.now.height }
    ensures value { result ≡ y * plane.now.width + x }
    ensures inside { result + 3 * plane.now.width + 8 ≤ length plane.now.values }
{
    y as usize * plane.width() as usize + x
}

/// The sum of absolute differences of eight samples of four rows of the source, from row `y` on, and of four rows of
/// the reference, from row `down` on, all of them inside.
#[inline(always)]
pub fn four_rows(
    source: &Plane,
    x: usize,
    y: u32,
    reference: &Plane,
    across: usize,
    down: u32,
) -> u32
    requires x { x + 8 ≤ source.now.width }
    requires y { y + 4 ≤ source.now.height }
    requires across { across + 8 ≤ reference.now.width }
    requires down { down + 4 ≤ reference.now.height }
    ensures value { result ≡ four_rows_apart source.now reference.now x across y (pos down -ℤ pos y) 8 }
    ensures at_most_2097120 { result ≤ 2097120 }
{
    let first = place(source, x, y);
    let second = place(reference, across, down);
    let left = source.width() as usize;
    let right = reference.width() as usize;
    let a = source.values();
    let b = reference.values();
    let mut lanes = [0u32; 8];
    add_eight(&mut lanes, a, first, b, second);
    add_eight(&mut lanes, a, first + left, b, second + right);
    add_eight(&mut lanes, a, first + 2 * left, b, second + 2 * right);
    add_eight(&mut lanes, a, first + 3 * left, b, second + 3 * right);
    sum_of_eight(&lanes)
}

/// The sum of absolute differences of eight samples of four rows of the source, from row `y` on, and of these samples,
/// eight a row.
#[inline(always)]
pub fn four_rows_beside(source: &Plane, x: usize, y: u32, samples: &[i16]) -> u32
    requires y { y ≤ 2 ^ 20 }
    requires x { x + 8 ≤ source.now.width }
    requires four_rows_of_eight { length samples.now ≡ 32 }
    ensures value { result ≡ four_rows_from source.now x y samples.now }
    ensures at_most_2097120 { result ≤ 2097120 }
{
    let mut lanes = [0u32; 8];
    add_eight(&mut lanes, source_row(source, y), x, samples, 0);
    add_eight(&mut lanes, source_row(source, y + 1), x, samples, 8);
    add_eight(&mut lanes, source_row(source, y + 2), x, samples, 16);
    add_eight(&mut lanes, source_row(source, y + 3), x, samples, 24);
    sum_of_eight(&lanes)
}
