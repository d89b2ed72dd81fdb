ghost use Rattle.std.specs.Prelude.{◌≡◌, ℕ, pos, negsuc, ◌+◌, ◌*◌, ◌^◌, ◌<◌, ◌≤◌, ◌+ℤ◌, ◌-ℤ◌, ◌≤ℤ◌, unsigned_abs};
ghost use Rattle.std.specs.Prelude.{length};
ghost use Rattle.std.specs.Int.{int_shr};
ghost use Rattle.dirac_costs.specs.Sums.{sum_below};
ghost use Rattle.dirac_pyramid.specs.Pyramid.{mean_of_four};
ghost use Rattle.dirac_search.specs.Costs.{StopsAt};
ghost use Rattle.dirac_search.specs.InBytes.{AreInside, apart_from_mean, corners_at, mean_behind, row_at, strided_rows};
ghost use Rattle.dirac_search.specs.InBytes.{strided_means};
ghost use Rattle.dirac_search.specs.Rows.{apart_at};
ghost use Rattle.dirac_search.specs.Tried.{IsTried};

use crate::tried::{Tried, if_below};

/// A sample of eight bits, raised so that it isn't below 0.
#[inline(always)]
fn raised(sample: i8) -> u8
    ensures { pos result ≡ sample +ℤ pos 128 }
{
    (i16::from(sample) + 128) as u8
}

/// How far two bytes are apart.
#[inline(always)]
fn bytes_apart(a: u8, b: u8) -> u32
    ensures value { result ≡ unsigned_abs (pos a -ℤ pos b) }
    ensures at_most_255 { result ≤ 255 }
{
    u32::from(a.max(b) - a.min(b))
}

/// How far two samples of eight bits are apart. As differences of bytes they are summed eight at a time.
#[inline(always)]
fn difference(a: i8, b: i8) -> u32
    ensures value { result ≡ unsigned_abs (a -ℤ b) }
    ensures at_most_255 { result ≤ 255 }
{
    bytes_apart(raised(a), raised(b))
}

/// How far two samples are apart, `k` places behind two places.
#[inline(always)]
#[tactic(auto, unfolding(crate::specs::Rows::apart_at))]
fn difference_behind(a: &[i8], first: usize, b: &[i8], second: usize, k: usize) -> u32
    requires inside_a { first + k < length a.now }
    requires inside_b { second + k < length b.now }
    ensures value { result ≡ apart_at a.now first b.now second k }
    ensures at_most_255 { result ≤ 255 }
{
    difference(a[first + k], b[second + k])
}

/// The sum of absolute differences of eight samples of two lists, each from a place on.
#[inline(always)]
fn eight_apart(a: &[i8], first: usize, b: &[i8], second: usize) -> u32
    requires inside_a { first + 8 ≤ length a.now }
    requires inside_b { second + 8 ≤ length b.now }
    ensures value { result ≡ sum_below (apart_at a.now first b.now second) 8 }
    ensures at_most_2040 { result ≤ 2040 }
{
    let mut sum = 0;
    for k in 0..8 {
        sum += difference_behind(a, first, b, second, k);
    }
    sum
}

#[inline(always)]
fn pair_sum(a: i8, b: i8) -> i16
    ensures value { result ≡ a +ℤ b }
    ensures least { negsuc 255 ≤ℤ result }
    ensures at_most_254 { result ≤ℤ pos 254 }
{
    i16::from(a) + i16::from(b)
}

/// The sum of four samples, with what rounds a quarter of it to the nearest.
#[inline(always)]
fn sum_to_round(first: i16, second: i16) -> i16
    requires first { (negsuc 255 ≤ℤ first) × (first ≤ℤ pos 254) }
    requires second { (negsuc 255 ≤ℤ second) × (second ≤ℤ pos 254) }
    ensures value { result ≡ (first +ℤ second) +ℤ pos 2 }
    ensures least { negsuc 511 ≤ℤ result }
    ensures at_most_510 { result ≤ℤ pos 510 }
{
    first + second + 2
}

#[inline(always)]
fn quarter(sum: i16) -> i16
    requires least { negsuc 511 ≤ℤ sum }
    requires at_most_510 { sum ≤ℤ pos 510 }
    ensures value { result ≡ int_shr sum 2 }
    ensures least { negsuc 127 ≤ℤ result }
    ensures at_most_127 { result ≤ℤ pos 127 }
{
    sum >> 2
}

#[inline(always)]
fn narrowed(value: i16) -> i8
    requires least { negsuc 127 ≤ℤ value }
    requires at_most_127 { value ≤ℤ pos 127 }
    ensures { result ≡ value }
{
    value as i8
}

/// The mean of four samples, rounded to the nearest.
#[inline(always)]
fn mean(a: i8, b: i8, c: i8, d: i8) -> i8
    ensures { result ≡ mean_of_four a b c d }
{
    narrowed(quarter(sum_to_round(pair_sum(a, b), pair_sum(c, d))))
}

/// Rows in a list: where the first of them begins, and how far behind it the next does.
#[derive(Clone, Copy)]
pub struct Strided {
    pub first: usize,
    pub step: usize,
}

/// Where the samples stand between which others lie: those on the left and on the right above, and how far behind these
/// the ones below do.
#[derive(Clone, Copy)]
pub struct Corners {
    pub left: usize,
    pub right: usize,
    pub under: usize,
}

/// The mean of the samples `k` places behind four corners.
#[inline(always)]
fn mean_at(b: &[i8], corners: Corners, k: usize) -> i8
    requires left { (corners.left + corners.under) + k < length b.now }
    requires right { (corners.right + corners.under) + k < length b.now }
    ensures { result ≡ mean_behind b.now corners k }
{
    mean(
        b[corners.left + k],
        b[corners.right + k],
        b[corners.left + corners.under + k],
        b[corners.right + corners.under + k],
    )
}

/// How far a sample and the mean of four are apart, `k` places behind theirs.
#[inline(always)]
#[tactic(auto, unfolding(crate::specs::InBytes::apart_from_mean))]
fn mean_difference(a: &[i8], first: usize, b: &[i8], corners: Corners, k: usize) -> u32
    requires inside_a { first + k < length a.now }
    requires left { (corners.left + corners.under) + k < length b.now }
    requires right { (corners.right + corners.under) + k < length b.now }
    ensures value { result ≡ apart_from_mean a.now first b.now corners k }
    ensures at_most_255 { result ≤ 255 }
{
    difference(a[first + k], mean_at(b, corners, k))
}

/// The sum of absolute differences of eight samples and of the means of those at four corners.
#[inline(always)]
fn eight_from_means(a: &[i8], first: usize, b: &[i8], corners: Corners) -> u32
    requires inside_a { first + 8 ≤ length a.now }
    requires left { (corners.left + corners.under) + 8 ≤ length b.now }
    requires right { (corners.right + corners.under) + 8 ≤ length b.now }
    ensures value { result ≡ sum_below (apart_from_mean a.now first b.now corners) 8 }
    ensures at_most_2040 { result ≤ 2040 }
{
    let mut sum = 0;
    for k in 0..8 {
        sum += mean_difference(a, first, b, corners, k);
    }
    sum
}

/// Where row `k` begins.
#[inline(always)]
fn row_start(rows: Strided, k: u32) -> usize
    requires { rows.first + k * rows.step < 2 ^ 63 }
    ensures { result ≡ row_at rows k }
{
    rows.first + k as usize * rows.step
}

/// The corners of row `k`; rows are so many places apart.
#[inline(always)]
fn row_corners(corners: Corners, step: usize, k: u32) -> Corners
    requires left { corners.left + k * step < 2 ^ 63 }
    requires right { corners.right + k * step < 2 ^ 63 }
    ensures { result ≡ corners_at corners step k }
{
    let behind = k as usize * step;
    Corners {
        left: corners.left + behind,
        right: corners.right + behind,
        under: corners.under,
    }
}

/// What is summed already and the absolute differences of rows of eight samples of two lists, where all of it is below
/// the limit.
#[inline(always)]
pub fn rows_below(a: &[i8], left: Strided, b: &[i8], right: Strided, tried: Tried) -> Option<u32>
    requires tried { IsTried tried }
    requires left { AreInside left tried.window.rows (length a.now) }
    requires right { AreInside right tried.window.rows (length b.now) }
    ensures { StopsAt tried.limit (tried.first + sum_below (strided_rows a.now left b.now right) tried.window.rows)
        result }
{
    let mut sum = tried.first;
    'rows: for k in 0..tried.window.rows {
        if sum >= tried.limit {
            return None;
        }
        sum += eight_apart(a, row_start(left, k), b, row_start(right, k));
    }
    if_below(sum, tried.limit)
}

/// What is summed already and the absolute differences of rows of eight samples and of the means of those at four
/// corners, whose rows are so many places apart, where all of it is below the limit.
#[inline(always)]
pub fn means_below(
    a: &[i8],
    left: Strided,
    b: &[i8],
    corners: Corners,
    step: usize,
    tried: Tried,
) -> Option<u32>
    requires tried { IsTried tried }
    requires left { AreInside left tried.window.rows (length a.now) }
    requires corners_left { AreInside (record { first = corners.left + corners.under; step = step }) tried.window.rows
        (length b.now) }
    requires corners_right { AreInside (record { first = corners.right + corners.under; step = step })
        tried.window.rows (length b.now) }
    ensures { StopsAt tried.limit
        (tried.first + sum_below (strided_means a.now left b.now corners step) tried.window.rows) result }
{
    let mut sum = tried.first;
    'rows: for k in 0..tried.window.rows {
        if sum >= tried.limit {
            return None;
        }
        sum += eight_from_means(a, row_start(left, k), b, row_corners(corners, step, k));
    }
    if_below(sum, tried.limit)
}
