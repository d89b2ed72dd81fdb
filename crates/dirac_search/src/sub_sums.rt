ghost use Rattle.std.specs.Prelude.{◌≡◌, ◌+◌, ◌*◌, ◌%◌, ◌^◌, ◌<◌, ◌≤◌, length};
ghost use Rattle.dirac_search.specs.Candidates.{IsWithinReach};
ghost use Rattle.dirac_search.specs.Costs.{StopsAt};
ghost use Rattle.dirac_search.specs.Rows.{four_sub_rows_apart, sub_row_apart};
ghost use Rattle.dirac_search.specs.Tried.{IsTried, sub_sum};

use crate::eight_columns::four_rows_beside;
use crate::places::moved;
use crate::tried::{Tried, if_below};
use dirac_common::{Plane, Vector};
use dirac_costs::row_differences;
use dirac_upconvert::UpPlane;

/// A place counted in 2 to the power `precision` parts of a sample.
#[inline(always)]
pub fn parts(place: u32, precision: u8) -> u32
    requires place { place ≤ 2 ^ 20 }
    requires precision { precision ≤ 3 }
    ensures value { result ≡ 2 ^ precision * place }
    ensures at_most_8388608 { result ≤ 2 ^ 23 }
{
    match precision {
        0 => place,
        1 => 2 * place,
        2 => 4 * place,
        _ => 8 * place,
    }
}

/// The sum of absolute differences of row `y` of the source, from column `x` on, and of the samples to which a vector
/// in parts of a sample leads. `samples` is room for these samples.
#[inline(always)]
fn sum_sub_row(
    source: &Plane,
    up: &UpPlane,
    precision: u8,
    x: u32,
    y: u32,
    v: Vector,
    samples: &mut [i16],
) -> u32
    requires x { x ≤ 2 ^ 20 }
    requires y { y ≤ 2 ^ 20 }
    requires precision { precision ≤ 3 }
    requires v { IsWithinReach (2 ^ 24) v }
    requires at_most_16 { length samples.old ≤ 16 }
    ensures value { result ≡ sub_row_apart source.now up.now precision x y v (length samples.old) }
    ensures at_most_65535_each { result ≤ 65535 * length samples.old }
{
    let across = moved(parts(x, precision), v.x);
    let down = moved(parts(y, precision), v.y);
    up.sub_row(precision, across, down, samples);
    row_differences(source, x, y, samples)
}

/// The sum of absolute differences of four rows of eight samples of the source, from row `y` on, and of those to which
/// a vector in parts of a sample leads, where the source has all these columns.
#[inline(always)]
fn sum_four_sub_rows(source: &Plane, up: &UpPlane, precision: u8, x: u32, y: u32, v: Vector) -> u32
    requires x { x ≤ 2 ^ 20 }
    requires y { y ≤ 2 ^ 20 }
    requires columns { x + 8 ≤ source.now.width }
    requires precision { precision ≤ 3 }
    requires v { IsWithinReach (2 ^ 24) v }
    ensures value { result ≡ four_sub_rows_apart source.now up.now precision x y v }
    ensures at_most_2097120 { result ≤ 2097120 }
{
    let across = moved(parts(x, precision), v.x);
    let down = moved(parts(y, precision), v.y);
    let mut samples = [0i16; 32];
    up.sub_eight_by_four(precision, across, down, &mut samples);
    four_rows_beside(source, x as usize, y, &samples)
}

/// What is summed already and the absolute differences of a window and of the samples to which a vector in parts of a
/// sample leads, where all of it is below the limit: row by row.
fn sub_below_by_rows(source: &Plane, up: &UpPlane, precision: u8, tried: Tried) -> Option<u32>
    requires precision { precision ≤ 3 }
    requires tried { IsTried tried }
    ensures { StopsAt tried.limit (sub_sum source.now up.now precision tried) result }
{
    let Tried { window, limit, .. } = tried;
    let mut room = [0i16; 16];
    let samples = &mut room[..window.columns as usize];
    let mut sum = tried.first;
    'rows: for k in 0..window.rows {
        if sum >= limit {
            return None;
        }
        sum += sum_sub_row(
            source,
            up,
            precision,
            window.x,
            window.y + k,
            tried.v,
            samples,
        );
    }
    if_below(sum, limit)
}

/// Sums a window of eight columns that the source has as `sub_below_by_rows` does: four rows at a time.
fn sub_below_by_four(source: &Plane, up: &UpPlane, precision: u8, tried: Tried) -> Option<u32>
    requires precision { precision ≤ 3 }
    requires tried { IsTried tried }
    requires eight_columns { tried.window.columns ≡ 8 }
    requires fours_of_rows { tried.window.rows % 4 ≡ 0 }
    requires x { tried.window.x + 8 ≤ source.now.width }
    ensures { StopsAt tried.limit (sub_sum source.now up.now precision tried) result }
{
    let Tried { window, limit, .. } = tried;
    let mut sum = tried.first;
    'fours: for k in 0..window.rows / 4 {
        if sum >= limit {
            return None;
        }
        sum += sum_four_sub_rows(source, up, precision, window.x, window.y + 4 * k, tried.v);
    }
    if_below(sum, limit)
}

/// What is summed already and the absolute differences of a window and of the samples to which a vector in parts of a
/// sample leads, where all of it is below the limit. The summing ends as soon as it isn't.
pub fn sub_below(source: &Plane, up: &UpPlane, precision: u8, tried: Tried) -> Option<u32>
    requires precision { precision ≤ 3 }
    requires tried { IsTried tried }
    ensures { StopsAt tried.limit (sub_sum source.now up.now precision tried) result }
{
    let window = tried.window;
    if window.columns == 8 && window.rows % 4 == 0 && window.x + 8 <= source.width() {
        sub_below_by_four(source, up, precision, tried)
    } else {
        sub_below_by_rows(source, up, precision, tried)
    }
}
