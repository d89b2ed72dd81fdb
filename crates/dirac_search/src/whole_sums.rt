ghost use Rattle.std.specs.Prelude.{◌≡◌, pos, ◌*◌, ◌^◌, ◌≤◌, ◌-ℤ◌, unsigned_abs, true, IsTrue};
ghost use Rattle.dirac_search.specs.Candidates.{IsWithinReach};
ghost use Rattle.dirac_search.specs.Costs.{StopsAt};
ghost use Rattle.dirac_search.specs.Rows.{AreColumns, clamped_row, row_apart, whole_row_apart};
ghost use Rattle.dirac_search.specs.Tried.{HasColumns, HasFours, IsTried, whole_sum};

use crate::eight_columns::four_rows;
use crate::places::{column, is_inside, moved, moved_inside, nearest_row, sample_behind};
use crate::tried::{Tried, if_below};
use dirac_common::{Plane, Vector};
use dirac_costs::{difference, values_differences};

/// How far a sample of the source and one of the reference are apart, `k` places behind these positions, which are
/// clamped.
fn clamped_difference(
    source: &Plane,
    x: u32,
    y: u32,
    reference: &Plane,
    across: i64,
    down: i64,
    k: usize,
) -> u32
    requires x { x ≤ 2 ^ 20 }
    requires across { unsigned_abs across ≤ 2 ^ 25 }
    requires at_most_16 { k ≤ 16 }
    ensures value { result ≡ unsigned_abs (clamped_row source.now (pos x) (pos y) k -ℤ clamped_row reference.now across
        down k) }
    ensures at_most_65535 { result ≤ 65535 }
{
    difference(
        sample_behind(source, i64::from(x), i64::from(y), k),
        sample_behind(reference, across, down, k),
    )
}

/// The sum of absolute differences of `count` samples of a row of the source and of one of the reference, whose
/// positions are clamped.
#[tactic(auto, unfolding(crate::specs::Rows::row_apart))]
fn sum_clamped(
    source: &Plane,
    x: u32,
    y: u32,
    reference: &Plane,
    across: i64,
    down: i64,
    count: usize,
) -> u32
    requires x { x ≤ 2 ^ 20 }
    requires across { unsigned_abs across ≤ 2 ^ 25 }
    requires at_most_16 { count ≤ 16 }
    ensures value { result ≡ row_apart source.now reference.now (pos x) (pos y) across down count }
    ensures at_most_65535_each { result ≤ 65535 * count }
{
    let mut sum = 0;
    for k in 0..count {
        sum += clamped_difference(source, x, y, reference, across, down, k);
    }
    sum
}

/// How many columns a window has, and whether it is known that both planes have all of them.
#[derive(Clone, Copy)]
pub struct Columns {
    pub count: usize,
    pub are_inside: bool,
}

/// The sum of absolute differences of the samples of row `y` of the source, from column `x` on, and of those to which a
/// vector in whole samples leads.
#[inline(always)]
fn sum_whole_row(
    source: &Plane,
    reference: &Plane,
    x: u32,
    y: u32,
    v: Vector,
    columns: Columns,
) -> u32
    requires x { x ≤ 2 ^ 20 }
    requires y { y ≤ 2 ^ 20 }
    requires v { IsWithinReach (2 ^ 24) v }
    requires columns { AreColumns source.now reference.now x v columns }
    ensures value { result ≡ whole_row_apart source.now reference.now x y v columns.count }
    ensures at_most_65535_each { result ≤ 65535 * columns.count }
{
    let across = moved(x, v.x);
    let down = moved(y, v.y);
    if columns.are_inside {
        let left = nearest_row(source, i64::from(y));
        let right = nearest_row(reference, down);
        values_differences(left, x as usize, right, column(across), columns.count)
    } else {
        sum_clamped(source, x, y, reference, across, down, columns.count)
    }
}

/// What is summed already and the absolute differences of a window and of the whole samples to which a vector leads,
/// where all of it is below the limit: row by row.
#[inline(always)]
fn whole_below_by_rows(
    source: &Plane,
    reference: &Plane,
    tried: Tried,
    columns: Columns,
) -> Option<u32>
    requires tried { IsTried tried }
    requires columns { AreColumns source.now reference.now tried.window.x tried.v columns }
    requires of_the_window { columns.count ≡ tried.window.columns }
    ensures { StopsAt tried.limit (whole_sum source.now reference.now tried) result }
{
    let Tried { window, limit, .. } = tried;
    let mut sum = tried.first;
    'rows: for k in 0..window.rows {
        if sum >= limit {
            return None;
        }
        sum += sum_whole_row(source, reference, window.x, window.y + k, tried.v, columns);
    }
    if_below(sum, limit)
}

/// Columns that both planes have.
#[inline(always)]
fn inner(count: usize) -> Columns
    ensures count { result.count ≡ count }
    ensures are_inside { result.are_inside ≡ true }
{
    Columns {
        count,
        are_inside: true,
    }
}

/// Sums a window all of whose columns both planes have as `whole_below_by_rows` does. The sums over a row are compiled
/// anew for each number of columns that is common on the levels.
fn whole_below_by_columns(source: &Plane, reference: &Plane, tried: Tried) -> Option<u32>
    requires tried { IsTried tried }
    requires columns { HasColumns source.now reference.now tried }
    ensures { StopsAt tried.limit (whole_sum source.now reference.now tried) result }
{
    match tried.window.columns {
        1 => whole_below_by_rows(source, reference, tried, inner(1)),
        2 => whole_below_by_rows(source, reference, tried, inner(2)),
        4 => whole_below_by_rows(source, reference, tried, inner(4)),
        count => whole_below_by_rows(source, reference, tried, inner(count as usize)),
    }
}

/// Sums a window of eight columns, all of whose samples both planes have, as `whole_below_by_rows` does: four rows at a
/// time.
fn whole_below_by_four(source: &Plane, reference: &Plane, tried: Tried) -> Option<u32>
    requires tried { IsTried tried }
    requires columns { HasColumns source.now reference.now tried }
    requires fours { HasFours source.now reference.now tried }
    ensures { StopsAt tried.limit (whole_sum source.now reference.now tried) result }
{
    let Tried { window, limit, .. } = tried;
    let across = moved_inside(window.x, tried.v.x);
    let down = moved_inside(window.y, tried.v.y);
    let mut sum = tried.first;
    'fours: for k in 0..window.rows / 4 {
        if sum >= limit {
            return None;
        }
        sum += four_rows(
            source,
            window.x as usize,
            window.y + 4 * k,
            reference,
            across as usize,
            down + 4 * k,
        );
    }
    if_below(sum, limit)
}

/// Whether both planes have all columns of a window, and of the samples to which its vector leads.
#[inline(always)]
fn has_columns(source: &Plane, reference: &Plane, tried: Tried) -> bool
    requires { IsTried tried }
    ensures { IsTrue result → HasColumns source.now reference.now tried }
{
    let window = tried.window;
    let across = moved(window.x, tried.v.x);
    window.x + window.columns <= source.width()
        && is_inside(across, window.columns as usize, reference.width())
}

/// Whether both planes also have all its rows, and these are fours of rows of eight samples.
#[inline(always)]
fn has_fours(source: &Plane, reference: &Plane, tried: Tried) -> bool
    requires { IsTried tried }
    ensures { IsTrue result → HasFours source.now reference.now tried }
{
    let window = tried.window;
    if window.columns != 8 {
        return false;
    }
    if window.rows % 4 != 0 {
        return false;
    }
    if window.y + window.rows > source.height() {
        return false;
    }
    let down = moved(window.y, tried.v.y);
    is_inside(down, window.rows as usize, reference.height())
}

/// What is summed already and the absolute differences of a window and of the whole samples to which a vector leads,
/// where all of it is below the limit. The summing ends as soon as it isn't.
pub fn whole_below(source: &Plane, reference: &Plane, tried: Tried) -> Option<u32>
    requires { IsTried tried }
    ensures { StopsAt tried.limit (whole_sum source.now reference.now tried) result }
{
    if !has_columns(source, reference, tried) {
        let columns = Columns {
            count: tried.window.columns as usize,
            are_inside: false,
        };
        return whole_below_by_rows(source, reference, tried, columns);
    }
    if has_fours(source, reference, tried) {
        whole_below_by_four(source, reference, tried)
    } else {
        whole_below_by_columns(source, reference, tried)
    }
}
