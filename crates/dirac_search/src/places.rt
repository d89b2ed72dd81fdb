ghost use Rattle.std.specs.Prelude.{◌≡◌, pos, ◌^◌, ◌<◌, ◌≤◌, ◌+ℤ◌, ◌≤ℤ◌, IsTrue, unsigned_abs, length};
ghost use Rattle.dirac_common.specs.Table.{clamped_at, clamped_to};
ghost use Rattle.dirac_search.specs.Rows.{IsRowNearest};

use dirac_common::Plane;

/// The place from 0 to `size - 1` that is nearest to `place`.
#[inline(always)]
fn nearest(place: i64, size: u32) -> u32
    requires { 1 ≤ size }
    ensures value { result ≡ clamped_to place size }
    ensures inside { result < size }
{
    let last = size - 1;
    if place < 0 {
        0
    } else if place >= i64::from(last) {
        last
    } else {
        place as u32
    }
}

/// Lends the row of a plane that is nearest to place `y`.
#[inline(always)]
pub fn nearest_row(plane: &Plane, y: i64) -> &[i16]
    ensures value { IsRowNearest plane.now y result.now }
    ensures len { length result.now ≡ plane.now.width }
{
    plane.row(nearest(y, plane.height()))
}

/// Whether `count` samples from a place on lie inside a row of `width` samples.
#[inline(always)]
pub fn is_inside(place: i64, count: usize, width: u32) -> bool
    requires place { unsigned_abs place ≤ 2 ^ 32 }
    requires count { count ≤ 16 }
    ensures { IsTrue result → (pos 0 ≤ℤ place) × ((place +ℤ pos count) ≤ℤ pos width) }
{
    0 <= place && place + count as i64 <= i64::from(width)
}

/// The place to which a component of a vector leads.
#[inline(always)]
pub fn moved(place: u32, component: i32) -> i64
    requires place { place ≤ 2 ^ 23 }
    requires component { unsigned_abs component ≤ 2 ^ 24 }
    ensures value { result ≡ pos place +ℤ component }
    ensures at_most_33554432 { unsigned_abs result ≤ 2 ^ 25 }
{
    i64::from(place) + i64::from(component)
}

/// The column of a place that isn't left of the plane.
#[inline(always)]
pub fn column(place: i64) -> usize
    requires { pos 0 ≤ℤ place }
    ensures { place ≡ pos result }
{
    place as usize
}

/// The place to which a component of a vector leads, where it isn't left of the plane or above it.
#[inline(always)]
pub fn moved_inside(place: u32, component: i32) -> u32
    requires place { place ≤ 2 ^ 23 }
    requires component { unsigned_abs component ≤ 2 ^ 24 }
    requires inside { pos 0 ≤ℤ (pos place +ℤ component) }
    ensures { pos place +ℤ component ≡ pos result }
{
    moved(place, component) as u32
}

/// The place `count` samples behind another one.
#[inline(always)]
fn behind(place: i64, count: usize) -> i64
    requires place { unsigned_abs place ≤ 2 ^ 25 }
    requires count { count ≤ 16 }
    ensures { result ≡ place +ℤ pos count }
{
    place + count as i64
}

/// The sample `k` places behind a position, clamped to the plane.
pub fn sample_behind(plane: &Plane, x: i64, y: i64, k: usize) -> i16
    requires x { unsigned_abs x ≤ 2 ^ 25 }
    requires at_most_16 { k ≤ 16 }
    ensures { result ≡ clamped_at plane.now (x +ℤ pos k) y }
{
    plane.clamped(behind(x, k), y)
}
