ghost use Rattle.std.specs.Prelude.{◌≡◌, pos, ◌+◌, ◌*◌, ◌^◌, ◌≤◌, unsigned_abs, IsTrue, IfSome, length};
ghost use Rattle.dirac_upconvert.specs.SubSamples.{IsUp};
ghost use Rattle.dirac_search.specs.Costs.{StopsAt};
ghost use Rattle.dirac_search.specs.InBytes.{AreBytes, HasSpot, HasAllSamplesOfWindow, IsSpotBefore};
ghost use Rattle.dirac_search.specs.InBytes.{start_of as the_start};
ghost use Rattle.dirac_search.specs.Tried.{IsTried, sub_sum};

use crate::byte_sums::{Corners, Strided, means_below, rows_below};
use crate::bytes::Bytes;
use crate::places::{column, moved};
use crate::sub_sums::{parts, sub_below};
use crate::tried::Tried;
use dirac_common::Plane;
use dirac_costs::Window;
use dirac_upconvert::UpPlane;

/// A place among samples and half samples in one direction, and how far behind it, in halves of a place, a position
/// lies.
#[derive(Clone, Copy)]
pub struct Spot {
    pub place: usize,
    pub rest: usize,
}

/// The spot of a position that is counted in halves or quarters of a sample.
#[inline(always)]
fn spot_of(precision: u8, position: usize) -> Spot
    requires precision { (1 ≤ precision) × (precision ≤ 2) }
    ensures spot { HasSpot precision (pos position) result }
    ensures place { result.place ≤ position }
{
    if precision == 1 {
        Spot {
            place: position,
            rest: 0,
        }
    } else {
        Spot {
            place: position / 2,
            rest: position % 2,
        }
    }
}

/// The spot to which a component of a vector leads from a place of a plane, where so many samples, a whole sample apart
/// from it on, lie before this end.
#[inline(always)]
fn spot_before(precision: u8, place: u32, component: i32, count: u32, end: u32) -> Option<Spot>
    requires precision { (1 ≤ precision) × (precision ≤ 2) }
    requires place { place ≤ 2 ^ 20 }
    requires component { unsigned_abs component ≤ 2 ^ 24 }
    requires count { count ≤ 16 }
    ensures { IfSome result (IsSpotBefore precision place component count end) }
{
    let position = moved(parts(place, precision), component);
    if position < 0 {
        return None;
    }
    let spot = spot_of(precision, column(position));
    if spot.place + 2 * count as usize + spot.rest <= end as usize {
        Some(spot)
    } else {
        None
    }
}

/// Whether a plane has a window, and that has rows of eight columns.
#[inline(always)]
fn is_inner(source: &Plane, window: Window) -> bool
    requires x { window.x ≤ 65536 }
    requires y { window.y ≤ 65536 }
    requires rows { window.rows ≤ 16 }
    ensures columns { IsTrue result → window.columns ≡ 8 }
    ensures has_rows { IsTrue result → 1 ≤ window.rows }
    ensures right { IsTrue result → window.x + 8 ≤ source.now.width }
    ensures bottom { IsTrue result → window.y + window.rows ≤ source.now.height }
{
    window.columns == 8
        && 1 <= window.rows
        && window.x + 8 <= source.width()
        && window.y + window.rows <= source.height()
}

/// The rows of a window among a plane's samples.
#[inline(always)]
fn source_rows(source: &Plane, window: Window) -> Strided
    requires right { window.x + 8 ≤ source.now.width }
    requires bottom { window.y + window.rows ≤ source.now.height }
    requires has_rows { 1 ≤ window.rows }
    ensures first { result.first ≡ window.y * source.now.width + window.x }
    ensures step { result.step ≡ source.now.width }
    ensures source_len { length source.now.values ≡ source.now.width * source.now.height }
{
    let step = source.width() as usize;
    Strided {
        first: window.y as usize * step + window.x as usize,
        step,
    }
}

/// Where column `x` of row `y` of the samples and half samples stands among lines of so many places.
#[inline(always)]
fn start_of(places: usize, x: usize, y: usize) -> usize
    requires places { places ≤ 4096 }
    requires x { x ≤ 2 ^ 26 }
    requires y { y ≤ 2 ^ 26 }
    ensures { result ≡ the_start places x y }
{
    (2 * y + x % 2) * places + x / 2
}

/// The number of places of a line.
#[inline(always)]
fn line_places(up: &UpPlane) -> usize
    ensures value { result ≡ up.now.width }
    ensures at_most_4096 { result ≤ 4096 }
    ensures lawful { IsUp up.now.width up.now.height up.now.table }
{
    up.width() as usize
}

/// Sums a window as `sub_below` does, where the spots are places.
#[inline(always)]
fn places_below(
    source: &Plane,
    up: &UpPlane,
    bytes: &Bytes,
    precision: u8,
    x: Spot,
    y: Spot,
    tried: Tried,
) -> Option<u32>
    requires bytes { AreBytes source.now bytes.now }
    requires precision { (1 ≤ precision) × (precision ≤ 2) }
    requires tried { IsTried tried }
    requires held { HasAllSamplesOfWindow source.now up.now precision x y tried }
    requires rests { (x.rest ≡ 0) × (y.rest ≡ 0) }
    requires has_rows { 1 ≤ tried.window.rows }
    ensures { StopsAt tried.limit (sub_sum source.now up.now precision tried) result }
{
    // planes that are searched in parts of a sample hold half samples
    let Some(lines) = up.lines() else {
        return sub_below(source, up, precision, tried);
    };
    let places = line_places(up);
    let rows = Strided {
        first: start_of(places, x.place, y.place),
        step: 4 * places,
    };
    rows_below(
        bytes.source.as_slice(),
        source_rows(source, tried.window),
        lines,
        rows,
        tried,
    )
}

/// Sums a window as `sub_below` does in quarters of a sample.
#[inline(always)]
fn quarters_below(
    source: &Plane,
    up: &UpPlane,
    bytes: &Bytes,
    precision: u8,
    x: Spot,
    y: Spot,
    tried: Tried,
) -> Option<u32>
    requires bytes { AreBytes source.now bytes.now }
    requires quarters { precision ≡ 2 }
    requires tried { IsTried tried }
    requires held { HasAllSamplesOfWindow source.now up.now precision x y tried }
    requires has_rows { 1 ≤ tried.window.rows }
    ensures { StopsAt tried.limit (sub_sum source.now up.now precision tried) result }
{
    // planes that are searched in parts of a sample hold half samples
    let Some(lines) = up.lines() else {
        return sub_below(source, up, precision, tried);
    };
    let places = line_places(up);
    let corners = Corners {
        left: start_of(places, x.place, y.place),
        right: start_of(places, x.place + x.rest, y.place),
        under: y.rest * (2 * places),
    };
    means_below(
        bytes.source.as_slice(),
        source_rows(source, tried.window),
        lines,
        corners,
        4 * places,
        tried,
    )
}

/// Sums a window as `sub_below` does, where the lines have all its samples.
#[inline(always)]
fn held_below(
    source: &Plane,
    up: &UpPlane,
    bytes: &Bytes,
    precision: u8,
    x: Spot,
    y: Spot,
    tried: Tried,
) -> Option<u32>
    requires bytes { AreBytes source.now bytes.now }
    requires precision { (1 ≤ precision) × (precision ≤ 2) }
    requires tried { IsTried tried }
    requires held { HasAllSamplesOfWindow source.now up.now precision x y tried }
    requires has_rows { 1 ≤ tried.window.rows }
    ensures { StopsAt tried.limit (sub_sum source.now up.now precision tried) result }
{
    if x.rest == 0 && y.rest == 0 {
        places_below(source, up, bytes, precision, x, y, tried)
    } else if precision == 2 {
        quarters_below(source, up, bytes, precision, x, y, tried)
    } else {
        sub_below(source, up, precision, tried)
    }
}

/// What is summed already and the absolute differences of a window and of the samples to which a vector in parts of a
/// sample leads, where all of it is below the limit: in bytes, where these have all the samples.
#[inline(always)]
pub fn sub_below_in_bytes(
    source: &Plane,
    up: &UpPlane,
    bytes: &Bytes,
    precision: u8,
    tried: Tried,
) -> Option<u32>
    requires bytes { AreBytes source.now bytes.now }
    requires precision { precision ≤ 3 }
    requires tried { IsTried tried }
    ensures { StopsAt tried.limit (sub_sum source.now up.now precision tried) result }
{
    let window = tried.window;
    if 1 <= precision && precision <= 2 && is_inner(source, window) {
        if let Some(x) = spot_before(precision, window.x, tried.v.x, 8, 2 * up.width()) {
            if let Some(y) = spot_before(
                precision,
                window.y,
                tried.v.y,
                window.rows,
                2 * up.height(),
            ) {
                return held_below(source, up, bytes, precision, x, y, tried);
            }
        }
    }
    sub_below(source, up, precision, tried)
}
