ghost use Rattle.std.specs.Prelude.{◌≡◌, ℕ, pos, ◌+◌, ◌-◌, ◌*◌, ◌/◌, ◌%◌, ◌^◌, ◌<◌, ◌≤◌, ◌+ℤ◌, ◌≤ℤ◌, IsTrue, true};
ghost use Rattle.std.specs.Prelude.{unsigned_abs};
ghost use Rattle.std.specs.Prelude.{length, slice_index_or};
ghost use Rattle.dirac_upconvert.specs.HalfSamples.{IsSample};
ghost use Rattle.dirac_upconvert.specs.Phases.{place_in_row};
ghost use Rattle.dirac_upconvert.specs.Positions.{AreSamplesByRows, AreSamplesFrom, AreSidesFrom, AreWholeRows};
ghost use Rattle.dirac_upconvert.specs.Positions.{HoldSides, IsAtPlace, IsPositionNear, sample_from};
ghost use Rattle.dirac_upconvert.specs.Rests.{AreRests};
ghost use Rattle.dirac_upconvert.specs.SubSamples.{AreAlternateSamples, IsRest, IsWithin, PutFrom};
ghost use Rattle.dirac_upconvert.specs.SubSamples.{between_sides, bilinear, rounded, sum_of_four, mixed};

use crate::parts::{mix, rounded_sum, sample};
use crate::phases::{Phases, held_at, widened};
use dirac_common::LARGEST_SIDE;

/// The place `count` whole samples behind another one.
#[inline(always)]
pub fn ahead(place: i64, count: usize) -> i64
    requires place { unsigned_abs place ≤ 2 ^ 34 }
    requires count { count ≤ LARGEST_SIDE }
    ensures value { result ≡ place +ℤ pos (2 * count) }
    ensures at_most_2_35 { unsigned_abs result ≤ 2 ^ 35 }
{
    place + 2 * count as i64
}

#[inline(always)]
pub fn beside(place: i64) -> i64
    requires { unsigned_abs place ≤ 2 ^ 35 }
    ensures { result ≡ place +ℤ pos 1 }
{
    place + 1
}

/// Whether that many samples from a place of a row on, and the places behind them, lie inside the row.
#[inline(always)]
fn is_inside(place: i64, count: usize, width: u32) -> bool
    requires place { unsigned_abs place ≤ 2 ^ 34 }
    requires count { count ≤ LARGEST_SIDE }
    ensures { IsTrue result → (pos 0 ≤ℤ place) × ((place +ℤ pos (2 * count)) ≤ℤ pos width) }
{
    0 <= place && ahead(place, count) <= i64::from(width)
}

/// How far a position lies behind its places across and down, each of which has 2 to the power `bits` positions.
#[derive(Clone, Copy)]
pub struct Rests {
    pub bits: u32,
    pub right: i16,
    pub below: i16,
}

/// A position of a table: the places at or before it, and how far it lies behind them.
#[derive(Clone, Copy)]
pub struct Position {
    pub rests: Rests,
    pub across: i64,
    pub down: i64,
}

/// The position so many rows of whole samples below another one.
#[inline(always)]
pub fn lower(from: Position, rows: usize) -> Position
    requires from { IsPositionNear (2 ^ 34) (2 ^ 34) from }
    requires rows { rows ≤ LARGEST_SIDE }
    ensures rests { result.rests ≡ from.rests }
    ensures across { result.across ≡ from.across }
    ensures down { result.down ≡ from.down +ℤ pos (2 * rows) }
    ensures near { IsPositionNear (2 ^ 34) (2 ^ 35) result }
{
    Position {
        rests: from.rests,
        across: from.across,
        down: ahead(from.down, rows),
    }
}

/// The position so many whole samples behind another one of its row.
#[inline(always)]
fn behind(from: Position, columns: usize) -> Position
    requires from { IsPositionNear (2 ^ 33) (2 ^ 34) from }
    requires columns { columns ≤ LARGEST_SIDE }
    ensures rests { result.rests ≡ from.rests }
    ensures across { result.across ≡ from.across +ℤ pos (2 * columns) }
    ensures down { result.down ≡ from.down }
    ensures near { IsPositionNear (2 ^ 34) (2 ^ 34) result }
{
    Position {
        rests: from.rests,
        across: ahead(from.across, columns),
        down: from.down,
    }
}

/// Two sums of two samples, one above the other, weighted by the nearness of their places, and divided.
#[inline(always)]
fn settle(bits: u32, below: i16, above: i16, under: i16) -> i16
    requires bits { bits ≤ 2 }
    requires below { IsRest bits below }
    requires above { IsWithin (2 ^ bits * 1) above }
    requires under { IsWithin (2 ^ bits * 1) under }
    ensures { result ≡ rounded (2 * bits) (mixed (2 ^ bits) below above under) }
{
    rounded_sum(mix(bits, below, above, under), 2 * bits)
}

/// Two samples side by side, weighted by the nearness of their places.
#[inline(always)]
fn beside_each_other(bits: u32, right: i16, a: i16, b: i16) -> i16
    requires bits { bits ≤ 2 }
    requires right { IsRest bits right }
    requires a { IsSample a }
    requires b { IsSample b }
    ensures value { result ≡ mixed (2 ^ bits) right a b }
    ensures within { IsWithin (2 ^ bits * 1) result }
{
    mix(bits, right, a, b)
}

/// The sample between four others, two above and two below.
#[inline(always)]
pub fn between_four(rests: Rests, v00: i16, v10: i16, v01: i16, v11: i16) -> i16
    requires rests { AreRests rests }
    requires v00 { IsSample v00 }
    requires v10 { IsSample v10 }
    requires v01 { IsSample v01 }
    requires v11 { IsSample v11 }
    ensures { result ≡ rounded (2 * rests.bits) (sum_of_four (2 ^ rests.bits) rests.right rests.below v00 v10 v01 v11) }
{
    settle(
        rests.bits,
        rests.below,
        beside_each_other(rests.bits, rests.right, v00, v10),
        beside_each_other(rests.bits, rests.right, v01, v11),
    )
}

/// The sample between those of two rows at places `left` and `next`.
#[inline(always)]
fn between_rows(rests: Rests, above: &[i8], under: &[i8], left: usize, next: usize) -> i16
    requires rests { AreRests rests }
    requires left { (left < length above.now) × (left < length under.now) }
    requires next { (next < length above.now) × (next < length under.now) }
    ensures { result ≡ between_sides rests.bits rests.right rests.below above.now under.now left next }
{
    between_four(
        rests,
        widened(above[left]),
        widened(above[next]),
        widened(under[left]),
        widened(under[next]),
    )
}

/// Where the samples on the left of a few positions stand in a row, and where those on their right: each sample stands
/// behind the one of the position before.
#[derive(Clone, Copy)]
pub struct Sides {
    pub left: usize,
    pub next: usize,
}

/// The sides of the positions behind so many others.
#[inline(always)]
fn further(sides: Sides, count: usize) -> Sides
    requires left { sides.left + count < 2 ^ 63 }
    requires next { sides.next + count < 2 ^ 63 }
    ensures left { result.left ≡ sides.left + count }
    ensures next { result.next ≡ sides.next + count }
{
    Sides {
        left: sides.left + count,
        next: sides.next + count,
    }
}

/// The samples between those of two rows.
#[inline(always)]
fn all_between_rows(rests: Rests, above: &[i8], under: &[i8], sides: Sides, out: &mut [i16])
    requires rests { AreRests rests }
    requires inside { HoldSides sides (length out.old) above.now under.now }
    ensures { (k : ℕ) → k < length out.old → slice_index_or out.new k (pos 0)
        ≡ between_sides rests.bits rests.right rests.below above.now under.now (sides.left + k) (sides.next + k) }
{
    for k in 0..out.len() {
        out[k] = between_rows(rests, above, under, sides.left + k, sides.next + k);
    }
}

/// Writes a few samples into a list from place `first` on. They stand in a list of their own, whose length is a number
/// where the code is compiled, so that they are computed side by side.
#[inline(always)]
pub fn put(lanes: &[i16], out: &mut [i16], first: usize)
    requires inside { first + length lanes.now ≤ length out.old }
    ensures put { PutFrom first (length lanes.now) (λ k. slice_index_or lanes.now k (pos 0)) out.old out.new }
    ensures behind { (k : ℕ) → first + length lanes.now ≤ k → slice_index_or out.new k (pos 0)
        ≡ slice_index_or out.old k (pos 0) }
{
    for k in 0..lanes.len() {
        out[first + k] = lanes[k];
    }
}

/// Writes as many samples between those of two rows as there are lanes, into a list from place `first` on.
#[inline(always)]
fn put_between(
    rests: Rests,
    above: &[i8],
    under: &[i8],
    sides: Sides,
    lanes: &mut [i16],
    out: &mut [i16],
    first: usize,
)
    requires rests { AreRests rests }
    requires inside { HoldSides sides (length lanes.old) above.now under.now }
    requires lanes_inside { first + length lanes.old ≤ length out.old }
    ensures { PutFrom first (length lanes.old) (λ k. between_sides rests.bits rests.right rests.below above.now
        under.now (sides.left + k) (sides.next + k)) out.old out.new }
{
    all_between_rows(rests, above, under, sides, lanes);
    put(lanes, out, first);
}

/// A row of four to eight samples between those of two rows: the last four may be some that were written before.
#[inline(always)]
fn by_fours(rests: Rests, above: &[i8], under: &[i8], sides: Sides, out: &mut [i16])
    requires rests { AreRests rests }
    requires inside { HoldSides sides (length out.old) above.now under.now }
    requires at_least_4 { 4 ≤ length out.old }
    requires at_most_8 { length out.old ≤ 8 }
    ensures { (k : ℕ) → k < length out.old → slice_index_or out.new k (pos 0)
        ≡ between_sides rests.bits rests.right rests.below above.now under.now (sides.left + k) (sides.next + k) }
{
    let last = out.len() - 4;
    let mut first = [0i16; 4];
    put_between(rests, above, under, sides, &mut first, out, 0);
    let mut more = [0i16; 4];
    put_between(
        rests,
        above,
        under,
        further(sides, last),
        &mut more,
        out,
        last,
    );
}

/// A row of at least eight samples between those of two rows: the last eight may be some that were written before.
#[inline(always)]
fn by_eights(rests: Rests, above: &[i8], under: &[i8], sides: Sides, out: &mut [i16])
    requires rests { AreRests rests }
    requires inside { HoldSides sides (length out.old) above.now under.now }
    requires at_least_8 { 8 ≤ length out.old }
    ensures { (k : ℕ) → k < length out.old → slice_index_or out.new k (pos 0)
        ≡ between_sides rests.bits rests.right rests.below above.now under.now (sides.left + k) (sides.next + k) }
{
    let last = out.len() - 8;
    for i in 0..(last + 7) / 8 {
        let mut lanes = [0i16; 8];
        put_between(
            rests,
            above,
            under,
            further(sides, 8 * i),
            &mut lanes,
            out,
            8 * i,
        );
    }
    let mut lanes = [0i16; 8];
    put_between(
        rests,
        above,
        under,
        further(sides, last),
        &mut lanes,
        out,
        last,
    );
}

/// The samples between those of two rows: eight or four side by side.
#[inline(always)]
fn in_lanes(rests: Rests, above: &[i8], under: &[i8], sides: Sides, out: &mut [i16])
    requires rests { AreRests rests }
    requires inside { HoldSides sides (length out.old) above.now under.now }
    ensures { (k : ℕ) → k < length out.old → slice_index_or out.new k (pos 0)
        ≡ between_sides rests.bits rests.right rests.below above.now under.now (sides.left + k) (sides.next + k) }
{
    if out.len() >= 8 {
        by_eights(rests, above, under, sides, out);
    } else if out.len() >= 4 {
        by_fours(rests, above, under, sides, out);
    } else {
        all_between_rows(rests, above, under, sides, out);
    }
}

/// The samples of a row from place `at` on.
#[inline(always)]
fn copy_widened(row: &[i8], at: usize, out: &mut [i16])
    requires inside { at + length out.old ≤ length row.now }
    ensures { (k : ℕ) → k < length out.old → slice_index_or out.new k (pos 0)
        ≡ slice_index_or row.now (at + k) (pos 0) }
{
    for k in 0..out.len() {
        out[k] = widened(row[at + k]);
    }
}

/// Writes as many samples of a row, from place `at` on, as there are lanes, into a list from place `first` on.
#[inline(always)]
fn put_widened(row: &[i8], at: usize, lanes: &mut [i16], out: &mut [i16], first: usize)
    requires inside { at + length lanes.old ≤ length row.now }
    requires lanes_inside { first + length lanes.old ≤ length out.old }
    ensures { PutFrom first (length lanes.old) (λ k. slice_index_or row.now (at + k) (pos 0)) out.old out.new }
{
    copy_widened(row, at, lanes);
    put(lanes, out, first);
}

/// At least eight samples of a row from place `at` on: the last eight may be some that were written before.
#[inline(always)]
fn copy_by_eights(row: &[i8], at: usize, out: &mut [i16])
    requires inside { at + length out.old ≤ length row.now }
    requires at_least_8 { 8 ≤ length out.old }
    ensures { (k : ℕ) → k < length out.old → slice_index_or out.new k (pos 0)
        ≡ slice_index_or row.now (at + k) (pos 0) }
{
    let last = out.len() - 8;
    let eights = (last + 7) / 8;
    for i in 0..eights {
        let mut lanes = [0i16; 8];
        put_widened(row, at + 8 * i, &mut lanes, out, 8 * i);
    }
    let mut lanes = [0i16; 8];
    put_widened(row, at + last, &mut lanes, out, last);
}

/// The samples of a row from place `at` on: eight side by side.
#[inline(always)]
pub fn copy_row(row: &[i8], at: usize, out: &mut [i16])
    requires inside { at + length out.old ≤ length row.now }
    ensures { (k : ℕ) → k < length out.old → slice_index_or out.new k (pos 0)
        ≡ slice_index_or row.now (at + k) (pos 0) }
{
    if out.len() >= 8 {
        copy_by_eights(row, at, out);
    } else {
        copy_widened(row, at, out);
    }
}

/// The samples at every second place of row `down`, from a place on that may lie outside.
fn clamped_places(table: &Phases, across: i64, down: i64, out: &mut [i16])
    requires across { unsigned_abs across ≤ 2 ^ 34 }
    requires at_most_4096 { length out.old ≤ LARGEST_SIDE }
    ensures { AreAlternateSamples table.now across down out.new }
{
    for k in 0..out.len() {
        out[k] = table.clamped(ahead(across, k), down);
    }
}

/// The column of a place that isn't left of the table.
#[inline(always)]
fn column(across: i64) -> usize
    requires { pos 0 ≤ℤ across }
    ensures { across ≡ pos result }
{
    across as usize
}

/// The sides of the positions behind column `x` of a row, and behind those that are two columns apart from it.
#[inline(always)]
fn sides_of(places: usize, x: usize) -> Sides
    requires { x + 1 ≤ places }
    ensures left { result.left ≡ place_in_row places x }
    ensures next { result.next ≡ place_in_row places (x + 1) }
{
    Sides {
        left: held_at(places, x),
        next: held_at(places, x + 1),
    }
}

/// The sides of the positions from a column of the table on, or from the one behind its last.
#[inline(always)]
fn sides_from(table: &Phases, across: i64) -> Sides
    requires { (pos 0 ≤ℤ across) × (across ≤ℤ pos table.now.width) }
    ensures { AreSidesFrom table.now.width across result }
{
    sides_of(table.row_len(), column(across))
}

/// The samples at a position's places, where all lie inside the row; `sides` are those of its first one.
#[inline(always)]
fn inner_places(table: &Phases, sides: Sides, from: Position, out: &mut [i16])
    requires from { IsPositionNear (2 ^ 34) (2 ^ 35) from }
    requires inside { (pos 0 ≤ℤ from.across) × ((from.across +ℤ pos (2 * length out.old)) ≤ℤ pos table.now.width) }
    requires sides { AreSidesFrom table.now.width from.across sides }
    ensures { AreAlternateSamples table.now from.across from.down out.new }
{
    copy_row(table.nearest_row(from.down), sides.left, out);
}

/// The samples at a position's places: every second one of its row.
#[inline(always)]
fn places(table: &Phases, from: Position, out: &mut [i16])
    requires from { IsPositionNear (2 ^ 34) (2 ^ 35) from }
    requires at_most_4096 { length out.old ≤ LARGEST_SIDE }
    ensures { AreAlternateSamples table.now from.across from.down out.new }
{
    if is_inside(from.across, out.len(), table.width()) {
        inner_places(table, sides_from(table, from.across), from, out);
    } else {
        clamped_places(table, from.across, from.down, out);
    }
}

/// The sample behind a place of the table that may lie outside.
fn clamped_part(table: &Phases, rests: Rests, across: i64, down: i64) -> i16
    requires rests { AreRests rests }
    requires across { unsigned_abs across ≤ 2 ^ 35 }
    requires down { unsigned_abs down ≤ 2 ^ 35 }
    ensures { result
        ≡ rounded (2 * rests.bits) (bilinear table.now (2 ^ rests.bits) across down rests.right rests.below) }
{
    let next = beside(across);
    let under = beside(down);
    between_four(
        rests,
        sample(table, across, down),
        sample(table, next, down),
        sample(table, across, under),
        sample(table, next, under),
    )
}

/// The samples from a position on, two columns apart, of which some may lie outside.
fn clamped_parts(table: &Phases, from: Position, out: &mut [i16])
    requires from { IsPositionNear (2 ^ 34) (2 ^ 35) from }
    requires at_most_4096 { length out.old ≤ LARGEST_SIDE }
    ensures { AreSamplesFrom table.now from out.new }
{
    for k in 0..out.len() {
        out[k] = clamped_part(table, from.rests, ahead(from.across, k), from.down);
    }
}

/// The samples from a position on, two columns apart, where all lie inside the row; `sides` are those of the first one.
#[inline(always)]
fn inner_parts(table: &Phases, sides: Sides, from: Position, out: &mut [i16])
    requires from { IsPositionNear (2 ^ 34) (2 ^ 35) from }
    requires inside { (pos 0 ≤ℤ from.across) × ((from.across +ℤ pos (2 * length out.old)) ≤ℤ pos table.now.width) }
    requires sides { AreSidesFrom table.now.width from.across sides }
    ensures { AreSamplesFrom table.now from out.new }
{
    let above = table.nearest_row(from.down);
    let under = table.nearest_row(beside(from.down));
    in_lanes(from.rests, above, under, sides, out);
}

/// Whether the samples from a position on are samples at places.
#[inline(always)]
fn is_at_place(from: Position) -> bool
    ensures { result ≡ true → IsAtPlace from }
{
    from.rests.right == 0 && from.rests.below == 0
}

/// The samples from a position on, two columns apart.
#[inline(always)]
pub fn row_parts(table: &Phases, from: Position, out: &mut [i16])
    requires from { IsPositionNear (2 ^ 34) (2 ^ 35) from }
    requires at_most_4096 { length out.old ≤ LARGEST_SIDE }
    ensures { AreSamplesFrom table.now from out.new }
{
    if is_at_place(from) {
        places(table, from, out);
    } else if is_inside(from.across, out.len(), table.width()) {
        inner_parts(table, sides_from(table, from.across), from, out);
    } else {
        clamped_parts(table, from, out);
    }
}

/// Writes the samples from a position on, two columns and two rows apart, into eight columns of rows of `width`, from
/// column `first` on.
fn eight_columns(table: &Phases, from: Position, width: usize, first: usize, out: &mut [i16])
    requires from { IsPositionNear (2 ^ 34) (2 ^ 34) from }
    requires columns { first + 8 ≤ width }
    requires at_most_4096 { length out.old ≤ LARGEST_SIDE }
    ensures eight { (j k : ℕ) → j < length out.old / width → k < 8 → slice_index_or out.new (j * width + (first + k))
        (pos 0) ≡ sample_from table.now from k j }
    ensures before { (j k : ℕ) → k < first → slice_index_or out.new (j * width + k) (pos 0)
        ≡ slice_index_or out.old (j * width + k) (pos 0) }
{
    for j in 0..out.len() / width {
        let mut lanes = [0i16; 8];
        row_parts(table, lower(from, j), &mut lanes);
        put(&lanes, out, j * width + first);
    }
}

/// Whether rows of so many samples are eights of them.
fn are_eights(width: usize) -> bool
    ensures { IsTrue result → (width % 8 ≡ 0) × (width ≤ LARGEST_SIDE) }
{
    width % 8 == 0 && width <= LARGEST_SIDE as usize
}

/// The samples from a position on, two columns and two rows apart: rows of eights of them, so that each eight that lies
/// inside is read as one.
fn columns_of_parts(table: &Phases, from: Position, width: usize, out: &mut [i16])
    requires from { IsPositionNear (2 ^ 33) (2 ^ 34) from }
    requires eights { width % 8 ≡ 0 }
    requires width_at_most_4096 { width ≤ LARGEST_SIDE }
    requires rows { AreWholeRows width out.old }
    ensures { AreSamplesByRows table.now from width out.new }
{
    for c in 0..width / 8 {
        eight_columns(table, behind(from, 8 * c), width, 8 * c, out);
    }
}

/// The samples from a position on, two columns and two rows apart, row by row.
fn whole_rows_of_parts(table: &Phases, from: Position, width: usize, out: &mut [i16])
    requires from { IsPositionNear (2 ^ 33) (2 ^ 34) from }
    requires rows { AreWholeRows width out.old }
    ensures { AreSamplesByRows table.now from width out.new }
{
    for j in 0..out.len() / width {
        let start = j * width;
        row_parts(table, lower(from, j), &mut out[start..start + width]);
    }
}

/// Whether rows of so many samples from place `across` on lie inside the table's rows.
fn are_inner(table: &Phases, across: i64, width: usize) -> bool
    requires across { unsigned_abs across ≤ 2 ^ 33 }
    ensures { IsTrue result → (pos 0 ≤ℤ across) × ((across +ℤ pos (2 * width)) ≤ℤ pos table.now.width) }
{
    width <= LARGEST_SIDE as usize && is_inside(across, width, table.width())
}

/// A row of samples from a position on, two columns apart, where all lie inside the table's row; `sides` are those of
/// the first one, and `at_places` says that they are samples at places.
#[inline(always)]
fn inner_row(at_places: bool, table: &Phases, sides: Sides, from: Position, out: &mut [i16])
    requires from { IsPositionNear (2 ^ 34) (2 ^ 35) from }
    requires inside { (pos 0 ≤ℤ from.across) × ((from.across +ℤ pos (2 * length out.old)) ≤ℤ pos table.now.width) }
    requires sides { AreSidesFrom table.now.width from.across sides }
    requires at_places { at_places ≡ true → IsAtPlace from }
    ensures { AreSamplesFrom table.now from out.new }
{
    if at_places {
        inner_places(table, sides, from, out);
    } else {
        inner_parts(table, sides, from, out);
    }
}

/// The samples from a position on, two columns and two rows apart, row by row, where all lie inside the table's rows.
/// Where the rows begin in those of the table is found once; `at_places` says that they are samples at places.
#[inline(always)]
fn inner_rows(at_places: bool, table: &Phases, from: Position, width: usize, out: &mut [i16])
    requires from { IsPositionNear (2 ^ 33) (2 ^ 34) from }
    requires rows { AreWholeRows width out.old }
    requires inside { (pos 0 ≤ℤ from.across) × ((from.across +ℤ pos (2 * width)) ≤ℤ pos table.now.width) }
    requires at_places { at_places ≡ true → IsAtPlace from }
    ensures { AreSamplesByRows table.now from width out.new }
{
    let sides = sides_from(table, from.across);
    for j in 0..out.len() / width {
        let start = j * width;
        inner_row(
            at_places,
            table,
            sides,
            lower(from, j),
            &mut out[start..start + width],
        );
    }
}

/// The samples from a position on, two columns and two rows apart, where all lie inside the table's rows. Rows of
/// sixteen and of eight samples, which most are, have code of their own.
#[inline(always)]
fn inner_rows_by_width(
    at_places: bool,
    table: &Phases,
    from: Position,
    width: usize,
    out: &mut [i16],
)
    requires from { IsPositionNear (2 ^ 33) (2 ^ 34) from }
    requires rows { AreWholeRows width out.old }
    requires inside { (pos 0 ≤ℤ from.across) × ((from.across +ℤ pos (2 * width)) ≤ℤ pos table.now.width) }
    requires at_places { at_places ≡ true → IsAtPlace from }
    ensures { AreSamplesByRows table.now from width out.new }
{
    if width == 16 {
        inner_rows(at_places, table, from, 16, out);
    } else if width == 8 {
        inner_rows(at_places, table, from, 8, out);
    } else {
        inner_rows(at_places, table, from, width, out);
    }
}

/// The samples from a position on, two columns and two rows apart: rows of `width`.
pub fn rows_of_parts(table: &Phases, from: Position, width: usize, out: &mut [i16])
    requires from { IsPositionNear (2 ^ 33) (2 ^ 34) from }
    requires rows { AreWholeRows width out.old }
    ensures { AreSamplesByRows table.now from width out.new }
{
    if are_inner(table, from.across, width) {
        if is_at_place(from) {
            inner_rows_by_width(true, table, from, width, out);
        } else {
            inner_rows_by_width(false, table, from, width, out);
        }
    } else if are_eights(width) {
        columns_of_parts(table, from, width, out);
    } else {
        whole_rows_of_parts(table, from, width, out);
    }
}
