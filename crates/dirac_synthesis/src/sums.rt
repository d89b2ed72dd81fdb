//! The samples of a plane, each the sum of its residual and what is predicted for it. The predictions are made some
//! rows at a time, and their rows are summed and clipped before the next ones are made.
ghost use Rattle.std.specs.Prelude.{◌≡◌, ◌*◌, ◌^◌, ◌<◌, ◌≤◌, length, unsigned_abs, IfOk};
ghost use Rattle.std.specs.List.{All};
ghost use Rattle.dirac_common.specs.Table.{Table as TheTable};
ghost use Rattle.dirac_synthesis.specs.LastLevel.{HasMade, IsLastLevel, last_residual};
ghost use Rattle.dirac_synthesis.specs.Residual.{clipped as clipped_table, rows_between, with_prediction};
ghost use Rattle.dirac_synthesis.specs.Sums.{IsOfSize, IsStripOf};
ghost use Rattle.dirac_synthesis.specs.Unfinished.{IsUnfinishedPart, part_table};
ghost use Rattle.dirac_synthesis.specs.Zeros.{zeros};

use crate::clip::{clip_narrow_sums, clip_narrow_values, clipped_sum};
use crate::held::Residual;
use crate::last::{LastLevel, lines_of};
use crate::room::plane_room;
use crate::unfinished::{Extent, Part, Unfinished};
use dirac_common::{LARGEST_TABLE_SIDE, Narrow, NoMemory, Plane};
use dirac_lift::LinesAtWork;
use std::alloc::Global;

/// What is predicted for the samples of a plane, whose rows are made as they are asked for.
pub trait PredictsRows {
    ghost lawful: { Self → Type 0 };

    ghost predicted: { Self → TheTable };

    /// The predictions of rows `from` to `to - 1`.
    fn rows(&self, alloc: Global, from: u32, to: u32) -> Result<Narrow, NoMemory>
        requires lawful { lawful self.now }
        requires some { from < to }
        requires inside { to ≤ (predicted self.now).height }
        ensures { IfOk result (λ t. t ≡ rows_between from to (predicted self.now)) };
}

/// How many rows are predicted at a time: few enough that they are summed while the processor's cache holds them.
const STRIP_ROWS: u32 = 64;

/// The predictions of rows `first` to `end - 1` of a plane.
#[derive(Drop)]
pub struct Strip {
    pub first: u32,
    pub end: u32,
    pub values: Narrow,
}

/// Predicts some rows of a plane of `height` rows, from row `first` on.
fn next_strip<P: PredictsRows>(
    alloc: Global,
    predictions: &P,
    first: u32,
    height: u32,
) -> Result<Strip, NoMemory>
    requires lawful { P.lawful predictions.now }
    requires height { (P.predicted predictions.now).height ≡ height }
    requires inside { first < height }
    requires at_most_4096 { height ≤ LARGEST_TABLE_SIDE }
    ensures strip { IfOk result (IsStripOf (P.predicted predictions.now)) }
    ensures first { IfOk result (λ s. s.first ≡ first) }
{
    let end = (first + STRIP_ROWS).min(height);
    let values = predictions.rows(alloc, first, end)?;
    Ok(Strip { first, end, values })
}

/// A strip that holds row `y`: this one, or where it ends there the next one.
fn strip_with<P: PredictsRows>(
    alloc: Global,
    predictions: &P,
    strip: Strip,
    y: u32,
    height: u32,
) -> Result<Strip, NoMemory>
    requires lawful { P.lawful predictions.now }
    requires height { (P.predicted predictions.now).height ≡ height }
    requires at_most_4096 { height ≤ LARGEST_TABLE_SIDE }
    requires strip { IsStripOf (P.predicted predictions.now) strip }
    requires begun { strip.first ≤ y }
    requires inside { y < height }
    ensures strip { IfOk result (IsStripOf (P.predicted predictions.now)) }
    ensures begun { IfOk result (λ s. s.first ≤ y) }
    ensures not_ended { IfOk result (λ s. y < s.end) }
{
    if y < strip.end {
        return Ok(strip);
    }
    next_strip(alloc, predictions, y, height)
}

/// Makes all rows of a plane: those of its residual, each summed with what is predicted for it, and clipped.
fn sum_rows<P: PredictsRows>(
    alloc: Global,
    level: &LastLevel<'_>,
    lines: &mut LinesAtWork,
    work: &mut [i32],
    line: &mut [i32],
    predictions: &P,
    plane: &mut Plane,
) -> Result<(), NoMemory>
    requires level { IsLastLevel level.now }
    requires none_made { HasMade level.now 0 lines.old }
    requires work { length work.old ≡ 2 * level.now.low.width }
    requires line { length line.old ≡ 2 * level.now.low.width }
    requires lawful { P.lawful predictions.now }
    requires size { IsOfSize level.now.width level.now.height (P.predicted predictions.now) }
    requires across { plane.old.width ≡ level.now.width }
    requires down { plane.old.height ≡ level.now.height }
    requires at_most_4096 { level.now.height ≤ LARGEST_TABLE_SIDE }
    ensures { IfOk result (λ _. plane.new ≡ clipped_table (with_prediction (last_residual level.now)
        (P.predicted predictions.now).values)) }
{
    let width = plane.width() as usize;
    let height = plane.height();
    let mut strip = next_strip(alloc, predictions, 0, height)?;
    for y in 0..height {
        strip = strip_with(alloc, predictions, strip, y, height)?;
        lines.next_row(level, y, work, line);
        let predicted = strip.values.row(y - strip.first);
        clip_narrow_sums(&line[..width], predicted, plane.row_mut(y));
    }
    Ok(())
}

/// The samples of a plane whose last level waits, in the room that is given where it has the plane's size.
fn summed_level<P: PredictsRows>(
    alloc: Global,
    level: &LastLevel<'_>,
    predictions: &P,
    room: Option<Plane>,
) -> Result<Plane, NoMemory>
    requires level { IsLastLevel level.now }
    requires across { level.now.width ≤ LARGEST_TABLE_SIDE }
    requires down { level.now.height ≤ LARGEST_TABLE_SIDE }
    requires lawful { P.lawful predictions.now }
    requires size { IsOfSize level.now.width level.now.height (P.predicted predictions.now) }
    ensures { IfOk result (λ plane. plane ≡ clipped_table (with_prediction (last_residual level.now)
        (P.predicted predictions.now).values)) }
{
    let across = 2 * level.low.width() as usize;
    let mut work = vec![in alloc; 0i32; across]?;
    let mut line = vec![in alloc; 0i32; across]?;
    let mut lines = lines_of(alloc, level)?;
    let mut plane = plane_room(alloc, room, level.width, level.height)?;
    sum_rows(
        alloc,
        level,
        &mut lines,
        work.as_mut_slice(),
        line.as_mut_slice(),
        predictions,
        &mut plane,
    )?;
    Ok(plane)
}

/// Makes all rows of a plane whose residual is 0: what is predicted for them, clipped.
fn clip_rows<P: PredictsRows>(
    alloc: Global,
    predictions: &P,
    plane: &mut Plane,
) -> Result<(), NoMemory>
    requires lawful { P.lawful predictions.now }
    requires at_least_1 { 1 ≤ plane.old.width }
    requires size { IsOfSize plane.old.width plane.old.height (P.predicted predictions.now) }
    requires at_most_4096 { plane.old.height ≤ LARGEST_TABLE_SIDE }
    ensures { IfOk result (λ _. plane.new ≡ clipped_table (P.predicted predictions.now)) }
{
    let height = plane.height();
    let mut strip = next_strip(alloc, predictions, 0, height)?;
    for y in 0..height {
        strip = strip_with(alloc, predictions, strip, y, height)?;
        let predicted = strip.values.row(y - strip.first);
        clip_narrow_values(predicted, plane.row_mut(y));
    }
    Ok(())
}

/// The samples of a plane whose residual is 0, in the room that is given where it has the plane's size.
fn clipped_predictions<P: PredictsRows>(
    alloc: Global,
    extent: Extent,
    predictions: &P,
    room: Option<Plane>,
) -> Result<Plane, NoMemory>
    requires across { (1 ≤ extent.width) × (extent.width ≤ LARGEST_TABLE_SIDE) }
    requires down { (1 ≤ extent.height) × (extent.height ≤ LARGEST_TABLE_SIDE) }
    requires lawful { P.lawful predictions.now }
    requires size { IsOfSize extent.width extent.height (P.predicted predictions.now) }
    ensures { IfOk result (λ plane. plane ≡ clipped_table (with_prediction (zeros extent.width extent.height)
        (P.predicted predictions.now).values)) }
{
    let mut plane = plane_room(alloc, room, extent.width, extent.height)?;
    clip_rows(alloc, predictions, &mut plane)?;
    Ok(plane)
}

/// The samples of a plane all of whose residual is made: all its rows are predicted at once.
fn summed_whole<P: PredictsRows>(
    alloc: Global,
    residual: &Residual,
    predictions: &P,
) -> Result<Plane, NoMemory>
    requires across { (1 ≤ residual.now.width) × (residual.now.width ≤ LARGEST_TABLE_SIDE) }
    requires down { (1 ≤ residual.now.height) × (residual.now.height ≤ LARGEST_TABLE_SIDE) }
    requires whole { length residual.now.values ≡ residual.now.width * residual.now.height }
    requires bound { All (λ v. unsigned_abs v ≤ 2 ^ 108) residual.now.values }
    requires lawful { P.lawful predictions.now }
    requires size { IsOfSize residual.now.width residual.now.height (P.predicted predictions.now) }
    ensures { IfOk result (λ plane. plane ≡ clipped_table (with_prediction residual.now
        (P.predicted predictions.now).values)) }
{
    let predicted = predictions.rows(alloc, 0, residual.height())?;
    clipped_sum(alloc, residual, predicted.values())
}

/// The plane whose samples are the values of a residual plus what is predicted for them, each sum clipped to -128 to
/// 127 (picture decoding, Dirac specification); where it can in the room that is given, whatever that holds.
pub fn clipped_sum_by_rows<P: PredictsRows>(
    alloc: Global,
    residual: &Unfinished<'_>,
    predictions: &P,
    room: Option<Plane>,
) -> Result<Plane, NoMemory>
    requires lawful { P.lawful predictions.now }
    requires size { IsOfSize residual.now.width residual.now.height (P.predicted predictions.now) }
    ensures { IfOk result (λ plane. plane ≡ clipped_table (with_prediction residual.now
        (P.predicted predictions.now).values)) }
{
    match residual.part() {
        Part::Zeros(extent) => clipped_predictions(alloc, *extent, predictions, room),
        Part::Whole(whole) => summed_whole(alloc, whole, predictions),
        Part::Lines(level) => summed_level(alloc, level, predictions, room),
    }
}
