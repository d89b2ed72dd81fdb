//! The samples of a plane, made row by row: a row of its residual is clipped as soon as it is synthesised.
ghost use Rattle.std.specs.Prelude.{◌≡◌, ℕ, pos, ◌+◌, ◌-◌, ◌*◌, ◌<◌, ◌≤◌, length, slice_index_or, IfOk};
ghost use Rattle.dirac_synthesis.specs.LastLevel.{HasMade, IsLastLevel, last_residual};
ghost use Rattle.dirac_synthesis.specs.Residual.{clipped as clipped_table, rows_between, with_prediction};
ghost use Rattle.dirac_synthesis.specs.Strips.{AreAsMany, AreEnough, clipped_with, with_others};
ghost use Rattle.dirac_synthesis.specs.Unfinished.{IsUnfinishedPart, part_table};
ghost use Rattle.dirac_synthesis.specs.Zeros.{zeros};

use crate::clip::{clip_narrow_sums, clip_narrow_values, clipped, clipped_sum};
use crate::last::{LastLevel, lines_of};
use crate::room::plane_room;
use crate::unfinished::{Extent, Part, Unfinished};
use dirac_common::{LARGEST_TABLE_SIDE, NoMemory, Plane};
use dirac_lift::LinesAtWork;
use std::alloc::Global;

/// What is predicted for the samples of a plane, by rows.
#[derive(Clone, Copy)]
pub enum Others<'a> {
    Nothing,
    Predicted(&'a [i32]),
}

/// Clips a row of a residual with what is predicted for it, from place `start` on.
#[inline(always)]
fn clip_row(line: &[i32], others: Others, start: usize, samples: &mut [i16])
    requires samples { length samples.old ≡ length line.now }
    requires others { AreEnough others (start + length line.now) }
    ensures { (x : ℕ) → x < length line.now → slice_index_or samples.new x (pos 0)
        ≡ clipped_with others.entry (slice_index_or line.now x (pos 0)) (start + x) }
{
    match others {
        Others::Nothing => clip_narrow_values(line, samples),
        Others::Predicted(values) => {
            clip_narrow_sums(line, &values[start..start + line.len()], samples)
        }
    }
}

/// Makes and clips all rows of a plane.
fn clip_rows(
    level: &LastLevel<'_>,
    lines: &mut LinesAtWork,
    work: &mut [i32],
    line: &mut [i32],
    others: Others,
    plane: &mut Plane,
)
    requires level { IsLastLevel level.now }
    requires none_made { HasMade level.now 0 lines.old }
    requires work { length work.old ≡ 2 * level.now.low.width }
    requires line { length line.old ≡ 2 * level.now.low.width }
    requires others { AreAsMany others (level.now.width * level.now.height) }
    requires across { plane.old.width ≡ level.now.width }
    requires down { plane.old.height ≡ level.now.height }
    ensures { plane.new ≡ clipped_table (with_others others.entry (last_residual level.now)) }
{
    let width = plane.width() as usize;
    for y in 0..plane.height() {
        lines.next_row(level, y, work, line);
        let start = y as usize * width;
        clip_row(&line[..width], others, start, plane.row_mut(y));
    }
}

/// The samples of a plane whose last level waits, in the room that is given where it has the plane's size.
fn clip_level(
    alloc: Global,
    level: &LastLevel<'_>,
    others: Others,
    room: Option<Plane>,
) -> Result<Plane, NoMemory>
    requires level { IsLastLevel level.now }
    requires across { level.now.width ≤ LARGEST_TABLE_SIDE }
    requires down { level.now.height ≤ LARGEST_TABLE_SIDE }
    requires others { AreAsMany others (level.now.width * level.now.height) }
    ensures { IfOk result (λ plane. plane ≡ clipped_table (with_others others.entry (last_residual level.now))) }
{
    let across = 2 * level.low.width() as usize;
    let mut work = vec![in alloc; 0i32; across]?;
    let mut line = vec![in alloc; 0i32; across]?;
    let mut lines = lines_of(alloc, level)?;
    let mut plane = plane_room(alloc, room, level.width, level.height)?;
    clip_rows(
        level,
        &mut lines,
        work.as_mut_slice(),
        line.as_mut_slice(),
        others,
        &mut plane,
    );
    Ok(plane)
}

/// The samples of a plane whose residual is 0: what is predicted for them, clipped.
fn clip_predicted(alloc: Global, extent: Extent, predicted: &[i32]) -> Result<Plane, NoMemory>
    requires across { (1 ≤ extent.width) × (extent.width ≤ LARGEST_TABLE_SIDE) }
    requires down { (1 ≤ extent.height) × (extent.height ≤ LARGEST_TABLE_SIDE) }
    requires predicted { length predicted.now ≡ extent.width * extent.height }
    ensures { IfOk result (λ plane. plane ≡ clipped_table (with_prediction (zeros extent.width extent.height)
        predicted.now)) }
{
    let mut plane = Plane::try_new(alloc, extent.width, extent.height, 0)?;
    clip_narrow_values(predicted, plane.values_mut());
    Ok(plane)
}

/// The samples of a plane of whose residual something is made, row by row in the room that is given where it has the
/// plane's size.
fn clip_part(
    alloc: Global,
    part: &Part<'_>,
    others: Others,
    room: Option<Plane>,
) -> Result<Plane, NoMemory>
    requires part { IsUnfinishedPart part.now }
    requires others { AreAsMany others ((part_table part.now).width * (part_table part.now).height) }
    ensures { IfOk result (λ plane. plane ≡ clipped_table (with_others others.entry (part_table part.now))) }
{
    match part {
        Part::Zeros(extent) => match others {
            Others::Nothing => Plane::try_new(alloc, extent.width, extent.height, 0),
            Others::Predicted(values) => clip_predicted(alloc, *extent, values),
        },
        Part::Whole(residual) => match others {
            Others::Nothing => clipped(alloc, residual),
            Others::Predicted(values) => clipped_sum(alloc, residual, values),
        },
        Part::Lines(level) => clip_level(alloc, level, others, room),
    }
}

/// The plane whose samples are the values of a residual, each clipped to -128 to 127 (clipping, Dirac specification).
pub fn clipped_by_strips(alloc: Global, values: &Unfinished<'_>) -> Result<Plane, NoMemory>
    ensures { IfOk result (λ plane. plane ≡ clipped_table values.now) }
{
    clipped_in(alloc, values, None)
}

/// The plane that `clipped_by_strips` gives, where it can in this room, whatever that holds.
pub fn clipped_in(
    alloc: Global,
    values: &Unfinished<'_>,
    room: Option<Plane>,
) -> Result<Plane, NoMemory>
    ensures { IfOk result (λ plane. plane ≡ clipped_table values.now) }
{
    clip_part(alloc, values.part(), Others::Nothing, room)
}

/// The plane whose samples are the values of a residual plus their predictions, which stand by rows, each sum
/// clipped to -128 to 127 (picture decoding, Dirac specification).
pub fn clipped_sum_by_strips(
    alloc: Global,
    residual: &Unfinished<'_>,
    predicted: &[i32],
) -> Result<Plane, NoMemory>
    requires { length predicted.now ≡ residual.now.width * residual.now.height }
    ensures { IfOk result (λ plane. plane ≡ clipped_table (with_prediction residual.now predicted.now)) }
{
    clip_part(alloc, residual.part(), Others::Predicted(predicted), None)
}

/// The samples of rows `from` to `to - 1` of a plane: the values of its residual there plus their predictions, which
/// stand by rows, each sum clipped to -128 to 127 (picture decoding, Dirac specification).
pub fn clipped_sum_of_rows(
    alloc: Global,
    residual: &Unfinished<'_>,
    from: u32,
    to: u32,
    predicted: &[i32],
) -> Result<Plane, NoMemory>
    requires some { from < to }
    requires inside { to ≤ residual.now.height }
    requires predicted { length predicted.now ≡ residual.now.width * (to - from) }
    ensures { IfOk result (λ plane. plane ≡ clipped_table (with_prediction (rows_between from to residual.now)
        predicted.now)) }
{
    match residual.part() {
        Part::Zeros(extent) => {
            let rows = Extent {
                width: extent.width,
                height: to - from,
            };
            clip_predicted(alloc, rows, predicted)
        }
        Part::Whole(_) | Part::Lines(_) => {
            let rows = residual.rows(alloc, from, to)?;
            clipped_sum(alloc, &rows, predicted)
        }
    }
}
