ghost use Rattle.std.specs.Prelude.{◌≡◌, ℕ, ◌+◌, ◌-◌, ◌^◌, ◌<◌, ◌≤◌, unsigned_abs, IfOk};
ghost use Rattle.std.specs.List.{All};
ghost use Rattle.dirac_common.specs.Table.{table_at};
ghost use Rattle.dirac_obmc.specs.Given.{compensation_of};
ghost use Rattle.dirac_obmc.specs.Compensation.{IsCompensation, IsPredictable, predicted_at, predicted_plane};
ghost use Rattle.dirac_obmc.specs.Compensation.{predicted_rows};
ghost use Rattle.dirac_obmc.specs.Directions.{IsColumns, IsSoundCompensation, columns_of};

use crate::columns::ColumnWeights;
use crate::direction::{across, down};
use crate::motion::Motion;
use crate::predicted::Predicted;
use crate::room::block_room;
use crate::rows::{Columns, Lines, predict_lines};
use crate::weights::weight_table;
use dirac_common::NoMemory;
use std::alloc::Global;

/// What the block table and the references of a motion always keep.
fn lawful(motion: &Motion<'_>)
    ensures { IsSoundCompensation (compensation_of motion.now) }
{
    let _blocks = motion.blocks.refs();
    let _first = motion.up1.width();
    match motion.up2 {
        Some(up) => {
            let _second = up.width();
        }
        None => (),
    }
}

/// The limits of the plane's size, which its first reference has.
fn bounded(motion: &Motion<'_>)
    requires { IsPredictable (compensation_of motion.now) }
    ensures { IsCompensation (compensation_of motion.now) }
{
    let _first = motion.up1.width();
}

/// The weights of the columns of a plane, made once for all its rows.
pub fn column_weights(alloc: Global, motion: &Motion<'_>) -> Result<ColumnWeights, NoMemory>
    requires motion { IsPredictable (compensation_of motion.now) }
    ensures { IfOk result (λ c. c ≡ columns_of (compensation_of motion.now)) }
{
    bounded(motion);
    let weights = ColumnWeights::try_new(alloc, across(motion))?;
    Ok(weights)
}

/// The blocks of the plane from left to right, with these weights.
fn columns_with<'a>(motion: &Motion<'_>, weights: &'a ColumnWeights) -> Columns<'a>
    requires motion { IsCompensation (compensation_of motion.now) }
    requires weights { weights.now ≡ columns_of (compensation_of motion.now) }
    ensures { IsColumns (compensation_of motion.now) result }
{
    Columns {
        blocks: across(motion),
        weights: weights.as_slice(),
    }
}

/// The predictions of rows `first` to `end - 1` of a plane, by the weights of its columns, which are made already
/// (motion compensation, Dirac specification).
pub fn predict_rows_with(
    alloc: Global,
    motion: &Motion<'_>,
    weights: &ColumnWeights,
    first: u32,
    end: u32,
) -> Result<Predicted, NoMemory>
    requires not_empty { first < end }
    requires inside { end ≤ motion.now.height }
    requires motion { IsPredictable (compensation_of motion.now) }
    requires weights { weights.now ≡ columns_of (compensation_of motion.now) }
    ensures value { IfOk result (λ t. t ≡ predicted_rows (compensation_of motion.now) first end) }
    ensures each { IfOk result (λ t. (x y : ℕ) → x < motion.now.width → y < end - first → table_at t x y
        ≡ predicted_at (compensation_of motion.now) x (first + y)) }
    ensures magnitudes_at_most_2_15 { IfOk result (λ t. All (λ v. unsigned_abs v ≤ 2 ^ 15) t.values) }
{
    bounded(motion);
    lawful(motion);
    let columns = columns_with(motion, weights);
    let blocks = down(motion);
    let weights = weight_table(alloc, blocks)?;
    let lines = Lines {
        blocks,
        weights: weights.as_slice(),
        first,
        end,
    };
    let mut room = block_room(alloc, blocks)?;
    let mut predicted = Predicted::try_new(alloc, motion.width, end - first, 0)?;
    predict_lines(motion, columns, lines, &mut room, predicted.values_mut());
    Ok(predicted)
}

/// The predictions of rows `first` to `end - 1` of a plane (motion compensation, Dirac specification).
pub fn predict_rows(
    alloc: Global,
    motion: &Motion<'_>,
    first: u32,
    end: u32,
) -> Result<Predicted, NoMemory>
    requires not_empty { first < end }
    requires inside { end ≤ motion.now.height }
    requires motion { IsPredictable (compensation_of motion.now) }
    ensures value { IfOk result (λ t. t ≡ predicted_rows (compensation_of motion.now) first end) }
    ensures each { IfOk result (λ t. (x y : ℕ) → x < motion.now.width → y < end - first → table_at t x y
        ≡ predicted_at (compensation_of motion.now) x (first + y)) }
    ensures magnitudes_at_most_2_15 { IfOk result (λ t. All (λ v. unsigned_abs v ≤ 2 ^ 15) t.values) }
{
    let weights = column_weights(alloc, motion)?;
    predict_rows_with(alloc, motion, &weights, first, end)
}

/// The predictions of all samples of a plane (motion compensation, Dirac specification).
pub fn predict_plane(alloc: Global, motion: &Motion<'_>) -> Result<Predicted, NoMemory>
    requires motion { IsPredictable (compensation_of motion.now) }
    ensures value { IfOk result (λ t. t ≡ predicted_plane (compensation_of motion.now)) }
    ensures each { IfOk result (λ t. (x y : ℕ) → x < motion.now.width → y < motion.now.height → table_at t x y
        ≡ predicted_at (compensation_of motion.now) x y) }
    ensures magnitudes_at_most_2_15 { IfOk result (λ t. All (λ v. unsigned_abs v ≤ 2 ^ 15) t.values) }
{
    bounded(motion);
    predict_rows(alloc, motion, 0, motion.height)
}
