ghost use Rattle.std.specs.Prelude.{◌≡◌, ◌+◌, ◌*◌, ◌^◌, ◌<◌, ◌≤◌, length};
ghost use Rattle.dirac_block_table.specs.Tables.{unit_size};
ghost use Rattle.dirac_costs.specs.Least.{IsToldBelow};
ghost use Rattle.dirac_decide.specs.Deciding.{IsDeciding};
ghost use Rattle.dirac_decide.specs.Given.{deciding_of};
ghost use Rattle.dirac_decide.specs.Predictors.{IsPredictionUnit};
ghost use Rattle.dirac_decide.specs.Rooms.{IsRoomForUnits, IsSuperblock};
ghost use Rattle.dirac_decide.specs.Splits as splits;

use crate::inputs::Inputs;
use crate::modes::choose;
use crate::prediction_unit::PredictionUnit;
use dirac_block_table::{Block, unit_blocks, units_across};
use dirac_common::MOST_SUPERBLOCKS;

/// Unit `k`, by rows, of superblock `sx` of row `sy`.
fn unit_in(split: u8, sx: u32, sy: u32, k: u32) -> PredictionUnit
    requires split { split ≤ 2 }
    requires sx { sx < MOST_SUPERBLOCKS }
    requires sy { sy < MOST_SUPERBLOCKS }
    requires inside { k < 4 ^ split }
    ensures value { result ≡ splits.unit_in split sx sy k }
    ensures unit { IsPredictionUnit (sx + 1) (sy + 1) result }
{
    let size = unit_blocks(split) as u32;
    let units = units_across(split) as u32;
    PredictionUnit {
        i: 4 * sx + k % units * size,
        j: 4 * sy + k / units * size,
        size,
    }
}

/// What a split of superblock `sx` of row `sy` costs, told where it is below `limit`; the blocks of its units are then
/// written to `units`.
pub fn split_below(
    inputs: &Inputs<'_>,
    sx: u32,
    sy: u32,
    split: u8,
    limit: u64,
    units: &mut [Block],
) -> u64
    requires inputs { IsDeciding (deciding_of inputs.now) }
    requires superblock { IsSuperblock (deciding_of inputs.now) sx sy }
    requires split { split ≤ 2 }
    requires units { IsRoomForUnits (deciding_of inputs.now) split units.old }
    ensures told { IsToldBelow limit (splits.split_cost (deciding_of inputs.now) sx sy split) result }
    ensures at_most_2_33 { result ≤ 2 ^ 33 }
    ensures chosen { result < limit → splits.UnitsChosen (deciding_of inputs.now) sx sy split (4 ^ split) units.new }
    ensures units { IsRoomForUnits (deciding_of inputs.now) split units.new }
{
    let mut cost = 0;
    for k in 0..units.len() {
        if cost >= limit {
            return cost;
        }
        let unit = unit_in(split, sx, sy, k as u32);
        let choice = choose(inputs, unit);
        units[k] = choice.block;
        cost += choice.cost;
    }
    cost
}
