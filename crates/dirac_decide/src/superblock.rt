ghost use Rattle.std.specs.Prelude.{◌≡◌, ◌^◌, ◌<◌, ◌≤◌, IfOk};
ghost use Rattle.dirac_costs.specs.Least.{IsToldBelow};
ghost use Rattle.dirac_decide.specs.Deciding.{IsDeciding};
ghost use Rattle.dirac_decide.specs.Given.{deciding_of};
ghost use Rattle.dirac_decide.specs.Best.{IsBestRow, IsBestSplit};
ghost use Rattle.dirac_decide.specs.Rooms.{IsRoomForUnits, IsSuperblock};
ghost use Rattle.dirac_decide.specs.Splits.{UnitsChosen, best_split, split_cost};

use crate::inputs::Inputs;
use crate::room::room;
use crate::splits::split_below;
use dirac_block_table::Block;
use dirac_common::{MOST_SUPERBLOCKS, NoMemory};
use std::alloc::Global;

/// The best split of a superblock, and the blocks of its units, by rows.
#[derive(Drop)]
pub struct BestSplit {
    pub split: u8,
    pub units: Vec<Block>,
}

/// What a split of superblock `sx` of row `sy` costs, told where it is below `limit`; the blocks of its units are then
/// written to `units`.
fn cost_of_split(
    inputs: &Inputs<'_>,
    sx: u32,
    sy: u32,
    split: u8,
    limit: u64,
    units: &mut Vec<Block>,
) -> u64
    requires inputs { IsDeciding (deciding_of inputs.now) }
    requires superblock { IsSuperblock (deciding_of inputs.now) sx sy }
    requires split { split ≤ 2 }
    requires units { IsRoomForUnits (deciding_of inputs.now) split units.old.items }
    ensures told { IsToldBelow limit (split_cost (deciding_of inputs.now) sx sy split) result }
    ensures at_most_2_33 { result ≤ 2 ^ 33 }
    ensures chosen { result < limit → UnitsChosen (deciding_of inputs.now) sx sy split (4 ^ split) units.new.items }
    ensures units { IsRoomForUnits (deciding_of inputs.now) split units.new.items }
{
    split_below(inputs, sx, sy, split, limit, units.as_mut_slice())
}

/// The best split of superblock `sx` of row `sy`, which is this one, and the blocks of its units, which are these.
fn taken(
    alloc: Global,
    inputs: &Inputs<'_>,
    sx: u32,
    sy: u32,
    split: u8,
    units: &[Block],
) -> Result<BestSplit, NoMemory>
    requires at_most_2 { split ≤ 2 }
    requires best { best_split (deciding_of inputs.now) sx sy ≡ split }
    requires units { UnitsChosen (deciding_of inputs.now) sx sy split (4 ^ split) units.now }
    requires units_fit { IsRoomForUnits (deciding_of inputs.now) split units.now }
    ensures { IfOk result (IsBestSplit (deciding_of inputs.now) sx sy) }
{
    let units = Vec::from_slice(alloc, units)?;
    Ok(BestSplit { split, units })
}

/// Decides superblock `sx` of row `sy`; there is room for the units of each split.
fn decide_superblock(
    alloc: Global,
    inputs: &Inputs<'_>,
    sx: u32,
    sy: u32,
    undivided: &mut Vec<Block>,
    quarters: &mut Vec<Block>,
    sixteenths: &mut Vec<Block>,
) -> Result<BestSplit, NoMemory>
    requires inputs { IsDeciding (deciding_of inputs.now) }
    requires superblock { IsSuperblock (deciding_of inputs.now) sx sy }
    requires undivided { IsRoomForUnits (deciding_of inputs.now) 0 undivided.old.items }
    requires quarters { IsRoomForUnits (deciding_of inputs.now) 1 quarters.old.items }
    requires sixteenths { IsRoomForUnits (deciding_of inputs.now) 2 sixteenths.old.items }
    ensures best { IfOk result (IsBestSplit (deciding_of inputs.now) sx sy) }
    ensures undivided { IsRoomForUnits (deciding_of inputs.now) 0 undivided.new.items }
    ensures quarters { IsRoomForUnits (deciding_of inputs.now) 1 quarters.new.items }
    ensures sixteenths { IsRoomForUnits (deciding_of inputs.now) 2 sixteenths.new.items }
{
    let one = cost_of_split(inputs, sx, sy, 0, u64::MAX, undivided);
    let four = cost_of_split(inputs, sx, sy, 1, one, quarters);
    if four < one {
        let sixteen = cost_of_split(inputs, sx, sy, 2, four, sixteenths);
        if sixteen < four {
            taken(alloc, inputs, sx, sy, 2, sixteenths.as_slice())
        } else {
            taken(alloc, inputs, sx, sy, 1, quarters.as_slice())
        }
    } else {
        let sixteen = cost_of_split(inputs, sx, sy, 2, one, sixteenths);
        if sixteen < one {
            taken(alloc, inputs, sx, sy, 2, sixteenths.as_slice())
        } else {
            taken(alloc, inputs, sx, sy, 0, undivided.as_slice())
        }
    }
}

/// Decides the superblocks of row `sy`. No other row is read.
pub fn decide_row(alloc: Global, inputs: &Inputs<'_>, sy: u32) -> Result<Vec<BestSplit>, NoMemory>
    requires inputs { IsDeciding (deciding_of inputs.now) }
    requires across { inputs.now.across ≤ MOST_SUPERBLOCKS }
    requires down { (sy < inputs.now.down) × (inputs.now.down ≤ MOST_SUPERBLOCKS) }
    ensures { IfOk result (λ v. IsBestRow (deciding_of inputs.now) sy v.items) }
{
    let mut undivided = room(alloc, inputs, 0)?;
    let mut quarters = room(alloc, inputs, 1)?;
    let mut sixteenths = room(alloc, inputs, 2)?;
    let mut row = Vec::new(alloc);
    for sx in 0..inputs.across {
        let best = decide_superblock(
            alloc,
            inputs,
            sx,
            sy,
            &mut undivided,
            &mut quarters,
            &mut sixteenths,
        )?;
        row.push(best)?;
    }
    Ok(row)
}
