ghost use Rattle.std.specs.Prelude.{◌≡◌, ◌^◌, ◌≤◌, IfOk};
ghost use Rattle.dirac_decide.specs.Given.{deciding_of};
ghost use Rattle.dirac_decide.specs.Rooms.{IsRoomForUnits};

use crate::inputs::Inputs;
use dirac_block_table::{Block, grey_block};
use dirac_common::NoMemory;
use std::alloc::Global;

/// How many units a superblock of this split has.
fn units_of(split: u8) -> usize
    requires { split ≤ 2 }
    ensures { result ≡ 4 ^ split }
{
    match split {
        0 => 1,
        1 => 4,
        _ => 16,
    }
}

/// Room for the blocks of a split's units.
pub fn room(alloc: Global, inputs: &Inputs<'_>, split: u8) -> Result<Vec<Block>, NoMemory>
    requires { split ≤ 2 }
    ensures { IfOk result (λ units. IsRoomForUnits (deciding_of inputs.now) split units.items) }
{
    let count = units_of(split);
    Ok(vec![in alloc; grey_block(); count]?)
}
