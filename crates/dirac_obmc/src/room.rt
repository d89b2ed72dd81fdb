ghost use Rattle.std.specs.Prelude.{◌≡◌, ◌≤◌, length, IfOk};
ghost use Rattle.dirac_obmc.specs.Weights.{IsOverlap};
ghost use Rattle.dirac_obmc.specs.Strips.{IsRoomForRows};

use crate::direction::Direction;
use dirac_common::NoMemory;
use std::alloc::Global;

/// The most columns of blocks that are predicted together.
pub const MOST_COLUMNS: u32 = 64;

/// Room for blocks that are predicted together: the samples of their two references, their values, and the weights of
/// their columns.
#[derive(Drop)]
pub struct BlockRoom {
    pub first: Vec<i16>,
    pub second: Vec<i16>,
    pub values: Vec<i16>,
    pub weights: Vec<u8>,
}

/// So many values 0.
fn no_samples(alloc: Global, count: u32) -> Result<Vec<i16>, NoMemory>
    ensures { IfOk result (λ v. length v.items ≡ count) }
{
    Ok(vec![in alloc; 0; count as usize]?)
}

/// So many weights 0.
fn no_weights(alloc: Global, count: u32) -> Result<Vec<u8>, NoMemory>
    ensures { IfOk result (λ v. length v.items ≡ count) }
{
    Ok(vec![in alloc; 0; count as usize]?)
}

/// Room for blocks of as many rows as these.
pub fn block_room(alloc: Global, down: Direction) -> Result<BlockRoom, NoMemory>
    requires { IsOverlap down.length down.separation }
    ensures { IfOk result (IsRoomForRows down.length) }
{
    let count = MOST_COLUMNS * down.length;
    Ok(BlockRoom {
        first: no_samples(alloc, count)?,
        second: no_samples(alloc, count)?,
        values: no_samples(alloc, count)?,
        weights: no_weights(alloc, MOST_COLUMNS)?,
    })
}
