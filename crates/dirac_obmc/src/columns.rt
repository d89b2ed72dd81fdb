ghost use Rattle.std.specs.Prelude.{◌≡◌, ◌≤◌, IfOk};
ghost use Rattle.dirac_obmc.specs.Directions.{IsWeights};
ghost use Rattle.dirac_obmc.specs.Weights.{IsOverlap};

use crate::direction::Direction;
use crate::weights::weight_table;
use dirac_common::{LARGEST_SIDE, NoMemory};
use std::alloc::Global;
use std::marker::Model;

/// The weights of the columns of a plane: those of all its blocks from left to right. They hang on nothing but how many
/// the blocks are, how long and how far apart, so one table serves all rows of a plane, and all planes whose blocks
/// stand alike.
#[derive(Drop)]
pub struct ColumnWeights {
    blocks: Direction,
    weights: Vec<u8>,
}

impl Model for ColumnWeights {
    ghost use Rattle.dirac_obmc.specs.declared.direction.Direction.{Direction};
    ghost use Rattle.dirac_obmc.specs.Directions.{IsWeights};

    ghost Value = { Direction };

    ghost view = { λ c. c.blocks };

    ghost invariant = { λ c. IsWeights c.blocks.count c.blocks.length c.blocks.separation c.weights.items };
}

impl ColumnWeights {
    /// The weights of blocks that stand so.
    pub(crate) fn try_new(alloc: Global, blocks: Direction) -> Result<ColumnWeights, NoMemory>
        requires sizes { IsOverlap blocks.length blocks.separation }
        requires count { blocks.count ≤ LARGEST_SIDE }
        ensures { IfOk result (λ c. c ≡ blocks) }
    {
        Ok(ColumnWeights {
            blocks,
            weights: weight_table(alloc, blocks)?,
        })
    }

    /// Lends the weights, block after block.
    pub(crate) fn as_slice(&self) -> &[u8]
        ensures { IsWeights self.now.count self.now.length self.now.separation result.now }
    {
        self.weights.as_slice()
    }
}
