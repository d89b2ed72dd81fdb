ghost use Rattle.std.specs.Prelude.{◌+◌, ◌^◌, ◌<◌, ◌≤◌};
ghost use Rattle.dirac_arith.specs.Coded.{read_coded};
ghost use Rattle.dirac_blocks.specs.Grammar.{split_step};
ghost use Rattle.dirac_blocks.specs.Reached.{AllGrey, StepMoves, SameBlocks};

use dirac_arith::{Decoder, SPLIT_DIGITS, SPLIT_FOLLOW};
use dirac_block_table::{BlockData, predict_split_at};
use dirac_common::Cause;

/// Reads how superblock `sx` of row `sy` is split: the sum modulo 3 of a number and the prediction.
pub fn read_split(
    decoder: &mut Decoder<'_>,
    table: &mut BlockData,
    sx: u32,
    sy: u32,
) -> Result<(), Cause>
    requires column { sx < table.old.across }
    requires row { sy < table.old.down }
    requires grey { AllGrey table.old.blocks }
    requires no_overflow { decoder.old.at.doublings < 2 ^ 61 }
    ensures value { StepMoves result table.new decoder.new (read_coded (split_step sy sx table.old) decoder.old) }
    ensures blocks { SameBlocks table.old table.new }
    ensures few_doublings { decoder.new.at.doublings ≤ decoder.old.at.doublings + 693 }
{
    match decoder.number(&SPLIT_FOLLOW, SPLIT_DIGITS) {
        Ok(number) => {
            let prediction = predict_split_at(table, sx, sy);
            let split = (number + prediction as u64) % 3;
            table.set_split(sx, sy, split as u8);
            Ok(())
        }
        Err(cause) => Err(cause),
    }
}
