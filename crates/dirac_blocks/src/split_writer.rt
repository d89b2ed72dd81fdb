ghost use Rattle.std.specs.Prelude.{◌≡◌, ◌<◌, [], ◌∷◌, OnOk};
ghost use Rattle.dirac_arith.specs.Interval.{narrowed_by};
ghost use Rattle.dirac_arith.specs.Spelling.{spelling};
ghost use Rattle.dirac_blocks.specs.Decisions.{least_numbers};

use dirac_arith::{Encoder, SPLIT_DIGITS, SPLIT_FOLLOW};
use dirac_block_table::{BlockData, predict_split_at};
use dirac_common::NoMemory;

/// Writes the number of superblock `sx` of row `sy`: its split less its prediction, modulo 3.
pub fn write_split(
    encoder: &mut Encoder,
    table: &BlockData,
    sx: u32,
    sy: u32,
) -> Result<(), NoMemory>
    requires column { sx < table.now.across }
    requires row { sy < table.now.down }
    ensures { OnOk result (encoder.new ≡ narrowed_by encoder.old
        (spelling SPLIT_FOLLOW SPLIT_DIGITS (least_numbers table.now sy sx))) }
{
    let split = table.split(sx, sy);
    let prediction = predict_split_at(table, sx, sy);
    let number = (split + 3 - prediction) % 3;
    encoder.number(&SPLIT_FOLLOW, SPLIT_DIGITS, number as u64)
}
