//! How the encoder predicts a picture by a block table.

ghost use Rattle.std.specs.Prelude.{◌≡◌, ◌≤◌, IfOk};
ghost use Rattle.dirac_header.specs.Written.{prediction_of as prediction_for};
ghost use Rattle.dirac_encode_laws.specs.Coded.{motion_with};

use dirac_block_table::BlockData;
use dirac_common::NoMemory;
use dirac_header::{Prediction, block_grid};
use dirac_picture::CodedMotion;
use dirac_types::Settings;
use std::alloc::Global;

/// The prediction parameters of these settings: default weights.
fn prediction_of(settings: &Settings) -> Prediction
    requires blocks { (2 ≤ settings.now.blocks) × (settings.now.blocks ≤ 4) }
    requires precision { settings.now.precision ≤ 3 }
    ensures { result ≡ prediction_for settings.now.blocks settings.now.precision }
{
    Prediction {
        grid: block_grid(u64::from(settings.blocks)),
        precision: settings.precision as u8,
        weight_bits: 1,
        weight1: 1,
        weight2: 1,
    }
}

/// A picture's motion by a block table.
pub(crate) fn motion_of(
    alloc: Global,
    settings: &Settings,
    blocks: &BlockData,
) -> Result<CodedMotion, NoMemory>
    requires blocks { (2 ≤ settings.now.blocks) × (settings.now.blocks ≤ 4) }
    requires precision { settings.now.precision ≤ 3 }
    ensures { IfOk result (λ m. m ≡ motion_with settings.now blocks.now) }
{
    let blocks = blocks.try_copy(alloc)?;
    Ok(CodedMotion {
        prediction: prediction_of(settings),
        blocks,
    })
}
