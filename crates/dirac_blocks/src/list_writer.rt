ghost use Rattle.std.specs.Prelude.{◌≡◌, ◌<◌, IfOk, OnOk};
ghost use Rattle.dirac_arith.specs.Interval.{narrowed_by};
ghost use Rattle.dirac_arith.specs.Written.{flush};
ghost use Rattle.dirac_blocks.specs.Parts.{list_decisions, list_part};

use crate::parts::ListKind;
use crate::split_writer::write_split;
use crate::unit_writer::write_unit;
use dirac_arith::Encoder;
use dirac_block_table::{BlockData, unit_blocks, units_across};
use dirac_common::NoMemory;
use std::alloc::Global;

/// Writes what a list tells of superblock `sx` of row `sy`: how it is split, or what a part tells of its units.
fn write_cell(
    encoder: &mut Encoder,
    table: &BlockData,
    list: Option<ListKind>,
    sx: u32,
    sy: u32,
) -> Result<(), NoMemory>
    requires column { sx < table.now.across }
    requires row { sy < table.now.down }
    ensures { OnOk result (encoder.new ≡ narrowed_by encoder.old (list_part list table.now sx sy)) }
{
    let Some(part) = list else {
        return write_split(encoder, table, sx, sy);
    };
    let split = table.split(sx, sy);
    let size = unit_blocks(split) as u32;
    let across = units_across(split) as u32;
    let left = 4 * sx;
    let top = 4 * sy;
    'rows: for v in 0..across {
        let row = top + v * size;
        'units: for u in 0..across {
            let column = left + u * size;
            match write_unit(encoder, table, part, column, row) {
                Ok(()) => {}
                Err(e) => return Err(e),
            }
        }
    }
    Ok(())
}

/// The arithmetic block of a list.
pub fn list_block(
    alloc: Global,
    table: &BlockData,
    list: Option<ListKind>,
) -> Result<Vec<u8>, NoMemory>
    ensures { IfOk result (λ block. block.items ≡ flush (list_decisions list table.now)) }
{
    let mut encoder = Encoder::new(alloc);
    let across = table.across();
    let down = table.down();
    'rows: for sy in 0..down {
        'superblocks: for sx in 0..across {
            match write_cell(&mut encoder, table, list, sx, sy) {
                Ok(()) => {}
                Err(e) => return Err(e),
            }
        }
    }
    encoder.finish()
}
