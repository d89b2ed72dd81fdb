ghost use Rattle.std.specs.Prelude.{◌≡◌, ◌+◌, ◌^◌, ◌<◌, ◌≤◌, length, IfErr, None};
ghost use Rattle.dirac_arith.specs.Coded.{read_coded};
ghost use Rattle.dirac_bits.specs.Syntax.{read};
ghost use Rattle.dirac_blocks.specs.Grammar.{list_over, list_step, lists_of, step_of};
ghost use Rattle.dirac_blocks.specs.Reached.{AllGrey, BlockIsRead, ListIsRead, SameSize, StepMoves};

use crate::parts::{LISTS, ListKind, is_there, nth_list};
use crate::split_reader::read_split;
use crate::unit_reader::read_unit_block;
use dirac_arith::Decoder;
use dirac_bits::BitReader;
use dirac_block_table::{BlockData, unit_blocks, units_across};
use dirac_common::{Cause, Refusal};

/// Reads what a list tells of superblock `sx` of row `sy`: how it is split, or what a part tells of its units.
fn read_cell(
    decoder: &mut Decoder<'_>,
    table: &mut BlockData,
    list: Option<ListKind>,
    sx: u32,
    sy: u32,
) -> Result<(), Cause>
    requires column { sx < table.old.across }
    requires row { sy < table.old.down }
    requires grey { list ≡ None → AllGrey table.old.blocks }
    requires no_overflow { decoder.old.at.doublings < 2 ^ 57 }
    ensures value { StepMoves result table.new decoder.new (read_coded (list_step list sy sx table.old) decoder.old) }
    ensures size { SameSize table.old table.new }
    ensures blocks { list ≡ None → table.new.blocks ≡ table.old.blocks }
    ensures few_doublings { decoder.new.at.doublings ≤ decoder.old.at.doublings + 11232 }
{
    let Some(part) = list else {
        return read_split(decoder, table, sx, sy);
    };
    let split = table.split(sx, sy);
    let size = unit_blocks(split) as u32;
    let across = units_across(split) as u32;
    let left = 4 * sx;
    let top = 4 * sy;
    'rows: for v in 0..across {
        let row = top + v * size;
        'units: for u in 0..across {
            let column = left + u * size;
            match read_unit_block(decoder, table, part, column, row) {
                Ok(block) => table.set_unit(size, column, row, block),
                Err(cause) => return Err(cause),
            }
        }
    }
    Ok(())
}

/// Reads what a list tells from its arithmetic block: of each unit, or, where no part is named, the splits.
fn decode_list(block: &[u8], table: &mut BlockData, list: Option<ListKind>) -> Result<(), Cause>
    requires { list ≡ None → AllGrey table.old.blocks }
    ensures value { BlockIsRead result table.new (step_of list table.old) block.now }
    ensures size { SameSize table.old table.new }
{
    let mut decoder = Decoder::new(block);
    let across = table.across();
    let down = table.down();
    'rows: for sy in 0..down {
        'superblocks: for sx in 0..across {
            match read_cell(&mut decoder, table, list, sx, sy) {
                Ok(()) => {}
                Err(cause) => return Err(cause),
            }
        }
    }
    Ok(())
}

/// Reads the block of a list.
fn read_list(
    r: &mut BitReader<'_>,
    table: &mut BlockData,
    part: Option<ListKind>,
) -> Result<(), Refusal>
    requires { part ≡ None → AllGrey table.old.blocks }
    ensures value { ListIsRead result table.new r.new (read (list_over (step_of part) table.old) r.old) }
    ensures size { SameSize table.old table.new }
    ensures place_inside { IfErr result (λ e. e.at ≤ length r.old.bytes) }
    ensures kept { r.new.bytes ≡ r.old.bytes }
{
    match r.uint() {
        Ok(len) => {
            r.align();
            let at = r.place();
            match r.block(len) {
                Ok(block) => match decode_list(block, table, part) {
                    Ok(()) => Ok(()),
                    Err(cause) => Err(Refusal { at, cause }),
                },
                Err(e) => Err(e),
            }
        }
        Err(e) => Err(e),
    }
}

/// Reads the blocks of all lists into a table of which nothing is read.
pub fn read_lists(r: &mut BitReader<'_>, table: &mut BlockData) -> Result<(), Refusal>
    requires { AllGrey table.old.blocks }
    ensures value { ListIsRead result table.new r.new (read (lists_of table.old) r.old) }
    ensures size { SameSize table.old table.new }
    ensures place_inside { IfErr result (λ e. e.at ≤ length r.old.bytes) }
    ensures kept { r.new.bytes ≡ r.old.bytes }
{
    let refs = table.refs();
    'lists: for n in 0..LISTS.len() {
        let list = nth_list(n);
        if is_there(list, refs) {
            match read_list(r, table, list) {
                Ok(()) => {}
                Err(e) => return Err(e),
            }
        }
    }
    Ok(())
}
