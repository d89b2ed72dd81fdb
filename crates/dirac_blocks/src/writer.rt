ghost use Rattle.std.specs.Prelude.{◌≡◌, ◌+◌, ◌^◌, ◌<◌, length, OnErr, OnOk};
ghost use Rattle.dirac_bits.specs.Fronts.{HoldsFront};
ghost use Rattle.dirac_bits.specs.Writing.{IsWhole};
ghost use Rattle.dirac_bits.specs.Spelling.{SpelledBehind};
ghost use Rattle.dirac_blocks.specs.Decisions.{block_decisions, least_numbers};
ghost use Rattle.dirac_blocks.specs.Grammar.{blocks as blocks_grammar};
ghost use Rattle.dirac_blocks.specs.Parts.{list_there};
ghost use Rattle.dirac_blocks.specs.Written.{ListsHaveShortBlocks, with_block, with_lists};

use crate::list_writer::list_block;
use crate::parts::{LISTS, ListKind, is_there, nth_list};
use dirac_bits::BitWriter;
use dirac_block_table::BlockData;
use dirac_common::NoMemory;
use std::alloc::Global;

/// No block is as long as this in bytes: its length couldn't be spelt.
const BLOCK_LIMIT: u64 = (1 << 39) - 1;

/// Writes a block behind its length.
fn write_block(w: &mut BitWriter, block: &[u8]) -> Result<(), NoMemory>
    ensures exact { OnOk result (w.new ≡ with_block block.now w.old) }
    ensures front { OnErr result (HoldsFront w.old w.new (with_block block.now w.old)) }
    ensures block_is_short { OnOk result (length block.now + 1 < 2 ^ 39) }
{
    let len = block.len() as u64;
    if len >= BLOCK_LIMIT {
        return Err(NoMemory);
    }
    match w.uint(len) {
        Ok(()) => match w.align() {
            Ok(()) => w.block(block),
            Err(e) => Err(e),
        },
        Err(e) => Err(e),
    }
}

/// Writes the block of a list, where the list is there.
fn write_list(
    alloc: Global,
    w: &mut BitWriter,
    table: &BlockData,
    list: Option<ListKind>,
) -> Result<(), NoMemory>
    ensures exact { OnOk result (w.new ≡ with_lists (list_there list table.now) w.old) }
    ensures front { OnErr result (HoldsFront w.old w.new (with_lists (list_there list table.now) w.old)) }
    ensures lists_have_short_blocks { OnOk result (ListsHaveShortBlocks (list_there list table.now)) }
{
    if !is_there(list, table.refs()) {
        return Ok(());
    }
    match list_block(alloc, table, list) {
        Ok(block) => write_block(w, block.as_slice()),
        Err(NoMemory) => Err(NoMemory),
    }
}

/// Writes a block table (motion data, Dirac specification, section 12): for each of its lists a length and an
/// arithmetic block. It is read as the same table. After want of memory what stood before still stands, with a front
/// of these bits behind it.
pub fn write_blocks(alloc: Global, w: &mut BitWriter, blocks: &BlockData) -> Result<(), NoMemory>
    requires { IsWhole w.old }
    ensures exact { OnOk result (w.new ≡ with_lists (block_decisions blocks.now (least_numbers blocks.now)) w.old) }
    ensures front { OnErr result (HoldsFront w.old w.new
        (with_lists (block_decisions blocks.now (least_numbers blocks.now)) w.old)) }
    ensures spelled { OnOk result (SpelledBehind (blocks_grammar blocks.now.across blocks.now.down blocks.now.refs)
        blocks.now w.old w.new) }
{
    'lists: for n in 0..LISTS.len() {
        match write_list(alloc, w, blocks, nth_list(n)) {
            Ok(()) => {}
            Err(e) => return Err(e),
        }
    }
    let _ = blocks.refs();
    Ok(())
}
