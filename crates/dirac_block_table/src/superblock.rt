ghost use Rattle.std.specs.Prelude.{◌≡◌, ℕ, ◌+◌, ◌*◌, ◌^◌, ◌<◌, ◌≤◌, All, length};
ghost use Rattle.dirac_block_table.specs.Puts.{RowPut, RowsPut};
ghost use Rattle.dirac_block_table.specs.Tables.{IsBlock, unit_size};

use crate::block::Block;

/// How many blocks a unit has across and down.
pub fn unit_blocks(split: u8) -> usize
    requires { split ≤ 2 }
    ensures value { result ≡ unit_size split }
    ensures at_least_1 { 1 ≤ result }
    ensures at_most_4 { result ≤ 4 }
{
    match split {
        0 => 4,
        1 => 2,
        _ => 1,
    }
}

/// How many units a superblock has across and down.
pub fn units_across(split: u8) -> usize
    requires { split ≤ 2 }
    ensures value { result ≡ 2 ^ split }
    ensures at_most_4 { result ≤ 4 }
{
    match split {
        0 => 1,
        1 => 2,
        _ => 4,
    }
}

/// Writes four blocks of a row, each that of its unit; the row's units begin at `from`.
fn put_row(blocks: &mut Vec<Block>, start: usize, split: u8, units: &[Block], from: usize)
    requires split { split ≤ 2 }
    requires row { start + 4 ≤ length blocks.old.items }
    requires at_most_2_24 { length blocks.old.items ≤ 2 ^ 24 }
    requires units { from + 2 ^ split ≤ length units.now }
    ensures { RowPut start split units.now from 4 blocks.old.items blocks.new.items }
{
    let size = unit_blocks(split);
    'columns: for i in 0..4 {
        blocks[start + i] = units[from + i / size];
    }
}

/// Writes the blocks of a superblock from column `left` and row `top` on, each that of its unit.
pub fn put_superblock(
    blocks: &mut Vec<Block>,
    width: usize,
    left: usize,
    top: usize,
    split: u8,
    units: &[Block],
)
    requires split { split ≤ 2 }
    requires columns { left + 4 ≤ width }
    requires rows { (top + 4) * width ≤ length blocks.old.items }
    requires at_most_2_24 { length blocks.old.items ≤ 2 ^ 24 }
    requires units { length units.now ≡ 4 ^ split }
    ensures rows { RowsPut width left top split units.now 4 blocks.old.items blocks.new.items }
    ensures lawful { (refs : ℕ) → All (IsBlock refs) units.now → All (IsBlock refs) blocks.old.items
        → All (IsBlock refs) blocks.new.items }
{
    let size = unit_blocks(split);
    let across = units_across(split);
    'rows: for j in 0..4 {
        put_row(
            blocks,
            (top + j) * width + left,
            split,
            units,
            j / size * across,
        );
    }
}
