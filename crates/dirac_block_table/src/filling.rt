ghost use Rattle.std.specs.Prelude.{◌≡◌, ◌+◌, ◌*◌, ◌^◌, ◌≤◌, length};
ghost use Rattle.dirac_block_table.specs.Filling.{rows_filled};

use crate::block::Block;

/// Writes a block to `count` rows of `size` places, from column `i` of row `j` on.
pub fn fill_rows(
    blocks: &mut Vec<Block>,
    width: usize,
    size: usize,
    i: usize,
    j: usize,
    block: Block,
    count: usize,
)
    requires at_least_1 { 1 ≤ width }
    requires columns { i + size ≤ width }
    requires rows { (j + count) * width ≤ length blocks.old.items }
    requires at_most_2_24 { length blocks.old.items ≤ 2 ^ 24 }
    ensures exact { blocks.new.items ≡ rows_filled width blocks.old.items size i j block count }
    ensures len { length blocks.new.items ≡ length blocks.old.items }
{
    'rows: for n in 0..count {
        let start = (j + n) * width + i;
        'places: for k in 0..size {
            blocks[start + k] = block;
        }
    }
}
