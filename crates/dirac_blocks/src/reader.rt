ghost use Rattle.std.specs.Prelude.{◌≡◌, length, IfOk, IfErr};
ghost use Rattle.dirac_bits.specs.Syntax.{read};
ghost use Rattle.dirac_bits.specs.Answers.{ReadsOrStops, IsEarly};
ghost use Rattle.dirac_blocks.specs.Grammar.{blocks};
ghost use Rattle.dirac_block_table.specs.Tables.{IsBlockTable, IsTableSize};

use crate::list_reader::read_lists;
use dirac_bits::BitReader;
use dirac_block_table::BlockData;
use dirac_common::{NoMemory, Stop};
use std::alloc::Global;

/// Reads a block table (motion data, Dirac specification, section 12) of `across` by `down` superblocks for that number
/// of references: passes to the next byte, and takes for each of its lists a length and an arithmetic block. What an
/// arithmetic block doesn't hold is refused at its first byte.
pub fn read_blocks(
    alloc: Global,
    r: &mut BitReader<'_>,
    across: u32,
    down: u32,
    refs: u8,
) -> Result<BlockData, Stop>
    requires size { IsTableSize across down refs }
    ensures value { ReadsOrStops result r.new (read (blocks across down refs) r.old) }
    ensures place_inside { IfErr result (IsEarly (length r.old.bytes)) }
    ensures kept { r.new.bytes ≡ r.old.bytes }
    ensures lawful { IfOk result IsBlockTable }
    ensures across { IfOk result (λ t. t.across ≡ across) }
    ensures down { IfOk result (λ t. t.down ≡ down) }
    ensures refs { IfOk result (λ t. t.refs ≡ refs) }
{
    match BlockData::try_new(alloc, across, down, refs) {
        Ok(mut table) => {
            r.align();
            match read_lists(r, &mut table) {
                Ok(()) => {
                    let _ = table.refs();
                    Ok(table)
                }
                Err(refusal) => Err(Stop::Refused(refusal)),
            }
        }
        Err(NoMemory) => Err(Stop::NoMemory),
    }
}
