ghost use Rattle.std.specs.Prelude.{◌≡◌, ◌+◌, ◌*◌, ◌^◌, ◌<◌, ◌≤◌, length, pos, replicate};
ghost use Rattle.dirac_arith.specs.Coded.{read_coded};
ghost use Rattle.dirac_coeffs.specs.Answers.{Fills, Flags, Goes};
ghost use Rattle.dirac_coeffs.specs.BandRead.{block_step};
ghost use Rattle.dirac_coeffs.specs.BandRead.{band_read};
ghost use Rattle.dirac_coeffs.specs.Indices.{all_equal};
ghost use Rattle.dirac_coeffs.specs.Layouts.{IsBandLayout, codeblock_extent, IsCodeblockOf};
ghost use Rattle.dirac_coeffs.specs.Lent.{IsNarrow, content_in, numbers_in, values_in};

use crate::indices::Indices;
use crate::layout::BandLayout;
use crate::numbers::Numbers;
use crate::offsets::{note_former, read_offset};
use crate::rows::read_block_values;
use crate::spans::{Codeblock, has_flags};
use crate::store::{Unread, Values};
use dirac_arith::{Decoder, ZERO_FLAG};
use dirac_common::{Cause, LARGEST_TABLE_SIDE};

/// What is read of a block so far: values that were zeros, and indices that were the band's.
#[derive(Drop)]
pub struct Filling {
    pub values: Values,
    pub indices: Indices,
}

/// The band that a block is of: its layout, the numbers of its parent, and its own index.
#[derive(Clone, Copy)]
pub struct BandFrame<'a> {
    pub layout: BandLayout,
    pub parent: Numbers<'a>,
    pub index: u8,
}

/// Reads the zero flag of a codeblock, which tells that it is skipped; false where there is none.
fn read_flag(decoder: &mut Decoder<'_>, layout: BandLayout) -> Result<bool, Cause>
    requires { decoder.old.at.doublings < 2 ^ 62 }
    ensures value { Flags layout result decoder.old decoder.new }
    ensures few_doublings { decoder.new.at.doublings ≤ decoder.old.at.doublings + 9 }
{
    if !has_flags(layout) {
        return Ok(false);
    }
    decoder.decision(ZERO_FLAG)
}

/// Reads a codeblock, unless its zero flag skips it: in mode 1 the offset of its index, and its values.
fn read_codeblock(
    decoder: &mut Decoder<'_>,
    filling: &mut Filling,
    frame: BandFrame<'_>,
    codeblock: Codeblock,
) -> Result<(), Unread>
    requires block { IsCodeblockOf frame.layout codeblock }
    requires len { length (values_in filling.old.values) ≡ frame.layout.width * frame.layout.height }
    requires count { length filling.old.indices ≡ frame.layout.across * frame.layout.down }
    requires no_overflow { decoder.old.at.doublings < 2 ^ 57 }
    ensures value { Goes (IsNarrow filling.new.values) result (content_in filling.new) decoder.new
        (read_coded (block_step frame.entry.layout (numbers_in frame.entry.parent) frame.entry.index codeblock.row
        codeblock.column (content_in filling.old)) decoder.old) }
    ensures len { length (values_in filling.new.values) ≡ length (values_in filling.old.values) }
    ensures narrow { IsNarrow filling.new.values → IsNarrow filling.old.values }
    ensures count { length filling.new.indices ≡ length filling.old.indices }
    ensures few_doublings { decoder.new.at.doublings ≤ decoder.old.at.doublings + 711 + 702 * LARGEST_TABLE_SIDE
        * codeblock_extent frame.entry.layout.width frame.entry.layout.across codeblock.column }
{
    match read_flag(decoder, frame.layout) {
        Ok(skipped) => {
            if skipped {
                note_former(&mut filling.indices, frame.layout, frame.index, codeblock);
                return Ok(());
            }
            match read_offset(
                decoder,
                &mut filling.indices,
                frame.layout,
                frame.index,
                codeblock,
            ) {
                Ok(()) => read_block_values(
                    decoder,
                    &mut filling.values,
                    frame.layout,
                    frame.parent,
                    codeblock,
                ),
                Err(cause) => Err(Unread::Refused(cause)),
            }
        }
        Err(cause) => Err(Unread::Refused(cause)),
    }
}

/// Reads a block into values that are zeros, and indices that are the band's.
pub fn read_content(block: &[u8], filling: &mut Filling, frame: BandFrame<'_>) -> Result<(), Unread>
    requires layout { IsBandLayout frame.layout }
    requires zeros { values_in filling.old.values ≡ replicate (frame.layout.width * frame.layout.height) (pos 0) }
    requires equal { filling.old.indices ≡ all_equal frame.layout frame.index }
    ensures value { Fills (IsNarrow filling.new.values) result (content_in filling.new)
        (band_read frame.entry.layout (numbers_in frame.entry.parent) frame.entry.index block.now) }
    ensures len { length (values_in filling.new.values) ≡ frame.entry.layout.width * frame.entry.layout.height }
    ensures narrow { IsNarrow filling.new.values → IsNarrow filling.old.values }
{
    let mut decoder = Decoder::new(block);
    'down: for cy in 0..frame.layout.down {
        'across: for cx in 0..frame.layout.across {
            let codeblock = Codeblock {
                row: cy,
                column: cx,
            };
            match read_codeblock(&mut decoder, filling, frame, codeblock) {
                Ok(()) => {}
                Err(unread) => return Err(unread),
            }
        }
    }
    Ok(())
}
