ghost use Rattle.std.specs.Prelude.{◌≡◌, pos, ◌+◌, ◌-◌, ◌+ℤ◌, ◌*◌, ◌^◌, ◌<◌, ◌≤◌, true, length, unsigned_abs};
ghost use Rattle.dirac_arith.specs.Coded.{read_coded};
ghost use Rattle.dirac_arith.specs.Deciding.{GivesReading};
ghost use Rattle.dirac_coeffs.specs.Answers.{Moves};
ghost use Rattle.dirac_coeffs.specs.BandRead.{offset_step};
ghost use Rattle.dirac_coeffs.specs.Indices as spec;
ghost use Rattle.dirac_coeffs.specs.Layouts.{IsCodeblockOf};

use crate::indices::{Indices, codeblock_place, former_index};
use crate::layout::BandLayout;
use crate::spans::Codeblock;
use dirac_arith::{Decoder, OFFSET_DIGITS, OFFSET_FOLLOW, OFFSET_SIGN};
use dirac_common::{Cause, LARGEST_INDEX};

/// An index and an offset.
fn sum_of(former: u8, offset: i64) -> i64
    requires { unsigned_abs offset < 2 ^ 39 - 1 }
    ensures { result ≡ pos former +ℤ offset }
{
    i64::from(former) + offset
}

/// Whether a sum is the index of a quantiser.
fn is_index(sum: i64) -> bool
    ensures { result ≡ spec.is_index sum }
{
    0 <= sum && sum <= i64::from(LARGEST_INDEX)
}

/// A sum as the index that it is.
#[tactic(auto, using(crate::proofs::OffsetsRead::index_few))]
fn as_index(sum: i64) -> u8
    requires { spec.is_index sum ≡ true }
    ensures { result ≡ unsigned_abs sum }
{
    sum.unsigned_abs() as u8
}

/// Reads an index as an offset from a former one.
fn read_index(decoder: &mut Decoder<'_>, former: u8) -> Result<u8, Cause>
    requires no_overflow { decoder.old.at.doublings < 2 ^ 61 }
    ensures value { GivesReading result decoder.new (read_coded (spec.index_coded former) decoder.old) }
    ensures few_doublings { decoder.new.at.doublings ≤ decoder.old.at.doublings + 702 }
{
    match decoder.signed(&OFFSET_FOLLOW, OFFSET_DIGITS, OFFSET_SIGN) {
        Ok(offset) => {
            let sum = sum_of(former, offset);
            if is_index(sum) {
                Ok(as_index(sum))
            } else {
                Err(Cause::QuantIndex)
            }
        }
        Err(cause) => Err(cause),
    }
}

/// Reads the offset of a codeblock's index, where the mode has one, and notes the index.
pub fn read_offset(
    decoder: &mut Decoder<'_>,
    indices: &mut Indices,
    layout: BandLayout,
    index: u8,
    codeblock: Codeblock,
) -> Result<(), Cause>
    requires block { IsCodeblockOf layout codeblock }
    requires count { length indices.old ≡ layout.across * layout.down }
    requires no_overflow { decoder.old.at.doublings < 2 ^ 61 }
    ensures value { Moves result indices.new decoder.new (read_coded (offset_step layout.mode index
        (spec.place_of layout codeblock.row codeblock.column) indices.old) decoder.old) }
    ensures count { length indices.new ≡ length indices.old }
    ensures few_doublings { decoder.new.at.doublings ≤ decoder.old.at.doublings + 702 }
{
    if layout.mode == 0 {
        return Ok(());
    }
    let c = codeblock_place(layout, codeblock);
    let former = former_index(indices, index, c);
    match read_index(decoder, former) {
        Ok(next) => {
            indices.set(c, next);
            Ok(())
        }
        Err(cause) => Err(cause),
    }
}

/// Notes that a skipped codeblock has the index of the one before it, which in mode 0 it has already.
pub fn note_former(indices: &mut Indices, layout: BandLayout, index: u8, codeblock: Codeblock)
    requires block { IsCodeblockOf layout codeblock }
    requires count { length indices.old ≡ layout.across * layout.down }
    ensures value { indices.new ≡ spec.with_former layout.mode index
        (spec.place_of layout codeblock.row codeblock.column) indices.old }
    ensures count { length indices.new ≡ length indices.old }
{
    if layout.mode == 0 {
        return;
    }
    let c = codeblock_place(layout, codeblock);
    let former = former_index(indices, index, c);
    indices.set(c, former);
}
