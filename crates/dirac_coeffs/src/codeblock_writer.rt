ghost use Rattle.std.specs.Prelude.{◌≡◌, pos, ◌-◌, ◌^◌, ◌<◌, ◌-ℤ◌, OnOk, unsigned_abs};
ghost use Rattle.dirac_arith.specs.Interval.{narrowed_by};
ghost use Rattle.dirac_coeffs.specs.WrittenBand.{IsBlockToWrite, unskipped_block};
ghost use Rattle.dirac_coeffs.specs.WrittenBand.{whole_block};

use crate::indices::{codeblock_place, former_index};
use crate::layout::WrittenBand;
use crate::spans::{Codeblock, has_flags};
use crate::value_writer::write_block_values;
use crate::zeros::has_zeros_alone;
use dirac_arith::{Encoder, OFFSET_DIGITS, OFFSET_FOLLOW, OFFSET_SIGN, ZERO_FLAG};
use dirac_common::NoMemory;

/// What leads from a former index to an index.
fn difference_of(index: u8, former: u8) -> i64
    ensures value { result ≡ pos index -ℤ pos former }
    ensures magnitude_can_be_spelt { unsigned_abs result < 2 ^ 39 - 1 }
{
    i64::from(index) - i64::from(former)
}

/// Writes a codeblock that isn't skipped: in mode 1 the offset of its index, and its values.
fn write_unskipped(
    encoder: &mut Encoder,
    band: WrittenBand<'_>,
    codeblock: Codeblock,
) -> Result<(), NoMemory>
    requires { IsBlockToWrite band codeblock }
    ensures { OnOk result (encoder.new ≡ narrowed_by encoder.old
        (unskipped_block band.entry codeblock.row codeblock.column)) }
{
    if band.layout.mode == 0 {
        return write_block_values(encoder, band, codeblock);
    }
    let c = codeblock_place(band.layout, codeblock);
    let offset = difference_of(
        band.indices.at(c),
        former_index(band.indices, band.index, c),
    );
    match encoder.signed(&OFFSET_FOLLOW, OFFSET_DIGITS, OFFSET_SIGN, offset) {
        Ok(()) => write_block_values(encoder, band, codeblock),
        Err(e) => Err(e),
    }
}

/// Writes a codeblock behind its zero flag, where it has one.
pub fn write_codeblock(
    encoder: &mut Encoder,
    band: WrittenBand<'_>,
    codeblock: Codeblock,
) -> Result<(), NoMemory>
    requires { IsBlockToWrite band codeblock }
    ensures { OnOk result (encoder.new ≡ narrowed_by encoder.old
        (whole_block band.entry codeblock.row codeblock.column)) }
{
    if !has_flags(band.layout) {
        return write_unskipped(encoder, band, codeblock);
    }
    if has_zeros_alone(band, codeblock) {
        return encoder.decision(ZERO_FLAG, true);
    }
    match encoder.decision(ZERO_FLAG, false) {
        Ok(()) => write_unskipped(encoder, band, codeblock),
        Err(e) => Err(e),
    }
}
