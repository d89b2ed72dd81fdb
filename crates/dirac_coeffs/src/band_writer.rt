ghost use Rattle.std.specs.Prelude.{◌≡◌, ◌+◌, ◌^◌, ◌<◌, true, length, OnErr, OnOk};
ghost use Rattle.std.specs.Option.{ForSome};
ghost use Rattle.dirac_bits.specs.Fronts.{HoldsFront};
ghost use Rattle.dirac_bits.specs.Writing.{IsWhole};
ghost use Rattle.dirac_bits.specs.Spelling.{SpelledBehind};
ghost use Rattle.dirac_coeffs.specs.Grammar.{band as band_grammar, values_of_parent, IsParentOf, IsCodedBand};
ghost use Rattle.dirac_coeffs.specs.Indices.{all_equal};
ghost use Rattle.dirac_coeffs.specs.Layouts.{IsBandLayout};
ghost use Rattle.dirac_coeffs.specs.Lent.{numbers_in};
ghost use Rattle.dirac_coeffs.specs.Written.{AreIndicesOf, block_of, is_zero_band, with_band_block, with_band};

use crate::block_writer::write_below;
use crate::coefficients::{Coefficients, numbers_of};
use crate::layout::{BandLayout, CodedBand, WrittenBand};
use crate::numbers::Numbers;
use dirac_bits::BitWriter;
use dirac_common::NoMemory;
use std::alloc::Global;

/// Writes the length of a block, a quantiser index and the block.
fn write_indexed(w: &mut BitWriter, index: u8, block: &[u8]) -> Result<(), NoMemory>
    requires { length block.now + 1 < 2 ^ 39 }
    ensures exact { OnOk result (w.new ≡ with_band_block index block.now w.old) }
    ensures front { OnErr result (HoldsFront w.old w.new (with_band_block index block.now w.old)) }
{
    match w.uint(block.len() as u64) {
        Ok(()) => match w.uint(u64::from(index)) {
            Ok(()) => match w.align() {
                Ok(()) => w.block(block),
                Err(e) => Err(e),
            },
            Err(e) => Err(e),
        },
        Err(e) => Err(e),
    }
}

/// Writes the length of a subband's block, its quantiser index and the block.
fn write_coded(
    alloc: Global,
    w: &mut BitWriter,
    layout: BandLayout,
    parent: Numbers<'_>,
    band: &CodedBand,
) -> Result<(), NoMemory>
    requires layout { IsBandLayout layout }
    requires band { IsCodedBand layout band.now }
    requires indices { AreIndicesOf layout band.now.index band.now.table.values band.now.indices }
    ensures exact { OnOk result (w.new ≡ with_band_block band.now.index (block_of layout (numbers_in parent.entry)
        band.now.index
        band.now.table.values band.now.indices) w.old) }
    ensures front { OnErr result (HoldsFront w.old w.new (with_band_block band.now.index (block_of layout
        (numbers_in parent.entry)
        band.now.index band.now.table.values band.now.indices) w.old)) }
{
    let written = WrittenBand {
        values: band.table.numbers(),
        parent,
        layout,
        index: band.index,
        indices: &band.indices,
    };
    match write_below(alloc, written) {
        Ok(block) => write_indexed(w, band.index, block.as_slice()),
        Err(e) => Err(e),
    }
}

/// Writes a subband (wavelet coefficients, Dirac specification, section 13): bits 0 up to the next byte, the length of
/// its block, the quantiser index and the block. A band of zeros has length 0. After want of memory what stood before
/// still stands, with a front of these bits behind it.
pub fn write_band(
    alloc: Global,
    w: &mut BitWriter,
    layout: BandLayout,
    parent: Option<&Coefficients>,
    band: &CodedBand,
) -> Result<(), NoMemory>
    requires layout { IsBandLayout layout }
    requires parent { ForSome parent (IsParentOf layout) }
    requires band { IsCodedBand layout band.now }
    requires indices { AreIndicesOf layout band.now.index band.now.table.values band.now.indices }
    requires zeros { is_zero_band band.now.table.values ≡ true → band.now.index ≡ 0 }
    requires zero_indices { is_zero_band band.now.table.values ≡ true → band.now.indices ≡ all_equal layout 0 }
    ensures exact { OnOk result (w.new ≡ with_band layout (values_of_parent parent.entry) band.now w.old) }
    ensures front { OnErr result (HoldsFront w.old w.new
        (with_band layout (values_of_parent parent.entry) band.now w.old)) }
    ensures spelled { OnOk result (SpelledBehind (band_grammar layout (values_of_parent parent.entry)) band.now w.old
        w.new) }
{
    match w.align() {
        Ok(()) => {
            if band.table.are_zeros() {
                return w.uint(0);
            }
            write_coded(alloc, w, layout, numbers_of(parent), band)
        }
        Err(e) => Err(e),
    }
}
