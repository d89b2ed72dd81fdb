//! The payload of a coded picture, written.

ghost use Rattle.std.specs.Prelude.{◌≡◌, ◌≤◌, [], ◌++◌, Some, OnOk, IfOk, IfSome};
ghost use Rattle.dirac_common.specs.Bits.{bits_of};
ghost use Rattle.dirac_bits.specs.Writing.{up_to_byte};
ghost use Rattle.dirac_sequence_header.specs.Lawful.{IsSequence};
ghost use Rattle.dirac_header.specs.Codes.{is_reference};
ghost use Rattle.dirac_header.specs.Written.{HasReferences, MayRetire, header_bits};
ghost use Rattle.dirac_picture.specs.Texts.{AreTexts, with_all_planes};
ghost use Rattle.dirac_picture.specs.Writable.{IsWritten};
ghost use Rattle.dirac_picture.specs.Written.{HasSpelledTable, motion_by, with_coded, with_coefficients, with_flag};
ghost use Rattle.dirac_picture.specs.Written.{with_motion_by, with_residual, with_table};

use crate::coded::{CodedMotion, CodedPicture, CodedResidual};
use crate::texts::Texts;
use dirac_bits::BitWriter;
use dirac_blocks::{BlockData, write_blocks};
use dirac_common::{NoMemory, is_intra};
use dirac_header::{write_header, write_prediction, write_transform};
use dirac_sequence_header::Sequence;
use std::alloc::Global;

/// Writes the bands of Y, U and V, which were written apart.
fn write_texts(w: &mut BitWriter, texts: &Texts) -> Result<(), NoMemory>
    ensures { OnOk result (w.new ≡ with_all_planes w.old (bits_of texts.now.y.items) (bits_of texts.now.u.items)
        (bits_of texts.now.v.items)) }
{
    w.align()?;
    w.block(texts.y.as_slice())?;
    w.block(texts.u.as_slice())?;
    w.block(texts.v.as_slice())
}

/// Writes the transform parameters and the bands, up to a byte's end.
fn write_residual(
    w: &mut BitWriter,
    sequence: &Sequence,
    residual: &CodedResidual,
    texts: &Texts,
) -> Result<(), NoMemory>
    requires sequence { IsSequence sequence.now }
    requires written { IsWritten sequence.now residual.now }
    requires texts { AreTexts sequence.now residual.now texts.now }
    ensures { OnOk result (w.new ≡ up_to_byte (with_residual sequence.now residual.now w.old)) }
{
    write_transform(w, &residual.transform)?;
    write_texts(w, texts)?;
    Ok(())
}

/// Writes the prediction parameters of this block index and precision, and a block table (picture prediction, Dirac
/// specification).
fn write_table(
    alloc: Global,
    w: &mut BitWriter,
    index: u32,
    precision: u32,
    blocks: &BlockData,
) -> Result<(), NoMemory>
    requires index { (2 ≤ index) × (index ≤ 4) }
    requires precision { precision ≤ 3 }
    ensures value { OnOk result (w.new ≡ with_table index precision blocks.now w.old) }
    ensures spelled { OnOk result (HasSpelledTable index precision (Some (motion_by index precision blocks.now))
        w.old) }
{
    write_prediction(w, index, precision)?;
    w.align()?;
    write_blocks(alloc, w, blocks)?;
    Ok(())
}

/// Writes the block parameters and the blocks of an inter picture; an intra picture has none.
fn write_motion(
    alloc: Global,
    w: &mut BitWriter,
    index: u32,
    precision: u32,
    motion: &Option<CodedMotion>,
) -> Result<(), NoMemory>
    requires index { (2 ≤ index) × (index ≤ 4) }
    requires precision { precision ≤ 3 }
    ensures value { OnOk result (w.new ≡ with_motion_by index precision motion.now w.old) }
    ensures spelled { OnOk result (HasSpelledTable index precision motion.now w.old) }
{
    match motion {
        None => Ok(()),
        Some(motion) => write_table(alloc, w, index, precision, &motion.blocks),
    }
}

/// Writes the flag zero_residual, which just inter pictures have.
fn write_flag(w: &mut BitWriter, code: u8, none: bool) -> Result<(), NoMemory>
    ensures { OnOk result (w.new ≡ with_flag code none w.old) }
{
    if is_intra(code) {
        return Ok(());
    }
    w.bit(none)
}

/// Writes whether the residual is 0, which an inter picture says, and the residual, where there is one, up to a byte's
/// end.
fn write_coefficients(
    w: &mut BitWriter,
    sequence: &Sequence,
    code: u8,
    residual: &Option<CodedResidual>,
    texts: &Texts,
) -> Result<(), NoMemory>
    requires sequence { IsSequence sequence.now }
    requires written { IfSome residual.now (IsWritten sequence.now) }
    requires texts { IfSome residual.now (λ r. AreTexts sequence.now r texts.now) }
    ensures { OnOk result (w.new ≡ up_to_byte (with_coefficients sequence.now code residual.now w.old)) }
{
    match residual {
        None => {
            write_flag(w, code, true)?;
            w.align()
        }
        Some(residual) => {
            write_flag(w, code, false)?;
            write_residual(w, sequence, residual, texts)
        }
    }
}

/// The payload of a coded picture of this sequence, with this block index and precision, the bytes of its bands being
/// these (picture parsing, Dirac specification).
pub fn payload_bytes(
    alloc: Global,
    sequence: &Sequence,
    index: u32,
    precision: u32,
    coded: &CodedPicture,
    texts: &Texts,
) -> Result<Vec<u8>, NoMemory>
    requires sequence { IsSequence sequence.now }
    requires index { (2 ≤ index) × (index ≤ 4) }
    requires precision { precision ≤ 3 }
    requires references { HasReferences coded.now.code coded.now.header }
    requires retires { MayRetire (is_reference coded.now.code) coded.now.header.number coded.now.header.retire }
    requires written { IfSome coded.now.residual (IsWritten sequence.now) }
    requires texts { IfSome coded.now.residual (λ r. AreTexts sequence.now r texts.now) }
    ensures value { IfOk result (λ v. bits_of v.items
        ≡ up_to_byte (with_coded sequence.now index precision coded.now [])) }
    ensures spelled { IfOk result (λ v. HasSpelledTable index precision coded.now.motion
        (header_bits [] coded.now.code coded.now.header)) }
{
    let mut w = BitWriter::new(alloc);
    write_header(&mut w, &coded.header, coded.code)?;
    write_motion(alloc, &mut w, index, precision, &coded.motion)?;
    w.align()?;
    write_coefficients(&mut w, sequence, coded.code, &coded.residual, texts)?;
    let bytes = w.finish()?;
    Ok(bytes)
}
