//! Picture headers and parameters, written.

ghost use Rattle.std.specs.Prelude.{◌≡◌, ℕ, ◌≤◌, ◌^◌, ◌++◌, OnOk, OnErr, unsigned_abs};
ghost use Rattle.dirac_bits.specs.Fronts.{HoldsFront};
ghost use Rattle.dirac_header.specs.Codes.{is_reference};
ghost use Rattle.dirac_header.specs.Header as grammar;
ghost use Rattle.dirac_header.specs.Written as written;

use crate::header::PictureHeader;
use dirac_bits::BitWriter;
use dirac_common::{NoMemory, is_reference};
use dirac_parameters::{Counts, Transform};

/// Writes the header of a picture with this parse code: picture header, Dirac specification, section 11. Bits 0 up to
/// the next byte stand before it. Each offset is written as a number from -2^31 to 2^31 - 1.
///
/// After want of memory what stood before still stands, with a front of these bits behind it.
pub fn write_header(w: &mut BitWriter, header: &PictureHeader, code: u8) -> Result<(), NoMemory>
    requires references { written.HasReferences code header.now }
    requires retire { written.MayRetire (is_reference code) header.now.number header.now.retire }
    ensures exact { OnOk result (w.new ≡ w.old ++ written.header_bits w.old code header.now) }
    ensures front { OnErr result (HoldsFront w.old w.new (w.old ++ written.header_bits w.old code header.now)) }
    // These bits spell the header.
    ensures spelled { OnOk result (written.SpelledBehind (grammar.header code) header.now w.old w.new) }
{
    write_fields(w, *header, code)?;
    Ok(())
}

fn write_fields(w: &mut BitWriter, header: PictureHeader, code: u8) -> Result<(), NoMemory>
    ensures exact { OnOk result (w.new ≡ w.old ++ written.header_bits w.old code header) }
    ensures front { OnErr result (HoldsFront w.old w.new (w.old ++ written.header_bits w.old code header)) }
    ensures range { written.NumbersHave32Bits header }
{
    w.align()?;
    w.literal(header.number)?;
    write_reference(w, header.number, header.ref1)?;
    write_reference(w, header.number, header.ref2)?;
    write_retirement(w, is_reference(code), header.number, header.retire)?;
    Ok(())
}

fn write_reference(w: &mut BitWriter, number: u32, reference: Option<u32>) -> Result<(), NoMemory>
    ensures exact { OnOk result (w.new ≡ w.old ++ written.reference_bits number reference) }
    ensures front { OnErr result (HoldsFront w.old w.new (w.old ++ written.reference_bits number reference)) }
{
    if let Some(reference) = reference {
        w.sint(offset_to(number, reference))?;
    }
    Ok(())
}

fn write_retirement(
    w: &mut BitWriter,
    there: bool,
    number: u32,
    retire: Option<u32>,
) -> Result<(), NoMemory>
    ensures exact { OnOk result (w.new ≡ w.old ++ written.retirement_bits there number retire) }
    ensures front { OnErr result (HoldsFront w.old w.new (w.old ++ written.retirement_bits there number retire)) }
{
    if there {
        w.sint(retired_offset(number, retire))?;
    }
    Ok(())
}

/// The offset of the picture that is retired, 0 where none is.
fn retired_offset(number: u32, retire: Option<u32>) -> i64
    ensures value { result ≡ written.retired_offset number retire }
    ensures at_most_2_31 { unsigned_abs result ≤ 2 ^ 31 }
{
    match retire {
        Some(retired) => offset_to(number, retired),
        None => 0,
    }
}

/// By how much the number of a picture lies from that of another, from -2^31 to 2^31 - 1.
fn offset_to(from: u32, to: u32) -> i64
    ensures value { result ≡ written.offset_to from to }
    ensures at_most_2_31 { unsigned_abs result ≤ 2 ^ 31 }
{
    let ahead = i64::from(to.wrapping_sub(from));
    if ahead < 1 << 31 {
        ahead
    } else {
        ahead - (1 << 32)
    }
}

/// Writes transform parameters: transform parameters, Dirac specification. The partition flag is set exactly where a
/// count is above 1 or the codeblock mode is 1.
///
/// After want of memory what stood before still stands, with a front of these bits behind it.
pub fn write_transform(w: &mut BitWriter, t: &Transform) -> Result<(), NoMemory>
    requires { written.IsWritableTransform t.now }
    ensures exact { OnOk result (w.new ≡ w.old ++ written.transform_bits t.now) }
    ensures front { OnErr result (HoldsFront w.old w.new (w.old ++ written.transform_bits t.now)) }
    // These bits spell the parameters.
    ensures spelled { OnOk result (written.TransformBehind t.now w.old w.new) }
{
    write_parameters(w, t)?;
    Ok(())
}

fn write_parameters(w: &mut BitWriter, t: &Transform) -> Result<(), NoMemory>
    ensures exact { OnOk result (w.new ≡ w.old ++ written.transform_bits t.now) }
    ensures front { OnErr result (HoldsFront w.old w.new (w.old ++ written.transform_bits t.now)) }
{
    w.uint(u64::from(t.wavelet))?;
    w.uint(u64::from(t.depth))?;
    write_codeblocks(w, &t.counts, t.mode)?;
    Ok(())
}

fn write_codeblocks(w: &mut BitWriter, counts: &Counts, mode: u8) -> Result<(), NoMemory>
    ensures exact { OnOk result (w.new ≡ w.old ++ written.codeblock_bits counts.now mode) }
    ensures front { OnErr result (HoldsFront w.old w.new (w.old ++ written.codeblock_bits counts.now mode)) }
{
    let parted = is_parted(counts, mode);
    w.bit(parted)?;
    write_partition(w, parted, counts, mode)?;
    Ok(())
}

fn write_partition(
    w: &mut BitWriter,
    parted: bool,
    counts: &Counts,
    mode: u8,
) -> Result<(), NoMemory>
    ensures exact { OnOk result (w.new ≡ w.old ++ written.partition_bits parted counts.now mode) }
    ensures front { OnErr result (HoldsFront w.old w.new (w.old ++ written.partition_bits parted counts.now mode)) }
{
    if parted {
        write_counts(w, counts)?;
        w.uint(u64::from(mode))?;
    }
    Ok(())
}

/// The partition flag of these counts and this codeblock mode.
fn is_parted(counts: &Counts, mode: u8) -> bool
    ensures { result ≡ written.partition_flag counts.now mode }
{
    is_divided(counts) || mode > 0
}

/// Whether a count is above 1.
#[tactic(auto, using(crate::proofs::TransformSpelled::divided_steps))]
fn is_divided(counts: &Counts) -> bool
    ensures { result ≡ written.is_divided counts.now }
{
    'levels: for level in 0..counts.len() {
        let (across, down) = counts.at(level);
        if is_above_one(across, down) {
            return true;
        }
    }
    false
}

fn is_above_one(across: u32, down: u32) -> bool
    ensures { result ≡ written.is_above_one across down }
{
    across > 1 || down > 1
}

fn write_counts(w: &mut BitWriter, counts: &Counts) -> Result<(), NoMemory>
    ensures exact { OnOk result (w.new ≡ w.old ++ written.counts_bits counts.now) }
    ensures front { OnErr result (HoldsFront w.old w.new (w.old ++ written.counts_bits counts.now)) }
{
    'levels: for level in 0..counts.len() {
        let (across, down) = counts.at(level);
        w.uint(u64::from(across))?;
        w.uint(u64::from(down))?;
    }
    Ok(())
}

/// Writes the prediction parameters of the encoder: picture prediction parameters, Dirac specification. These are
/// block parameters `blocks`, motion vectors in parts of a luma sample, 2^`precision` to each, no global motion, mode 0
/// and the default weights. Bits 0 up to the next byte stand before them.
///
/// After want of memory what stood before still stands, with a front of these bits behind it.
pub fn write_prediction(w: &mut BitWriter, blocks: u32, precision: u32) -> Result<(), NoMemory>
    requires blocks { (2 ≤ blocks) × (blocks ≤ 4) }
    requires precision { precision ≤ 3 }
    ensures exact { OnOk result (w.new ≡ w.old ++ written.prediction_bits w.old blocks precision) }
    ensures front { OnErr result (HoldsFront w.old w.new (w.old ++ written.prediction_bits w.old blocks precision)) }
    // These bits spell the parameters.
    ensures spelled { OnOk result (written.PredictionBehind blocks precision w.old w.new) }
{
    write_choices(w, blocks, precision)?;
    Ok(())
}

fn write_choices(w: &mut BitWriter, blocks: u32, precision: u32) -> Result<(), NoMemory>
    ensures exact { OnOk result (w.new ≡ w.old ++ written.prediction_bits w.old blocks precision) }
    ensures front { OnErr result (HoldsFront w.old w.new (w.old ++ written.prediction_bits w.old blocks precision)) }
{
    w.align()?;
    w.uint(u64::from(blocks))?;
    w.uint(u64::from(precision))?;
    w.bit(false)?;
    w.uint(0)?;
    w.bit(false)?;
    Ok(())
}
