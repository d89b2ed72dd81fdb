//! The sequence header of the encoder, written.

ghost use Rattle.std.specs.Prelude.{◌≡◌, ◌≤◌, ◌<◌, ◌^◌, ◌++◌, not, Ok, OnOk, IfOk};
ghost use Rattle.dirac_types.specs.Settings.{IsAccepted};
ghost use Rattle.std.specs.List.{AllByRecursion};
ghost use Rattle.dirac_common.specs.Bits.{bits_of};
ghost use Rattle.dirac_common.specs.Numbers as numbers;
ghost use Rattle.dirac_bits.specs.Laws.{StartsWith};
ghost use Rattle.dirac_sequence_header.specs.Grammar as grammar;
ghost use Rattle.dirac_sequence_header.specs.Lawful.{IsSequence};
ghost use Rattle.dirac_sequence_header.specs.Tables.{preset as preset_of};
ghost use Rattle.dirac_sequence.specs.Written as written;

use dirac_bits::BitWriter;
use dirac_common::{Chroma, NoMemory};
use dirac_sequence_header::{Sequence, frame_rate, preset, signal_range};
use dirac_types::Settings;
use std::alloc::Global;

/// The sequence that the encoder's pictures make with these settings: version 2.2, its picture size, chroma format,
/// frame rate and signal range, whether they are fields, and what the settings don't say as the base video format has
/// it.
pub fn sequence_of(settings: &Settings) -> Sequence
    requires { IsAccepted settings.now }
    ensures value { result ≡ written.sequence_of settings.now }
    ensures lawful { IsSequence result }
{
    made(settings)
}

#[tactic(auto, unfolding(crate::specs::Written::sequence_of))]
fn made(settings: &Settings) -> Sequence
    requires { written.IsWritable settings.now }
    ensures value { result ≡ written.sequence_of settings.now }
    ensures lawful { IsSequence result }
{
    let base = preset(settings.base as u8);
    let signal = signal_range(u64::from(settings.signal));
    let clean = if is_own_size(settings, &base) {
        (u64::from(settings.width), u64::from(settings.height), 0, 0)
    } else {
        base.clean
    };
    Sequence {
        major: 2,
        minor: 2,
        profile: u64::from(settings.profile),
        level: u64::from(settings.level),
        width: settings.width,
        height: settings.height,
        chroma: chroma_of(settings.chroma),
        rate: frame_rate(u64::from(settings.rate)),
        clean,
        luma: signal.luma,
        colour: signal.colour,
        fields: settings.fields == 1,
        ..base
    }
}

fn chroma_of(index: u32) -> Chroma
    ensures { result ≡ grammar.chroma_of index }
{
    match index {
        0 => Chroma::C444,
        1 => Chroma::C422,
        _ => Chroma::C420,
    }
}

fn index_of(chroma: Chroma) -> u32
    ensures { result ≡ written.index_of chroma }
{
    match chroma {
        Chroma::C444 => 0,
        Chroma::C422 => 1,
        Chroma::C420 => 2,
    }
}

fn is_same(a: (u64, u64), b: (u64, u64)) -> bool
    ensures { result ≡ written.is_same_pair a b }
{
    a.0 == b.0 && a.1 == b.1
}

fn is_own_size(settings: &Settings, base: &Sequence) -> bool
    requires { base.now ≡ preset_of settings.now.base }
    ensures { result ≡ written.is_own_size settings.now }
{
    !(settings.width == base.width && settings.height == base.height)
}

fn is_own_chroma(settings: &Settings, base: &Sequence) -> bool
    requires { base.now ≡ preset_of settings.now.base }
    ensures { result ≡ written.is_own_chroma settings.now }
{
    !(settings.chroma == index_of(base.chroma))
}

fn is_own_rate(settings: &Settings, base: &Sequence) -> bool
    requires base { base.now ≡ preset_of settings.now.base }
    requires rate { (1 ≤ settings.now.rate) × (settings.now.rate ≤ 10) }
    ensures { result ≡ written.is_own_rate settings.now }
{
    !is_same(frame_rate(u64::from(settings.rate)), base.rate)
}

fn is_own_signal(settings: &Settings, base: &Sequence) -> bool
    requires base { base.now ≡ preset_of settings.now.base }
    requires signal { (1 ≤ settings.now.signal) × (settings.now.signal ≤ 2) }
    ensures { result ≡ written.is_own_signal settings.now }
{
    let signal = signal_range(u64::from(settings.signal));
    !(is_same(signal.luma, base.luma) && is_same(signal.colour, base.colour))
}

/// The bytes of the sequence header of these settings: sequence header, Dirac specification, section 10. A custom flag
/// is set exactly where a value differs from the base's, and for the clean area where the size does.
pub fn write_sequence(alloc: Global, settings: &Settings) -> Result<Vec<u8>, NoMemory>
    requires { IsAccepted settings.now }
    ensures exact { IfOk result (λ v. v.items ≡ written.sequence_payload settings.now) }
    // These bytes spell the sequence of the settings.
    ensures spelled { IfOk result (λ v. StartsWith grammar.sequence (written.sequence_of settings.now) v.items) }
    // And they are read as that sequence.
    ensures read { IfOk result (λ v. grammar.sequence_read v.items ≡ Ok (written.sequence_of settings.now)) }
{
    let bytes = header_bytes(alloc, settings)?;
    are_bytes(bytes.as_slice());
    Ok(bytes)
}

/// Bytes are below 256.
fn are_bytes(bytes: &[u8])
    ensures { AllByRecursion (λ b. b < 2 ^ 8) bytes.now }
{}

fn header_bytes(alloc: Global, settings: &Settings) -> Result<Vec<u8>, NoMemory>
    requires { written.IsWritable settings.now }
    ensures bits { IfOk result (λ v. bits_of v.items ≡ written.up_to_byte (written.sequence_bits settings.now)) }
{
    let mut w = BitWriter::new(alloc);
    write_fields(&mut w, settings)?;
    w.align()?;
    w.finish()
}

fn write_fields(w: &mut BitWriter, settings: &Settings) -> Result<(), NoMemory>
    requires { written.IsWritable settings.now }
    ensures { OnOk result (w.new ≡ w.old ++ written.sequence_bits settings.now) }
{
    let base = preset(settings.base as u8);
    write_base(w, settings)?;
    write_frames(w, settings, &base)?;
    write_samples(w, settings, &base)?;
    w.bit(false)?;
    w.uint(u64::from(settings.fields))?;
    Ok(())
}

fn write_base(w: &mut BitWriter, settings: &Settings) -> Result<(), NoMemory>
    requires { written.IsWritable settings.now }
    ensures { OnOk result (w.new ≡ w.old ++ written.base_bits settings.now) }
{
    w.uint(2)?;
    w.uint(2)?;
    w.uint(u64::from(settings.profile))?;
    w.uint(u64::from(settings.level))?;
    w.uint(u64::from(settings.base))?;
    Ok(())
}

fn write_frames(w: &mut BitWriter, settings: &Settings, base: &Sequence) -> Result<(), NoMemory>
    requires writable { written.IsWritable settings.now }
    requires base { base.now ≡ preset_of settings.now.base }
    ensures { OnOk result (w.new ≡ w.old ++ written.frames_bits settings.now) }
{
    write_size(w, is_own_size(settings, base), settings)?;
    write_custom(w, is_own_chroma(settings, base), settings.chroma)?;
    w.bit(false)?;
    write_custom(w, is_own_rate(settings, base), settings.rate)?;
    Ok(())
}

fn write_samples(w: &mut BitWriter, settings: &Settings, base: &Sequence) -> Result<(), NoMemory>
    requires writable { written.IsWritable settings.now }
    requires base { base.now ≡ preset_of settings.now.base }
    ensures { OnOk result (w.new ≡ w.old ++ written.samples_bits settings.now) }
{
    w.bit(false)?;
    write_clean_area(w, is_own_size(settings, base), settings)?;
    write_custom(w, is_own_signal(settings, base), settings.signal)?;
    Ok(())
}

/// A custom flag, and behind it where it is set an index.
fn write_custom(w: &mut BitWriter, own: bool, index: u32) -> Result<(), NoMemory>
    ensures { OnOk result (w.new ≡ w.old ++ written.custom_bits own (numbers.uint index)) }
{
    w.bit(own)?;
    if own {
        w.uint(u64::from(index))?;
    }
    Ok(())
}

fn write_size(w: &mut BitWriter, own: bool, settings: &Settings) -> Result<(), NoMemory>
    ensures { OnOk result (w.new ≡ w.old ++ written.custom_bits own (numbers.uint settings.now.width
        ++ numbers.uint settings.now.height)) }
{
    w.bit(own)?;
    if own {
        w.uint(u64::from(settings.width))?;
        w.uint(u64::from(settings.height))?;
    }
    Ok(())
}

fn write_clean_area(w: &mut BitWriter, own: bool, settings: &Settings) -> Result<(), NoMemory>
    ensures { OnOk result (w.new ≡ w.old ++ written.custom_bits own (written.whole_area_bits settings.now)) }
{
    w.bit(own)?;
    if own {
        w.uint(u64::from(settings.width))?;
        w.uint(u64::from(settings.height))?;
        w.uint(0)?;
        w.uint(0)?;
    }
    Ok(())
}
