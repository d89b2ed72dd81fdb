//! The whole sequence header.

ghost use Rattle.std.specs.Prelude.{◌≡◌, ◌≤◌, IfOk, IfErr, Ok, length};
ghost use Rattle.dirac_bits.specs.Syntax.{read};
ghost use Rattle.dirac_bits.specs.Answers.{GivesSeenBy, ReadsSeenBy};
ghost use Rattle.dirac_bits.specs.Laws.{StartsWith};
ghost use Rattle.dirac_sequence_header.specs.declared.sequence.Sequence.{Sequence as TheSequence};
ghost use Rattle.dirac_sequence_header.specs.Grammar as grammar;
ghost use Rattle.dirac_sequence_header.specs.Lawful.{HasFrames, IsSize, IsSequence};

use crate::details::{read_colours, read_samples};
use crate::frames::read_frames;
use crate::sequence::Sequence;
use crate::tables::preset;
use dirac_base_formats::LAST_BASE;
use dirac_bits::BitReader;
use dirac_common::{Cause, Refusal, ratio_down};

/// The sequence that a payload begins with: sequence header, Dirac specification, section 10. What follows its last
/// field is free.
///
/// A refusal names the first field that breaks a rule, by the byte of its first bit. A size that isn't a multiple of
/// the chroma ratios is refused at the flag of the chroma format, a depth other than 8 at the flag of the signal range,
/// a height that has no two fields with whole chroma samples at the picture coding mode, where that is fields.
pub fn read_sequence(payload: &[u8]) -> Result<Sequence, Refusal>
    ensures value { GivesSeenBy (λ s. s) result (grammar.sequence_read payload.now) }
    // What is answered is spelled by the payload's first bits.
    ensures spelled { IfOk result (λ s. StartsWith grammar.sequence s payload.now) }
    // What its first bits spell is answered.
    ensures no_other_reading { (s : TheSequence) → StartsWith grammar.sequence s payload.now → result ≡ Ok s }
    ensures lawful { IfOk result (λ s. IsSequence s) }
    ensures place_inside { IfErr result (λ e. e.at ≤ length payload.now) }
{
    let mut r = BitReader::new(payload);
    read_header(&mut r)
}

#[tactic(auto, unfolding(crate::specs::Grammar::sequence), using(dirac_bits::specs::Then::read_then))]
fn read_header(r: &mut BitReader<'_>) -> Result<Sequence, Refusal>
    ensures value { ReadsSeenBy (λ s. s) result r.new (read grammar.sequence r.old) }
    ensures place_inside { IfErr result (λ e. e.at ≤ length r.old.bytes) }
    ensures lawful { IfOk result (λ s. IsSequence s) }
{
    let s = read_values(r)?;
    read_colours(r)?;
    read_coding_mode(r, s)
}

#[tactic(auto, unfolding(crate::specs::Grammar::coding_mode), using(dirac_bits::specs::Then::read_then))]
fn read_coding_mode(r: &mut BitReader<'_>, s: Sequence) -> Result<Sequence, Refusal>
    requires { HasFrames s }
    ensures value { ReadsSeenBy (λ s. s) result r.new (read (grammar.coding_mode s) r.old) }
    ensures place_inside { IfErr result (λ e. e.at ≤ length r.old.bytes) }
    ensures lawful { IfOk result (λ s. IsSequence s) }
{
    let at = r.place();
    let mode = r.field(Cause::Fields, 0, 1)?;
    if mode == 0 {
        return Ok(Sequence { fields: false, ..s });
    }
    if s.height % (2 * ratio_down(s.chroma)) == 0 {
        Ok(Sequence { fields: true, ..s })
    } else {
        Err(Refusal {
            at,
            cause: Cause::Size,
        })
    }
}

#[tactic(auto, unfolding(crate::specs::Grammar::values), using(dirac_bits::specs::Then::read_then))]
fn read_values(r: &mut BitReader<'_>) -> Result<Sequence, Refusal>
    ensures value { ReadsSeenBy (λ s. s) result r.new (read grammar.values r.old) }
    ensures place_inside { IfErr result (λ e. e.at ≤ length r.old.bytes) }
    ensures kept { r.new.bytes ≡ r.old.bytes }
    ensures lawful { IfOk result (λ s. HasFrames s) }
{
    let s = read_base_format(r)?;
    let s = read_frames(r, s)?;
    read_samples(r, s)
}

#[tactic(auto, unfolding(crate::specs::Grammar::base_format_fields), using(dirac_bits::specs::Then::read_then))]
fn read_base_format(r: &mut BitReader<'_>) -> Result<Sequence, Refusal>
    ensures value { ReadsSeenBy (λ s. s) result r.new (read grammar.base_format_fields r.old) }
    ensures place_inside { IfErr result (λ e. e.at ≤ length r.old.bytes) }
    ensures kept { r.new.bytes ≡ r.old.bytes }
    ensures size { IfOk result (λ s. IsSize s.width s.height) }
{
    let major = r.field(Cause::Version, 0, 2)?;
    let minor = r.uint()?;
    let profile = r.uint()?;
    let level = r.uint()?;
    let base = r.field(Cause::Preset, 0, LAST_BASE as u64)?;
    Ok(Sequence {
        major,
        minor,
        profile,
        level,
        ..preset(base as u8)
    })
}
