//! Size, chroma format, source sampling and frame rate.

ghost use Rattle.std.specs.Prelude.{◌≡◌, ◌≤◌, ◌%◌, ◌==◌, IfOk, IfErr, length};
ghost use Rattle.dirac_bits.specs.Syntax.{read};
ghost use Rattle.dirac_bits.specs.Answers.{ReadsSeenBy};
ghost use Rattle.dirac_sequence_header.specs.Grammar as grammar;
ghost use Rattle.dirac_common.specs.Ratios as ratios;
ghost use Rattle.dirac_sequence_header.specs.Lawful.{IsSize, HasFrames};

use crate::sequence::Sequence;
use crate::tables;
use dirac_bits::BitReader;
use dirac_common::{
    Cause, Chroma, LARGEST_HEIGHT, LARGEST_WIDTH, Refusal, ratio_across, ratio_down,
};

#[tactic(auto, unfolding(crate::specs::Grammar::frames), using(dirac_bits::specs::Then::read_then))]
pub fn read_frames(r: &mut BitReader<'_>, s: Sequence) -> Result<Sequence, Refusal>
    requires { IsSize s.width s.height }
    ensures value { ReadsSeenBy (λ s. s) result r.new (read (grammar.frames s) r.old) }
    ensures place_inside { IfErr result (λ e. e.at ≤ length r.old.bytes) }
    ensures kept { r.new.bytes ≡ r.old.bytes }
    ensures lawful { IfOk result (λ s. HasFrames s) }
{
    let (width, height) = read_size(r, (s.width, s.height))?;
    let chroma = read_chroma(r, (width, height), s.chroma)?;
    let interlaced = read_sampling(r, s.interlaced)?;
    let rate = read_rate(r, s.rate)?;
    Ok(Sequence {
        width,
        height,
        chroma,
        interlaced,
        rate,
        ..s
    })
}

#[tactic(auto, unfolding(crate::specs::Grammar::size), using(dirac_bits::specs::Then::read_then))]
fn read_size(r: &mut BitReader<'_>, default: (u32, u32)) -> Result<(u32, u32), Refusal>
    requires { IsSize default.0 default.1 }
    ensures value { ReadsSeenBy (λ x. x) result r.new (read (grammar.size default) r.old) }
    ensures place_inside { IfErr result (λ e. e.at ≤ length r.old.bytes) }
    ensures kept { r.new.bytes ≡ r.old.bytes }
    ensures size { IfOk result (λ x. IsSize x.0 x.1) }
{
    if !r.bit()? {
        return Ok(default);
    }
    let width = r.field(Cause::Size, 1, LARGEST_WIDTH as u64)?;
    let height = r.field(Cause::Size, 1, LARGEST_HEIGHT as u64)?;
    Ok((width as u32, height as u32))
}

#[tactic(auto, unfolding(crate::specs::Grammar::chroma), using(dirac_bits::specs::Then::read_then))]
fn read_chroma(r: &mut BitReader<'_>, size: (u32, u32), default: Chroma) -> Result<Chroma, Refusal>
    ensures value { ReadsSeenBy (λ c. c) result r.new (read (grammar.chroma size default) r.old) }
    ensures place_inside { IfErr result (λ e. e.at ≤ length r.old.bytes) }
    ensures kept { r.new.bytes ≡ r.old.bytes }
    ensures whole_across { IfOk result (λ c. size.0 % ratios.ratio_across c ≡ 0) }
    ensures whole_down { IfOk result (λ c. size.1 % ratios.ratio_down c ≡ 0) }
{
    let at = r.place();
    let chroma = read_own_chroma(r, default)?;
    if size.0 % ratio_across(chroma) == 0 && size.1 % ratio_down(chroma) == 0 {
        Ok(chroma)
    } else {
        Err(Refusal {
            at,
            cause: Cause::Size,
        })
    }
}

#[tactic(auto, unfolding(crate::specs::Grammar::own_chroma), using(dirac_bits::specs::Then::read_then))]
fn read_own_chroma(r: &mut BitReader<'_>, default: Chroma) -> Result<Chroma, Refusal>
    ensures value { ReadsSeenBy (λ c. c) result r.new (read (grammar.own_chroma default) r.old) }
    ensures place_inside { IfErr result (λ e. e.at ≤ length r.old.bytes) }
    ensures kept { r.new.bytes ≡ r.old.bytes }
{
    if !r.bit()? {
        return Ok(default);
    }
    Ok(match r.field(Cause::ChromaFormat, 0, 2)? {
        0 => Chroma::C444,
        1 => Chroma::C422,
        _ => Chroma::C420,
    })
}

#[tactic(auto, unfolding(crate::specs::Grammar::sampling), using(dirac_bits::specs::Then::read_then))]
fn read_sampling(r: &mut BitReader<'_>, default: bool) -> Result<bool, Refusal>
    ensures value { ReadsSeenBy (λ b. b) result r.new (read (grammar.sampling default) r.old) }
    ensures place_inside { IfErr result (λ e. e.at ≤ length r.old.bytes) }
    ensures kept { r.new.bytes ≡ r.old.bytes }
{
    if !r.bit()? {
        return Ok(default);
    }
    let index = r.field(Cause::Sampling, 0, 1)?;
    Ok(index == 1)
}

#[tactic(auto, unfolding(crate::specs::Grammar::rate), using(dirac_bits::specs::Then::read_then))]
fn read_rate(r: &mut BitReader<'_>, default: (u64, u64)) -> Result<(u64, u64), Refusal>
    ensures value { ReadsSeenBy (λ x. x) result r.new (read (grammar.rate default) r.old) }
    ensures place_inside { IfErr result (λ e. e.at ≤ length r.old.bytes) }
    ensures kept { r.new.bytes ≡ r.old.bytes }
{
    if !r.bit()? {
        return Ok(default);
    }
    let index = r.field(Cause::RateIndex, 0, 10)?;
    if index == 0 {
        read_fraction(r)
    } else {
        Ok(tables::frame_rate(index))
    }
}

/// Two numbers, one after the other.
#[tactic(auto, unfolding(crate::specs::Grammar::fraction))]
pub fn read_fraction(r: &mut BitReader<'_>) -> Result<(u64, u64), Refusal>
    ensures value { ReadsSeenBy (λ x. x) result r.new (read grammar.fraction r.old) }
    ensures place_inside { IfErr result (λ e. e.at ≤ length r.old.bytes) }
    ensures kept { r.new.bytes ≡ r.old.bytes }
{
    let first = r.uint()?;
    let second = r.uint()?;
    Ok((first, second))
}
