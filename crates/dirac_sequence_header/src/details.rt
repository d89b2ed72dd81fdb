//! Pixel aspect, clean area, signal range and colour specification.

ghost use Rattle.std.specs.Prelude.{◌≡◌, ◌≤◌, IfOk, IfErr, length};
ghost use Rattle.dirac_bits.specs.Syntax.{read};
ghost use Rattle.dirac_bits.specs.Answers.{ReadsSeenBy};
ghost use Rattle.dirac_sequence_header.specs.Grammar as grammar;
ghost use Rattle.dirac_sequence_header.specs.Lawful.{HasFrames};

use crate::frames::read_fraction;
use crate::sequence::{Sequence, SignalRange};
use crate::tables;
use dirac_bits::BitReader;
use dirac_common::{Cause, Refusal};

#[tactic(auto, unfolding(crate::specs::Grammar::samples), using(dirac_bits::specs::Then::read_then))]
pub fn read_samples(r: &mut BitReader<'_>, s: Sequence) -> Result<Sequence, Refusal>
    requires { HasFrames s }
    ensures value { ReadsSeenBy (λ s. s) result r.new (read (grammar.samples s) r.old) }
    ensures place_inside { IfErr result (λ e. e.at ≤ length r.old.bytes) }
    ensures kept { r.new.bytes ≡ r.old.bytes }
    ensures lawful { IfOk result (λ s. HasFrames s) }
{
    let aspect = read_aspect(r, s.aspect)?;
    let clean = read_clean_area(r, s.clean)?;
    let default = SignalRange {
        luma: s.luma,
        colour: s.colour,
    };
    let signal = read_signal(r, default)?;
    Ok(Sequence {
        aspect,
        clean,
        luma: signal.luma,
        colour: signal.colour,
        ..s
    })
}

#[tactic(auto, unfolding(crate::specs::Grammar::aspect), using(dirac_bits::specs::Then::read_then))]
fn read_aspect(r: &mut BitReader<'_>, default: (u64, u64)) -> Result<(u64, u64), Refusal>
    ensures value { ReadsSeenBy (λ x. x) result r.new (read (grammar.aspect default) r.old) }
    ensures place_inside { IfErr result (λ e. e.at ≤ length r.old.bytes) }
    ensures kept { r.new.bytes ≡ r.old.bytes }
{
    if !r.bit()? {
        return Ok(default);
    }
    let index = r.field(Cause::AspectIndex, 0, 6)?;
    if index == 0 {
        read_fraction(r)
    } else {
        Ok(tables::pixel_aspect(index))
    }
}

#[tactic(auto, unfolding(crate::specs::Grammar::clean_area))]
fn read_clean_area(
    r: &mut BitReader<'_>,
    default: (u64, u64, u64, u64),
) -> Result<(u64, u64, u64, u64), Refusal>
    ensures value { ReadsSeenBy (λ x. x) result r.new (read (grammar.clean_area default) r.old) }
    ensures place_inside { IfErr result (λ e. e.at ≤ length r.old.bytes) }
    ensures kept { r.new.bytes ≡ r.old.bytes }
{
    if !r.bit()? {
        return Ok(default);
    }
    let width = r.uint()?;
    let height = r.uint()?;
    let left = r.uint()?;
    let top = r.uint()?;
    Ok((width, height, left, top))
}

#[tactic(auto, unfolding(crate::specs::Grammar::signal), using(dirac_bits::specs::Then::read_then))]
fn read_signal(r: &mut BitReader<'_>, default: SignalRange) -> Result<SignalRange, Refusal>
    ensures value { ReadsSeenBy (λ x. x) result r.new (read (grammar.signal default) r.old) }
    ensures place_inside { IfErr result (λ e. e.at ≤ length r.old.bytes) }
    ensures kept { r.new.bytes ≡ r.old.bytes }
{
    let at = r.place();
    let range = read_signal_range(r, default)?;
    if is_depth_8(range.luma.1) && is_depth_8(range.colour.1) {
        Ok(range)
    } else {
        Err(Refusal {
            at,
            cause: Cause::Depth8,
        })
    }
}

/// Whether 8 is the least number of bits whose values reach the excursion.
fn is_depth_8(excursion: u64) -> bool
    ensures { result ≡ grammar.is_depth 8 excursion }
{
    128 <= excursion && excursion < 256
}

#[tactic(auto, unfolding(crate::specs::Grammar::signal_range), using(dirac_bits::specs::Then::read_then))]
fn read_signal_range(r: &mut BitReader<'_>, default: SignalRange) -> Result<SignalRange, Refusal>
    ensures value { ReadsSeenBy (λ x. x) result r.new (read (grammar.signal_range default) r.old) }
    ensures place_inside { IfErr result (λ e. e.at ≤ length r.old.bytes) }
    ensures kept { r.new.bytes ≡ r.old.bytes }
{
    if !r.bit()? {
        return Ok(default);
    }
    let index = r.field(Cause::SignalRange, 0, 4)?;
    if index == 0 {
        read_own_range(r)
    } else {
        Ok(tables::signal_range(index))
    }
}

#[tactic(auto, unfolding(crate::specs::Grammar::own_range), using(dirac_bits::specs::Then::read_then))]
fn read_own_range(r: &mut BitReader<'_>) -> Result<SignalRange, Refusal>
    ensures value { ReadsSeenBy (λ x. x) result r.new (read grammar.own_range r.old) }
    ensures place_inside { IfErr result (λ e. e.at ≤ length r.old.bytes) }
    ensures kept { r.new.bytes ≡ r.old.bytes }
{
    let luma = read_fraction(r)?;
    let colour = read_fraction(r)?;
    Ok(SignalRange { luma, colour })
}

#[tactic(auto, unfolding(crate::specs::Grammar::colours), using(dirac_bits::specs::Then::read_then))]
pub fn read_colours(r: &mut BitReader<'_>) -> Result<(), Refusal>
    ensures value { ReadsSeenBy (λ x. x) result r.new (read grammar.colours r.old) }
    ensures place_inside { IfErr result (λ e. e.at ≤ length r.old.bytes) }
    ensures kept { r.new.bytes ≡ r.old.bytes }
{
    if !r.bit()? {
        return Ok(());
    }
    let index = r.uint()?;
    if index == 0 {
        read_colour_parts(r)
    } else {
        Ok(())
    }
}

/// Primaries, matrix and transfer function.
#[tactic(auto, unfolding(crate::specs::Grammar::colour_parts), using(dirac_bits::specs::Then::read_then))]
fn read_colour_parts(r: &mut BitReader<'_>) -> Result<(), Refusal>
    ensures value { ReadsSeenBy (λ x. x) result r.new (read grammar.colour_parts r.old) }
    ensures place_inside { IfErr result (λ e. e.at ≤ length r.old.bytes) }
    ensures kept { r.new.bytes ≡ r.old.bytes }
{
    read_colour_part(r)?;
    read_colour_part(r)?;
    read_colour_part(r)
}

#[tactic(auto, unfolding(crate::specs::Grammar::colour_part))]
fn read_colour_part(r: &mut BitReader<'_>) -> Result<(), Refusal>
    ensures value { ReadsSeenBy (λ x. x) result r.new (read grammar.colour_part r.old) }
    ensures place_inside { IfErr result (λ e. e.at ≤ length r.old.bytes) }
    ensures kept { r.new.bytes ≡ r.old.bytes }
{
    if r.bit()? {
        r.uint()?;
    }
    Ok(())
}
