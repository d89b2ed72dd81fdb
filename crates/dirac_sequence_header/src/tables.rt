//! The tables of the sequence header, as the standard has them.

ghost use Rattle.std.specs.Prelude.{◌≡◌, ◌≤◌};
ghost use Rattle.dirac_sequence_header.specs.Tables.{preset as preset_of, rate_of, aspect_of, range_of};
ghost use Rattle.dirac_sequence_header.specs.Lawful.{IsSize};

use crate::sequence::{Sequence, SignalRange};
use dirac_base_formats::{LAST_BASE, base_format};

/// The values of a base video format: base video format parameters, Dirac specification.
/// Versions, profile and level are 0.
#[tactic(auto, unfolding(crate::specs::Tables::preset))]
pub fn preset(n: u8) -> Sequence
    requires { n ≤ LAST_BASE }
    ensures value { result ≡ preset_of n }
    ensures size { IsSize result.width result.height }
{
    let format = base_format(u32::from(n));
    let signal = signal_range(u64::from(format.signal));
    Sequence {
        major: 0,
        minor: 0,
        profile: 0,
        level: 0,
        base: n,
        width: format.size.0,
        height: format.size.1,
        chroma: format.chroma,
        interlaced: format.interlaced,
        rate: frame_rate(u64::from(format.rate)),
        aspect: pixel_aspect(u64::from(format.aspect)),
        clean: format.clean,
        luma: signal.luma,
        colour: signal.colour,
        fields: false,
    }
}

/// Frame rates 1 to 10, as numerator and denominator.
#[tactic(auto, unfolding(crate::specs::Tables::rate_of))]
pub fn frame_rate(index: u64) -> (u64, u64)
    requires { (1 ≤ index) × (index ≤ 10) }
    ensures { result ≡ rate_of index }
{
    match index {
        1 => (24000, 1001),
        2 => (24, 1),
        3 => (25, 1),
        4 => (30000, 1001),
        5 => (30, 1),
        6 => (50, 1),
        7 => (60000, 1001),
        8 => (60, 1),
        9 => (15000, 1001),
        10 => (25, 2),
        _ => unreachable!(),
    }
}

/// Pixel aspects 1 to 6, as numerator and denominator.
#[tactic(auto, unfolding(crate::specs::Tables::aspect_of))]
pub fn pixel_aspect(index: u64) -> (u64, u64)
    requires { (1 ≤ index) × (index ≤ 6) }
    ensures { result ≡ aspect_of index }
{
    match index {
        1 => (1, 1),
        2 => (10, 11),
        3 => (12, 11),
        4 => (40, 33),
        5 => (16, 11),
        6 => (4, 3),
        _ => unreachable!(),
    }
}

/// Signal ranges 1 to 4: offset and excursion of luma, then of chroma.
#[tactic(auto, unfolding(crate::specs::Tables::range_of))]
pub fn signal_range(index: u64) -> SignalRange
    requires { (1 ≤ index) × (index ≤ 4) }
    ensures { result ≡ range_of index }
{
    let (luma, colour) = match index {
        1 => ((0, 255), (128, 255)),
        2 => ((16, 219), (128, 224)),
        3 => ((64, 876), (512, 896)),
        4 => ((256, 3504), (2048, 3584)),
        _ => unreachable!(),
    };
    SignalRange { luma, colour }
}
