//! The base video formats, as the standard has them.

ghost use Rattle.std.specs.Prelude.{◌≡◌, ◌≤◌};
ghost use Rattle.dirac_base_formats.specs.BaseFormats as formats;

use dirac_common::Chroma::{C420, C422, C444};
use dirac_common::{Chroma, LARGEST_HEIGHT, LARGEST_WIDTH};

/// The number of the last base video format that this profile has.
pub const LAST_BASE: u32 = 16;

const P: bool = false;

const I: bool = true;

/// What a base video format says of the pictures of a sequence.
#[derive(Clone, Copy, Debug, PartialEq, Eq)]
pub struct BaseFormat {
    /// Luma samples across and down.
    pub size: (u32, u32),
    pub chroma: Chroma,
    pub interlaced: bool,
    /// The index of the frame rate.
    pub rate: u32,
    /// The index of the pixel aspect.
    pub aspect: u32,
    /// The part to be shown: width, height, left, top.
    pub clean: (u64, u64, u64, u64),
    /// The index of the signal range.
    pub signal: u32,
}

/// The base video format of this number: base video format parameters, Dirac specification.
#[tactic(auto, unfolding(crate::specs::BaseFormats::base_format))]
pub fn base_format(number: u32) -> BaseFormat
    requires { number ≤ LAST_BASE }
    ensures value { result ≡ formats.base_format number }
    ensures across { (1 ≤ result.size.0) × (result.size.0 ≤ LARGEST_WIDTH) }
    ensures down { (1 ≤ result.size.1) × (result.size.1 ≤ LARGEST_HEIGHT) }
    ensures rate { (1 ≤ result.rate) × (result.rate ≤ 10) }
    ensures aspect { (1 ≤ result.aspect) × (result.aspect ≤ 6) }
    ensures signal { (1 ≤ result.signal) × (result.signal ≤ 4) }
{
    match number {
        0 => row((640, 480), C420, P, 1, 1, (640, 480, 0, 0), 1),
        1 => row((176, 120), C420, P, 9, 2, (176, 120, 0, 0), 1),
        2 => row((176, 144), C420, P, 10, 3, (176, 144, 0, 0), 1),
        3 => row((352, 240), C420, P, 9, 2, (352, 240, 0, 0), 1),
        4 => row((352, 288), C420, P, 10, 3, (352, 288, 0, 0), 1),
        5 => row((704, 480), C420, P, 9, 2, (704, 480, 0, 0), 1),
        6 => row((704, 576), C420, P, 10, 3, (704, 576, 0, 0), 1),
        7 => row((720, 480), C422, I, 4, 2, (704, 480, 8, 0), 3),
        8 => row((720, 576), C422, I, 3, 3, (704, 576, 8, 0), 3),
        9 => row((1280, 720), C422, P, 7, 1, (1280, 720, 0, 0), 3),
        10 => row((1280, 720), C422, P, 6, 1, (1280, 720, 0, 0), 3),
        11 => row((1920, 1080), C422, I, 4, 1, (1920, 1080, 0, 0), 3),
        12 => row((1920, 1080), C422, I, 3, 1, (1920, 1080, 0, 0), 3),
        13 => row((1920, 1080), C422, P, 7, 1, (1920, 1080, 0, 0), 3),
        14 => row((1920, 1080), C422, P, 6, 1, (1920, 1080, 0, 0), 3),
        15 => row((2048, 1080), C444, P, 2, 1, (2048, 1080, 0, 0), 4),
        _ => row((4096, 2160), C444, P, 2, 1, (4096, 2160, 0, 0), 4),
    }
}

fn row(
    size: (u32, u32),
    chroma: Chroma,
    interlaced: bool,
    rate: u32,
    aspect: u32,
    clean: (u64, u64, u64, u64),
    signal: u32,
) -> BaseFormat
    ensures { result ≡ formats.row size chroma interlaced rate aspect clean signal }
{
    BaseFormat {
        size,
        chroma,
        interlaced,
        rate,
        aspect,
        clean,
        signal,
    }
}
