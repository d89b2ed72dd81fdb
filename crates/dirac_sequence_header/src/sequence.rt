ghost use Rattle.std.specs.Prelude.{◌≡◌};
ghost use Rattle.dirac_sequence_header.specs.Sizes as sizes;

use dirac_common::{Chroma, Component, ratio_across, ratio_down};

/// What a sequence header says of the pictures that follow it.
#[derive(Clone, Copy, Debug, PartialEq, Eq)]
pub struct Sequence {
    /// The version of the format, at most 2.
    pub major: u64,
    pub minor: u64,
    pub profile: u64,
    pub level: u64,
    /// The number of the base video format, at most `LAST_BASE`.
    pub base: u8,
    /// Luma samples across.
    pub width: u32,
    /// Luma samples down, in a frame.
    pub height: u32,
    pub chroma: Chroma,
    /// Whether the source was interlaced. Its pictures may be whole frames all the same.
    pub interlaced: bool,
    /// Frames a second, as numerator and denominator.
    pub rate: (u64, u64),
    /// A pixel's width by its height, as numerator and denominator.
    pub aspect: (u64, u64),
    /// The part to be shown: width, height, left, top.
    pub clean: (u64, u64, u64, u64),
    /// Luma's offset and excursion.
    pub luma: (u64, u64),
    /// Chroma's offset and excursion.
    pub colour: (u64, u64),
    /// Whether each picture is a field, every second row of a frame, and not a whole frame.
    pub fields: bool,
}

impl Sequence {
    /// The number of rows of a picture, in luma samples: those of a frame, or half of them where it is a field.
    pub fn picture_height(&self) -> u32
        ensures { result ≡ sizes.picture_height self.now }
    {
        if self.fields {
            self.height / 2
        } else {
            self.height
        }
    }

    /// The number of columns of a plane of a picture.
    pub fn plane_width(&self, component: Component) -> u32
        ensures { result ≡ sizes.plane_width self.now component }
    {
        match component {
            Component::Y => self.width,
            Component::U | Component::V => self.width / ratio_across(self.chroma),
        }
    }

    /// The number of rows of a plane of a picture.
    pub fn plane_height(&self, component: Component) -> u32
        ensures { result ≡ sizes.plane_height self.now component }
    {
        match component {
            Component::Y => self.picture_height(),
            Component::U | Component::V => self.picture_height() / ratio_down(self.chroma),
        }
    }
}

/// Offset and excursion of luma and of chroma.
#[derive(Clone, Copy)]
pub struct SignalRange {
    pub luma: (u64, u64),
    pub colour: (u64, u64),
}
