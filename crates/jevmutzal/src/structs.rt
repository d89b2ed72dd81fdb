ghost use Rattle.std.specs.Prelude.{◌≡◌};
ghost use Rattle.jevmutzal.specs.Describing.{chroma_number, empty_frame, fault_frame, format_told};
ghost use Rattle.jevmutzal.specs.Describing.{picture_frame};

use crate::causes::number_of;
use dirac_sequence_header::Sequence;
use dirac_types::{Chroma, Fault, Picture};

/// A picture's number and the sizes of its planes, or where and why the stream is refused.
#[repr(C)]
#[derive(Clone, Copy)]
pub struct Frame {
    pub number: u32,
    pub width: u32,
    pub height: u32,
    pub chroma_width: u32,
    pub chroma_height: u32,
    /// The number of a fault's cause.
    pub cause: u32,
    /// The number of a fault's unit, from 0.
    pub unit: u64,
    /// The number of a fault's byte, from 0.
    pub at: u64,
}

impl Frame {
    /// Neither a picture nor a fault.
    pub fn empty() -> Frame
        ensures { result ≡ empty_frame }
    {
        Frame {
            number: 0,
            width: 0,
            height: 0,
            chroma_width: 0,
            chroma_height: 0,
            cause: 0,
            unit: 0,
            at: 0,
        }
    }

    /// What is told of a picture.
    pub fn of_picture(picture: &Picture) -> Frame
        ensures { result ≡ picture_frame picture.now }
    {
        let mut frame = Frame::empty();
        frame.number = picture.number;
        frame.width = picture.y.width();
        frame.height = picture.y.height();
        frame.chroma_width = picture.u.width();
        frame.chroma_height = picture.u.height();
        frame
    }

    /// What is told of a fault.
    pub fn of_fault(fault: Fault) -> Frame
        ensures { result ≡ fault_frame fault }
    {
        let mut frame = Frame::empty();
        frame.cause = number_of(fault.cause);
        frame.unit = fault.unit;
        frame.at = fault.at;
        frame
    }
}

/// What a sequence header says of its pictures.
#[repr(C)]
#[derive(Clone, Copy)]
pub struct Format {
    /// Luma samples across and down, of a frame.
    pub width: u32,
    pub height: u32,
    /// 0: 4:4:4, 1: 4:2:2, 2: 4:2:0.
    pub chroma: u32,
    /// 1 where the source was interlaced.
    pub interlaced: u32,
    /// 1 where each picture is a field.
    pub fields: u32,
    /// The number of the base video format.
    pub base: u32,
    pub rate_numerator: u64,
    pub rate_denominator: u64,
    pub aspect_numerator: u64,
    pub aspect_denominator: u64,
    pub luma_offset: u64,
    pub luma_excursion: u64,
    pub chroma_offset: u64,
    pub chroma_excursion: u64,
    pub clean_width: u64,
    pub clean_height: u64,
    pub clean_left: u64,
    pub clean_top: u64,
}

impl Format {
    /// What is told of a sequence.
    pub fn of(sequence: &Sequence) -> Format
        ensures { result ≡ format_told sequence.now }
    {
        Format {
            width: sequence.width,
            height: sequence.height,
            chroma: number_of_chroma(sequence.chroma),
            interlaced: u32::from(sequence.interlaced),
            fields: u32::from(sequence.fields),
            base: u32::from(sequence.base),
            rate_numerator: sequence.rate.0,
            rate_denominator: sequence.rate.1,
            aspect_numerator: sequence.aspect.0,
            aspect_denominator: sequence.aspect.1,
            luma_offset: sequence.luma.0,
            luma_excursion: sequence.luma.1,
            chroma_offset: sequence.colour.0,
            chroma_excursion: sequence.colour.1,
            clean_width: sequence.clean.0,
            clean_height: sequence.clean.1,
            clean_left: sequence.clean.2,
            clean_top: sequence.clean.3,
        }
    }
}

/// The number of a chroma format, as sequence headers have it.
fn number_of_chroma(chroma: Chroma) -> u32
    ensures { result ≡ chroma_number chroma }
{
    match chroma {
        Chroma::C444 => 0,
        Chroma::C422 => 1,
        Chroma::C420 => 2,
    }
}
