ghost use Rattle.std.specs.Prelude.{◌≡◌, None};
ghost use Rattle.std.specs.Option.{ForSome};
ghost use Rattle.dirac_picture.specs.Bands.{bands_of};

use crate::plane_bands::PlaneBands;
use dirac_blocks::BlockData;
use dirac_common::Component;
use dirac_header::{PictureHeader, Prediction, Transform};

/// How an inter picture is predicted: its parameters, and what each of its blocks is predicted from.
#[derive(Drop)]
pub struct CodedMotion {
    pub prediction: Prediction,
    pub blocks: BlockData,
}

/// The coefficients of a picture: how they are laid out, and the subbands of its planes.
#[derive(Drop)]
pub struct CodedResidual {
    pub transform: Transform,
    pub y: PlaneBands,
    pub u: PlaneBands,
    pub v: PlaneBands,
}

impl CodedResidual {
    /// Lends the subbands of a plane.
    pub fn plane_bands(&self, component: Component) -> &PlaneBands
        ensures { result.now ≡ bands_of self.now component }
    {
        match component {
            Component::Y => &self.y,
            Component::U => &self.u,
            Component::V => &self.v,
        }
    }
}

/// A picture as its payload codes it.
#[derive(Drop)]
pub struct CodedPicture {
    /// The parse code of its unit.
    pub code: u8,
    pub header: PictureHeader,
    /// What it is predicted from; just inter pictures have it.
    pub motion: Option<CodedMotion>,
    /// What its planes are made of beside their prediction; an intra picture always has it.
    pub residual: Option<CodedResidual>,
}

impl CodedPicture {
    /// The precision of its vectors: each counts in so many halvings of a luma sample. 0 where it has none.
    pub fn vector_precision(&self) -> u8
        ensures value { ForSome self.now.motion (λ m. result ≡ m.prediction.precision) }
        ensures none { self.now.motion ≡ None → result ≡ 0 }
    {
        match &self.motion {
            None => 0,
            Some(motion) => motion.prediction.precision,
        }
    }
}
