ghost use Rattle.std.specs.Prelude.{◌≡◌, IfOk};
ghost use Rattle.std.specs.Option.{ForSome, option_copied};
ghost use Rattle.dirac_refs.specs.Halves.{AreHalves, CanBeDoubled, DoublesPictures, IsDoublable};

use dirac_common::{NoMemory, Picture, Plane};
use dirac_upconvert::{UpPlane, upconvert_for};
use std::alloc::Global;
use std::marker::Model;

/// The most samples of a plane whose half samples are kept: those of 2,048 by 1,088. Half samples take twice the room
/// of their plane, so those of larger pictures are made plane by plane, when they are needed.
pub const MOST_KEPT_SAMPLES: u32 = 2_228_224;

/// The planes of a picture with their half samples, which may be left out where vectors lead to whole samples.
#[derive(Debug, Drop)]
pub struct Halves {
    pub y: UpPlane,
    pub u: UpPlane,
    pub v: UpPlane,
}

impl Halves {
    /// Whether vectors of this precision find all that they read: at precision 0 the samples, else half samples too.
    fn serve(&self, precision: u8) -> bool {
        precision == 0
            || self.y.has_half_samples() && self.u.has_half_samples() && self.v.has_half_samples()
    }
}

/// A reference picture, and its half samples while they are kept.
#[derive(Drop)]
pub struct Reference {
    picture: Picture,
    halves: Option<Halves>,
}

impl Model for Reference {
    ghost use Rattle.std.specs.Option.{ForSome};
    ghost use Rattle.dirac_common.specs.declared.picture.Picture.{Picture};
    ghost use Rattle.dirac_refs.specs.Halves.{AreHalves};

    ghost Value = { Picture };

    ghost view = { λ r. r.picture };

    ghost invariant = { λ r. ForSome r.halves (AreHalves r.picture) };
}

/// A plane with its half samples, for vectors of this precision.
fn doubled(alloc: Global, plane: &Plane, precision: u8) -> Result<UpPlane, NoMemory>
    requires { IsDoublable plane.now }
    ensures { IfOk result (λ u. u ≡ Rattle.dirac_refs.specs.Halves.up_of plane.now) }
{
    upconvert_for(alloc, plane, precision)
}

/// All planes of a picture with their half samples, made one after another for vectors of this precision.
pub(crate) fn halves_of(alloc: Global, picture: &Picture, precision: u8) -> Result<Halves, NoMemory>
    requires { CanBeDoubled picture.now }
    ensures { IfOk result (AreHalves picture.now) }
{
    Ok(Halves {
        y: doubled(alloc, &picture.y, precision)?,
        u: doubled(alloc, &picture.u, precision)?,
        v: doubled(alloc, &picture.v, precision)?,
    })
}

/// Whether the half samples of a plane take little enough room to be kept.
fn is_small(plane: &Plane) -> bool {
    u64::from(plane.width()) * u64::from(plane.height()) <= u64::from(MOST_KEPT_SAMPLES)
}

impl Reference {
    /// A reference picture whose half samples aren't made.
    pub(crate) fn new(picture: Picture) -> Reference
        ensures { result ≡ picture }
    {
        Reference {
            picture,
            halves: None,
        }
    }

    /// The picture's number in the stream.
    pub(crate) fn number(&self) -> u32
        ensures { result ≡ self.now.number }
    {
        self.picture.number
    }

    /// Lends the picture.
    pub fn picture(&self) -> &Picture
        ensures { result.now ≡ self.now }
    {
        &self.picture
    }

    /// Lends the picture's half samples, while they are kept for vectors of this precision.
    pub fn halves(&self, precision: u8) -> Option<&Halves>
        ensures { ForSome (option_copied result) (AreHalves self.now) }
    {
        match &self.halves {
            None => None,
            Some(halves) => {
                if halves.serve(precision) {
                    Some(halves)
                } else {
                    None
                }
            }
        }
    }

    /// The reference without half samples.
    pub(crate) fn bare(self) -> Reference
        ensures { result ≡ self }
    {
        Reference::new(self.picture)
    }

    /// The reference with its half samples for vectors of this precision, where they take little room and memory is
    /// there; `double` makes those that aren't kept for it yet. Else it is as it was.
    pub(crate) fn doubled_by<F: Fn(&Picture) -> Result<Halves, NoMemory>>(
        self,
        double: &F,
        precision: u8,
    ) -> Reference
        requires doubles { DoublesPictures (F.pre double.now) (F.post double.now) }
        requires can_be_doubled { CanBeDoubled self }
        ensures { result ≡ self }
    {
        if self.halves(precision).is_some() || !is_small(&self.picture.y) {
            return self;
        }
        match double(&self.picture) {
            Err(NoMemory) => self,
            Ok(halves) => Reference {
                picture: self.picture,
                halves: Some(halves),
            },
        }
    }
}
