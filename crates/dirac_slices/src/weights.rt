ghost use Rattle.std.specs.Prelude.{◌≡◌, ◌<◌, IfOk};
ghost use Rattle.dirac_obmc.specs.Compensation.{IsPredictable};
ghost use Rattle.dirac_obmc.specs.Directions.{columns_of};
ghost use Rattle.dirac_obmc.specs.Given as motions;
ghost use Rattle.dirac_slices.specs.Given.{compensation_at, lent_inter, AreWeights, IsInter};
ghost use Rattle.dirac_slices.specs.Prepared.{ArePrepared};

use crate::inter::Inter;
use crate::places::component_at;
use crate::prepared::{Prepared, first_up, second_up};
use dirac_common::NoMemory;
use dirac_obmc::{ColumnWeights, Motion, column_weights};
use dirac_rebuild::plane_motion;
use std::alloc::Global;

/// The weights of the columns of a picture's planes; the blocks of both chroma planes stand alike. Workers share them.
#[derive(Drop)]
pub struct PlaneWeights {
    pub luma: ColumnWeights,
    pub chroma: ColumnWeights,
}

/// What the plane of this number is predicted from.
pub(crate) fn motion_at<'a>(
    inter: &Inter<'a>,
    prepared: &'a [Prepared<'_>],
    plane: u32,
) -> Motion<'a>
    requires inter { IsInter (lent_inter inter.now) }
    requires prepared { ArePrepared (lent_inter inter.now) prepared.now }
    requires plane { plane < 3 }
    ensures value { motions.compensation_of result ≡ compensation_at (lent_inter inter.now) plane }
    ensures fits { IsPredictable (motions.compensation_of result) }
{
    plane_motion(
        inter.code,
        inter.sequence,
        inter.motion,
        first_up(inter, prepared, plane),
        second_up(inter, prepared, plane),
        component_at(plane),
    )
}

/// The weights of the columns of the plane of this number.
fn weights_in(
    alloc: Global,
    inter: &Inter<'_>,
    prepared: &[Prepared<'_>],
    plane: u32,
) -> Result<ColumnWeights, NoMemory>
    requires inter { IsInter (lent_inter inter.now) }
    requires prepared { ArePrepared (lent_inter inter.now) prepared.now }
    requires plane { plane < 3 }
    ensures { IfOk result (λ w. w ≡ columns_of (compensation_at (lent_inter inter.now) plane)) }
{
    let motion = motion_at(inter, prepared, plane);
    column_weights(alloc, &motion)
}

/// The weights of the columns of a picture, which all its parts share.
pub(crate) fn plane_weights(
    alloc: Global,
    inter: &Inter<'_>,
    prepared: &[Prepared<'_>],
) -> Result<PlaneWeights, NoMemory>
    requires inter { IsInter (lent_inter inter.now) }
    requires prepared { ArePrepared (lent_inter inter.now) prepared.now }
    ensures { IfOk result (AreWeights (lent_inter inter.now)) }
{
    Ok(PlaneWeights {
        luma: weights_in(alloc, inter, prepared, 0)?,
        chroma: weights_in(alloc, inter, prepared, 1)?,
    })
}

/// Lends the weights of the columns of the plane of this number.
pub(crate) fn weights_at<'a>(
    inter: &Inter<'_>,
    weights: &'a PlaneWeights,
    plane: u32,
) -> &'a ColumnWeights
    requires weights { AreWeights (lent_inter inter.now) weights.now }
    ensures { result.now ≡ columns_of (compensation_at (lent_inter inter.now) plane) }
{
    match plane {
        0 => &weights.luma,
        _ => &weights.chroma,
    }
}
