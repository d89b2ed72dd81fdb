ghost use Rattle.std.specs.Prelude.{◌≡◌, ◌-◌, ◌+◌, ◌*◌, ◌≤◌, ◌<◌, ◌^◌, unsigned_abs, IfOk};
ghost use Rattle.dirac_common.specs.Limits.{IsEncodedDepth, IsIndex, IsWavelet};
ghost use Rattle.dirac_bands.specs.Geometry.{lowest_size};
ghost use Rattle.dirac_synthesis.specs.Residual.{residual};
ghost use Rattle.dirac_picture.specs.Fits.{IsLayout};
ghost use Rattle.dirac_analysis.specs.Analysis.{plane_analysis, plane_bands};
ghost use Rattle.dirac_analysis.specs.Fits.{AreDifferences, AreLevelBands, AreQuantisable};

use crate::analysed::AnalysedPlane;
use crate::levels::analyse_levels;
use crate::padding::pad;
use crate::quantising::quantise_plane;
use dirac_common::{Kind, LARGEST_SIDE, NoMemory, Plane};
use dirac_lift::Held;
use dirac_parameters::Transform;
use dirac_picture::PlaneBands;
use std::alloc::Global;

/// The subbands of a plane of values before they are quantised (forward wavelet transform): the plane is padded and
/// analysed as often as the transform's depth says. An intra picture's values are its samples, and its LL is less its
/// predictions. An inter picture's are its samples less what is predicted for them, not clipped.
pub fn analyse(
    alloc: Global,
    kind: Kind,
    plane: &Plane,
    transform: &Transform,
) -> Result<AnalysedPlane, NoMemory>
    requires wavelet { IsWavelet transform.now.wavelet }
    requires depth { IsEncodedDepth transform.now.depth }
    requires across { plane.now.width ≤ LARGEST_SIDE }
    requires down { plane.now.height ≤ LARGEST_SIDE }
    requires magnitudes_bounded { AreDifferences plane.now.values }
    ensures value { IfOk result (λ a. a ≡ plane_analysis kind transform.now plane.now) }
    // Its bands can be quantised at each index.
    ensures fits { IfOk result (AreQuantisable transform.now.depth) }
{
    let depth = transform.depth;
    let table = pad(alloc, plane, depth)?;
    analyse_levels(alloc, kind, Held::Narrow(table), transform.wavelet, depth)
}

/// The subbands of a plane of values, quantised at `index`, but each flat codeblock at one that is lower by `finer`
/// (forward wavelet transform): the plane is padded and analysed as often as the transform's depth says. An intra
/// picture's values are its samples, and LL is coded at index 0 less its predictions. An inter picture's are its
/// samples less what is predicted for them, not clipped, and LL is coded as the other bands are.
pub fn analyse_plane(
    alloc: Global,
    kind: Kind,
    plane: &Plane,
    transform: &Transform,
    finer: u8,
    index: u8,
) -> Result<PlaneBands, NoMemory>
    requires wavelet { IsWavelet transform.now.wavelet }
    requires depth { IsEncodedDepth transform.now.depth }
    requires layout { IsLayout transform.now }
    requires index { IsIndex index }
    requires across { plane.now.width ≤ LARGEST_SIDE }
    requires down { plane.now.height ≤ LARGEST_SIDE }
    requires magnitudes_bounded { AreDifferences plane.now.values }
    ensures value { IfOk result (λ b. b ≡ plane_bands kind transform.now finer index plane.now) }
    // Each band has the sizes of its level and indices that can be written, and its coefficients stay below 2^38.
    ensures fits { IfOk result (AreLevelBands transform.now.counts finer
        (lowest_size plane.now.width transform.now.depth) (lowest_size plane.now.height transform.now.depth)
        transform.now.depth) }
    // At index 0 nothing is lost.
    ensures lossless { IfOk result (λ b. index ≡ 0 → residual transform.now kind b plane.now.width plane.now.height
        ≡ plane.now) }
{
    prove!(plane.width() >= 1);
    let analysed = analyse(alloc, kind, plane, transform)?;
    quantise_plane(alloc, kind, transform, &analysed, finer, index)
}
