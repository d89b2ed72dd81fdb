ghost use Rattle.std.specs.Prelude.{◌≡◌, ◌+◌, ◌*◌, ◌<◌, ◌≤◌, IfOk};
ghost use Rattle.dirac_content.specs.Content as content;
ghost use Rattle.dirac_slices.specs.Given.{lent_inter, AreWeights, IsInter};
ghost use Rattle.dirac_slices.specs.Places as places;
ghost use Rattle.dirac_slices.specs.Prepared.{ArePrepared};
ghost use Rattle.dirac_slices.specs.Samples.{inter_planes, samples_between};

use crate::inter::Inter;
use crate::prepared::{Prepared, lent_residual};
use crate::weights::{PlaneWeights, motion_at, weights_at};
use dirac_common::{LARGEST_TABLE_SIDE, NoMemory, Plane};
use dirac_obmc::predict_rows_with;
use dirac_synthesis::clipped_sum_of_rows;
use std::alloc::Global;

/// The samples of rows `from` to `to` of the plane of this number: these rows of its residual and of what is predicted,
/// summed and clipped.
pub(crate) fn samples_at(
    alloc: Global,
    inter: &Inter<'_>,
    prepared: &[Prepared<'_>],
    weights: &PlaneWeights,
    plane: u32,
    from: u32,
    to: u32,
) -> Result<Plane, NoMemory>
    requires inter { IsInter (lent_inter inter.now) }
    requires prepared { ArePrepared (lent_inter inter.now) prepared.now }
    requires weights { AreWeights (lent_inter inter.now) weights.now }
    requires plane { plane < 3 }
    requires some { from < to }
    requires inside { to ≤ content.height_of (lent_inter inter.now).sequence (places.component_at plane) }
    ensures { IfOk result
        (λ t. t ≡ samples_between (lent_inter inter.now).sequence (inter_planes (lent_inter inter.now))
        (places.component_at plane) from to) }
{
    let motion = motion_at(inter, prepared, plane);
    let columns = weights_at(inter, weights, plane);
    let predicted = predict_rows_with(alloc, &motion, columns, from, to)?;
    let residual = lent_residual(inter, prepared, plane);
    clipped_sum_of_rows(alloc, residual, from, to, predicted.values())
}
