//! The samples that decoders show for one plane of a coded picture.

ghost use Rattle.std.specs.Prelude.{◌≡◌, IfOk, IfSome};
ghost use Rattle.dirac_encode_planes.specs.Predictions.{values_of};
ghost use Rattle.dirac_sequence_header.specs.Lawful.{IsSequence};
ghost use Rattle.dirac_picture.specs.Fits.{IsResidual};
ghost use Rattle.dirac_content.specs.Content as content;
ghost use Rattle.dirac_reconstruct.specs.Finishing.{IsFinishable};

use crate::showing::Finishing;
use dirac_common::{Component, Kind, NoMemory, Plane};
use dirac_encode_planes::Predictions;
use dirac_picture::{CodedMotion, CodedResidual};
use dirac_rebuild::{predict, predicted_samples, unfinished_of};
use dirac_sequence_header::Sequence;
use dirac_synthesis::clipped_by_strips;
use std::alloc::Global;

/// Lends what is predicted for a plane.
fn values(predictions: &Predictions, component: Component) -> &[i32]
    ensures { result.now ≡ values_of predictions.now component }
{
    match component {
        Component::Y => predictions.y.values(),
        Component::U => predictions.u.values(),
        Component::V => predictions.v.values(),
    }
}

/// The samples of a plane of an intra picture: its residual, clipped.
fn intra_samples(
    alloc: Global,
    sequence: &Sequence,
    residual: &Option<CodedResidual>,
    component: Component,
) -> Result<Plane, NoMemory>
    requires sequence { IsSequence sequence.now }
    requires fits { IfSome residual.now (IsResidual sequence.now) }
    ensures { IfOk result (λ t. t ≡ content.intra_samples sequence.now residual.now component) }
{
    let residual = unfinished_of(alloc, sequence, Kind::Intra, component, residual)?;
    clipped_by_strips(alloc, &residual)
}

/// The samples of a plane of an inter picture whose predictions aren't at hand.
fn inter_samples(
    alloc: Global,
    from: &Finishing<'_>,
    motion: &CodedMotion,
    component: Component,
) -> Result<Plane, NoMemory>
    requires finishing { IsFinishable from.now }
    requires motion { from.now.coded.now.motion ≡ Some motion.now }
    ensures { IfOk result (λ t. t ≡ content.plane_samples from.now.sequence.now from.now.refs.now from.now.coded.now
        component) }
{
    let coded = from.coded;
    let predicted = predict(
        alloc,
        coded.code,
        from.sequence,
        from.refs,
        &coded.header,
        motion,
        component,
    )?;
    let values = predicted.values();
    predicted_samples(alloc, from.sequence, &coded.residual, values, component)
}

/// The samples of a plane of a coded picture, from its predictions if it has them.
pub(crate) fn show_plane(
    alloc: Global,
    from: &Finishing<'_>,
    component: Component,
) -> Result<Plane, NoMemory>
    requires { IsFinishable from.now }
    ensures { IfOk result (λ t. t ≡ content.plane_samples from.now.sequence.now from.now.refs.now from.now.coded.now
        component) }
{
    let residual = &from.coded.residual;
    match from.compensated {
        Some(compensated) => {
            let values = values(&compensated.predictions, component);
            predicted_samples(alloc, from.sequence, residual, values, component)
        }
        None => match &from.coded.motion {
            None => intra_samples(alloc, from.sequence, residual, component),
            Some(motion) => inter_samples(alloc, from, motion, component),
        },
    }
}
