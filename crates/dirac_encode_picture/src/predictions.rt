//! The planes of an inter picture, predicted from what is lent of its references.

ghost use Rattle.std.specs.Prelude.{IfOk};
ghost use Rattle.dirac_common.specs.declared.formats.Component.TheVariants as component;
ghost use Rattle.dirac_encode_picture.specs.Predicting.{PlanesArePredicted, CanBePredicted, IsPredicted};

use dirac_common::NoMemory;
use dirac_encode_planes::{Planes, Predictions, side_by_side};
use dirac_motion::References;
use dirac_obmc::{Component, Predicted};
use dirac_rebuild::{Moved, predict_from, predict_with};
use std::alloc::Global;
use std::marker::Sync;
use std::thread::Threads;

/// What an inter picture is predicted by, and from.
#[derive(Clone, Copy)]
pub(crate) struct Predicting<'a> {
    pub(crate) moved: Moved<'a>,
    pub(crate) references: &'a References<'a>,
}

/// Predicts luma from what is lent of the references.
fn predict_luma(alloc: Global, from: &Predicting<'_>) -> Result<Predicted, NoMemory>
    requires { CanBePredicted from.now }
    ensures { IfOk result (λ t. IsPredicted from.now component.Y t.values) }
{
    let moved = &from.moved;
    let references = from.references;
    let first = references.first.luma;
    match references.second {
        None => predict_with(alloc, moved, first, None, Component::Y),
        Some(second) => predict_with(alloc, moved, first, Some(second.luma), Component::Y),
    }
}

/// Predicts a plane as decoders do. For chroma a reference that doesn't keep its half samples is upconverted, once a
/// picture.
fn predict_plane(
    alloc: Global,
    from: &Predicting<'_>,
    component: Component,
) -> Result<Predicted, NoMemory>
    requires { CanBePredicted from.now }
    ensures { IfOk result (λ t. IsPredicted from.now component t.values) }
{
    if let Component::Y = component {
        return predict_luma(alloc, from);
    }
    let moved = &from.moved;
    let references = from.references;
    let first = references.first.picture;
    match references.second {
        None => predict_from(alloc, moved, first, None, component),
        Some(second) => predict_from(alloc, moved, first, Some(second.picture), component),
    }
}

/// Predicts the planes of an inter picture.
pub(crate) fn predict_planes(alloc: Global, from: &Predicting<'_>) -> Result<Predictions, NoMemory>
    requires { CanBePredicted from.now }
    ensures { IfOk result (PlanesArePredicted from.now) }
{
    let y = predict_plane(alloc, from, Component::Y)?;
    let u = predict_plane(alloc, from, Component::U)?;
    let v = predict_plane(alloc, from, Component::V)?;
    Ok(Predictions { y, u, v })
}

/// Predicts the planes of an inter picture side by side.
pub(crate) fn predict_side_by_side<R: Threads + Sync>(
    rt: &R,
    alloc: Global,
    from: &Predicting<'_>,
    workers: u32,
) -> Result<Predictions, NoMemory>
    requires { CanBePredicted from.now }
    ensures { IfOk result (PlanesArePredicted from.now) }
{
    let work = |component: Component| -> Result<Predicted, NoMemory>
        requires { CanBePredicted from.now }
        ensures { IfOk result (λ t. IsPredicted from.entry.now component t.values) }
    { predict_plane(alloc, from, component) };
    let Planes { y, u, v } = side_by_side(rt, workers, &work)?;
    Ok(Predictions { y, u, v })
}
