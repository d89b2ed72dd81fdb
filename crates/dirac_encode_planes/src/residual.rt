//! The planes of a source less what is predicted for them, analysed, and then quantised.

ghost use Rattle.std.specs.Prelude.{◌≡◌, ◌≤◌, IfOk};
ghost use Rattle.dirac_common.specs.declared.formats.Kind.TheVariants.{Inter, Intra};
ghost use Rattle.dirac_common.specs.Limits.{IsEncodedDepth, IsWavelet};
ghost use Rattle.dirac_analysis.specs.Fits.{AreDifferences};
ghost use Rattle.dirac_encode_planes.specs.Analyses.{IsAnalysed};
ghost use Rattle.dirac_encode_planes.specs.Analysing.{AreAnalysedPlanes, AreQuantisedBands, CanBeAnalysed};
ghost use Rattle.dirac_encode_planes.specs.Analysing.{CanBeQuantised};
ghost use Rattle.dirac_encode_planes.specs.Analysing.{bands_in};
ghost use Rattle.dirac_encode_planes.specs.Analysing.{kind_in, plane_in};
ghost use Rattle.dirac_encode_planes.specs.Predictions.{IsCodablePlane, IsPredictedBy, less_values};

use crate::beside::{Planes, side_by_side};
use crate::difference::difference;
use crate::predictions::Predictions;
use dirac_analysis::{AnalysedPlane, analyse, quantise_plane};
use dirac_common::{Component, Kind, LARGEST_SIDE, NoMemory, Picture, Plane};
use dirac_parameters::Transform;
use dirac_picture::PlaneBands;
use std::alloc::Global;
use std::marker::Sync;
use std::thread::Threads;

/// The planes of a picture, or what is left of them, analysed.
#[derive(Drop)]
pub struct AnalysedPlanes {
    pub y: AnalysedPlane,
    pub u: AnalysedPlane,
    pub v: AnalysedPlane,
}

/// What is analysed: the planes of a source, less what is predicted for them where it is predicted.
#[derive(Clone, Copy)]
pub struct Analysing<'a, 'p> {
    pub transform: &'a Transform,
    pub source: &'a Picture,
    pub predictions: Option<&'p Predictions>,
}

/// A plane of values, analysed.
fn analyse_values(
    alloc: Global,
    transform: &Transform,
    kind: Kind,
    plane: &Plane,
) -> Result<AnalysedPlane, NoMemory>
    requires wavelet { IsWavelet transform.now.wavelet }
    requires depth { IsEncodedDepth transform.now.depth }
    requires across { plane.now.width ≤ LARGEST_SIDE }
    requires down { plane.now.height ≤ LARGEST_SIDE }
    requires magnitudes_bounded { AreDifferences plane.now.values }
    ensures { IfOk result (IsAnalysed transform.now kind plane.now) }
{
    let analysed = analyse(alloc, kind, plane, transform)?;
    Ok(analysed)
}

/// A plane of samples, analysed.
fn analyse_samples(
    alloc: Global,
    transform: &Transform,
    plane: &Plane,
) -> Result<AnalysedPlane, NoMemory>
    requires wavelet { IsWavelet transform.now.wavelet }
    requires depth { IsEncodedDepth transform.now.depth }
    requires plane { IsCodablePlane plane.now }
    ensures { IfOk result (IsAnalysed transform.now Intra plane.now) }
{
    analyse_values(alloc, transform, Kind::Intra, plane)
}

/// A plane of samples less what is predicted for them, analysed.
fn analyse_difference(
    alloc: Global,
    transform: &Transform,
    plane: &Plane,
    predicted: &[i32],
) -> Result<AnalysedPlane, NoMemory>
    requires wavelet { IsWavelet transform.now.wavelet }
    requires depth { IsEncodedDepth transform.now.depth }
    requires plane { IsCodablePlane plane.now }
    requires predicted { IsPredictedBy plane.now predicted.now }
    ensures { IfOk result (IsAnalysed transform.now Inter (less_values plane.now predicted.now)) }
{
    let left = difference(alloc, plane, predicted)?;
    analyse_values(alloc, transform, Kind::Inter, &left)
}

/// A plane of a picture, or what is left of it, analysed.
fn analyse_plane(
    alloc: Global,
    from: &Analysing<'_, '_>,
    component: Component,
) -> Result<AnalysedPlane, NoMemory>
    requires { CanBeAnalysed from.now }
    ensures { IfOk result (IsAnalysed from.now.transform.now (kind_in from.now) (plane_in from.now component)) }
{
    let transform = from.transform;
    let source = from.source;
    match from.predictions {
        None => match component {
            Component::Y => analyse_samples(alloc, transform, &source.y),
            Component::U => analyse_samples(alloc, transform, &source.u),
            Component::V => analyse_samples(alloc, transform, &source.v),
        },
        Some(ps) => match component {
            Component::Y => analyse_difference(alloc, transform, &source.y, ps.y.values()),
            Component::U => analyse_difference(alloc, transform, &source.u, ps.u.values()),
            Component::V => analyse_difference(alloc, transform, &source.v, ps.v.values()),
        },
    }
}

/// The planes of a picture, or what is left of them, analysed.
pub fn analyse_planes(alloc: Global, from: &Analysing<'_, '_>) -> Result<AnalysedPlanes, NoMemory>
    requires { CanBeAnalysed from.now }
    ensures { IfOk result (AreAnalysedPlanes from.now) }
{
    let y = analyse_plane(alloc, from, Component::Y)?;
    let u = analyse_plane(alloc, from, Component::U)?;
    let v = analyse_plane(alloc, from, Component::V)?;
    Ok(AnalysedPlanes { y, u, v })
}

/// The planes of a picture, or what is left of them, analysed side by side.
pub fn analyse_side_by_side<R: Threads + Sync>(
    rt: &R,
    alloc: Global,
    from: &Analysing<'_, '_>,
    workers: u32,
) -> Result<AnalysedPlanes, NoMemory>
    requires { CanBeAnalysed from.now }
    ensures { IfOk result (AreAnalysedPlanes from.now) }
{
    let work = |component: Component| -> Result<AnalysedPlane, NoMemory>
        requires { CanBeAnalysed from.now }
        ensures { IfOk result (IsAnalysed from.entry.now.transform.now (kind_in from.entry.now)
            (plane_in from.entry.now component)) }
    { analyse_plane(alloc, from, component) };
    let Planes { y, u, v } = side_by_side(rt, workers, &work)?;
    Ok(AnalysedPlanes { y, u, v })
}

/// What is quantised: analysed planes, at this index, flat codeblocks at one that is lower by `finer`.
#[derive(Clone, Copy)]
pub struct Quantising<'a> {
    pub transform: &'a Transform,
    pub finer: u8,
    pub index: u8,
    pub kind: Kind,
    pub planes: &'a AnalysedPlanes,
}

/// The subbands of one of the planes, quantised.
fn quantise_component(
    alloc: Global,
    from: &Quantising<'_>,
    component: Component,
) -> Result<PlaneBands, NoMemory>
    requires { CanBeQuantised from.now }
    ensures { IfOk result (λ b. b ≡ bands_in from.now component) }
{
    let Quantising {
        transform,
        finer,
        index,
        kind,
        planes,
    } = *from;
    match component {
        Component::Y => quantise_plane(alloc, kind, transform, &planes.y, finer, index),
        Component::U => quantise_plane(alloc, kind, transform, &planes.u, finer, index),
        Component::V => quantise_plane(alloc, kind, transform, &planes.v, finer, index),
    }
}

/// The subbands of the planes, quantised.
pub fn quantise_planes(alloc: Global, from: &Quantising<'_>) -> Result<Planes<PlaneBands>, NoMemory>
    requires { CanBeQuantised from.now }
    ensures { IfOk result (AreQuantisedBands from.now) }
{
    let y = quantise_component(alloc, from, Component::Y)?;
    let u = quantise_component(alloc, from, Component::U)?;
    let v = quantise_component(alloc, from, Component::V)?;
    Ok(Planes { y, u, v })
}

/// The subbands of the planes, quantised side by side.
pub fn quantise_side_by_side<R: Threads + Sync>(
    rt: &R,
    alloc: Global,
    from: &Quantising<'_>,
    workers: u32,
) -> Result<Planes<PlaneBands>, NoMemory>
    requires { CanBeQuantised from.now }
    ensures { IfOk result (AreQuantisedBands from.now) }
{
    let work = |component: Component| -> Result<PlaneBands, NoMemory>
        requires { CanBeQuantised from.now }
        ensures { IfOk result (λ b. b ≡ bands_in from.entry.now component) }
    { quantise_component(alloc, from, component) };
    let Planes { y, u, v } = side_by_side(rt, workers, &work)?;
    Ok(Planes { y, u, v })
}
