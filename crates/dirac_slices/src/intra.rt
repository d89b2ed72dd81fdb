ghost use Rattle.std.specs.Prelude.{◌≡◌, ◌+◌, ◌*◌, ◌<◌, ◌≤◌, IfOk, IfSome};
ghost use Rattle.dirac_sequence_header.specs.Lawful.{IsSequence};
ghost use Rattle.dirac_picture.specs.Fits.{IsResidual};
ghost use Rattle.dirac_content.specs.Content as content;
ghost use Rattle.dirac_content.specs.Predicting as predicting;
ghost use Rattle.dirac_rows.specs.Answers.{AnswerRows};
ghost use Rattle.dirac_slices.specs.Places as places;
ghost use Rattle.dirac_slices.specs.Samples.{intra_planes as planes_of, samples_between, AreResiduals, IsIntra};
ghost use Rattle.dirac_slices.specs.Samples.{IsResidualAt};

use crate::assembled::assembled;
use crate::basis::{Basis, IntraBasis, Making};
use crate::filled::filled_picture;
use crate::places::component_at;
use crate::room::picture_room;
use crate::small::is_small;
use dirac_common::{Kind, LARGEST_TABLE_SIDE, NoMemory, Picture, Plane, RowGate};
use dirac_picture::CodedResidual;
use dirac_rebuild::{residual_of, unfinished_of};
use dirac_rows::map_rows;
use dirac_sequence_header::Sequence;
use dirac_synthesis::{Unfinished, clipped};
use std::alloc::Global;
use std::marker::Sync;
use std::thread::Threads;

/// An intra picture. Workers share it.
#[derive(Clone, Copy)]
pub struct Intra<'a> {
    pub sequence: &'a Sequence,
    pub residual: &'a Option<CodedResidual>,
}

/// The samples of the plane of this number: its residual, clipped.
fn plane_samples(alloc: Global, intra: &Intra<'_>, plane: u32) -> Result<Plane, NoMemory>
    requires intra { IsIntra intra.now }
    ensures { IfOk result (λ t. t ≡ planes_of intra.now (places.component_at plane)) }
{
    let component = component_at(plane);
    let residual = residual_of(
        alloc,
        intra.sequence,
        Kind::Intra,
        component,
        intra.residual,
    )?;
    clipped(alloc, &residual)
}

/// The samples of the planes Y, U, V, each plane by a worker.
fn plane_rows<R: Threads + Sync, G: RowGate>(
    rt: &R,
    alloc: Global,
    intra: &Intra<'_>,
    workers: u32,
    gate: &G,
) -> Result<Vec<Plane>, NoMemory>
    requires intra { IsIntra intra.now }
    requires workers { (1 ≤ workers) × (workers ≤ 64) }
    ensures { IfOk result (λ v. AnswerRows (λ r t. t ≡ planes_of intra.now (places.component_at r)) 3 v.items) }
{
    let work = |plane: u32| -> Result<Plane, NoMemory>
        requires { IsIntra intra.now }
        ensures { IfOk result (λ t. t ≡ planes_of intra.entry.now (places.component_at plane)) }
    { plane_samples(alloc, intra, plane) };
    map_rows(rt, alloc, 3, workers, gate, &work)
}

/// The residual of the plane of this number. Where its last level can wait for the samples, it does.
fn unfinished_at<'a>(
    alloc: Global,
    intra: &Intra<'a>,
    plane: u32,
) -> Result<Unfinished<'a>, NoMemory>
    requires intra { IsIntra intra.now }
    ensures { IfOk result (IsResidualAt intra.now plane) }
{
    unfinished_of(
        alloc,
        intra.sequence,
        Kind::Intra,
        component_at(plane),
        intra.residual,
    )
}

/// The residuals of the planes Y, U, V, each by a worker; no more than three of them have something to do.
fn unfinished_rows<'a, R: Threads + Sync, G: RowGate>(
    rt: &R,
    alloc: Global,
    intra: &Intra<'a>,
    workers: u32,
    gate: &G,
) -> Result<Vec<Unfinished<'a>>, NoMemory>
    requires intra { IsIntra intra.now }
    requires workers { (1 ≤ workers) × (workers ≤ 64) }
    ensures { IfOk result (λ v. AreResiduals intra.now v.items) }
{
    let work = |plane: u32| -> Result<Unfinished<'_>, NoMemory>
        requires { IsIntra intra.now }
        ensures { IfOk result (IsResidualAt intra.entry.now plane) }
    { unfinished_at(alloc, intra, plane) };
    map_rows(rt, alloc, 3, workers, gate, &work)
}

/// The samples of rows `from` to `to` of the plane of this number: these rows of its residual, clipped.
pub(crate) fn samples_at(
    alloc: Global,
    intra: &Intra<'_>,
    residuals: &[Unfinished<'_>],
    plane: u32,
    from: u32,
    to: u32,
) -> Result<Plane, NoMemory>
    requires intra { IsIntra intra.now }
    requires residuals { AreResiduals intra.now residuals.now }
    requires plane { plane < 3 }
    requires some { from < to }
    requires inside { to ≤ content.height_of intra.now.sequence.now (places.component_at plane) }
    ensures { IfOk result (λ t. t ≡ samples_between intra.now.sequence.now (planes_of intra.now)
        (places.component_at plane) from to) }
{
    let rows = residuals[plane as usize].rows(alloc, from, to)?;
    clipped(alloc, &rows)
}

/// An intra picture, made by workers: plane by plane where it is small, else part by part.
pub(crate) fn intra_picture<R: Threads + Sync, G: RowGate>(
    rt: &R,
    alloc: Global,
    number: u32,
    intra: &Intra<'_>,
    workers: u32,
    gate: &G,
) -> Result<Picture, NoMemory>
    requires intra { IsIntra intra.now }
    requires workers { (1 ≤ workers) × (workers ≤ 64) }
    ensures { IfOk result (λ p. p ≡ record {
      number = number;
      y = planes_of intra.now (places.component_at 0);
      u = planes_of intra.now (places.component_at 1);
      v = planes_of intra.now (places.component_at 2);
    }) }
{
    if is_small(intra.sequence) {
        let planes = plane_rows(rt, alloc, intra, workers, gate)?;
        return Ok(assembled(number, planes));
    }
    let residuals = unfinished_rows(rt, alloc, intra, workers, gate)?;
    let basis = Basis::Intra(IntraBasis {
        intra,
        residuals: residuals.as_slice(),
    });
    let room = picture_room(alloc, intra.sequence)?;
    let making = Making { alloc, basis };
    filled_picture(rt, gate, &making, number, room, workers)
}
