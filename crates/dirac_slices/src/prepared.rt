//! What the samples of an inter picture are made from: the residuals of its planes, and the planes of its references
//! with their half samples.
ghost use Rattle.std.specs.Prelude.{◌≡◌, ◌+◌, ◌*◌, ◌%◌, ◌/◌, ◌^◌, ◌<◌, ◌≤◌, unsigned_abs, IfOk, None, Some, option_map};
ghost use Rattle.std.specs.List.{All};
ghost use Rattle.std.specs.Option.{option_copied};
ghost use Rattle.dirac_common.specs.declared.formats.Kind.TheVariants.{Inter as OfInter};
ghost use Rattle.dirac_common.specs.declared.picture.Picture.{Picture};
ghost use Rattle.dirac_sequence_header.specs.Lawful.{IsSequence};
ghost use Rattle.dirac_content.specs.Content.{IsPicture, height_of, plane_of as lent_plane, residual_among, up_of};
ghost use Rattle.dirac_slices.specs.Given.{lent_inter, IsInter};
ghost use Rattle.dirac_slices.specs.Places as places;
ghost use Rattle.dirac_slices.specs.Prepared.{ArePrepared, IsPreparedAt};

use crate::inter::Inter;
use crate::places::component_at;
use dirac_common::{Component, Kind, NoMemory, RowGate};
use dirac_rebuild::{ReferencePlane, unfinished_of, up_of_reference};
use dirac_refs::Reference;
use dirac_rows::map_rows;
use dirac_sequence_header::Sequence;
use dirac_synthesis::Unfinished;
use dirac_upconvert::UpPlane;
use std::alloc::Global;
use std::marker::Sync;
use std::thread::Threads;

/// How many rows the call that prepares a picture has: three for each plane, its residual, its part of the first
/// reference, and that of the second.
pub const PREPARED_ROWS: u32 = 9;

/// What one of these rows makes or lends: a residual or a plane of a reference, or nothing where there is no such
/// reference.
#[derive(Drop)]
pub struct Prepared<'a> {
    pub residual: Option<Unfinished<'a>>,
    pub up: Option<ReferencePlane<'a>>,
}

/// The residual of a plane.
fn with_residual<'a>(
    alloc: Global,
    inter: &Inter<'a>,
    component: Component,
) -> Result<Prepared<'a>, NoMemory>
    requires inter { IsInter (lent_inter inter.now) }
    ensures residual { IfOk result
        (λ p. p.residual ≡ Some (residual_among (lent_inter inter.now).sequence OfInter component
        (lent_inter inter.now).residual)) }
    ensures up { IfOk result (λ p. p.up ≡ None) }
{
    let made = unfinished_of(
        alloc,
        inter.sequence,
        Kind::Inter,
        component,
        inter.residual,
    )?;
    Ok(Prepared {
        residual: Some(made),
        up: None,
    })
}

/// A plane of a reference with its half samples, lent where the reference keeps them.
fn with_up<'a>(
    alloc: Global,
    sequence: &Sequence,
    reference: &'a Reference,
    component: Component,
    precision: u8,
) -> Result<Prepared<'a>, NoMemory>
    requires sequence { IsSequence sequence.now }
    requires reference { IsPicture sequence.now reference.now }
    ensures residual { IfOk result (λ p. p.residual ≡ None) }
    ensures up { IfOk result (λ p. p.up ≡ Some (up_of (lent_plane reference.now component))) }
{
    let up = up_of_reference(alloc, sequence, reference, component, precision)?;
    Ok(Prepared {
        residual: None,
        up: Some(up),
    })
}

/// A plane of the second reference, where there is one.
fn with_second<'a>(
    alloc: Global,
    inter: &Inter<'a>,
    component: Component,
) -> Result<Prepared<'a>, NoMemory>
    requires inter { IsInter (lent_inter inter.now) }
    ensures residual { IfOk result (λ p. p.residual ≡ None) }
    ensures up { IfOk result (λ p. p.up ≡ option_map (λ (s : Picture). up_of (lent_plane s component))
        (lent_inter inter.now).second) }
{
    let precision = inter.motion.prediction.precision;
    match inter.second {
        None => Ok(Prepared {
            residual: None,
            up: None,
        }),
        Some(second) => with_up(alloc, inter.sequence, second, component, precision),
    }
}

/// What the row of this number makes.
#[tactic(auto, using(crate::proofs::Preparing::prepared_residual, crate::proofs::Preparing::prepared_first))]
fn prepare<'a>(alloc: Global, inter: &Inter<'a>, row: u32) -> Result<Prepared<'a>, NoMemory>
    requires inter { IsInter (lent_inter inter.now) }
    ensures { IfOk result (IsPreparedAt (lent_inter inter.now) row) }
{
    let component = component_at(row / 3);
    let precision = inter.motion.prediction.precision;
    match row % 3 {
        0 => with_residual(alloc, inter, component),
        1 => with_up(alloc, inter.sequence, inter.first, component, precision),
        _ => with_second(alloc, inter, component),
    }
}

/// What the samples of a picture are made from, each part by a worker, those of Y first.
pub(crate) fn prepare_rows<'a, R: Threads + Sync, G: RowGate>(
    rt: &R,
    alloc: Global,
    inter: &Inter<'a>,
    workers: u32,
    gate: &G,
) -> Result<Vec<Prepared<'a>>, NoMemory>
    requires inter { IsInter (lent_inter inter.now) }
    requires workers { (1 ≤ workers) × (workers ≤ 64) }
    ensures { IfOk result (λ v. ArePrepared (lent_inter inter.now) v.items) }
{
    let work = |row: u32| -> Result<Prepared<'_>, NoMemory>
        requires { IsInter (lent_inter inter.now) }
        ensures { IfOk result (IsPreparedAt (lent_inter inter.entry.now) row) }
    { prepare(alloc, inter, row) };
    map_rows(rt, alloc, PREPARED_ROWS, workers, gate, &work)
}

/// Lends the residual of the plane of this number.
pub(crate) fn lent_residual<'r, 'a>(
    inter: &Inter<'_>,
    prepared: &'r [Prepared<'a>],
    plane: u32,
) -> &'r Unfinished<'a>
    requires prepared { ArePrepared (lent_inter inter.now) prepared.now }
    requires plane { plane < 3 }
    ensures { result.now ≡ residual_among (lent_inter inter.now).sequence OfInter (places.component_at plane)
        (lent_inter inter.now).residual }
{
    let row = 3 * plane as usize;
    match &prepared[row].residual {
        None => unreachable!(),
        Some(residual) => residual,
    }
}

/// Lends the plane of this number of the first reference.
pub(crate) fn first_up<'a>(
    inter: &Inter<'_>,
    prepared: &'a [Prepared<'_>],
    plane: u32,
) -> &'a UpPlane
    requires prepared { ArePrepared (lent_inter inter.now) prepared.now }
    requires plane { plane < 3 }
    ensures { result.now ≡ up_of (lent_plane (lent_inter inter.now).first (places.component_at plane)) }
{
    let row = 3 * plane as usize + 1;
    match &prepared[row].up {
        None => unreachable!(),
        Some(up) => up.plane(),
    }
}

/// Lends the plane of this number of the second reference, where there is one.
pub(crate) fn second_up<'a>(
    inter: &Inter<'_>,
    prepared: &'a [Prepared<'_>],
    plane: u32,
) -> Option<&'a UpPlane>
    requires prepared { ArePrepared (lent_inter inter.now) prepared.now }
    requires plane { plane < 3 }
    ensures { option_copied result ≡ option_map (λ (s : Picture). up_of (lent_plane s (places.component_at plane)))
        (lent_inter inter.now).second }
{
    let row = 3 * plane as usize + 2;
    match &prepared[row].up {
        None => None,
        Some(up) => Some(up.plane()),
    }
}
