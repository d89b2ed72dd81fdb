ghost use Rattle.std.specs.Prelude.{◌≡◌, ◌*◌, ◌^◌, ◌≤◌, length, unsigned_abs, IfOk, IfSome};
ghost use Rattle.std.specs.List.{All};
ghost use Rattle.dirac_sequence_header.specs.Lawful.{IsSequence};
ghost use Rattle.dirac_picture.specs.Fits.{IsPlaneSize, IsResidual};
ghost use Rattle.dirac_content.specs.Content as content;

use dirac_common::{Kind, LARGEST_SIDE, NoMemory, Picture, Plane};
use dirac_obmc::Component;
use dirac_picture::CodedResidual;
use dirac_sequence_header::Sequence;
use dirac_synthesis::{Residual, Unfinished, plane_residual, unfinished_residual};
use std::alloc::Global;

/// The number of columns of a plane.
pub fn width_of(sequence: &Sequence, component: Component) -> u32
    requires { IsSequence sequence.now }
    ensures value { result ≡ content.width_of sequence.now component }
    ensures at_least_1 { 1 ≤ result }
    ensures at_most_4096 { result ≤ LARGEST_SIDE }
{
    sequence.plane_width(component)
}

/// The number of rows of a plane.
pub fn height_of(sequence: &Sequence, component: Component) -> u32
    requires { IsSequence sequence.now }
    ensures value { result ≡ content.height_of sequence.now component }
    ensures at_least_1 { 1 ≤ result }
    ensures at_most_4096 { result ≤ LARGEST_SIDE }
{
    sequence.plane_height(component)
}

/// Lends a plane of a picture.
pub fn plane_of(picture: &Picture, component: Component) -> &Plane
    ensures { result.now ≡ content.plane_of picture.now component }
{
    match component {
        Component::Y => &picture.y,
        Component::U => &picture.u,
        Component::V => &picture.v,
    }
}

/// The residual of a plane that is coded.
fn coded_residual(
    alloc: Global,
    sequence: &Sequence,
    kind: Kind,
    component: Component,
    residual: &CodedResidual,
) -> Result<Residual, NoMemory>
    requires sequence { IsSequence sequence.now }
    requires fits { IsResidual sequence.now residual.now }
    ensures value { IfOk result (λ t. t ≡ content.residual_among sequence.now kind component (Some residual.now)) }
    ensures bound { IfOk result (λ t. All (λ v. unsigned_abs v ≤ 2 ^ 108) t.values) }
{
    plane_residual(
        alloc,
        &residual.transform,
        kind,
        residual.plane_bands(component).bands(),
        width_of(sequence, component),
        height_of(sequence, component),
    )
}

/// A residual of zeros.
fn zero_residual(
    alloc: Global,
    sequence: &Sequence,
    kind: Kind,
    component: Component,
) -> Result<Residual, NoMemory>
    requires sequence { IsSequence sequence.now }
    ensures value { IfOk result (λ t. t ≡ content.residual_among sequence.now kind component None) }
    ensures bound { IfOk result (λ t. All (λ v. unsigned_abs v ≤ 2 ^ 108) t.values) }
{
    let width = width_of(sequence, component);
    let height = height_of(sequence, component);
    Residual::try_zeros(alloc, width, height)
}

/// The residual of a plane; where none is coded it is 0.
pub fn residual_of(
    alloc: Global,
    sequence: &Sequence,
    kind: Kind,
    component: Component,
    residual: &Option<CodedResidual>,
) -> Result<Residual, NoMemory>
    requires sequence { IsSequence sequence.now }
    requires fits { IfSome residual.now (IsResidual sequence.now) }
    ensures value { IfOk result (λ t. t ≡ content.residual_among sequence.now kind component residual.now) }
    ensures bound { IfOk result (λ t. All (λ v. unsigned_abs v ≤ 2 ^ 108) t.values) }
{
    match residual {
        None => zero_residual(alloc, sequence, kind, component),
        Some(residual) => coded_residual(alloc, sequence, kind, component, residual),
    }
}

/// The residual of a plane that is coded, before its last level.
fn coded_unfinished<'a>(
    alloc: Global,
    sequence: &Sequence,
    kind: Kind,
    component: Component,
    residual: &'a CodedResidual,
) -> Result<Unfinished<'a>, NoMemory>
    requires sequence { IsSequence sequence.now }
    requires fits { IsResidual sequence.now residual.now }
    ensures { IfOk result (λ u. u ≡ content.residual_among sequence.now kind component (Some residual.now)) }
{
    unfinished_residual(
        alloc,
        &residual.transform,
        kind,
        residual.plane_bands(component).bands(),
        width_of(sequence, component),
        height_of(sequence, component),
    )
}

/// A residual of zeros.
fn zero_unfinished<'a>(sequence: &Sequence, kind: Kind, component: Component) -> Unfinished<'a>
    requires { IsSequence sequence.now }
    ensures { result ≡ content.residual_among sequence.now kind component None }
{
    let width = width_of(sequence, component);
    let height = height_of(sequence, component);
    Unfinished::of_zeros(width, height)
}

/// The residual of a plane, of which the last level waits until rows are asked for; where none is coded it is 0.
pub fn unfinished_of<'a>(
    alloc: Global,
    sequence: &Sequence,
    kind: Kind,
    component: Component,
    residual: &'a Option<CodedResidual>,
) -> Result<Unfinished<'a>, NoMemory>
    requires sequence { IsSequence sequence.now }
    requires fits { IfSome residual.now (IsResidual sequence.now) }
    ensures { IfOk result (λ u. u ≡ content.residual_among sequence.now kind component residual.now) }
{
    match residual {
        None => Ok(zero_unfinished(sequence, kind, component)),
        Some(residual) => coded_unfinished(alloc, sequence, kind, component, residual),
    }
}
