//! What is made apart of a coded picture: the samples that decoders show for each plane, and the bytes of each band.

ghost use Rattle.std.specs.Prelude.{◌≡◌, ◌+◌, ◌*◌, ◌<◌, ◌≤◌, Some, IfOk, IfSome};
ghost use Rattle.dirac_picture.specs.Texts.{IsTextOf};
ghost use Rattle.dirac_common.specs.Bits.{bits_of};
ghost use Rattle.dirac_rows.specs.Answers.{AnswerRows};
ghost use Rattle.dirac_content.specs.Content.{plane_samples};
ghost use Rattle.dirac_reconstruct.specs.Finishing.{IsFinishable};
ghost use Rattle.dirac_reconstruct.specs.Parts as parts;
ghost use Rattle.dirac_reconstruct.specs.Parts.{IsPartOfPlane, IsPartAt};

use crate::planes::show_plane;
use crate::showing::Finishing;
use dirac_common::{Component, NoMemory, OpenGate, Plane};
use dirac_picture::{CodedResidual, band_text};
use dirac_rows::map_rows;
use std::alloc::Global;
use std::marker::Sync;
use std::thread::Threads;

/// The samples of a plane, or the bytes of a band.
#[derive(Drop)]
pub struct Part {
    pub shown: Option<Plane>,
    pub text: Vec<u8>,
}

/// How many bands each plane of a picture has; without a residual none.
pub(crate) fn bands_each(residual: &Option<CodedResidual>) -> u32
    ensures value { result ≡ parts.bands_each residual.now }
{
    match residual {
        None => 0,
        Some(residual) => 3 * u32::from(residual.transform.depth) + 1,
    }
}

/// The samples of a plane.
fn shown_part(alloc: Global, from: &Finishing<'_>, component: Component) -> Result<Part, NoMemory>
    requires { IsFinishable from.now }
    ensures { IfOk result (λ p. p.shown
        ≡ Some (plane_samples from.now.sequence.now from.now.refs.now from.now.coded.now component)) }
{
    let plane = show_plane(alloc, from, component)?;
    Ok(Part {
        shown: Some(plane),
        text: Vec::new(alloc),
    })
}

/// The bytes of band `n` of a plane.
fn text_part(
    alloc: Global,
    from: &Finishing<'_>,
    component: Component,
    n: u32,
) -> Result<Part, NoMemory>
    requires finishing { IsFinishable from.now }
    requires there { n < parts.bands_each from.now.coded.now.residual }
    ensures { IfOk result (λ p. IfSome from.now.coded.now.residual
        (λ r. IsTextOf from.now.sequence.now r component n (bits_of p.text.items))) }
{
    match &from.coded.residual {
        None => unreachable!(),
        Some(residual) => {
            let text = band_text(alloc, from.sequence, residual, component, n)?;
            Ok(Part { shown: None, text })
        }
    }
}

/// Part `k` of a plane: its samples are part 0, and its bands follow, the last one first, as it takes longest.
fn part_of(
    alloc: Global,
    from: &Finishing<'_>,
    component: Component,
    k: u32,
) -> Result<Part, NoMemory>
    requires finishing { IsFinishable from.now }
    requires among { k ≤ parts.bands_each from.now.coded.now.residual }
    ensures { IfOk result (IsPartOfPlane from.now component k) }
{
    if k == 0 {
        return shown_part(alloc, from, component);
    }
    text_part(alloc, from, component, bands_each(&from.coded.residual) - k)
}

/// The part of this row: those of Y come first, then those of U, then those of V.
fn part_at(alloc: Global, from: &Finishing<'_>, row: u32) -> Result<Part, NoMemory>
    requires finishing { IsFinishable from.now }
    requires row { row < 3 * (parts.bands_each from.now.coded.now.residual + 1) }
    ensures { IfOk result (IsPartAt from.now row) }
{
    let each = bands_each(&from.coded.residual) + 1;
    if row < each {
        return part_of(alloc, from, Component::Y, row);
    }
    if row < 2 * each {
        return part_of(alloc, from, Component::U, row - each);
    }
    part_of(alloc, from, Component::V, row - 2 * each)
}

/// The parts of all planes, each made by a worker.
pub(crate) fn part_rows<R: Threads + Sync>(
    rt: &R,
    alloc: Global,
    from: &Finishing<'_>,
    workers: u32,
) -> Result<Vec<Part>, NoMemory>
    requires finishing { IsFinishable from.now }
    requires workers { (1 ≤ workers) × (workers ≤ 64) }
    ensures { IfOk result (λ v. AnswerRows (IsPartAt from.now) (3 * (parts.bands_each from.now.coded.now.residual + 1))
        v.items) }
{
    let rows = 3 * (bands_each(&from.coded.residual) + 1);
    let work = |row: u32| -> Result<Part, NoMemory>
        requires { IsFinishable from.now × (row < 3 * (parts.bands_each from.now.coded.now.residual + 1)) }
        ensures { IfOk result (IsPartAt from.entry.now row) }
    { part_at(alloc, from, row) };
    map_rows(rt, alloc, rows, workers, &OpenGate, &work)
}
