ghost use Rattle.std.specs.Prelude.{◌≡◌, ◌≤◌, length, Ok, IfErr, IfOk, IfSome, None};
ghost use Rattle.dirac_bits.specs.Syntax.{read};
ghost use Rattle.dirac_bits.specs.Answers.{ReadsOrStops, IsEarly};
ghost use Rattle.dirac_sequence_header.specs.Sizes.{chroma_height, chroma_width, picture_height};
ghost use Rattle.dirac_picture.specs.Chains.{AreWholePlanes};
ghost use Rattle.dirac_picture.specs.Fits.{IsLayout, IsPlaneSize, IsResidual, IsTransform};
ghost use Rattle.dirac_picture.specs.Grammar as grammar;
ghost use Rattle.dirac_slices.specs.Bands.{residual_of_planes, AreLawfulPlanes, ArePlaneSizes, AreReadAs};
ghost use Rattle.dirac_slices.specs.Bands.{AreRefused, IsOneRefused, IsOrientationAt};
ghost use Rattle.dirac_rows.specs.Answers.{AnswerRows};

use crate::bands::{read_rows, size_of, take_plane};
use crate::small::is_small;
use dirac_bits::BitReader;
use dirac_common::{Component, NoMemory, RowGate, Stop};
use dirac_header::Transform;
use dirac_picture::{Chain, CodedResidual, FoundPlanes, PlaneBands, find_planes, read_planes};
use dirac_sequence_header::Sequence;
use std::alloc::Global;
use std::marker::Sync;
use std::thread::Threads;

/// The bands of the three planes of a picture.
#[derive(Drop)]
pub struct ThreePlanes {
    pub y: PlaneBands,
    pub u: PlaneBands,
    pub v: PlaneBands,
}

/// The bands of a picture's planes from those of their orientations; none where one of them is refused.
fn planes_of_rows(
    found: &FoundPlanes<'_>,
    transform: &Transform,
    sequence: &Sequence,
    mut rows: Vec<Option<Chain>>,
) -> Result<Option<ThreePlanes>, NoMemory>
    requires found { AreWholePlanes transform.now found.now }
    requires rows { AnswerRows (IsOrientationAt sequence.now transform.now found.now) 12 rows.items }
    ensures value { IfOk result (λ o. IfSome o (AreReadAs sequence.now transform.now found.now)) }
    ensures none { result ≡ Ok None → IsOneRefused sequence.now transform.now found.now }
{
    let luma = size_of(sequence, Component::Y);
    let chroma = size_of(sequence, Component::U);
    let Some(y) = take_plane(transform, luma, found.sites(Component::Y), &mut rows)? else {
        return Ok(None);
    };
    let Some(u) = take_plane(transform, chroma, found.sites(Component::U), &mut rows)? else {
        return Ok(None);
    };
    let Some(v) = take_plane(transform, chroma, found.sites(Component::V), &mut rows)? else {
        return Ok(None);
    };
    Ok(Some(ThreePlanes { y, u, v }))
}

/// Finds the blocks of a picture's bands, and reads the bands by so many workers, each by itself; none where a block
/// isn't found or a band is refused, and then the reader stands where it stood.
fn read_apart<R: Threads + Sync, G: RowGate>(
    rt: &R,
    alloc: Global,
    r: &mut BitReader<'_>,
    transform: &Transform,
    sequence: &Sequence,
    workers: u32,
    gate: &G,
) -> Result<Option<ThreePlanes>, NoMemory>
    requires layout { IsLayout transform.now }
    requires sizes { ArePlaneSizes sequence.now }
    requires workers { (1 ≤ workers) × (workers ≤ 64) }
    ensures value { IfOk result (λ o. IfSome o (λ p. read (grammar.planes sequence.now transform.now) r.old
        ≡ Ok (residual_of_planes transform.now p, r.new))) }
    ensures lawful { IfOk result (λ o. IfSome o (AreLawfulPlanes sequence.now transform.now)) }
    ensures none { result ≡ Ok None → AreRefused sequence.now transform.now r.old }
    ensures back { result ≡ Ok None → r.new ≡ r.old }
    ensures kept { r.new.bytes ≡ r.old.bytes }
{
    let mut behind = r.again();
    let Some(found) = find_planes(alloc, &mut behind, transform)? else {
        return Ok(None);
    };
    let rows = read_rows(rt, alloc, &found, transform, sequence, workers, gate)?;
    let Some(planes) = planes_of_rows(&found, transform, sequence, rows)? else {
        return Ok(None);
    };
    *r = behind;
    Ok(Some(planes))
}

/// Reads the subbands of the three planes by so many workers, as `read_planes` reads them. Their blocks are found
/// first; then each worker reads the bands of one orientation of a plane at a time, from the lowest level on, since a
/// band's parent is of its own orientation. Where a block isn't found or a band is refused, all are read once more one
/// after another, so that the first refusal is named. One worker, and a small picture, are spared all this.
pub fn read_planes_rows<R: Threads + Sync, G: RowGate>(
    rt: &R,
    alloc: Global,
    r: &mut BitReader<'_>,
    transform: Transform,
    sequence: &Sequence,
    workers: u32,
    gate: &G,
) -> Result<CodedResidual, Stop>
    requires transform { IsTransform sequence.now.width (picture_height sequence.now) transform }
    requires layout { IsLayout transform }
    requires luma { IsPlaneSize sequence.now.width (picture_height sequence.now) }
    requires chroma { IsPlaneSize (chroma_width sequence.now) (chroma_height sequence.now) }
    requires workers { (1 ≤ workers) × (workers ≤ 64) }
    ensures value { ReadsOrStops result r.new (read (grammar.planes sequence.now transform) r.old) }
    ensures place_inside { IfErr result (IsEarly (length r.old.bytes)) }
    ensures kept { r.new.bytes ≡ r.old.bytes }
    ensures fits { IfOk result (IsResidual sequence.now) }
{
    if workers == 1 || is_small(sequence) {
        return read_planes(alloc, r, transform, sequence);
    }
    match read_apart(rt, alloc, r, &transform, sequence, workers, gate)? {
        None => read_planes(alloc, r, transform, sequence),
        Some(planes) => {
            let ThreePlanes { y, u, v } = planes;
            Ok(CodedResidual { transform, y, u, v })
        }
    }
}
