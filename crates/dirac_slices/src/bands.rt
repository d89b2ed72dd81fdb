ghost use Rattle.std.specs.Prelude.{◌≡◌, ◌<◌, ◌≤◌, ◌∷◌, drop, length, IfOk, IfSome, None, Ok};
ghost use Rattle.dirac_sequence_header.specs.Sizes.{plane_height, plane_width};
ghost use Rattle.dirac_picture.specs.Chains.{AreWhole, AreWholePlanes, ReadsPlane};
ghost use Rattle.dirac_picture.specs.Fits.{AreBandsOf, IsLayout};
ghost use Rattle.dirac_rows.specs.Answers.{AnswerRows};
ghost use Rattle.dirac_slices.specs.Bands.{AreOrientations, ArePlaneSizes, IsOrientation, IsOrientationAt};
ghost use Rattle.dirac_slices.specs.Bands.{IsPlaneRefused};

use crate::places::component_at;
use dirac_coeffs::Site;
use dirac_common::{Component, NoMemory, RowGate};
use dirac_header::Transform;
use dirac_picture::{Chain, FoundPlanes, PlaneBands, PlaneSize, read_chain, woven};
use dirac_rows::{map_rows, take_first};
use dirac_sequence_header::Sequence;
use std::alloc::Global;
use std::marker::Sync;
use std::thread::Threads;

/// The size of a plane.
pub(crate) fn size_of(sequence: &Sequence, component: Component) -> PlaneSize
    ensures { result ≡ record {
      width = plane_width sequence.now component;
      height = plane_height sequence.now component;
    } }
{
    PlaneSize {
        width: sequence.plane_width(component),
        height: sequence.plane_height(component),
    }
}

/// Reads the bands of an orientation of a plane; none where one of them is refused.
fn read_row(
    alloc: Global,
    found: &FoundPlanes<'_>,
    transform: &Transform,
    sequence: &Sequence,
    row: u32,
) -> Result<Option<Chain>, NoMemory>
    requires found { AreWholePlanes transform.now found.now }
    requires layout { IsLayout transform.now }
    requires sizes { ArePlaneSizes sequence.now }
    ensures { IfOk result (IsOrientationAt sequence.now transform.now found.now row) }
{
    let component = component_at(row / 4);
    let size = size_of(sequence, component);
    read_chain(alloc, transform, size, found.sites(component), row % 4)
}

/// The bands of all orientations of a picture's planes, each read by a worker.
pub(crate) fn read_rows<R: Threads + Sync, G: RowGate>(
    rt: &R,
    alloc: Global,
    found: &FoundPlanes<'_>,
    transform: &Transform,
    sequence: &Sequence,
    workers: u32,
    gate: &G,
) -> Result<Vec<Option<Chain>>, NoMemory>
    requires found { AreWholePlanes transform.now found.now }
    requires layout { IsLayout transform.now }
    requires sizes { ArePlaneSizes sequence.now }
    requires workers { (1 ≤ workers) × (workers ≤ 64) }
    ensures { IfOk result (λ v. AnswerRows (IsOrientationAt sequence.now transform.now found.now) 12 v.items) }
{
    let work = |row: u32| -> Result<Option<Chain>, NoMemory>
        requires { AreWholePlanes transform.now found.now × IsLayout transform.now × ArePlaneSizes sequence.now }
        ensures { IfOk result (IsOrientationAt sequence.entry.now transform.entry.now found.entry.now row) }
    { read_row(alloc, found, transform, sequence, row) };
    map_rows(rt, alloc, 12, workers, gate, &work)
}

/// The bands of a plane from those of LL, HL, LH and HH; none where one of them is refused.
fn plane_of(
    transform: &Transform,
    size: PlaneSize,
    sites: &[Option<Site<'_>>],
    ll: Option<Chain>,
    hl: Option<Chain>,
    lh: Option<Chain>,
    hh: Option<Chain>,
) -> Result<Option<PlaneBands>, NoMemory>
    requires sites { AreWhole transform.now sites.now }
    requires ll { IsOrientation transform.now size.width size.height sites.now 0 ll }
    requires hl { IsOrientation transform.now size.width size.height sites.now 1 hl }
    requires lh { IsOrientation transform.now size.width size.height sites.now 2 lh }
    requires hh { IsOrientation transform.now size.width size.height sites.now 3 hh }
    ensures plane { IfOk result (λ o. IfSome o (ReadsPlane transform.now size.width size.height sites.now)) }
    ensures lawful { IfOk result (λ o. IfSome o (AreBandsOf transform.now size.width size.height)) }
    ensures none { result ≡ Ok None → IsPlaneRefused transform.now size.width size.height sites.now }
{
    let Some(ll) = ll else {
        return Ok(None);
    };
    let Some(hl) = hl else {
        return Ok(None);
    };
    let Some(lh) = lh else {
        return Ok(None);
    };
    let Some(hh) = hh else {
        return Ok(None);
    };
    let bands = woven(ll, hl, lh, hh)?;
    Ok(Some(bands))
}

/// Takes the bands of a plane from those of its orientations, which are the first four of these; none where one of them
/// is refused.
pub(crate) fn take_plane(
    transform: &Transform,
    size: PlaneSize,
    sites: &[Option<Site<'_>>],
    rows: &mut Vec<Option<Chain>>,
) -> Result<Option<PlaneBands>, NoMemory>
    requires sites { AreWhole transform.now sites.now }
    requires rows { AreOrientations transform.now size.width size.height sites.now rows.old.items }
    requires count { 4 ≤ length rows.old.items }
    ensures plane { IfOk result (λ o. IfSome o (ReadsPlane transform.now size.width size.height sites.now)) }
    ensures lawful { IfOk result (λ o. IfSome o (AreBandsOf transform.now size.width size.height)) }
    ensures none { result ≡ Ok None → IsPlaneRefused transform.now size.width size.height sites.now }
    ensures rest { rows.new.items ≡ drop 4 rows.old.items }
{
    let ll = take_first(rows);
    let hl = take_first(rows);
    let lh = take_first(rows);
    let hh = take_first(rows);
    plane_of(transform, size, sites, ll, hl, lh, hh)
}
