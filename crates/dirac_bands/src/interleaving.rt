ghost use Rattle.std.specs.Prelude.{◌≡◌, ◌+◌, ◌*◌, ◌%◌, ◌≤◌, ◌<◌, length, IfOk};
ghost use Rattle.dirac_bands.specs.Interleaving.{band_of, every_other, interleaved, joined};

use dirac_common::{LARGEST_SIDE, LARGEST_TABLE_SIDE, NoMemory, Wide};
use std::alloc::Global;

/// The four subbands of one level, all of one size.
#[derive(Debug, Drop)]
pub struct FourBands {
    pub ll: Wide,
    pub hl: Wide,
    pub lh: Wide,
    pub hh: Wide,
}

/// Puts the values of `even` and `odd` in turn into a line of twice the length.
#[inline(always)]
fn interleave(even: &[i128], odd: &[i128], line: &mut [i128])
    requires odd { length odd.now ≡ length even.now }
    requires line { length line.old ≡ 2 * length even.now }
    ensures { line.new ≡ interleaved even.now odd.now }
{
    for n in 0..even.len() {
        line[2 * n] = even[n];
        line[2 * n + 1] = odd[n];
    }
}

/// Takes the values at places 2n + `first` of a line of twice the length.
#[inline(always)]
fn take_every_other(line: &[i128], first: usize, half: &mut [i128])
    requires line { length line.now ≡ 2 * length half.old }
    requires first { first ≤ 1 }
    ensures { half.new ≡ every_other line.now first }
{
    for n in 0..half.len() {
        half[n] = line[2 * n + first];
    }
}

/// The plane that the four subbands of one level interleave to, of twice their width and height
/// (vertical and horizontal synthesis, Dirac specification): LL at even columns and rows, HL at odd
/// columns, LH at odd rows, HH at both odd.
pub fn join_bands(
    alloc: Global,
    ll: &Wide,
    hl: &Wide,
    lh: &Wide,
    hh: &Wide,
) -> Result<Wide, NoMemory>
    requires across { ll.now.width ≤ LARGEST_SIDE }
    requires down { ll.now.height ≤ LARGEST_SIDE }
    requires hl { (hl.now.width ≡ ll.now.width) × (hl.now.height ≡ ll.now.height) }
    requires lh { (lh.now.width ≡ ll.now.width) × (lh.now.height ≡ ll.now.height) }
    requires hh { (hh.now.width ≡ ll.now.width) × (hh.now.height ≡ ll.now.height) }
    ensures plane { IfOk result (λ plane. plane ≡ joined ll.now hl.now lh.now hh.now) }
    ensures ll { IfOk result (λ plane. band_of plane 0 0 ≡ ll.now) }
    ensures hl { IfOk result (λ plane. band_of plane 1 0 ≡ hl.now) }
    ensures lh { IfOk result (λ plane. band_of plane 0 1 ≡ lh.now) }
    ensures hh { IfOk result (λ plane. band_of plane 1 1 ≡ hh.now) }
{
    let width = ll.width();
    let height = ll.height();
    prove_eq!(hl.width(), width);
    prove_eq!(lh.width(), width);
    prove_eq!(hh.width(), width);
    let mut plane = Wide::try_new(alloc, 2 * width, 2 * height, 0)?;
    for y in 0..height {
        interleave(ll.row(y), hl.row(y), plane.row_mut(2 * y));
        interleave(lh.row(y), hh.row(y), plane.row_mut(2 * y + 1));
    }
    Ok(plane)
}

/// The subband of a plane's columns 2n + `right` and rows 2n + `below`.
fn split_band(alloc: Global, plane: &Wide, right: usize, below: u32) -> Result<Wide, NoMemory>
    requires across { (plane.now.width % 2 ≡ 0) × (plane.now.width ≤ LARGEST_TABLE_SIDE) }
    requires down { (plane.now.height % 2 ≡ 0) × (plane.now.height ≤ LARGEST_TABLE_SIDE) }
    requires right { right ≤ 1 }
    requires below { below ≤ 1 }
    ensures { IfOk result (λ band. band ≡ band_of plane.now right below) }
{
    let width = plane.width() / 2;
    let height = plane.height() / 2;
    let mut band = Wide::try_new(alloc, width, height, 0)?;
    for y in 0..height {
        take_every_other(plane.row(2 * y + below), right, band.row_mut(y));
    }
    Ok(band)
}

/// The four subbands that interleave to a plane of even width and height, at most 8,192 each.
pub fn split_bands(alloc: Global, plane: &Wide) -> Result<FourBands, NoMemory>
    requires across { (plane.now.width % 2 ≡ 0) × (plane.now.width ≤ LARGEST_TABLE_SIDE) }
    requires down { (plane.now.height % 2 ≡ 0) × (plane.now.height ≤ LARGEST_TABLE_SIDE) }
    ensures ll { IfOk result (λ bands. bands.ll ≡ band_of plane.now 0 0) }
    ensures hl { IfOk result (λ bands. bands.hl ≡ band_of plane.now 1 0) }
    ensures lh { IfOk result (λ bands. bands.lh ≡ band_of plane.now 0 1) }
    ensures hh { IfOk result (λ bands. bands.hh ≡ band_of plane.now 1 1) }
    ensures plane { IfOk result (λ bands. joined bands.ll bands.hl bands.lh bands.hh ≡ plane.now) }
{
    prove_eq!(plane.width() % 2, 0);
    let ll = split_band(alloc, plane, 0, 0)?;
    let hl = split_band(alloc, plane, 1, 0)?;
    let lh = split_band(alloc, plane, 0, 1)?;
    let hh = split_band(alloc, plane, 1, 1)?;
    Ok(FourBands { ll, hl, lh, hh })
}
