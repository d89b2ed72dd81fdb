ghost use Rattle.std.specs.Prelude.{◌≡◌, ℕ, true, ◌+◌, ◌-◌, ◌*◌, ◌^◌, ◌<◌, ◌≤◌, length, unsigned_abs, IfOk};
ghost use Rattle.std.specs.Prelude.{slice_get, Some};
ghost use Rattle.std.specs.List.{All};
ghost use Rattle.dirac_common.specs.Limits.{IsDepth, IsWavelet};
ghost use Rattle.dirac_coeffs.specs.declared.layout.CodedBand.{CodedBand as TheBand};
ghost use Rattle.dirac_lift.specs.Zeros.{AreZeros};
ghost use Rattle.dirac_synthesis.specs.Fits.{AreRestorableBands};
ghost use Rattle.dirac_synthesis.specs.Levels.{IsLevelOf};
ghost use Rattle.dirac_synthesis.specs.Planes.{IsLowOf, IsRestorablePlane};
ghost use Rattle.dirac_synthesis.specs.Residual.{residual, summed};

use crate::bands::{Level, LevelBands, Synthesis};
use crate::cut::cut_off;
use crate::held::Residual;
use crate::levels::next_level;
use crate::restore::restore_band;
use dirac_bands::dc_add;
use dirac_coeffs::CodedBand;
use dirac_common::{Kind, LARGEST_SIDE, LARGEST_TABLE_SIDE, NoMemory, Wide};
use dirac_parameters::Transform;
use std::alloc::Global;

/// The coded bands of a plane, in the order LL, then HL, LH and HH of levels 1 to the transform's depth, and its size.
#[derive(Clone, Copy)]
pub struct CodedPlane<'t, 'a> {
    pub transform: &'t Transform,
    pub kind: Kind,
    pub bands: &'a [CodedBand],
    pub width: u32,
    pub height: u32,
}

/// The LL band of level 0 from its coefficients: an intra picture codes differences from their predictions.
fn summed_up(mut low: Wide, kind: Kind) -> Wide
    requires across { low.width ≤ LARGEST_SIDE }
    requires down { low.height ≤ LARGEST_SIDE }
    requires bound { All (λ v. unsigned_abs v < 2 ^ 64) low.values }
    ensures value { result ≡ summed kind low }
    ensures bound { All (λ v. unsigned_abs v ≤ 2 ^ 77) result.values }
{
    match kind {
        Kind::Intra => dc_add(&mut low),
        Kind::Inter => {}
    }
    low
}

/// Whether all bands have zeros alone.
pub fn have_zeros_alone(bands: &[CodedBand]) -> bool
    ensures { result ≡ true → (n : ℕ) (band : TheBand) → slice_get bands.now n ≡ Some band →
        AreZeros band.table.values }
{
    for n in 0..bands.len() {
        let band = &bands[n];
        if !band.table.are_zeros() {
            return false;
        }
    }
    true
}

/// The level behind the first `n`.
pub fn level_of<'a>(
    transform: &Transform,
    kind: Kind,
    bands: &'a [CodedBand],
    n: usize,
) -> Level<'a>
    requires depth { IsDepth transform.now.depth }
    requires levels { length transform.now.counts ≡ transform.now.depth + 1 }
    requires bands { length bands.now ≡ 3 * transform.now.depth + 1 }
    requires level { n < transform.now.depth }
    ensures { IsLevelOf transform.now kind bands.now n result }
{
    Level {
        by: Synthesis {
            wavelet: transform.wavelet,
            kind,
            counts: transform.counts.at(n as u8 + 1),
        },
        bands: LevelBands {
            hl: &bands[3 * n + 1],
            lh: &bands[3 * n + 2],
            hh: &bands[3 * n + 3],
        },
    }
}

/// The LL band after the synthesis of the first `levels` levels.
pub fn low_after(
    alloc: Global,
    plane: &CodedPlane<'_, '_>,
    levels: u8,
) -> Result<Residual, NoMemory>
    requires plane { IsRestorablePlane plane.now }
    requires first { levels ≤ plane.now.transform.now.depth }
    ensures { IfOk result (IsLowOf plane.now levels) }
{
    let bands = plane.bands;
    let counts = plane.transform.counts.at(0);
    let restored = restore_band(alloc, &bands[0], counts, plane.kind)?;
    let lowest = summed_up(restored, plane.kind);
    let mut low = Residual::try_of(alloc, lowest)?;
    for n in 0..levels as usize {
        let level = level_of(plane.transform, plane.kind, bands, n);
        let next = next_level(alloc, level.by, &low, level.bands)?;
        low = next;
    }
    Ok(low)
}

/// The residual of a plane of `width` by `height` samples from its subbands, which stand in the order LL, then HL, LH
/// and HH of levels 1 to the transform's depth: they are restored, in an intra picture LL is summed up, each level is
/// synthesised from the lowest on, and what was padded is cut off (inverse wavelet transform, Dirac specification).
pub fn plane_residual(
    alloc: Global,
    transform: &Transform,
    kind: Kind,
    bands: &[CodedBand],
    width: u32,
    height: u32,
) -> Result<Residual, NoMemory>
    requires wavelet { IsWavelet transform.now.wavelet }
    requires depth { IsDepth transform.now.depth }
    requires levels { length transform.now.counts ≡ transform.now.depth + 1 }
    requires across { (1 ≤ width) × (width ≤ LARGEST_TABLE_SIDE) }
    requires down { (1 ≤ height) × (height ≤ LARGEST_TABLE_SIDE) }
    requires bands { AreRestorableBands transform.now width height bands.now }
    ensures value { IfOk result (λ t. t ≡ residual transform.now kind bands.now width height) }
    ensures bound { IfOk result (λ t. All (λ v. unsigned_abs v ≤ 2 ^ 108) t.values) }
{
    if have_zeros_alone(bands) {
        return Residual::try_zeros(alloc, width, height);
    }
    let plane = CodedPlane {
        transform,
        kind,
        bands,
        width,
        height,
    };
    let low = low_after(alloc, &plane, transform.depth)?;
    cut_off(alloc, low, width, height)
}
