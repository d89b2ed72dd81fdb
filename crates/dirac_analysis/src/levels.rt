ghost use Rattle.std.specs.Prelude.{◌≡◌, ◌-◌, ◌%◌, ◌≤◌, ◌^◌, unsigned_abs, IfOk};
ghost use Rattle.std.specs.List.{All};
ghost use Rattle.dirac_common.specs.Limits.{IsWavelet};
ghost use Rattle.dirac_lift.specs.Held.{held_plane};
ghost use Rattle.dirac_analysis.specs.Analysis.{analysis_of, as_coded, differences};
ghost use Rattle.dirac_analysis.specs.Fits.{AreQuantisable, IsDivisible, IsQuantisable, grown};
ghost use Rattle.dirac_analysis.specs.Splitting.{AreFourBands, IsSplittable};

use crate::analysed::{AnalysedBand, AnalysedPlane};
use crate::narrow::split_narrow;
use crate::split::SplitLevel;
use dirac_bands::{FourBands, dc_subtract, split_bands};
use dirac_common::{Kind, LARGEST_TABLE_SIDE, Narrow, NoMemory, Wide};
use dirac_lift::{Held, analyse_level, is_narrow};
use std::alloc::Global;

/// The last LL band as it is coded: an intra picture's less its predictions.
fn lowest_band(kind: Kind, low: Wide) -> Wide
    requires across { low.width ≤ LARGEST_TABLE_SIDE }
    requires down { low.height ≤ LARGEST_TABLE_SIDE }
    requires magnitudes_at_most_2_36 { All (λ v. unsigned_abs v ≤ 2 ^ 36) low.values }
    ensures value { result ≡ as_coded kind low }
    ensures fits { IsQuantisable result }
{
    match kind {
        Kind::Intra => less_predictions(low),
        Kind::Inter => low,
    }
}

/// A table less the predictions of its values.
fn less_predictions(mut low: Wide) -> Wide
    requires across { low.width ≤ LARGEST_TABLE_SIDE }
    requires down { low.height ≤ LARGEST_TABLE_SIDE }
    requires magnitudes_at_most_2_36 { All (λ v. unsigned_abs v ≤ 2 ^ 36) low.values }
    ensures value { result ≡ differences low }
    ensures fits { IsQuantisable result }
{
    dc_subtract(&mut low);
    prove!(low.width() >= 1);
    low
}

/// Analyses one level by wide numbers.
fn split_wide(alloc: Global, mut plane: Wide, wavelet: u8) -> Result<SplitLevel, NoMemory>
    requires { IsSplittable wavelet plane }
    ensures { IfOk result (AreFourBands wavelet plane) }
{
    analyse_level(wavelet, &mut plane);
    let FourBands { ll, hl, lh, hh } = split_bands(alloc, &plane)?;
    Ok(SplitLevel {
        ll: Held::Wide(ll),
        hl: AnalysedBand::of_wide(hl),
        lh: AnalysedBand::of_wide(lh),
        hh: AnalysedBand::of_wide(hh),
    })
}

/// Analyses one level of a plane that is held in 32 bits: in these where all its values allow it.
fn split_by_size(alloc: Global, plane: Narrow, wavelet: u8) -> Result<SplitLevel, NoMemory>
    requires { IsSplittable wavelet plane }
    ensures { IfOk result (AreFourBands wavelet plane) }
{
    if is_narrow(plane.values()) {
        return split_narrow(alloc, &plane, wavelet);
    }
    let wide = plane.try_wide(alloc)?;
    split_wide(alloc, wide, wavelet)
}

/// Analyses one level.
fn split_level(alloc: Global, plane: Held, wavelet: u8) -> Result<SplitLevel, NoMemory>
    requires { IsSplittable wavelet (held_plane plane) }
    ensures { IfOk result (AreFourBands wavelet (held_plane plane)) }
{
    match plane {
        Held::Narrow(plane) => split_by_size(alloc, plane, wavelet),
        Held::Wide(plane) => split_wide(alloc, plane, wavelet),
    }
}

/// A table that is analysed `depth` times.
pub(crate) fn analyse_levels(
    alloc: Global,
    kind: Kind,
    plane: Held,
    wavelet: u8,
    depth: u8,
) -> Result<AnalysedPlane, NoMemory>
    requires wavelet { IsWavelet wavelet }
    requires depth { depth ≤ 4 }
    requires across { (held_plane plane).width ≤ LARGEST_TABLE_SIDE }
    requires down { (held_plane plane).height ≤ LARGEST_TABLE_SIDE }
    requires divisible { IsDivisible depth (held_plane plane) }
    requires magnitudes_bounded { All (λ v. unsigned_abs v ≤ grown (4 - depth)) (held_plane plane).values }
    ensures value { IfOk result (λ a. a ≡ analysis_of kind wavelet (held_plane plane) depth) }
    ensures fits { IfOk result (AreQuantisable depth) }
{
    if depth == 0 {
        let low = plane.into_wide(alloc)?;
        let lowest = lowest_band(kind, low);
        return Ok(AnalysedPlane::new(alloc, lowest));
    }
    let SplitLevel { ll, hl, lh, hh } = split_level(alloc, plane, wavelet)?;
    let lower = analyse_levels(alloc, kind, ll, wavelet, depth - 1)?;
    let all = lower.with_level(hl, lh, hh)?;
    Ok(all)
}
