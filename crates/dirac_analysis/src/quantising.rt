ghost use Rattle.std.specs.Prelude.{◌≡◌, [], ◌∷◌, IfOk};
ghost use Rattle.dirac_common.specs.Limits.{IsIndex};
ghost use Rattle.dirac_picture.specs.Fits.{IsLayout};
ghost use Rattle.dirac_analysis.specs.Analysis.{lowest_index as index_of_lowest, quantised};
ghost use Rattle.dirac_analysis.specs.Fits.{AreQuantisable};

use crate::analysed::AnalysedPlane;
use crate::band::code_band;
use dirac_coeffs::CodedBand;
use dirac_common::{Kind, NoMemory};
use dirac_parameters::Transform;
use dirac_picture::PlaneBands;
use std::alloc::Global;

/// The index of LL: an intra picture's is 0.
fn lowest_index(kind: Kind, index: u8) -> u8
    requires { IsIndex index }
    ensures value { result ≡ index_of_lowest kind index }
    ensures fits { IsIndex result }
{
    match kind {
        Kind::Intra => 0,
        Kind::Inter => index,
    }
}

/// A plane's one band.
fn single(alloc: Global, band: CodedBand) -> Result<PlaneBands, NoMemory>
    ensures { IfOk result (λ b. b ≡ band ∷ []) }
{
    let mut bands = PlaneBands::new(alloc);
    bands.push(band)?;
    Ok(bands)
}

/// The subbands of an analysed plane, quantised at `index`, but each flat codeblock, whose coefficients all have
/// magnitudes below `FLAT_BELOW`, at one that is lower by `finer`, but no less than 0. An intra picture's LL is coded
/// at index 0.
pub fn quantise_plane(
    alloc: Global,
    kind: Kind,
    transform: &Transform,
    plane: &AnalysedPlane,
    finer: u8,
    index: u8,
) -> Result<PlaneBands, NoMemory>
    requires layout { IsLayout transform.now }
    requires index { IsIndex index }
    requires fits { AreQuantisable transform.now.depth plane.now }
    ensures { IfOk result (λ b. b ≡ quantised kind transform.now finer index plane.now) }
{
    let counts = transform.counts.at(0);
    let lowest = code_band(
        alloc,
        plane.lowest(),
        counts,
        finer,
        lowest_index(kind, index),
    )?;
    let mut bands = single(alloc, lowest)?;
    let higher = plane.higher();
    'bands: for n in 0..higher.len() {
        let level = (n / 3 + 1) as u8;
        let counts = transform.counts.at(level);
        let band = code_band(alloc, &higher[n], counts, finer, index)?;
        bands.push(band)?;
    }
    Ok(bands)
}
