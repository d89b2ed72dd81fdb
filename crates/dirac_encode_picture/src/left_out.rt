//! The residual that an inter picture leaves out.

ghost use Rattle.std.specs.Prelude.{◌≡◌, if◌then◌else◌, Some, None};
ghost use Rattle.dirac_coeffs.specs.Written.{is_zero_band};
ghost use Rattle.dirac_synthesis.specs.Zeros.{are_zero_bands};
ghost use Rattle.dirac_encode_laws.specs.Coded as coding;

use dirac_coeffs::CodedBand;
use dirac_picture::{CodedResidual, PlaneBands};
use dirac_types::Settings;

/// A band has zeros alone.
fn is_band_of_zeros(band: &CodedBand) -> bool
    ensures { result ≡ is_zero_band band.now.table.values }
{
    band.table.are_zeros()
}

/// All bands of a plane have zeros alone.
fn are_bands_of_zeros(bands: &PlaneBands) -> bool
    ensures { result ≡ are_zero_bands bands.now }
{
    bands.bands().iter().all(|band| is_band_of_zeros(band))
}

/// The residual of an inter picture, which is left out exactly where all its bands have zeros alone and the stream need
/// not be shown alike.
pub(crate) fn unless_left_out(settings: &Settings, residual: CodedResidual) -> Option<CodedResidual>
    ensures { result ≡ (if coding.is_left_out settings.now residual then None else Some residual) }
{
    if settings.alike == 0
        && are_bands_of_zeros(&residual.y)
        && are_bands_of_zeros(&residual.u)
        && are_bands_of_zeros(&residual.v)
    {
        return None;
    }
    Some(residual)
}
