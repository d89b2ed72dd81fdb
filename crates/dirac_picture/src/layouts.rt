ghost use Rattle.std.specs.Prelude.{◌≡◌, ◌+◌, ◌*◌, ◌≤◌};
ghost use Rattle.dirac_coeffs.specs.Layouts.{IsBandLayout};
ghost use Rattle.dirac_picture.specs.Bands as bands;
ghost use Rattle.dirac_picture.specs.Fits.{IsLayout, IsPlaneSize};

use dirac_bands::{band_size, padded};
use dirac_coeffs::BandLayout;
use dirac_common::Band;
use dirac_header::Transform;

/// The orientation of band `n` of a plane.
fn orientation(n: u32) -> Band
    ensures { result ≡ bands.orientation_of n }
{
    if n == 0 {
        Band::LL
    } else if n % 3 == 1 {
        Band::HL
    } else if n % 3 == 2 {
        Band::LH
    } else {
        Band::HH
    }
}

/// What band `n` of a plane of `width` by `height` samples is: LL is band 0, and HL, LH and HH of each level follow it.
#[tactic(auto, unfolding(crate::specs::Bands::layout_of))]
pub fn layout(transform: &Transform, width: u32, height: u32, n: u32) -> BandLayout
    requires layout { IsLayout transform.now }
    requires size { IsPlaneSize width height }
    requires there { n ≤ 3 * transform.now.depth }
    ensures value { result ≡ bands.layout_of transform.now width height n }
    ensures lawful { IsBandLayout result }
    ensures mode { result.mode ≡ transform.now.mode }
{
    let depth = transform.depth;
    let level = ((n + 2) / 3) as u8;
    let (across, down) = transform.counts.at(level);
    BandLayout {
        band: orientation(n),
        width: band_size(padded(width, depth), depth, level),
        height: band_size(padded(height, depth), depth, level),
        across,
        down,
        mode: transform.mode,
    }
}
