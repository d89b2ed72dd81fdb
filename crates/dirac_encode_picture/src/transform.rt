//! The transform parameters of the encoder.

ghost use Rattle.std.specs.Prelude.{◌≡◌, ◌+◌, ◌≤◌, ◌<◌, ◌^◌};
ghost use Rattle.dirac_common.specs.Limits.{IsEncodedDepth, IsWavelet};
ghost use Rattle.dirac_picture.specs.Fits.{IsLayout};
ghost use Rattle.dirac_types.specs.Sizes.{picture_height};
ghost use Rattle.dirac_encode_laws.specs.Coded.{count_of as count_at, counts_below, transform_of as parameters};
ghost use Rattle.dirac_encode_laws.specs.Codable.{IsCodable};

use dirac_bands::{band_size, padded};
use dirac_common::LARGEST_SIDE;
use dirac_header::{Counts, Transform};
use dirac_types::Settings;

/// How many codeblocks a level has across or down, where luma has `size` samples.
fn count_of(codeblocks: u32, size: u32, depth: u8, level: u8) -> u32
    requires size { size ≤ LARGEST_SIDE }
    requires depth { IsEncodedDepth depth }
    requires level { level ≤ depth }
    ensures { result ≡ count_at codeblocks size depth level }
{
    if level == 0 {
        return 1;
    }
    codeblocks.min(band_size(padded(size, depth), depth, level))
}

/// The transform parameters of these settings: at each level above 0 as many codeblocks as asked for, but no more than
/// the luma bands have columns or rows.
pub(crate) fn transform_of(settings: &Settings) -> Transform
    requires { IsCodable settings.now }
    ensures value { result ≡ parameters settings.now }
    ensures layout { IsLayout result }
{
    parameters_of(settings)
}

fn parameters_of(settings: &Settings) -> Transform
    requires wavelet { IsWavelet settings.now.wavelet }
    requires depth { IsEncodedDepth settings.now.depth }
    requires width { settings.now.width ≤ LARGEST_SIDE }
    requires height { picture_height settings.now ≤ LARGEST_SIDE }
    ensures { result ≡ parameters settings.now }
{
    let depth = settings.depth as u8;
    let height = settings.picture_height();
    let mut counts = Counts::new();
    'levels: for level in 0..depth + 1 {
        counts.push(
            count_of(settings.codeblocks, settings.width, depth, level),
            count_of(settings.codeblocks, height, depth, level),
        );
    }
    Transform {
        wavelet: settings.wavelet as u8,
        depth,
        counts,
        mode: if settings.finer == 0 { 0 } else { 1 },
    }
}
