//! Raw pictures, read.

ghost use Rattle.std.specs.Prelude.{◌≡◌, ◌+◌, ◌*◌, ◌≤◌, ◌<◌, length, map, IfOk};
ghost use Rattle.dirac_types.specs.Settings.{IsAccepted};
ghost use Rattle.dirac_types.specs.Sizes.{picture_height};
ghost use Rattle.dirac_sequence_header.specs.Lawful.{IsSequence};
ghost use Rattle.dirac_picture.specs.Fits.{IsPlaneSize};
ghost use Rattle.dirac_picture.specs.Grammar.{chroma_height, chroma_width};
ghost use Rattle.dirac_synthesis.specs.Residual.{AreSamples, clip};
ghost use Rattle.dirac_content.specs.Raw.{raw as raw_of};
ghost use Rattle.dirac_sources.specs.Sources.{IsSource, picture_from, picture_in, plane_from};
ghost use Rattle.dirac_sources.specs.Sources.{raw_length as length_of, sample_of};

use dirac_common::{Component, LARGEST_SIDE, NoMemory, Picture, Plane};
use dirac_sequence::sequence_of;
use dirac_sequence_header::Sequence;
use dirac_types::Settings;
use std::alloc::Global;

/// The sample of a byte.
#[inline(always)]
fn sample(byte: u8) -> i16
    ensures value { result ≡ sample_of byte }
    ensures fits { clip result ≡ result }
{
    i16::from(byte) - 128
}

/// Writes the sample of each byte.
fn fill_samples(bytes: &[u8], samples: &mut [i16])
    requires { length samples.old ≡ length bytes.now }
    ensures value { samples.new ≡ map sample_of bytes.now }
    ensures fits { AreSamples samples.new }
{
    for i in 0..bytes.len() {
        samples[i] = sample(bytes[i]);
    }
}

/// A plane of `width` by `height` samples from its bytes, by rows.
fn plane_of(alloc: Global, width: u32, height: u32, bytes: &[u8]) -> Result<Plane, NoMemory>
    requires across { (1 ≤ width) × (width ≤ LARGEST_SIDE) }
    requires down { (1 ≤ height) × (height ≤ LARGEST_SIDE) }
    requires bytes { length bytes.now ≡ width * height }
    ensures value { IfOk result (λ t. t ≡ plane_from width height bytes.now) }
    ensures fits { IfOk result (λ t. AreSamples t.values) }
{
    let mut plane = Plane::try_new(alloc, width, height, 0)?;
    fill_samples(bytes, plane.values_mut());
    Ok(plane)
}

/// How many bytes a raw picture has with these settings: one for each sample.
pub fn raw_length(settings: &Settings) -> usize
    requires { IsAccepted settings.now }
    ensures { result ≡ length_of settings.now }
{
    let sequence = sequence_of(settings);
    length_in(settings, &sequence)
}

fn length_in(settings: &Settings, sequence: &Sequence) -> usize
    requires luma { IsPlaneSize settings.now.width (picture_height settings.now) }
    requires chroma { IsPlaneSize (chroma_width sequence.now) (chroma_height sequence.now) }
    ensures { result ≡ settings.now.width * picture_height settings.now
        + chroma_width sequence.now * chroma_height sequence.now
        + chroma_width sequence.now * chroma_height sequence.now }
{
    let width = sequence.plane_width(Component::U);
    let height = sequence.plane_height(Component::U);
    let luma = settings.width as usize * settings.picture_height() as usize;
    let chroma = width as usize * height as usize;
    luma + chroma + chroma
}

/// The picture of this number from its bytes: the rows of Y, then of U, then of V, a byte a sample.
pub fn picture_of(
    alloc: Global,
    settings: &Settings,
    number: u32,
    bytes: &[u8],
) -> Result<Picture, NoMemory>
    requires accepted { IsAccepted settings.now }
    requires bytes { length bytes.now ≡ length_of settings.now }
    ensures value { IfOk result (λ p. p ≡ picture_from settings.now number bytes.now) }
    ensures fits { IfOk result (IsSource settings.now) }
    // These bytes are the picture's raw bytes.
    ensures raw { IfOk result (λ p. raw_of p ≡ bytes.now) }
{
    let sequence = sequence_of(settings);
    planes_of(alloc, settings, &sequence, number, bytes)
}

fn planes_of(
    alloc: Global,
    settings: &Settings,
    sequence: &Sequence,
    number: u32,
    bytes: &[u8],
) -> Result<Picture, NoMemory>
    requires sequence { IsSequence sequence.now }
    requires luma { IsPlaneSize settings.now.width (picture_height settings.now) }
    requires chroma { IsPlaneSize (chroma_width sequence.now) (chroma_height sequence.now) }
    requires bytes { length bytes.now ≡ settings.now.width * picture_height settings.now
        + chroma_width sequence.now * chroma_height sequence.now
        + chroma_width sequence.now * chroma_height sequence.now }
    ensures value { IfOk result (λ p. p ≡ picture_in settings.now.width (picture_height settings.now)
        (chroma_width sequence.now) (chroma_height sequence.now) number bytes.now) }
    ensures y { IfOk result (λ p. AreSamples p.y.values) }
    ensures u { IfOk result (λ p. AreSamples p.u.values) }
    ensures v { IfOk result (λ p. AreSamples p.v.values) }
{
    let width = sequence.plane_width(Component::U);
    let height = sequence.plane_height(Component::U);
    let luma = settings.width as usize * settings.picture_height() as usize;
    let chroma = width as usize * height as usize;
    Ok(Picture {
        number,
        y: plane_of(
            alloc,
            settings.width,
            settings.picture_height(),
            &bytes[..luma],
        )?,
        u: plane_of(alloc, width, height, &bytes[luma..luma + chroma])?,
        v: plane_of(alloc, width, height, &bytes[luma + chroma..])?,
    })
}
