ghost use Rattle.std.specs.Prelude.{◌≡◌, ◌+◌, ◌*◌, ◌≤◌, ◌<◌, length};
ghost use Rattle.dirac_types.specs.Settings.{IsAccepted};
ghost use Rattle.dirac_types.specs.Sizes.{picture_height};
ghost use Rattle.dirac_generator.specs.Generated.{generated_byte, generated_rows, generated as bytes_of};
ghost use Rattle.dirac_generator.specs.Generated.{chroma_across, chroma_down, picture_count};

use dirac_common::{Component, LARGEST_SIDE, MOST_SAMPLES};
use dirac_types::Settings;

/// How many bytes a plane of luma has, and one of chroma, and how wide one of chroma is.
#[derive(Clone, Copy)]
struct Sizes {
    luma: usize,
    chroma: usize,
    chroma_width: usize,
}

fn sizes_of(settings: &Settings) -> Sizes
    requires { IsAccepted settings.now }
    ensures luma { result.luma ≡ settings.now.width * picture_height settings.now }
    ensures chroma { result.chroma ≡ chroma_across settings.now * chroma_down settings.now }
    ensures chroma_width { result.chroma_width ≡ chroma_across settings.now }
    ensures some_chroma { (1 ≤ result.chroma_width) × (result.chroma_width ≤ LARGEST_SIDE) }
    ensures some_luma { (1 ≤ settings.now.width) × (settings.now.width ≤ LARGEST_SIDE) × (1 ≤ result.luma) }
    ensures bounded { result.luma + (result.chroma + result.chroma) ≤ MOST_SAMPLES }
{
    let across = settings.plane_width(Component::U);
    let down = settings.plane_height(Component::U);
    Sizes {
        luma: settings.width as usize * settings.picture_height() as usize,
        chroma: across as usize * down as usize,
        chroma_width: across as usize,
    }
}

/// How many bytes a raw picture has with these settings: one for each sample.
pub fn picture_length(settings: &Settings) -> usize
    requires { IsAccepted settings.now }
    ensures value { result ≡ picture_count settings.now }
    ensures at_least_1 { 1 ≤ result }
    ensures bounded { result ≤ MOST_SAMPLES }
{
    let sizes = sizes_of(settings);
    sizes.luma + (sizes.chroma + sizes.chroma)
}

/// The byte of a picture in plane 0, 1 or 2, at column x of row y.
#[inline(always)]
fn byte_at(number: u32, plane: u8, x: u32, y: u32) -> u8
    ensures { result ≡ generated_byte number plane x y }
{
    let (number, plane, x, y) = (number as u64, plane as u64, x as u64, y as u64);
    ((3 * (x + 2 * number) + 5 * (y + number) + 40 * plane) % 256) as u8
}

/// Writes rows of this width of a plane of a picture.
fn fill_rows(number: u32, plane: u8, width: usize, bytes: &mut [u8])
    requires width { (1 ≤ width) × (width ≤ LARGEST_SIDE) }
    requires at_most_28311552 { length bytes.old ≤ MOST_SAMPLES }
    ensures { bytes.new ≡ generated_rows number plane width (length bytes.old) }
{
    'bytes: for place in 0..bytes.len() {
        let (x, y) = (place % width, place / width);
        bytes[place] = byte_at(number, plane, x as u32, y as u32);
    }
}

/// Writes the picture of this number.
pub(crate) fn fill_picture(settings: &Settings, number: u32, bytes: &mut [u8])
    requires accepted { IsAccepted settings.now }
    requires of_picture_size { length bytes.old ≡ picture_count settings.now }
    ensures { bytes.new ≡ bytes_of settings.now number }
{
    let sizes = sizes_of(settings);
    let (luma, chroma) = bytes.split_at_mut(sizes.luma);
    let (u, v) = chroma.split_at_mut(sizes.chroma);
    fill_rows(number, 0, settings.width as usize, luma);
    fill_rows(number, 1, sizes.chroma_width, u);
    fill_rows(number, 2, sizes.chroma_width, v);
}
