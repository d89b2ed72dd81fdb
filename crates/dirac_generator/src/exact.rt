ghost use Rattle.std.specs.Prelude.{if◌then◌else◌, ◌≡◌, ◌≤◌, IfOk, bytes_eq, length};
ghost use Rattle.dirac_types.specs.Settings.{IsAccepted};
ghost use Rattle.dirac_generator.specs.Generated.{exact_from, picture_count};

use crate::picture::{fill_picture, picture_length};
use dirac_common::NoMemory;
use dirac_types::Settings;
use std::alloc::Global;

/// How many of the first `count` raw pictures in these bytes are the generated pictures of their numbers, from 0 on.
pub fn exact_pictures(
    alloc: Global,
    settings: &Settings,
    count: u32,
    bytes: &[u8],
) -> Result<u32, NoMemory>
    requires accepted { IsAccepted settings.now }
    ensures value { IfOk result (λ n. n ≡ exact_from settings.now count 0 bytes.now) }
    ensures bounded { IfOk result (λ n. n ≤ count) }
{
    let mut picture = vec![in alloc; 0; picture_length(settings)]?;
    Ok(exact_among(settings, count, bytes, picture.as_mut_slice()))
}

/// The same, with a buffer for a picture, whatever it holds.
fn exact_among(settings: &Settings, count: u32, bytes: &[u8], picture: &mut [u8]) -> u32
    requires accepted { IsAccepted settings.now }
    requires of_picture_size { length picture.old ≡ picture_count settings.now }
    ensures value { result ≡ exact_from settings.now count 0 bytes.now }
    ensures bounded { result ≤ count }
{
    let mut exact = 0;
    let mut rest = bytes;
    'pictures: for number in 0..count {
        fill_picture(settings, number, picture);
        let (first, others) = rest.split_at(picture.len().min(rest.len()));
        exact += one_if_equal(first, picture);
        rest = others;
    }
    exact
}

/// 1 where both are the same bytes, and else 0.
fn one_if_equal(first: &[u8], second: &[u8]) -> u32
    ensures value { result ≡ if bytes_eq first.now second.now then 1 else 0 }
    ensures bounded { result ≤ 1 }
{
    if first == second { 1 } else { 0 }
}
