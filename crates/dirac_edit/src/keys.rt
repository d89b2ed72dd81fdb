//! The keys of a sequence's pictures: how far their numbers are from the first one's, as delivery orders them.

ghost use Rattle.std.specs.Prelude.{◌≡◌, ◌<◌, ◌^◌, max};
ghost use Rattle.dirac_edit_laws.specs.Joined.{first_number as first_among};
ghost use borrow.Author.Differences.{down, up};
ghost use Rattle.dirac_edit.specs.Merged.{keys_among};

use crate::numbers::number_in;
use crate::sequence::HeldPicture;
use dirac_refs::key;

/// Where the keys of a sequence lie. Its first picture has key 0.
#[derive(Clone, Copy, Debug, PartialEq, Eq)]
pub(crate) struct Keys {
    /// The number of the first picture.
    pub(crate) first: u32,
    /// The greatest key.
    pub(crate) above: u32,
    /// How far the least key is below 0.
    pub(crate) below: u32,
}

/// The keys of these pictures.
pub(crate) fn keys_of(pictures: &[HeldPicture<'_>]) -> Keys
    ensures value { result ≡ keys_among pictures.now }
    ensures fits { result.first < 2 ^ 32 }
{
    let first = first_number(pictures);
    let mut above = 0;
    let mut below = 0;
    for picture in pictures {
        let key = key(first, number_in(picture.payload()));
        above = greater(above, above_0(key));
        below = greater(below, below_0(key));
    }
    Keys {
        first,
        above,
        below,
    }
}

/// The number of the first picture.
fn first_number(pictures: &[HeldPicture<'_>]) -> u32
    ensures { result ≡ first_among pictures.now }
{
    match pictures.first() {
        Some(picture) => number_in(picture.payload()),
        None => 0,
    }
}

/// The greater of two numbers.
fn greater(a: u32, b: u32) -> u32
    ensures { result ≡ max a b }
{
    if a < b { b } else { a }
}

/// How far a key is above 0, if it is.
fn above_0(key: i32) -> u32
    ensures { result ≡ up key }
{
    key.max(0).unsigned_abs()
}

/// How far a key is below 0, if it is.
fn below_0(key: i32) -> u32
    ensures { result ≡ down key }
{
    key.min(0).unsigned_abs()
}
