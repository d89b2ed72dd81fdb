ghost use Rattle.std.specs.Prelude.{◌≡◌, ◌≤◌, IfOk, Some};
ghost use Rattle.std.specs.Option.{ForSome, option_copied};
ghost use Rattle.dirac_sequence_header.specs.declared.sequence.Sequence.{Sequence};
ghost use Rattle.dirac_content.specs.Content.{IsPicture, up_of};
ghost use Rattle.dirac_motion.specs.Lent.{AreLent, AreLumas, HasLuma, first_of, luma_in, second_of};

use dirac_common::NoMemory;
use dirac_refs::Reference as Listed;
use dirac_types::Settings;
use dirac_upconvert::{UpPlane, upconvert_for};
use std::alloc::Global;
use std::marker::Sync;
use std::thread::{Threads, join};

/// A reference of a picture, and its luma with half samples.
#[derive(Clone, Copy)]
pub struct Reference<'a> {
    pub picture: &'a Listed,
    pub luma: &'a UpPlane,
}

/// The references of an inter picture. What is made of their luma is made once, and lent to all that needs it.
#[derive(Clone, Copy)]
pub struct References<'a> {
    pub first: Reference<'a>,
    pub second: Option<Reference<'a>>,
}

/// The luma of a reference with half samples.
#[derive(Drop)]
pub enum Luma<'a> {
    /// Lent by the reference, which keeps it.
    Kept(&'a UpPlane),
    /// Made for one picture.
    Made(UpPlane),
}

impl<'a> Luma<'a> {
    /// Lends the plane.
    pub fn plane(&self) -> &UpPlane
        ensures { result.now ≡ luma_in self.now }
    {
        match self {
            Luma::Kept(up) => up,
            Luma::Made(up) => up,
        }
    }
}

/// The precision of the vectors of these settings.
fn precision_of(settings: &Settings) -> u8
    ensures { settings.now.precision ≤ 3 → result ≡ settings.now.precision }
{
    settings.precision.min(3) as u8
}

/// The luma of one reference or two, with half samples.
#[derive(Drop)]
pub struct Lumas<'a> {
    pub first: Luma<'a>,
    pub second: Option<Luma<'a>>,
}

/// Lends the luma of a reference with half samples, while they are kept for vectors of this precision.
fn kept_luma(listed: &Listed, precision: u8) -> Option<&UpPlane>
    ensures { ForSome (option_copied result) (λ u. u ≡ up_of listed.now.y) }
{
    match listed.halves(precision) {
        None => None,
        Some(halves) => Some(&halves.y),
    }
}

/// The luma of a reference with half samples, which are made where they aren't kept for vectors of this precision.
fn luma_of<'a>(alloc: Global, listed: &'a Listed, precision: u8) -> Result<Luma<'a>, NoMemory>
    requires { HasLuma listed.now }
    ensures { IfOk result (λ l. luma_in l ≡ up_of listed.now.y) }
{
    match kept_luma(listed, precision) {
        None => {
            let made = upconvert_for(alloc, &listed.picture().y, precision)?;
            Ok(Luma::Made(made))
        }
        Some(up) => Ok(Luma::Kept(up)),
    }
}

/// The luma of two references, upconverted side by side where it isn't kept.
fn lumas_side_by_side<'a, R: Threads + Sync>(
    rt: &R,
    alloc: Global,
    first: &'a Listed,
    second: &'a Listed,
    precision: u8,
) -> Result<Lumas<'a>, NoMemory>
    requires first { HasLuma first.now }
    requires second { HasLuma second.now }
    ensures { IfOk result (AreLumas first.now (Some second.now)) }
{
    let (other, luma) = join(
        rt,
        || -> Result<Luma, NoMemory>
            requires { HasLuma second.now }
            ensures { IfOk result (λ l. luma_in l ≡ up_of second.entry.now.y) }
        { luma_of(alloc, second, precision) },
        || -> Result<Luma, NoMemory>
            requires { HasLuma first.now }
            ensures { IfOk result (λ l. luma_in l ≡ up_of first.entry.now.y) }
        { luma_of(alloc, first, precision) },
    );
    let first = luma?;
    let second = other?;
    Ok(Lumas {
        first,
        second: Some(second),
    })
}

impl<'a> Lumas<'a> {
    /// The luma of references, for the vectors of these settings: what they keep is lent, and the other is made.
    pub fn of(
        alloc: Global,
        first: &'a Listed,
        second: Option<&'a Listed>,
        settings: &Settings,
    ) -> Result<Lumas<'a>, NoMemory>
        requires first { HasLuma first.now }
        requires second { ForSome (option_copied second) HasLuma }
        ensures { IfOk result (λ l. AreLumas first.now (option_copied second.entry) l) }
    {
        let precision = precision_of(settings);
        let luma = luma_of(alloc, first, precision)?;
        match second {
            None => Ok(Lumas {
                first: luma,
                second: None,
            }),
            Some(second) => {
                let other = luma_of(alloc, second, precision)?;
                Ok(Lumas {
                    first: luma,
                    second: Some(other),
                })
            }
        }
    }

    /// The luma of references, for the vectors of these settings: what they keep is lent. Where the first keeps none,
    /// that of both is made side by side with two workers or more; at precision 0, with no half sample to make, by one.
    pub fn by_workers<R: Threads + Sync>(
        rt: &R,
        alloc: Global,
        first: &'a Listed,
        second: Option<&'a Listed>,
        settings: &Settings,
    ) -> Result<Lumas<'a>, NoMemory>
        requires first { HasLuma first.now }
        requires second { ForSome (option_copied second) HasLuma }
        ensures { IfOk result (λ l. AreLumas first.now (option_copied second.entry) l) }
    {
        let precision = precision_of(settings);
        if settings.workers <= 1 || precision == 0 || first.halves(precision).is_some() {
            return Lumas::of(alloc, first, second, settings);
        }
        match second {
            None => Lumas::of(alloc, first, None, settings),
            Some(other) => lumas_side_by_side(rt, alloc, first, other, precision),
        }
    }

    /// The references, whose luma these planes are.
    pub fn lend<'b>(&'b self, first: &'b Listed, second: Option<&'b Listed>) -> References<'b>
        requires { AreLumas first.now (option_copied second) self.now }
        ensures first { first_of result ≡ first.now }
        ensures second { second_of result ≡ option_copied second.entry }
        ensures lent { (s : Sequence) → IsPicture s first.now → ForSome (option_copied second.entry) (IsPicture s)
            → AreLent s result }
    {
        let first = Reference {
            picture: first,
            luma: self.first.plane(),
        };
        match second {
            None => References {
                first,
                second: None,
            },
            Some(picture) => match &self.second {
                None => unreachable!(),
                Some(luma) => {
                    let luma = luma.plane();
                    References {
                        first,
                        second: Some(Reference { picture, luma }),
                    }
                }
            },
        }
    }
}
