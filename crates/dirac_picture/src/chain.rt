ghost use Rattle.std.specs.Prelude.{◌≡◌, ◌+◌, ◌*◌, ◌≤◌, length, IfOk, IfSome, None, Ok};
ghost use Rattle.dirac_common.specs.Limits.{IsIndex};
ghost use Rattle.dirac_coeffs.specs.Answers.{GivesOrStops};
ghost use Rattle.dirac_coeffs.specs.Grammar.{IsCodedBand};
ghost use Rattle.dirac_coeffs.specs.Sites.{band_at};
ghost use Rattle.dirac_picture.specs.Bands.{layout_of};
ghost use Rattle.dirac_picture.specs.Chains.{chain_length, values_before, AreBandsOfOrientation, AreWhole};
ghost use Rattle.dirac_picture.specs.Chains.{IsBandRefused, IsWholeChain};
ghost use Rattle.dirac_picture.specs.Fits.{IsLayout, IsPlaneSize};

use crate::layouts::layout;
use dirac_coeffs::{CodedBand, Site, read_at};
use dirac_common::{NoMemory, Stop};
use dirac_header::Transform;
use std::alloc::Global;
use std::marker::Model;

/// The bands of one orientation of a plane, from the lowest level on.
///
/// It is seen as a list.
#[derive(Drop)]
pub struct Chain {
    bands: Vec<CodedBand>,
}

impl Model for Chain {
    ghost use Rattle.std.specs.Prelude.{List};
    ghost use Rattle.dirac_coeffs.specs.declared.layout.CodedBand.{CodedBand};

    ghost Value = { List CodedBand };

    ghost view = { λ c. c.bands.items };
}

impl Chain {
    /// Gives the list back.
    pub(crate) fn into_list(self) -> Vec<CodedBand>
        ensures { result.items ≡ self }
    {
        self.bands
    }
}

/// A plane's size in samples.
#[derive(Clone, Copy)]
pub struct PlaneSize {
    pub width: u32,
    pub height: u32,
}

/// Reads the band of the orientation that begins with band `first`, behind these of it.
fn read_next(
    alloc: Global,
    transform: &Transform,
    size: PlaneSize,
    site: &Option<Site<'_>>,
    first: u32,
    before: &[CodedBand],
) -> Result<CodedBand, Stop>
    requires layout { IsLayout transform.now }
    requires size { IsPlaneSize size.width size.height }
    requires index { IfSome site.now (λ s. IsIndex s.index) }
    requires inside { first + 3 * length before.now ≤ 3 * transform.now.depth }
    requires first { (first ≤ 3) × (first ≡ 0 → length before.now ≡ 0) }
    requires before { AreBandsOfOrientation transform.now size.width size.height first before.now }
    ensures value { GivesOrStops result (band_at (layout_of transform.now size.width size.height
        (first + 3 * length before.now)) (values_before before.now (length before.now)) site.now) }
    ensures lawful { IfOk result (IsCodedBand (layout_of transform.now size.width size.height
        (first + 3 * length before.now))) }
{
    let count = before.len();
    let place = layout(transform, size.width, size.height, first + 3 * count as u32);
    if count == 0 {
        return read_at(alloc, site, place, None);
    }
    let parent = &before[count - 1];
    read_at(alloc, site, place, Some(&parent.table))
}

/// How many bands the orientation has that begins with this band: LL has one.
fn length_of(transform: &Transform, first: u32) -> u32
    ensures { result ≡ chain_length transform.now first }
{
    match first {
        0 => 1,
        _ => u32::from(transform.depth),
    }
}

/// Reads the bands of one orientation of a plane whose blocks were found: of LL, HL, LH or HH where `first` is 0, 1, 2
/// or 3. None where one of them is refused. A band's parent is of its own orientation, so the four may be read side by
/// side.
pub fn read_chain(
    alloc: Global,
    transform: &Transform,
    size: PlaneSize,
    sites: &[Option<Site<'_>>],
    first: u32,
) -> Result<Option<Chain>, NoMemory>
    requires layout { IsLayout transform.now }
    requires size { IsPlaneSize size.width size.height }
    requires whole { AreWhole transform.now sites.now }
    requires first { first ≤ 3 }
    ensures whole { IfOk result (λ r. IfSome r (IsWholeChain transform.now size.width size.height sites.now first)) }
    ensures none { result ≡ Ok None → IsBandRefused transform.now size.width size.height sites.now first }
{
    let mut bands = Vec::new(alloc);
    'levels: for k in 0..length_of(transform, first) {
        let site = &sites[(first + 3 * k) as usize];
        match read_next(alloc, transform, size, site, first, bands.as_slice()) {
            Ok(band) => bands.push(band)?,
            Err(Stop::Refused(_refusal)) => return Ok(None),
            Err(Stop::NoMemory) => return Err(NoMemory),
        }
    }
    Ok(Some(Chain { bands }))
}
