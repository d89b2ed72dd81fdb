ghost use Rattle.std.specs.Prelude.{◌≡◌, ◌<◌, ◌≤◌, ◌+◌, ◌*◌, length, IfOk, IfErr};
ghost use Rattle.std.specs.Option.{ForSome};
ghost use Rattle.dirac_bits.specs.Syntax.{read};
ghost use Rattle.dirac_bits.specs.Answers.{ReadsOrStops, IsEarly};
ghost use Rattle.dirac_coeffs.specs.Grammar.{band, values_of_parent, IsParentOf, IsCodedBand};
ghost use Rattle.dirac_picture.specs.Bands as places;
ghost use Rattle.dirac_picture.specs.Grammar as grammar;
ghost use Rattle.dirac_picture.specs.Fits.{AreBands, AreBandsOf, IsLayout, IsPlaneSize};

use crate::layouts::layout;
use crate::plane_bands::PlaneBands;
use dirac_bits::BitReader;
use dirac_coeffs::{CodedBand, Coefficients, read_band};
use dirac_common::Stop;
use dirac_header::Transform;
use std::alloc::Global;

/// The parent of the band behind these.
#[tactic(auto, unfolding(crate::specs::Bands::parent_values))]
fn parent(bands: &PlaneBands) -> Option<&Coefficients>
    requires { length bands.now ≤ 16 }
    ensures value { values_of_parent result ≡ places.parent_values bands.now }
    ensures listed { ForSome result (λ t. places.IsParentAmong bands.now t.now) }
{
    let n = bands.len();
    if n < 4 {
        return None;
    }
    Some(&bands.at(n as u32 - 3).table)
}

/// Reads the band behind these, of a plane of `width` by `height` samples.
fn read_next(
    alloc: Global,
    r: &mut BitReader<'_>,
    transform: &Transform,
    width: u32,
    height: u32,
    bands: &PlaneBands,
) -> Result<CodedBand, Stop>
    requires layout { IsLayout transform.now }
    requires size { IsPlaneSize width height }
    requires a_place_left { length bands.now ≤ 3 * transform.now.depth }
    requires before { AreBands transform.now width height bands.now }
    ensures value { ReadsOrStops result r.new (read (band (places.layout_of transform.now width height
        (length bands.now)) (places.parent_values bands.now)) r.old) }
    ensures place_inside { IfErr result (IsEarly (length r.old.bytes)) }
    ensures kept { r.new.bytes ≡ r.old.bytes }
    ensures lawful { IfOk result (IsCodedBand (places.layout_of transform.now width height (length bands.now))) }
{
    let n = bands.len() as u32;
    let place = layout(transform, width, height, n);
    read_band(alloc, r, place, parent(bands))
}

/// Reads the bands of a plane of `width` by `height` samples, in their order.
pub(crate) fn read_plane_bands(
    alloc: Global,
    r: &mut BitReader<'_>,
    transform: &Transform,
    width: u32,
    height: u32,
) -> Result<PlaneBands, Stop>
    requires layout { IsLayout transform.now }
    requires size { IsPlaneSize width height }
    ensures value { ReadsOrStops result r.new (read (grammar.subbands_of_plane transform.now width height) r.old) }
    ensures place_inside { IfErr result (IsEarly (length r.old.bytes)) }
    ensures kept { r.new.bytes ≡ r.old.bytes }
    ensures lawful { IfOk result (AreBandsOf transform.now width height) }
{
    let mut bands = PlaneBands::new(alloc);
    let count = 3 * u32::from(transform.depth) + 1;
    'bands: for n in 0..count {
        let band = read_next(alloc, r, transform, width, height, &bands)?;
        bands.push(band)?;
    }
    Ok(bands)
}
