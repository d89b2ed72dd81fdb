//! The subbands of each plane, and each subband by itself, written apart. A band begins at a byte, so these texts are
//! joined as they stand.

ghost use Rattle.std.specs.Prelude.{◌≡◌, ◌<◌, [], length, IfOk, IfSome, None};
ghost use Rattle.dirac_common.specs.Bits.{bits_of};
ghost use Rattle.dirac_bits.specs.Writing.{up_to_byte};
ghost use Rattle.dirac_sequence_header.specs.Lawful.{IsSequence};
ghost use Rattle.dirac_picture.specs.Fits.{AreBandsOf, IsLayout, IsPlaneSize};
ghost use Rattle.dirac_picture.specs.Bands.{bands_of};
ghost use Rattle.dirac_picture.specs.Texts.{AreTexts, IsBandText, IsTextOf, text_of_plane};
ghost use Rattle.dirac_picture.specs.Writable.{AreWritable, IsWritten};
ghost use Rattle.dirac_picture.specs.Written.{with_plane};

use crate::coded::CodedResidual;
use crate::plane_bands::PlaneBands;
use crate::write_plane::{write_next, write_plane};
use dirac_bits::BitWriter;
use dirac_common::{Component, NoMemory};
use dirac_header::Transform;
use dirac_sequence_header::Sequence;
use std::alloc::Global;

/// The bytes of the subbands of each plane; without a residual there are none.
#[derive(Drop)]
pub struct Texts {
    pub y: Vec<u8>,
    pub u: Vec<u8>,
    pub v: Vec<u8>,
}

/// The bytes of the bands of a plane of `width` by `height` samples, with bits 0 up to the last byte's end.
fn plane_text(
    alloc: Global,
    transform: &Transform,
    width: u32,
    height: u32,
    bands: &PlaneBands,
) -> Result<Vec<u8>, NoMemory>
    requires layout { IsLayout transform.now }
    requires size { IsPlaneSize width height }
    requires bands { AreBandsOf transform.now width height bands.now }
    requires writable { AreWritable transform.now width height bands.now }
    ensures { IfOk result (λ v. bits_of v.items ≡ up_to_byte (with_plane transform.now width height bands.now [])) }
{
    let mut w = BitWriter::new(alloc);
    write_plane(alloc, &mut w, transform, width, height, bands)?;
    w.align()?;
    let bytes = w.finish()?;
    Ok(bytes)
}

/// The bytes of the bands of one plane of a residual.
fn component_text(
    alloc: Global,
    sequence: &Sequence,
    residual: &CodedResidual,
    component: Component,
) -> Result<Vec<u8>, NoMemory>
    requires sequence { IsSequence sequence.now }
    requires written { IsWritten sequence.now residual.now }
    ensures { IfOk result (λ v. bits_of v.items ≡ text_of_plane sequence.now residual.now component) }
{
    let width = sequence.plane_width(component);
    let height = sequence.plane_height(component);
    let bands = residual.plane_bands(component);
    let bytes = plane_text(alloc, &residual.transform, width, height, bands)?;
    Ok(bytes)
}

/// The bytes of band `n` of a plane of `width` by `height` samples, with bits 0 up to the last byte's end.
fn text_at(
    alloc: Global,
    transform: &Transform,
    width: u32,
    height: u32,
    bands: &PlaneBands,
    n: u32,
) -> Result<Vec<u8>, NoMemory>
    requires layout { IsLayout transform.now }
    requires size { IsPlaneSize width height }
    requires bands { AreBandsOf transform.now width height bands.now }
    requires writable { AreWritable transform.now width height bands.now }
    requires there { n < length bands.now }
    ensures { IfOk result (λ v. IsBandText transform.now width height bands.now n (bits_of v.items)) }
{
    let mut w = BitWriter::new(alloc);
    write_next(alloc, &mut w, transform, width, height, bands, n)?;
    w.align()?;
    let bytes = w.finish()?;
    Ok(bytes)
}

/// The bytes of band `n` of one plane of a residual. Those of all bands of a plane, one behind another, are the bytes
/// of the plane.
pub fn band_text(
    alloc: Global,
    sequence: &Sequence,
    residual: &CodedResidual,
    component: Component,
    n: u32,
) -> Result<Vec<u8>, NoMemory>
    requires sequence { IsSequence sequence.now }
    requires written { IsWritten sequence.now residual.now }
    requires there { n < length (bands_of residual.now component) }
    ensures { IfOk result (λ v. IsTextOf sequence.now residual.now component n (bits_of v.items)) }
{
    let width = sequence.plane_width(component);
    let height = sequence.plane_height(component);
    let bands = residual.plane_bands(component);
    let bytes = text_at(alloc, &residual.transform, width, height, bands, n)?;
    Ok(bytes)
}

/// The bytes of the bands of one plane of a residual, if there is one.
fn text_among(
    alloc: Global,
    sequence: &Sequence,
    residual: &Option<CodedResidual>,
    component: Component,
) -> Result<Vec<u8>, NoMemory>
    requires sequence { IsSequence sequence.now }
    requires written { IfSome residual.now (IsWritten sequence.now) }
    ensures value { IfOk result
        (λ v. IfSome residual.now (λ r. bits_of v.items ≡ text_of_plane sequence.now r component)) }
    ensures none { residual.now ≡ None → IfOk result (λ v. v.items ≡ []) }
{
    match residual {
        None => Ok(Vec::new(alloc)),
        Some(residual) => component_text(alloc, sequence, residual, component),
    }
}

/// The bytes of the bands of each plane of a residual, if there is one.
pub fn texts_of(
    alloc: Global,
    sequence: &Sequence,
    residual: &Option<CodedResidual>,
) -> Result<Texts, NoMemory>
    requires sequence { IsSequence sequence.now }
    requires written { IfSome residual.now (IsWritten sequence.now) }
    ensures value { IfOk result (λ x. IfSome residual.now (λ r. AreTexts sequence.now r x)) }
    ensures none { residual.now ≡ None → IfOk result (λ x. (x.y.items ≡ []) × (x.u.items ≡ []) × (x.v.items ≡ [])) }
{
    let y = text_among(alloc, sequence, residual, Component::Y)?;
    let u = text_among(alloc, sequence, residual, Component::U)?;
    let v = text_among(alloc, sequence, residual, Component::V)?;
    Ok(Texts { y, u, v })
}
