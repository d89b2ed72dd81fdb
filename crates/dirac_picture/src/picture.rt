ghost use Rattle.std.specs.Prelude.{◌≡◌, length, IfOk, IfErr, IsTrue, Ok, true, false, ◌≤◌};
ghost use Rattle.dirac_bits.specs.Laws.{StartsWith};
ghost use Rattle.dirac_bits.specs.Answers.{ReadsSeenBy, ReadsOrStops, IsEarly};
ghost use Rattle.dirac_bits.specs.Syntax.{read};
ghost use Rattle.dirac_sequence_header.specs.Lawful.{IsSequence};
ghost use Rattle.dirac_sequence_header.specs.Sizes.{chroma_height, chroma_width, picture_height};
ghost use Rattle.dirac_picture.specs.declared.coded.CodedPicture.{CodedPicture as ThePicture};
ghost use Rattle.dirac_picture.specs.Answers.{GivesOrStops};
ghost use Rattle.dirac_picture.specs.Grammar as grammar;
ghost use Rattle.dirac_picture.specs.Fits.{FitsSequence, IsLayout, IsPlaneSize, HasResidual, IsResidual, IsTransform};
ghost use Rattle.dirac_picture.specs.Fits.{NamesReferences};
ghost use Rattle.dirac_picture.specs.Reading.{CanBeRead, CanRead, ReadsPlanes, ReadsThem};

use crate::coded::{CodedPicture, CodedResidual};
use crate::motion::read_motion;
use crate::plane::read_plane_bands;
use dirac_bits::BitReader;
use dirac_common::{Cause, Component, Refusal, Stop, is_intra};
use dirac_header::{PictureHeader, Transform, read_header, read_transform};
use dirac_refs::RefBuffer;
use dirac_sequence_header::Sequence;
use std::alloc::Global;

/// What the fields of a picture are read with.
#[derive(Drop)]
struct Reading<'a, F> {
    /// Reads the subbands of the planes.
    planes: &'a F,
    alloc: Global,
    code: u8,
    sequence: &'a Sequence,
}

/// Reads the payload of a picture (picture parsing, Dirac specification). The place of a refusal counts from
/// the payload's first byte; a reference that isn't listed is refused there.
pub fn read_picture(
    alloc: Global,
    payload: &[u8],
    code: u8,
    sequence: &Sequence,
    refs: &RefBuffer,
) -> Result<CodedPicture, Stop>
    requires code { IsTrue (grammar.is_picture code) }
    requires sequence { IsSequence sequence.now }
    ensures value { GivesOrStops result (grammar.picture_read code sequence.now refs.now payload.now) }
    // What is answered is spelled by the payload's first bits.
    ensures spelled { IfOk result (λ p. StartsWith (grammar.picture code sequence.now refs.now) p payload.now) }
    // What its first bits spell is answered.
    ensures no_other_reading { (p : ThePicture) → StartsWith (grammar.picture code sequence.now refs.now) p payload.now
        → GivesOrStops result (Ok p) }
    ensures place_inside { IfErr result (IsEarly (length payload.now)) }
    ensures fits { IfOk result (FitsSequence code sequence.now) }
    // Each reference that its header names is listed.
    ensures listed { IfOk result (λ p. IsTrue (grammar.are_listed refs.now p.header)) }
{
    read_picture_by(&read_planes, alloc, payload, code, sequence, refs)
}

/// Reads the payload of a picture, as `read_picture`, where the subbands of its planes are read by `planes`.
pub fn read_picture_by<
    F: Fn(Global, &mut BitReader<'_>, Transform, &Sequence) -> Result<CodedResidual, Stop>,
>(
    planes: &F,
    alloc: Global,
    payload: &[u8],
    code: u8,
    sequence: &Sequence,
    refs: &RefBuffer,
) -> Result<CodedPicture, Stop>
    requires planes { ReadsPlanes (F.pre planes.now) (F.post planes.now) }
    requires code { IsTrue (grammar.is_picture code) }
    requires sequence { IsSequence sequence.now }
    ensures value { GivesOrStops result (grammar.picture_read code sequence.now refs.now payload.now) }
    // What is answered is spelled by the payload's first bits.
    ensures spelled { IfOk result (λ p. StartsWith (grammar.picture code sequence.now refs.now) p payload.now) }
    // What its first bits spell is answered.
    ensures no_other_reading { (p : ThePicture) → StartsWith (grammar.picture code sequence.now refs.now) p payload.now
        → GivesOrStops result (Ok p) }
    ensures place_inside { IfErr result (IsEarly (length payload.now)) }
    ensures fits { IfOk result (FitsSequence code sequence.now) }
    // Each reference that its header names is listed.
    ensures listed { IfOk result (λ p. IsTrue (grammar.are_listed refs.now p.header)) }
{
    let mut r = BitReader::new(payload);
    let reading = Reading {
        planes,
        alloc,
        code,
        sequence,
    };
    read_fields(&reading, &mut r, refs)
}

/// Reads the fields of a picture.
#[tactic(auto, unfolding(crate::specs::Grammar::picture), using(dirac_bits::specs::Then::read_then))]
fn read_fields<
    F: Fn(Global, &mut BitReader<'_>, Transform, &Sequence) -> Result<CodedResidual, Stop>,
>(reading: &Reading<'_, F>, r: &mut BitReader<'_>, refs: &RefBuffer) -> Result<CodedPicture, Stop>
    requires reading { CanRead reading.now.code reading.now.sequence.now (F.pre reading.now.planes.now)
        (F.post reading.now.planes.now) }
    ensures value { ReadsOrStops result r.new
        (read (grammar.picture reading.now.code reading.now.sequence.now refs.now) r.old) }
    ensures place_inside { IfErr result (IsEarly (length r.old.bytes)) }
    ensures fits { IfOk result (FitsSequence reading.now.code reading.now.sequence.now) }
    ensures listed { IfOk result (λ p. IsTrue (grammar.are_listed refs.now p.header)) }
{
    let header = read_header(r, reading.code)?;
    if !are_listed(refs, &header) {
        return Err(Stop::Refused(Refusal {
            at: 0,
            cause: Cause::MissingReference,
        }));
    }
    read_body(reading, r, header)
}

/// Whether each reference that a header names is listed.
pub fn are_listed(refs: &RefBuffer, header: &PictureHeader) -> bool
    ensures { result ≡ grammar.are_listed refs.now header.now }
{
    refs.is_listed(header.ref1) && refs.is_listed(header.ref2)
}

/// Reads the fields behind a picture's header.
#[tactic(auto, unfolding(crate::specs::Grammar::body), using(dirac_bits::specs::Then::read_then))]
fn read_body<
    F: Fn(Global, &mut BitReader<'_>, Transform, &Sequence) -> Result<CodedResidual, Stop>,
>(
    reading: &Reading<'_, F>,
    r: &mut BitReader<'_>,
    header: PictureHeader,
) -> Result<CodedPicture, Stop>
    requires reading { CanRead reading.now.code reading.now.sequence.now (F.pre reading.now.planes.now)
        (F.post reading.now.planes.now) }
    requires header { NamesReferences reading.now.code header }
    ensures value { ReadsOrStops result r.new
        (read (grammar.body reading.now.code reading.now.sequence.now header) r.old) }
    ensures place_inside { IfErr result (IsEarly (length r.old.bytes)) }
    ensures kept { r.new.bytes ≡ r.old.bytes }
    ensures fits { IfOk result (FitsSequence reading.now.code reading.now.sequence.now) }
    ensures header { IfOk result (λ p. p.header ≡ header) }
{
    let code = reading.code;
    let motion = read_motion(reading.alloc, r, code, reading.sequence)?;
    r.align();
    let zero = read_zero_residual(r, code)?;
    let residual = read_residual_unless(reading, r, zero)?;
    Ok(CodedPicture {
        code,
        header,
        motion,
        residual,
    })
}

/// Reads whether the residual is 0, which an inter picture says.
#[tactic(auto, unfolding(crate::specs::Grammar::zero_residual))]
fn read_zero_residual(r: &mut BitReader<'_>, code: u8) -> Result<bool, Refusal>
    ensures value { ReadsSeenBy (λ b. b) result r.new (read (grammar.zero_residual code) r.old) }
    ensures place_inside { IfErr result (λ e. e.at ≤ length r.old.bytes) }
    ensures kept { r.new.bytes ≡ r.old.bytes }
    ensures inter { IfOk result (λ zero. zero ≡ true → grammar.is_intra code ≡ false) }
{
    if is_intra(code) {
        return Ok(false);
    }
    r.bit()
}

/// Reads the residual, where it isn't 0.
#[tactic(auto, unfolding(crate::specs::Grammar::residual_unless), using(dirac_bits::specs::Then::read_then))]
fn read_residual_unless<
    F: Fn(Global, &mut BitReader<'_>, Transform, &Sequence) -> Result<CodedResidual, Stop>,
>(
    reading: &Reading<'_, F>,
    r: &mut BitReader<'_>,
    zero: bool,
) -> Result<Option<CodedResidual>, Stop>
    requires reading { CanRead reading.now.code reading.now.sequence.now (F.pre reading.now.planes.now)
        (F.post reading.now.planes.now) }
    requires inter { zero ≡ true → grammar.is_intra reading.now.code ≡ false }
    ensures value { ReadsOrStops result r.new (read (grammar.residual_unless zero reading.now.sequence.now) r.old) }
    ensures place_inside { IfErr result (IsEarly (length r.old.bytes)) }
    ensures kept { r.new.bytes ≡ r.old.bytes }
    ensures fits { IfOk result (HasResidual reading.now.code reading.now.sequence.now) }
{
    if zero {
        return Ok(None);
    }
    let residual = read_residual(reading, r)?;
    Ok(Some(residual))
}

/// Reads the transform parameters and the subbands.
#[tactic(auto, unfolding(crate::specs::Grammar::residual_fields), using(dirac_bits::specs::Then::read_then))]
fn read_residual<
    F: Fn(Global, &mut BitReader<'_>, Transform, &Sequence) -> Result<CodedResidual, Stop>,
>(reading: &Reading<'_, F>, r: &mut BitReader<'_>) -> Result<CodedResidual, Stop>
    requires reading { CanRead reading.now.code reading.now.sequence.now (F.pre reading.now.planes.now)
        (F.post reading.now.planes.now) }
    ensures value { ReadsOrStops result r.new (read (grammar.residual_fields reading.now.sequence.now) r.old) }
    ensures place_inside { IfErr result (IsEarly (length r.old.bytes)) }
    ensures kept { r.new.bytes ≡ r.old.bytes }
    ensures fits { IfOk result (IsResidual reading.now.sequence.now) }
{
    let sequence = reading.sequence;
    let transform = read_transform(r, sequence.width, sequence.picture_height())?;
    planes_by(reading, r, transform)
}

/// The subbands of the three planes, read by the call for them.
fn planes_by<
    F: Fn(Global, &mut BitReader<'_>, Transform, &Sequence) -> Result<CodedResidual, Stop>,
>(
    reading: &Reading<'_, F>,
    r: &mut BitReader<'_>,
    transform: Transform,
) -> Result<CodedResidual, Stop>
    requires reading { CanRead reading.now.code reading.now.sequence.now (F.pre reading.now.planes.now)
        (F.post reading.now.planes.now) }
    requires planes { CanBeRead reading.now.sequence.now transform }
    ensures { ReadsThem reading.now.sequence.now transform r.old result r.new }
{
    let planes = reading.planes;
    planes(reading.alloc, r, transform, reading.sequence)
}

/// Reads the subbands of the three planes, one after another.
#[tactic(auto, unfolding(crate::specs::Grammar::planes), using(dirac_bits::specs::Then::read_then))]
pub fn read_planes(
    alloc: Global,
    r: &mut BitReader<'_>,
    transform: Transform,
    sequence: &Sequence,
) -> Result<CodedResidual, Stop>
    requires transform { IsTransform sequence.now.width (picture_height sequence.now) transform }
    requires layout { IsLayout transform }
    requires luma { IsPlaneSize sequence.now.width (picture_height sequence.now) }
    requires chroma { IsPlaneSize (chroma_width sequence.now) (chroma_height sequence.now) }
    ensures value { ReadsOrStops result r.new (read (grammar.planes sequence.now transform) r.old) }
    ensures place_inside { IfErr result (IsEarly (length r.old.bytes)) }
    ensures kept { r.new.bytes ≡ r.old.bytes }
    ensures fits { IfOk result (IsResidual sequence.now) }
{
    let (width, height) = (sequence.width, sequence.picture_height());
    let y = read_plane_bands(alloc, r, &transform, width, height)?;
    let width = sequence.plane_width(Component::U);
    let height = sequence.plane_height(Component::U);
    let u = read_plane_bands(alloc, r, &transform, width, height)?;
    let v = read_plane_bands(alloc, r, &transform, width, height)?;
    Ok(CodedResidual { transform, y, u, v })
}
