ghost use Rattle.std.specs.Prelude.{◌≡◌, ◌*◌, length, Some, IfOk, IfSome, IsSome};
ghost use Rattle.std.specs.Option.{ForSome, option_copied};
ghost use Rattle.dirac_common.specs.declared.formats.Kind.TheVariants.{Inter};
ghost use Rattle.dirac_sequence_header.specs.Lawful.{IsSequence};
ghost use Rattle.dirac_obmc.specs.Compensation.{predicted_plane};
ghost use Rattle.dirac_picture.specs.Fits.{FitsSequence, IsMotion, IsResidual, NamesReferences};
ghost use Rattle.dirac_synthesis.specs.Residual.{clipped as clipped_table, with_prediction};
ghost use Rattle.dirac_content.specs.Content as content;
ghost use Rattle.dirac_content.specs.Content.{AreReferences, IsPicture, rebuilt};
ghost use Rattle.dirac_content.specs.Predicting.{inter_picture, inter_plane, intra_picture, IsUpOfPart};
ghost use Rattle.dirac_rebuild.specs.Moved.{IsMoved};
ghost use Rattle.dirac_rebuild.specs.Rebuilding.{CanBeRebuilt};

use crate::compensate::{Moved, plane_motion, up_of_reference};
use crate::motion_rows::MotionRows;
use crate::planes::unfinished_of;
use dirac_common::{Kind, NoMemory, Picture, Plane};
use dirac_content::named_reference;
use dirac_obmc::{Component, column_weights};
use dirac_picture::{CodedMotion, CodedPicture, CodedResidual};
use dirac_refs::{RefBuffer, Reference};
use dirac_sequence_header::Sequence;
use dirac_synthesis::{clipped_in, clipped_sum_by_rows, clipped_sum_by_strips};
use dirac_upconvert::UpPlane;
use std::alloc::Global;

/// Planes to be written over, where there are some.
#[derive(Drop)]
struct Rooms {
    y: Option<Plane>,
    u: Option<Plane>,
    v: Option<Plane>,
}

/// The planes of a picture, to be written over.
fn rooms_of(picture: Option<Picture>) -> Rooms {
    match picture {
        None => Rooms {
            y: None,
            u: None,
            v: None,
        },
        Some(picture) => Rooms {
            y: Some(picture.y),
            u: Some(picture.u),
            v: Some(picture.v),
        },
    }
}

/// The samples of a plane of an intra picture: its residual, clipped; made in the room given if that has their size.
fn intra_samples(
    alloc: Global,
    sequence: &Sequence,
    component: Component,
    residual: &Option<CodedResidual>,
    room: Option<Plane>,
) -> Result<Plane, NoMemory>
    requires sequence { IsSequence sequence.now }
    requires fits { IfSome residual.now (IsResidual sequence.now) }
    ensures value { IfOk result (λ t. t ≡ content.intra_samples sequence.now residual.now component) }
{
    let residual = unfinished_of(alloc, sequence, Kind::Intra, component, residual)?;
    clipped_in(alloc, &residual, room)
}

/// The samples of a plane of an inter picture, from what is predicted for them, by rows: each with its residual,
/// clipped.
pub fn predicted_samples(
    alloc: Global,
    sequence: &Sequence,
    residual: &Option<CodedResidual>,
    predicted: &[i32],
    component: Component,
) -> Result<Plane, NoMemory>
    requires sequence { IsSequence sequence.now }
    requires fits { IfSome residual.now (IsResidual sequence.now) }
    requires predicted { length predicted.now ≡ content.width_of sequence.now component * content.height_of sequence.now
        component }
    ensures value { IfOk result (λ t. t ≡ clipped_table (with_prediction
        (content.residual_among sequence.now Inter component residual.now) predicted.now)) }
{
    let residual = unfinished_of(alloc, sequence, Kind::Inter, component, residual)?;
    clipped_sum_by_strips(alloc, &residual, predicted)
}

/// The samples of a plane of an inter picture, from planes of its references that are upconverted already: its residual
/// and what they predict, clipped; made in the room given if that has their size. Some rows are predicted at a time.
fn samples_with(
    alloc: Global,
    moved: &Moved<'_>,
    residual: &Option<CodedResidual>,
    first: &UpPlane,
    second: Option<&UpPlane>,
    component: Component,
    room: Option<Plane>,
) -> Result<Plane, NoMemory>
    requires moved { IsMoved moved.now }
    requires fits { IfSome residual.now (IsResidual moved.now.sequence.now) }
    requires first { IsUpOfPart moved.now.sequence.now component first.now }
    requires second { ForSome (option_copied second) (IsUpOfPart moved.now.sequence.now component) }
    requires two { moved.now.motion.now.blocks.refs ≡ 2 → IsSome second }
    ensures { IfOk result (λ t. t ≡ clipped_table (with_prediction
        (content.residual_among moved.now.sequence.now Inter component residual.now)
        (predicted_plane (content.compensated moved.now.sequence.now moved.now.motion.now first.now
        (option_copied second.entry) component)).values)) }
{
    let motion = plane_motion(
        moved.code,
        moved.sequence,
        moved.motion,
        first,
        second,
        component,
    );
    let weights = column_weights(alloc, &motion)?;
    let residual = unfinished_of(alloc, moved.sequence, Kind::Inter, component, residual)?;
    clipped_sum_by_rows(alloc, &residual, &MotionRows { motion, weights }, room)
}

/// The samples of a plane of an inter picture: its residual and what its references predict, clipped; made in the room
/// given if that has their size.
fn inter_samples(
    alloc: Global,
    moved: &Moved<'_>,
    residual: &Option<CodedResidual>,
    first: &Reference,
    second: Option<&Reference>,
    component: Component,
    room: Option<Plane>,
) -> Result<Plane, NoMemory>
    requires moved { IsMoved moved.now }
    requires fits { IfSome residual.now (IsResidual moved.now.sequence.now) }
    requires first { IsPicture moved.now.sequence.now first.now }
    requires second { ForSome (option_copied second) (IsPicture moved.now.sequence.now) }
    requires two { moved.now.motion.now.blocks.refs ≡ 2 → IsSome second }
    ensures value { IfOk result (λ t. t ≡ inter_plane moved.now.sequence.now (Some first.now)
        (option_copied second.entry) moved.now.motion.now residual.now component) }
{
    let precision = moved.motion.prediction.precision;
    let first = up_of_reference(alloc, moved.sequence, first, component, precision)?;
    match second {
        None => samples_with(alloc, moved, residual, first.plane(), None, component, room),
        Some(second) => {
            let second = up_of_reference(alloc, moved.sequence, second, component, precision)?;
            let second = Some(second.plane());
            samples_with(
                alloc,
                moved,
                residual,
                first.plane(),
                second,
                component,
                room,
            )
        }
    }
}

/// An inter picture, from its references, where it can in the planes that are given.
fn rebuild_from(
    alloc: Global,
    moved: &Moved<'_>,
    coded: &CodedPicture,
    first: &Reference,
    second: Option<&Reference>,
    room: Rooms,
) -> Result<Picture, NoMemory>
    requires moved { IsMoved moved.now }
    requires fits { IfSome coded.now.residual (IsResidual moved.now.sequence.now) }
    requires first { IsPicture moved.now.sequence.now first.now }
    requires second { ForSome (option_copied second) (IsPicture moved.now.sequence.now) }
    requires two { moved.now.motion.now.blocks.refs ≡ 2 → IsSome second }
    ensures { IfOk result (λ p. p ≡ inter_picture moved.now.sequence.now (Some first.now)
        (option_copied second.entry) coded.now.header moved.now.motion.now coded.now.residual) }
{
    let residual = &coded.residual;
    let y = inter_samples(alloc, moved, residual, first, second, Component::Y, room.y)?;
    let u = inter_samples(alloc, moved, residual, first, second, Component::U, room.u)?;
    let v = inter_samples(alloc, moved, residual, first, second, Component::V, room.v)?;
    let number = coded.header.number;
    Ok(Picture { number, y, u, v })
}

/// An inter picture. Its references are looked up once.
fn rebuild_inter(
    alloc: Global,
    coded: &CodedPicture,
    motion: &CodedMotion,
    sequence: &Sequence,
    refs: &RefBuffer,
    room: Rooms,
) -> Result<Picture, NoMemory>
    requires sequence { IsSequence sequence.now }
    requires inter { coded.now.motion ≡ Some motion.now }
    requires motion { IsMotion coded.now.code sequence.now motion.now }
    requires names { NamesReferences coded.now.code coded.now.header }
    requires refs { AreReferences sequence.now refs.now coded.now.header }
    requires fits { IfSome coded.now.residual (IsResidual sequence.now) }
    ensures { IfOk result (λ p. p ≡ rebuilt sequence.now refs.now coded.now) }
{
    let moved = Moved {
        code: coded.code,
        sequence,
        motion,
    };
    let second = named_reference(refs, coded.header.ref2);
    match named_reference(refs, coded.header.ref1) {
        None => unreachable!(),
        Some(first) => rebuild_from(alloc, &moved, coded, first, second, room),
    }
}

/// The planes of an intra picture, where they can be in those that are given.
fn intra_planes(
    alloc: Global,
    coded: &CodedPicture,
    sequence: &Sequence,
    room: Rooms,
) -> Result<Picture, NoMemory>
    requires sequence { IsSequence sequence.now }
    requires fits { IfSome coded.now.residual (IsResidual sequence.now) }
    ensures { IfOk result (λ p. p ≡ intra_picture sequence.now coded.now.header coded.now.residual) }
{
    let y = intra_samples(alloc, sequence, Component::Y, &coded.residual, room.y)?;
    let u = intra_samples(alloc, sequence, Component::U, &coded.residual, room.u)?;
    let v = intra_samples(alloc, sequence, Component::V, &coded.residual, room.v)?;
    let number = coded.header.number;
    Ok(Picture { number, y, u, v })
}

/// An intra picture from its residual, an inter picture from its references too.
fn rebuild_planes(
    alloc: Global,
    coded: &CodedPicture,
    sequence: &Sequence,
    refs: &RefBuffer,
    room: Rooms,
) -> Result<Picture, NoMemory>
    requires { CanBeRebuilt coded.now sequence.now refs.now }
    ensures { IfOk result (λ p. p ≡ rebuilt sequence.now refs.now coded.now) }
{
    match &coded.motion {
        None => intra_planes(alloc, coded, sequence, room),
        Some(motion) => rebuild_inter(alloc, coded, motion, sequence, refs, room),
    }
}

/// The picture that a coded picture stands for, from its residual and its references (picture decoding, Dirac
/// specification).
pub fn rebuild(
    alloc: Global,
    coded: &CodedPicture,
    sequence: &Sequence,
    refs: &RefBuffer,
) -> Result<Picture, NoMemory>
    requires sequence { IsSequence sequence.now }
    requires fits { FitsSequence coded.now.code sequence.now coded.now }
    requires refs { AreReferences sequence.now refs.now coded.now.header }
    ensures value { IfOk result (λ p. p ≡ rebuilt sequence.now refs.now coded.now) }
    ensures fits { IfOk result (IsPicture sequence.now) }
{
    rebuild_in(alloc, coded, sequence, refs, None)
}

/// The picture that `rebuild` gives, made in the planes of the one that is given, whatever these hold: those that have
/// the same size are written over, and no new ones are made and filled with zeros first.
pub fn rebuild_in(
    alloc: Global,
    coded: &CodedPicture,
    sequence: &Sequence,
    refs: &RefBuffer,
    room: Option<Picture>,
) -> Result<Picture, NoMemory>
    requires sequence { IsSequence sequence.now }
    requires fits { FitsSequence coded.now.code sequence.now coded.now }
    requires refs { AreReferences sequence.now refs.now coded.now.header }
    ensures value { IfOk result (λ p. p ≡ rebuilt sequence.now refs.now coded.now) }
    ensures fits { IfOk result (IsPicture sequence.now) }
{
    let picture = rebuild_planes(alloc, coded, sequence, refs, rooms_of(room))?;
    Ok(picture)
}
