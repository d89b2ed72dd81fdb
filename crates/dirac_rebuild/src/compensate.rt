ghost use Rattle.std.specs.Prelude.{◌≡◌, ◌*◌, length, IfOk, IsSome};
ghost use Rattle.std.specs.Option.{ForSome, option_copied};
ghost use Rattle.dirac_common.specs.declared.picture.Picture.{Picture as ThePicture};
ghost use Rattle.dirac_sequence_header.specs.Lawful.{IsSequence};
ghost use Rattle.dirac_refs.specs.Halves.{AreHalves};
ghost use Rattle.dirac_picture.specs.Fits.{IsMotion, NamesReferences};
ghost use Rattle.dirac_obmc.specs.Compensation.{IsPredictable, predicted_plane};
ghost use Rattle.dirac_obmc.specs.Given.{compensation_of};
ghost use Rattle.dirac_content.specs.Content as content;
ghost use Rattle.dirac_rebuild.specs.Moved.{IsMoved};
ghost use Rattle.dirac_content.specs.Predicting.{IsUpOfPart};

use crate::planes::{height_of, plane_of, width_of};
use dirac_common::{NoMemory, Picture};
use dirac_content::named_reference;
use dirac_header::PictureHeader;
use dirac_obmc::{Component, Motion, Predicted, predict_plane};
use dirac_picture::CodedMotion;
use dirac_refs::{Halves, RefBuffer, Reference};
use dirac_sequence_header::Sequence;
use dirac_upconvert::{UpPlane, upconvert_for};
use std::alloc::Global;
use std::marker::Model;

/// The motion of an inter picture, with its parse code and its sequence.
#[derive(Clone, Copy)]
pub struct Moved<'a> {
    pub code: u8,
    pub sequence: &'a Sequence,
    pub motion: &'a CodedMotion,
}

/// A plane of a reference with its half samples, for vectors of this precision.
pub fn up_plane(
    alloc: Global,
    sequence: &Sequence,
    picture: &Picture,
    component: Component,
    precision: u8,
) -> Result<UpPlane, NoMemory>
    requires sequence { IsSequence sequence.now }
    requires picture { content.IsPicture sequence.now picture.now }
    ensures { IfOk result (λ u. u ≡ content.up_of (content.plane_of picture.now component)) }
{
    upconvert_for(alloc, plane_of(picture, component), precision)
}

/// What one plane of an inter picture is predicted from: its blocks, and planes of its references that are upconverted
/// already.
pub fn plane_motion<'a>(
    code: u8,
    sequence: &Sequence,
    motion: &'a CodedMotion,
    first: &'a UpPlane,
    second: Option<&'a UpPlane>,
    component: Component,
) -> Motion<'a>
    requires sequence { IsSequence sequence.now }
    requires motion { IsMotion code sequence.now motion.now }
    requires first { IsUpOfPart sequence.now component first.now }
    requires second { ForSome (option_copied second) (IsUpOfPart sequence.now component) }
    requires two { motion.now.blocks.refs ≡ 2 → IsSome second }
    ensures value { compensation_of result
        ≡ content.compensated sequence.now motion.now first.now (option_copied second.entry)
        component }
    ensures fits { IsPredictable (compensation_of result) }
{
    Motion {
        blocks: &motion.blocks,
        prediction: &motion.prediction,
        up1: first,
        up2: second,
        component,
        chroma: sequence.chroma,
        width: width_of(sequence, component),
        height: height_of(sequence, component),
    }
}

/// What the blocks of an inter picture predict for one of its planes, from planes of its references that are
/// upconverted already. Like `predict`, but nothing is looked up or upconverted for it.
pub fn predict_with(
    alloc: Global,
    moved: &Moved<'_>,
    first: &UpPlane,
    second: Option<&UpPlane>,
    component: Component,
) -> Result<Predicted, NoMemory>
    requires moved { IsMoved moved.now }
    requires first { IsUpOfPart moved.now.sequence.now component first.now }
    requires second { ForSome (option_copied second) (IsUpOfPart moved.now.sequence.now component) }
    requires two { moved.now.motion.now.blocks.refs ≡ 2 → IsSome second }
    ensures value { IfOk result (λ t. t ≡ predicted_plane (content.compensated moved.now.sequence.now
        moved.now.motion.now first.now (option_copied second.entry) component)) }
    ensures len { IfOk result (λ t. length t.values ≡ content.width_of moved.now.sequence.now component
        * content.height_of moved.now.sequence.now component) }
{
    let motion = plane_motion(
        moved.code,
        moved.sequence,
        moved.motion,
        first,
        second,
        component,
    );
    predict_plane(alloc, &motion)
}

/// Lends a plane of a reference with its half samples, while they are kept for vectors of this precision.
fn kept_plane(reference: &Reference, component: Component, precision: u8) -> Option<&UpPlane>
    ensures { ForSome (option_copied result) (λ u. u ≡ content.up_of (content.plane_of reference.now component)) }
{
    match reference.halves(precision) {
        None => None,
        Some(halves) => Some(half_plane(halves, component)),
    }
}

/// Lends one of the planes with their half samples.
fn half_plane(halves: &Halves, component: Component) -> &UpPlane
    ensures { (p : ThePicture) → AreHalves p halves.now → result.now ≡ content.up_of (content.plane_of p component) }
{
    match component {
        Component::Y => &halves.y,
        Component::U => &halves.u,
        Component::V => &halves.v,
    }
}

/// Where a plane of a reference with its half samples stands.
#[derive(Drop)]
enum Doubled<'a> {
    /// Lent by the reference, which keeps it.
    Kept(&'a UpPlane),
    /// Made for the caller.
    Made(UpPlane),
}

/// A plane of a reference with its half samples: lent by the reference where it keeps them, else made for the caller.
#[derive(Drop)]
pub struct ReferencePlane<'a> {
    doubled: Doubled<'a>,
}

impl<'a> Model for ReferencePlane<'a> {
    ghost use Rattle.dirac_upconvert.specs.SubSamples.{Up};
    ghost use Rattle.dirac_rebuild.specs.Doubled.{doubled_plane_in};

    ghost Value = { Up };

    ghost view = { λ p. doubled_plane_in p.doubled };
}

impl<'a> ReferencePlane<'a> {
    /// Lends the plane.
    pub fn plane(&self) -> &UpPlane
        ensures { result.now ≡ self.now }
    {
        match &self.doubled {
            Doubled::Kept(up) => up,
            Doubled::Made(up) => up,
        }
    }
}

/// A plane of a reference with its half samples, which are made where they aren't kept for vectors of this precision.
pub fn up_of_reference<'a>(
    alloc: Global,
    sequence: &Sequence,
    reference: &'a Reference,
    component: Component,
    precision: u8,
) -> Result<ReferencePlane<'a>, NoMemory>
    requires sequence { IsSequence sequence.now }
    requires reference { content.IsPicture sequence.now reference.now }
    ensures { IfOk result (λ p. p ≡ content.up_of (content.plane_of reference.now component)) }
{
    match kept_plane(reference, component, precision) {
        None => {
            let made = up_plane(alloc, sequence, reference.picture(), component, precision)?;
            Ok(ReferencePlane {
                doubled: Doubled::Made(made),
            })
        }
        Some(up) => Ok(ReferencePlane {
            doubled: Doubled::Kept(up),
        }),
    }
}

/// What the blocks of an inter picture predict for one of its planes, from its references. Like `predict`, but they are
/// looked up already. Half samples that are kept aren't made again.
pub fn predict_from(
    alloc: Global,
    moved: &Moved<'_>,
    first: &Reference,
    second: Option<&Reference>,
    component: Component,
) -> Result<Predicted, NoMemory>
    requires moved { IsMoved moved.now }
    requires first { content.IsPicture moved.now.sequence.now first.now }
    requires second { ForSome (option_copied second) (content.IsPicture moved.now.sequence.now) }
    requires two { moved.now.motion.now.blocks.refs ≡ 2 → IsSome second }
    ensures value { IfOk result (λ t. t ≡ predicted_plane (content.compensation moved.now.sequence.now
        moved.now.motion.now first.now (option_copied second.entry) component)) }
    ensures len { IfOk result (λ t. length t.values ≡ content.width_of moved.now.sequence.now component
        * content.height_of moved.now.sequence.now component) }
{
    let precision = moved.motion.prediction.precision;
    let first = up_of_reference(alloc, moved.sequence, first, component, precision)?;
    match second {
        None => predict_with(alloc, moved, first.plane(), None, component),
        Some(second) => {
            let second = up_of_reference(alloc, moved.sequence, second, component, precision)?;
            predict_with(alloc, moved, first.plane(), Some(second.plane()), component)
        }
    }
}

/// What the blocks of an inter picture predict for one of its planes (overlapped block motion compensation): a value
/// for each sample, by rows, not clipped. The references are the listed pictures that the header names.
pub fn predict(
    alloc: Global,
    code: u8,
    sequence: &Sequence,
    refs: &RefBuffer,
    header: &PictureHeader,
    motion: &CodedMotion,
    component: Component,
) -> Result<Predicted, NoMemory>
    requires sequence { IsSequence sequence.now }
    requires motion { IsMotion code sequence.now motion.now }
    requires names { NamesReferences code header.now }
    requires refs { content.AreReferences sequence.now refs.now header.now }
    ensures value { IfOk result (λ t. t.values ≡ content.predicted_among sequence.now motion.now
        (content.named refs.now header.now.ref1) (content.named refs.now header.now.ref2) component) }
    ensures len { IfOk result (λ t. length t.values ≡ content.width_of sequence.now component * content.height_of
        sequence.now component) }
{
    let moved = Moved {
        code,
        sequence,
        motion,
    };
    let second = named_reference(refs, header.ref2);
    match named_reference(refs, header.ref1) {
        None => unreachable!(),
        Some(first) => predict_from(alloc, &moved, first, second, component),
    }
}
