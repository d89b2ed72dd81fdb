//! What a coded picture is finished with: the bytes of its bands, and the picture that decoders show for it.

ghost use Rattle.std.specs.Prelude.{◌≡◌, ◌≤◌, [], None, IfOk, IfSome};
ghost use Rattle.dirac_picture.specs.Texts.{AreTexts};
ghost use Rattle.dirac_content.specs.Content.{rebuilt};
ghost use Rattle.dirac_reconstruct.specs.Finishing.{IsFinishable};

use crate::gather::gathered;
use crate::parts::part_rows;
use crate::planes::show_plane;
use dirac_common::{Component, NoMemory, Picture};
use dirac_encode_planes::Predictions;
use dirac_picture::{CodedMotion, CodedPicture, Texts, texts_of};
use dirac_refs::RefBuffer;
use dirac_sequence_header::Sequence;
use std::alloc::Global;
use std::marker::Sync;
use std::thread::Threads;

/// The motion of an inter picture, and what is predicted by it for each plane.
#[derive(Drop)]
pub struct Compensated {
    pub motion: CodedMotion,
    pub predictions: Predictions,
}

/// The bytes of a coded picture's bands, and the picture that decoders show for it.
#[derive(Drop)]
pub struct Finished {
    pub texts: Texts,
    pub shown: Picture,
}

/// What is finished: a coded picture of a sequence, with the pictures listed before it and its predictions, if it is
/// predicted.
#[derive(Clone, Copy)]
pub struct Finishing<'a> {
    pub sequence: &'a Sequence,
    pub refs: &'a RefBuffer,
    pub coded: &'a CodedPicture,
    pub compensated: &'a Option<Compensated>,
}

/// The picture that decoders show for a coded picture.
pub fn show(alloc: Global, from: &Finishing<'_>) -> Result<Picture, NoMemory>
    requires { IsFinishable from.now }
    ensures { IfOk result (λ p. p ≡ rebuilt from.now.sequence.now from.now.refs.now from.now.coded.now) }
{
    let y = show_plane(alloc, from, Component::Y)?;
    let u = show_plane(alloc, from, Component::U)?;
    let v = show_plane(alloc, from, Component::V)?;
    let number = from.coded.header.number;
    Ok(Picture { number, y, u, v })
}

/// Writes the bands of a coded picture, and shows it.
pub fn finish(alloc: Global, from: &Finishing<'_>) -> Result<Finished, NoMemory>
    requires { IsFinishable from.now }
    ensures texts { IfOk result (λ f. IfSome from.now.coded.now.residual
        (λ r. AreTexts from.now.sequence.now r f.texts)) }
    ensures none { from.now.coded.now.residual ≡ None → IfOk result (λ f. (f.texts.y.items ≡ [])
        × (f.texts.u.items ≡ []) × (f.texts.v.items ≡ [])) }
    ensures shown { IfOk result (λ f. f.shown ≡ rebuilt from.now.sequence.now from.now.refs.now from.now.coded.now) }
{
    let texts = texts_of(alloc, from.sequence, &from.coded.residual)?;
    let shown = show(alloc, from)?;
    Ok(Finished { texts, shown })
}

/// Writes the bands of a coded picture, and shows it, each band and each plane by a worker.
pub fn finish_side_by_side<R: Threads + Sync>(
    rt: &R,
    alloc: Global,
    from: &Finishing<'_>,
    workers: u32,
) -> Result<Finished, NoMemory>
    requires workers { 2 ≤ workers }
    requires finishing { IsFinishable from.now }
    ensures texts { IfOk result (λ f. IfSome from.now.coded.now.residual
        (λ r. AreTexts from.now.sequence.now r f.texts)) }
    ensures none { from.now.coded.now.residual ≡ None → IfOk result (λ f. (f.texts.y.items ≡ [])
        × (f.texts.u.items ≡ []) × (f.texts.v.items ≡ [])) }
    ensures shown { IfOk result (λ f. f.shown ≡ rebuilt from.now.sequence.now from.now.refs.now from.now.coded.now) }
{
    let parts = part_rows(rt, alloc, from, workers.min(64))?;
    gathered(alloc, from, parts)
}
