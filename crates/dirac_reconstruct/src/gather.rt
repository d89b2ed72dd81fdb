//! The parts of a picture put together.

ghost use Rattle.std.specs.Prelude.{◌≡◌, ◌-◌, ◌+◌, ◌*◌, ◌<◌, [], length, slice_index_or, take, None};
ghost use Rattle.std.specs.Prelude.{IfOk, IfSome, IsSome, OnOk};
ghost use Rattle.dirac_common.specs.declared.formats.Component.{Component as TheComponent};
ghost use Rattle.dirac_picture.specs.Texts.{AreTexts};
ghost use Rattle.dirac_content.specs.Content.{rebuilt};
ghost use Rattle.dirac_rows.specs.Answers.{AnswerRows};
ghost use Rattle.dirac_reconstruct.specs.declared.parts.Part.{Part as ThePart};
ghost use Rattle.dirac_reconstruct.specs.Finishing.{IsFinishable};
ghost use Rattle.dirac_reconstruct.specs.Parts.{bands_per_plane, ArePartsOf, EndsWithTexts, HasAllText, IsPartAt};
ghost use Rattle.dirac_reconstruct.specs.Parts.{IsFinishedPlaneOf};

use crate::parts::{Part, bands_each};
use crate::showing::{Finished, Finishing};
use dirac_common::{NoMemory, Picture, Plane};
use dirac_picture::Texts;
use std::alloc::Global;

/// What is made of a plane: the bytes of its bands, and its samples.
#[derive(Drop)]
pub struct FinishedPlane {
    pub text: Vec<u8>,
    pub shown: Plane,
}

/// Takes the last of these.
fn take_last(parts: &mut Vec<Part>) -> Part
    requires { 0 < length parts.old.items }
    ensures value { (d : ThePart) → result ≡ slice_index_or parts.old.items (length parts.old.items - 1) d }
    ensures rest { parts.new.items ≡ take (length parts.old.items - 1) parts.old.items }
{
    match parts.pop() {
        None => unreachable!(),
        Some(part) => part,
    }
}

/// Takes the bytes of a plane's bands from the end, one behind another: the first band stands last.
fn take_text(
    alloc: Global,
    from: &Finishing<'_>,
    parts: &mut Vec<Part>,
) -> Result<Vec<u8>, NoMemory>
    requires finishing { IsFinishable from.now }
    requires count { bands_per_plane from.now < length parts.old.items }
    ensures rest { OnOk result
        (parts.new.items ≡ take (length parts.old.items - bands_per_plane from.now) parts.old.items) }
    ensures text { (o : TheComponent) → EndsWithTexts from.now o parts.old.items
        → IfOk result (λ v. HasAllText from.now o v.items) }
    ensures none { from.now.coded.now.residual ≡ None → IfOk result (λ v. v.items ≡ []) }
{
    let mut text = Vec::new(alloc);
    'bands: for _n in 0..bands_each(&from.coded.residual) {
        let part = take_last(parts);
        text.extend_from_slice(part.text.as_slice())?;
    }
    Ok(text)
}

/// Takes what is made of a plane, whose parts stand last.
fn take_plane(
    alloc: Global,
    from: &Finishing<'_>,
    parts: &mut Vec<Part>,
) -> Result<FinishedPlane, NoMemory>
    requires finishing { IsFinishable from.now }
    requires count { bands_per_plane from.now < length parts.old.items }
    requires shown { (d : ThePart) → IsSome (slice_index_or parts.old.items
        (length parts.old.items - bands_per_plane from.now - 1) d).shown }
    ensures rest { OnOk result (parts.new.items
        ≡ take (length parts.old.items - bands_per_plane from.now - 1) parts.old.items) }
    ensures plane { (o : TheComponent)
        → ArePartsOf from.now o (length parts.old.items - bands_per_plane from.now - 1) parts.old.items
        → IfOk result (IsFinishedPlaneOf from.now o) }
    ensures none { from.now.coded.now.residual ≡ None → IfOk result (λ p. p.text.items ≡ []) }
{
    let text = take_text(alloc, from, parts)?;
    let part = take_last(parts);
    let Part { shown, text: _ } = part;
    match shown {
        None => unreachable!(),
        Some(shown) => Ok(FinishedPlane { text, shown }),
    }
}

/// The bytes of a picture's bands and its samples, from its parts.
pub(crate) fn gathered(
    alloc: Global,
    from: &Finishing<'_>,
    mut parts: Vec<Part>,
) -> Result<Finished, NoMemory>
    requires finishing { IsFinishable from.now }
    requires parts { AnswerRows (IsPartAt from.now) (3 * (bands_per_plane from.now + 1)) parts.items }
    ensures texts { IfOk result (λ f. IfSome from.now.coded.now.residual
        (λ r. AreTexts from.now.sequence.now r f.texts)) }
    ensures none { from.now.coded.now.residual ≡ None → IfOk result (λ f. (f.texts.y.items ≡ [])
        × (f.texts.u.items ≡ []) × (f.texts.v.items ≡ [])) }
    ensures shown { IfOk result (λ f. f.shown ≡ rebuilt from.now.sequence.now from.now.refs.now from.now.coded.now) }
{
    let v = take_plane(alloc, from, &mut parts)?;
    let u = take_plane(alloc, from, &mut parts)?;
    let y = take_plane(alloc, from, &mut parts)?;
    Ok(Finished {
        texts: Texts {
            y: y.text,
            u: u.text,
            v: v.text,
        },
        shown: Picture {
            number: from.coded.header.number,
            y: y.shown,
            u: u.shown,
            v: v.shown,
        },
    })
}
