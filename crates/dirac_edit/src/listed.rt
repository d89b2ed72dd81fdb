//! Lists of references that are asked for numbers alone: one sample stands for each picture.

ghost use Rattle.std.specs.Prelude.{◌≡◌, IfOk, OnOk};
ghost use Rattle.dirac_refs.specs.References.{as_reference, committed};
ghost use Rattle.dirac_edit.specs.Open.{dot as one_sample, numbered as numbered_as};

use dirac_common::{NoMemory, Picture, Plane, Table};
use dirac_header::PictureHeader;
use dirac_refs::{RefBuffer, reference_of};
use std::alloc::Global;

/// What a picture with this parse code and this header does to the list: the one that it retires leaves, and it is
/// listed by its number if it is a reference picture.
pub(crate) fn list_by_number(
    alloc: Global,
    refs: &mut RefBuffer,
    code: u8,
    head: &PictureHeader,
) -> Result<(), NoMemory>
    ensures { OnOk result (refs.new ≡ committed refs.old head.now.retire (as_reference code
        (numbered_as head.now.number))) }
{
    let listed = numbered(alloc, head.number)?;
    let reference = reference_of(alloc, code, &listed)?;
    refs.commit(head.retire, reference);
    Ok(())
}

/// A picture of this number, which is all that a list of references is asked for here.
fn numbered(alloc: Global, number: u32) -> Result<Picture, NoMemory>
    ensures { IfOk result (λ picture. picture ≡ numbered_as number) }
{
    Ok(Picture {
        number,
        y: dot(alloc)?,
        u: dot(alloc)?,
        v: dot(alloc)?,
    })
}

/// A plane of one sample.
fn dot(alloc: Global) -> Result<Plane, NoMemory>
    ensures { IfOk result (λ plane. plane ≡ one_sample) }
{
    Table::try_new(alloc, 1, 1, 0)
}
