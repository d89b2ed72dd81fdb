ghost use Rattle.std.specs.Prelude.{◌≡◌, [], IfOk, None, Some, if◌then◌else◌};
ghost use Rattle.dirac_edit.specs.Open.{first_open as first_open_of, first_open_among, header_in, list_behind_header};

use crate::listed::list_by_number;
use crate::sequence::{HeldPicture, HeldSequence};
use dirac_bits::BitReader;
use dirac_common::NoMemory;
use dirac_header::read_header;
use dirac_picture::are_listed;
use dirac_refs::RefBuffer;
use std::alloc::Global;

/// The index of the first unit of these sequences whose picture has a reference that isn't among those before it.
pub(crate) fn first_open(
    alloc: Global,
    sequences: &[HeldSequence<'_>],
) -> Result<Option<u64>, NoMemory>
    ensures { IfOk result (λ found. found ≡ first_open_among sequences.now) }
{
    for sequence in sequences {
        if let Some(index) = first_open_in(alloc, sequence.pictures())? {
            return Ok(Some(index));
        }
    }
    Ok(None)
}

/// The first open unit of a sequence.
fn first_open_in(alloc: Global, pictures: &[HeldPicture<'_>]) -> Result<Option<u64>, NoMemory>
    ensures { IfOk result (λ found. found ≡ first_open_of [] pictures.now) }
{
    let mut refs = RefBuffer::new();
    for picture in pictures {
        if is_open(alloc, picture, &mut refs)? {
            return Ok(Some(picture.index()));
        }
    }
    Ok(None)
}

/// Whether a picture has a reference that isn't listed; where it hasn't it is listed itself, as its header says.
fn is_open(alloc: Global, picture: &HeldPicture<'_>, refs: &mut RefBuffer) -> Result<bool, NoMemory>
    ensures { IfOk result (λ is_open. list_behind_header refs.old picture.now.code (header_in picture.now)
        ≡ (if is_open then None else Some refs.new)) }
{
    let mut r = BitReader::new(picture.payload());
    let Ok(head) = read_header(&mut r, picture.code()) else {
        return Ok(false);
    };
    if !are_listed(refs, &head) {
        return Ok(true);
    }
    list_by_number(alloc, refs, picture.code(), &head)?;
    Ok(false)
}
