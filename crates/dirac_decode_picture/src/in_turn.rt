ghost use Rattle.std.specs.Prelude.{IfOk};
ghost use Rattle.dirac_sequence_header.specs.Lawful.{IsSequence};
ghost use Rattle.dirac_picture.specs.Fits.{FitsSequence};
ghost use Rattle.dirac_content.specs.Content.{AreReferences, IsPicture};
ghost use Rattle.dirac_decode_picture.specs.Payload.{CanBeDecoded, DecodesPayload, StandsFor};

use crate::decoded_picture::DecodedPicture;
use crate::decoding_refs::DecodingRefs;
use dirac_common::{NoMemory, Picture, Stop};
use dirac_picture::{CodedPicture, read_picture};
use dirac_rebuild::rebuild_in;
use dirac_refs::{RefBuffer, reference_of};
use dirac_sequence_header::Sequence;
use std::alloc::Global;

/// Reads a picture from the payload of its unit, plane after plane, and rebuilds it likewise, on one thread. The half
/// samples of the pictures that it refers to are kept. Where a picture is kept that is needed no more, it is written
/// over.
pub fn decode_picture(
    alloc: Global,
    payload: &[u8],
    code: u8,
    sequence: &Sequence,
    refs: &mut DecodingRefs,
) -> Result<DecodedPicture, Stop>
    requires { CanBeDecoded code sequence.now refs.old }
    ensures { DecodesPayload payload.now code sequence.now refs.old result refs.new }
{
    let coded = read_picture(alloc, payload, code, sequence, refs.list())?;
    refs.keep_halves(alloc, &coded.header, coded.vector_precision());
    let room = refs.take_room();
    let decoded = rebuild_picture(alloc, &coded, sequence, refs.list(), room)?;
    Ok(decoded)
}

/// Rebuilds a picture that was read, on one thread, in the planes of the one that is given where they have its size.
/// Half samples that aren't kept are made for it alone.
pub fn rebuild_picture(
    alloc: Global,
    coded: &CodedPicture,
    sequence: &Sequence,
    refs: &RefBuffer,
    room: Option<Picture>,
) -> Result<DecodedPicture, NoMemory>
    requires sequence { IsSequence sequence.now }
    requires fits { FitsSequence coded.now.code sequence.now coded.now }
    requires refs { AreReferences sequence.now refs.now coded.now.header }
    ensures stands { IfOk result (StandsFor coded.now sequence.now refs.now) }
    ensures fits { IfOk result (λ d. IsPicture sequence.now d.picture) }
{
    let picture = rebuild_in(alloc, coded, sequence, refs, room)?;
    let reference = reference_of(alloc, coded.code, &picture)?;
    Ok(DecodedPicture {
        code: coded.code,
        header: coded.header,
        picture,
        reference,
    })
}
