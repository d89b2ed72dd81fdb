ghost use Rattle.dirac_decode_picture.specs.Payload.{CanBeDecoded, DecodesPayload};

use dirac_common::Stop;
use dirac_decode_picture::{DecodedPicture, DecodingRefs, decode_picture};
use dirac_sequence_header::Sequence;
use std::alloc::Global;

/// Reads and rebuilds a picture plane after plane: how a decoder of one thread decodes it.
pub(crate) fn decode_in_turn(
    alloc: Global,
    payload: &[u8],
    code: u8,
    sequence: &Sequence,
    refs: &mut DecodingRefs,
) -> Result<DecodedPicture, Stop>
    requires { CanBeDecoded code sequence.now refs.old }
    ensures { DecodesPayload payload.now code sequence.now refs.old result refs.new }
{
    decode_picture(alloc, payload, code, sequence, refs)
}
