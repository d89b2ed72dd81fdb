ghost use Rattle.dirac_decode_picture.specs.Payload.{CanBeDecoded, DecodesPayload};

use crate::asked::Asked;
use crate::by_rows::decode_by_rows;
use crate::crew::Crew;
use crate::lot::Lot;
use dirac_common::{RowGate, Stop, is_intra};
use dirac_decode_picture::{DecodedPicture, DecodingRefs, decode_picture};
use std::alloc::Global;
use std::marker::Sync;
use std::thread::Threads;

/// Decodes a picture. One that was decoded ahead is at hand; an intra picture is decoded with the other intra pictures
/// that were read ahead, each by one worker, any other one with the inter pictures behind it up to the next reference
/// picture, each by one worker or by several that share its rows. Where they are too few or too large, or it is
/// refused, it is decoded by all workers, that share its rows, and by a single worker as `decode_picture` does.
pub(crate) fn decode_at_hand<R: Threads + Sync, G: RowGate>(
    crew: &Crew<R, G>,
    lot: &Lot,
    alloc: Global,
    asked: Asked<'_>,
    refs: &mut DecodingRefs,
) -> Result<DecodedPicture, Stop>
    requires { CanBeDecoded asked.code asked.sequence.now refs.old }
    ensures { DecodesPayload asked.entry.payload.now asked.entry.code asked.entry.sequence.now refs.old result
        refs.new }
{
    if crew.workers == 1 {
        return decode_picture(alloc, asked.payload, asked.code, asked.sequence, refs);
    }
    // dropped before workers begin: what they make stands in room of its own
    let _ = refs.take_room();
    if is_intra(asked.code) {
        if let Some(decoded) = lot.take_intra(crew, alloc, asked) {
            return Ok(decoded);
        }
    } else if let Some(decoded) = lot.take_inter(crew, alloc, asked, refs) {
        return Ok(decoded);
    }
    decode_by_rows(crew, alloc, asked, refs)
}
