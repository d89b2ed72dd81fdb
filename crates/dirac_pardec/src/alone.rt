//! Intra pictures, decoded before they are asked for.

ghost use Rattle.std.specs.Prelude.{◌≡◌, [], true, IfSome};
ghost use Rattle.dirac_sequence_header.specs.Lawful.{IsSequence};
ghost use Rattle.dirac_picture.specs.Grammar.{is_intra};
ghost use Rattle.dirac_decode_picture.specs.Ahead.{IsDecodedAs, IsDecodedFrom};
ghost use Rattle.dirac_decode_picture.specs.Payload.{DecodesPayload};

use crate::asked::Asked;
use dirac_common::{NoMemory, Stop};
use dirac_decode_picture::{DecodedAhead, DecodedPicture, DecodingRefs, decode_picture};
use std::alloc::Global;

/// A picture that was decoded ahead, with no picture listed.
#[derive(Drop)]
pub(crate) struct DecodedAlone {
    ahead: DecodedAhead,
    ghost decoded_alone: { IsDecodedFrom [] ahead },
}

/// Decodes an intra picture, with no picture listed.
fn decode_unlisted(alloc: Global, asked: Asked<'_>) -> Result<DecodedPicture, Stop>
    requires intra { is_intra asked.code ≡ true }
    requires sequence { IsSequence asked.sequence.now }
    ensures { DecodesPayload asked.entry.payload.now asked.entry.code asked.entry.sequence.now [] result [] }
{
    let mut refs = DecodingRefs::new();
    decode_picture(alloc, asked.payload, asked.code, asked.sequence, &mut refs)
}

/// Decodes an intra picture by one worker; none where it is refused.
pub(crate) fn decode_alone(
    alloc: Global,
    asked: Asked<'_>,
) -> Result<Option<DecodedAlone>, NoMemory>
    requires intra { is_intra asked.code ≡ true }
    requires sequence { IsSequence asked.sequence.now }
{
    let decoded = decode_unlisted(alloc, asked);
    match DecodedAhead::try_new(alloc, asked.payload, asked.code, asked.sequence, decoded)? {
        None => Ok(None),
        Some(ahead) => Ok(Some(DecodedAlone { ahead })),
    }
}

impl DecodedAlone {
    /// What it was decoded to, if it is this picture that was decoded.
    pub(crate) fn result_for(self, asked: Asked<'_>) -> Option<DecodedPicture>
        ensures { IfSome result (IsDecodedAs asked.entry.payload.now asked.entry.code asked.entry.sequence.now []) }
    {
        self.ahead
            .result_for(asked.payload, asked.code, asked.sequence)
    }
}
