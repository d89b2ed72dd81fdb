//! Pictures that were decoded before they are asked for.
ghost use Rattle.std.specs.Prelude.{◌≡◌, List, true, IfOk, IfSome};
ghost use Rattle.dirac_common.specs.declared.picture.Picture.{Picture};
ghost use Rattle.dirac_decode_picture.specs.Ahead.{IsDecodedAs, IsDecodedFrom};
ghost use Rattle.dirac_decode_picture.specs.Payload.{DecodesPayload};

use crate::decoded_picture::DecodedPicture;
use dirac_common::{NoMemory, Stop};
use dirac_sequence_header::Sequence;
use std::alloc::Global;

/// A picture that was decoded before it is asked for, and what it was decoded from.
#[derive(Drop)]
pub struct DecodedAhead {
    payload: Vec<u8>,
    code: u8,
    sequence: Sequence,
    decoded: DecodedPicture,
}

/// Whether these are the same bytes.
fn are_same(ours: &[u8], theirs: &[u8]) -> bool
    ensures { result ≡ true → ours.now ≡ theirs.now }
{
    ours == theirs
}

/// Whether these are the same sequence.
fn are_alike(ours: &Sequence, theirs: &Sequence) -> bool
    ensures { result ≡ true → ours.now ≡ theirs.now }
{
    *ours == *theirs
}

impl DecodedAhead {
    /// What the payload of a picture was decoded to; none where it was refused. An error is want of memory, of the
    /// decoding or for a copy of the payload.
    pub fn try_new(
        alloc: Global,
        payload: &[u8],
        code: u8,
        sequence: &Sequence,
        decoded: Result<DecodedPicture, Stop>,
    ) -> Result<Option<DecodedAhead>, NoMemory>
        ensures { IfOk result (λ a. IfSome a (λ ahead. (refs : List Picture)
            → DecodesPayload payload.now code sequence.now refs decoded refs → IsDecodedFrom refs ahead)) }
    {
        match decoded {
            Err(Stop::NoMemory) => Err(NoMemory),
            Err(Stop::Refused(_)) => Ok(None),
            Ok(decoded) => {
                let payload = Vec::from_slice(alloc, payload)?;
                Ok(Some(DecodedAhead {
                    payload,
                    code,
                    sequence: *sequence,
                    decoded,
                }))
            }
        }
    }

    /// What it was decoded to, if it is this picture that was decoded.
    pub fn result_for(self, payload: &[u8], code: u8, sequence: &Sequence) -> Option<DecodedPicture>
        ensures { IfSome result (λ d. (refs : List Picture) → IsDecodedFrom refs self
            → IsDecodedAs payload.now code sequence.now refs d) }
    {
        if self.code == code
            && are_alike(&self.sequence, sequence)
            && are_same(self.payload.as_slice(), payload)
        {
            return Some(self.decoded);
        }
        None
    }
}
