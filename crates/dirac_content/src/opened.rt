//! The open sequence, and what a sequence header does where one is open and where none is.
ghost use Rattle.std.specs.Prelude.{◌≡◌, ◌+◌, ◌<◌, ◌≤◌, ◌^◌, length, IfErr, IfOk, IfSome, None};
ghost use Rattle.dirac_sequence_header.specs.Lawful.{IsSequence};
ghost use Rattle.dirac_content.specs.StreamState.{StreamState, header_step, in_unit, is_same, opened_in};

use dirac_common::{Cause, Refusal};
use dirac_sequence_header::{Sequence, read_sequence};
use dirac_units::{PARSE_INFO_LENGTH, Payload};

/// The open sequence: the payload of its header, and what that says.
#[derive(Debug, Drop)]
pub struct Opened {
    pub header: Payload,
    pub sequence: Sequence,
}

/// Whether two sequence headers have equal payloads.
pub fn have_same_payload(header: &[u8], former: &[u8]) -> bool
    ensures { result ≡ is_same header.now former.now }
{
    header.len() == former.len() && header.starts_with(former)
}

/// A refusal in a payload, its place counted from the unit's first byte.
pub fn behind_parse_info(refusal: Refusal) -> Refusal
    requires { refusal.at < 2 ^ 63 }
    ensures { result ≡ in_unit refusal }
{
    Refusal {
        at: PARSE_INFO_LENGTH as u64 + refusal.at,
        cause: refusal.cause,
    }
}

/// What a sequence header opens, by its payload: where no sequence is open its own, and nothing where it repeats the
/// open one's. One that changes it is refused at the unit's first byte, and so is one that can't be read, at a place
/// counted from there.
pub fn opened_by(opened: &Option<Opened>, payload: Payload) -> Result<Option<Opened>, Refusal>
    requires below_2_63 { length payload < 2 ^ 63 }
    ensures value { (state : StreamState) → header_step state opened.now payload ≡ opened_in state result }
    ensures where_none_was_open { IfOk result (λ o. IfSome o (λ s. opened.now ≡ None)) }
    ensures lawful { IfOk result (λ o. IfSome o (λ s. IsSequence s.sequence)) }
    ensures place_inside { IfErr result (λ r. r.at ≤ 13 + length payload) }
{
    if let Some(opened) = opened {
        if have_same_payload(payload.bytes(), opened.header.bytes()) {
            return Ok(None);
        }
        return Err(Refusal {
            at: 0,
            cause: Cause::SequenceChanged,
        });
    }
    match read_sequence(payload.bytes()) {
        Err(refusal) => Err(behind_parse_info(refusal)),
        Ok(sequence) => Ok(Some(Opened {
            header: payload,
            sequence,
        })),
    }
}
