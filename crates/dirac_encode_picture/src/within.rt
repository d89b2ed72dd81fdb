//! A prepared picture, coded at an index at which its payload may be too long to be taken: then it isn't shown.

ghost use Rattle.std.specs.Prelude.{◌≡◌, ◌<◌, ◌≤◌, length, None, Ok, IfOk, IfSome};
ghost use Rattle.dirac_common.specs.Limits.{IsIndex};
ghost use Rattle.dirac_sequence.specs.Written.{sequence_of as sequence_for};
ghost use Rattle.dirac_content.specs.Content.{rebuilt};
ghost use Rattle.dirac_motion.specs.Chosen.{at_index};
ghost use Rattle.dirac_encode_laws.specs.Payloads.{payload_of};
ghost use Rattle.dirac_encode_picture.specs.Prepared.{IsPreparedFor, blocks_in, coded_at_index, coded_for};

use crate::asked::Asked;
use crate::making::coded_picture;
use crate::picture::are_bytes;
use crate::prepared::Prepared;
use crate::workers::OneWorker;
use dirac_common::NoMemory;
use dirac_encode_laws::Coded;
use dirac_picture::{CodedPicture, payload_bytes, texts_of};
use dirac_reconstruct::{Finishing, show};
use dirac_sequence::sequence_of;
use dirac_types::Settings;
use std::alloc::Global;

/// A coded picture, and its payload.
#[derive(Drop)]
struct Spelled {
    coded: CodedPicture,
    payload: Vec<u8>,
}

/// Codes a prepared picture at the quantiser index of these settings.
fn spelled_at(alloc: Global, prepared: &Prepared, asked: &Asked<'_>) -> Result<Spelled, NoMemory>
    requires { IsPreparedFor asked.now prepared.now }
    ensures coded { IfOk result (λ x. x.coded ≡ coded_for asked.now (blocks_in prepared.now)) }
    ensures payload { IfOk result (λ x. x.payload.items ≡ payload_of asked.now.settings.now
        (coded_for asked.now (blocks_in prepared.now))) }
{
    let sequence = sequence_of(asked.settings);
    let coded = coded_picture(&OneWorker, alloc, asked, prepared)?;
    let texts = texts_of(alloc, &sequence, &coded.residual)?;
    let payload = payload_bytes(
        alloc,
        &sequence,
        asked.settings.blocks,
        asked.settings.precision,
        &coded,
        &texts,
    )?;
    are_bytes(payload.as_slice());
    Ok(Spelled { coded, payload })
}

/// Codes a prepared picture at the quantiser index of these settings, where its payload has at most that many bytes.
fn coded_within(
    alloc: Global,
    prepared: &Prepared,
    asked: &Asked<'_>,
    most: u64,
) -> Result<Option<Coded>, NoMemory>
    requires { IsPreparedFor asked.now prepared.now }
    ensures payload { IfOk result (λ r. IfSome r (λ c. c.payload.items ≡ payload_of asked.now.settings.now
        (coded_for asked.now (blocks_in prepared.now)))) }
    ensures shown { IfOk result (λ r. IfSome r (λ c. c.shown ≡ rebuilt (sequence_for asked.now.settings.now)
        asked.now.refs.now (coded_for asked.now (blocks_in prepared.now)))) }
    ensures fits { IfOk result (λ r. IfSome r (λ c. length c.payload.items ≤ most)) }
    ensures longer_where_none { result ≡ Ok None → most < length (payload_of asked.now.settings.now
        (coded_for asked.now (blocks_in prepared.now))) }
{
    let spelled = spelled_at(alloc, prepared, asked)?;
    if spelled.payload.len() as u64 > most {
        return Ok(None);
    }
    let sequence = sequence_of(asked.settings);
    let from = Finishing {
        sequence: &sequence,
        refs: asked.refs,
        coded: &spelled.coded,
        compensated: &prepared.compensated,
    };
    let shown = show(alloc, &from)?;
    Ok(Some(Coded {
        payload: spelled.payload,
        shown,
    }))
}

/// Codes a prepared picture at a quantiser index, as `code_prepared`, where its payload has at most that many bytes;
/// none where it is longer, and then no picture is made that decoders would show.
pub fn code_within(
    alloc: Global,
    prepared: &Prepared,
    asked: &Asked<'_>,
    index: u8,
    most: u64,
) -> Result<Option<Coded>, NoMemory>
    requires prepared { IsPreparedFor asked.now prepared.now }
    requires index { IsIndex index }
    ensures payload { IfOk result (λ r. IfSome r (λ c. c.payload.items
        ≡ payload_of (at_index asked.now.settings.now index) (coded_at_index asked.now index prepared.now))) }
    // What is shown is what a decoder rebuilds from it.
    ensures shown { IfOk result (λ r. IfSome r (λ c. c.shown
        ≡ rebuilt (sequence_for (at_index asked.now.settings.now index)) asked.now.refs.now
        (coded_at_index asked.now index prepared.now))) }
    ensures fits { IfOk result (λ r. IfSome r (λ c. length c.payload.items ≤ most)) }
    ensures longer_where_none { result ≡ Ok None → most < length (payload_of (at_index asked.now.settings.now index)
        (coded_at_index asked.now index prepared.now)) }
{
    let settings = Settings {
        index: u32::from(index),
        ..*asked.settings
    };
    let asked = Asked {
        settings: &settings,
        ..*asked
    };
    coded_within(alloc, prepared, &asked, most)
}
