//! A picture, coded.

ghost use Rattle.std.specs.Prelude.{◌≡◌, ◌<◌, ◌^◌, true, Ok, IfOk};
ghost use Rattle.std.specs.List.{AllByRecursion};
ghost use Rattle.std.specs.Option.{option_copied};
ghost use Rattle.dirac_common.specs.Limits.{IsIndex};
ghost use Rattle.dirac_types.specs.Settings.{IsAccepted};
ghost use Rattle.dirac_sequence.specs.Written.{sequence_of as sequence_for};
ghost use Rattle.dirac_picture.specs.Grammar.{are_listed, picture_read};
ghost use Rattle.dirac_encode_laws.specs.Payloads.{payload_of};
ghost use Rattle.dirac_content.specs.Content.{rebuilt};
ghost use Rattle.dirac_plan_laws.specs.Headers.{IsPlanned, header_of};
ghost use Rattle.dirac_encode_laws.specs.Coded.{IsSource, motion_among, residual_of};
ghost use Rattle.dirac_encode_laws.specs.Codable.{ResidualIsSmall};
ghost use Rattle.dirac_motion.specs.Chosen.{at_index};
ghost use Rattle.dirac_encode_picture.specs.Asked.{HasBlocks, IsCodingOfPicture, coded_by};
ghost use Rattle.dirac_encode_picture.specs.Prepared.{IsPreparedFor, blocks_in, coded_at_index};

use crate::asked::Asked;
use crate::making::coded_picture;
use crate::prepared::{Prepared, prepare};
use crate::workers::{OneWorker, Workers};
use dirac_block_table::BlockData;
use dirac_common::{NoMemory, Picture};
use dirac_encode_laws::Coded;
use dirac_picture::payload_bytes;
use dirac_plan::Planned;
use dirac_reconstruct::{Finished, Finishing};
use dirac_refs::RefBuffer;
use dirac_sequence::sequence_of;
use dirac_types::Settings;
use std::alloc::Global;

/// Bytes are below 256.
pub(crate) fn are_bytes(bytes: &[u8])
    ensures { AllByRecursion (λ b. b < 2 ^ 8) bytes.now }
{}

/// Codes a prepared picture at the quantiser index of these settings.
pub(crate) fn code_at<W: Workers>(
    workers: &W,
    alloc: Global,
    prepared: &Prepared,
    asked: &Asked<'_>,
) -> Result<Coded, NoMemory>
    requires shared { W.are_shared workers.now }
    requires prepared { IsPreparedFor asked.now prepared.now }
    ensures { IfOk result (IsCodingOfPicture asked.now.settings.now asked.now.refs.now asked.now.planned.now
        asked.now.source.now (motion_among asked.now.settings.now (blocks_in prepared.now))) }
{
    let sequence = sequence_of(asked.settings);
    let coded = coded_picture(workers, alloc, asked, prepared)?;
    let from = Finishing {
        sequence: &sequence,
        refs: asked.refs,
        coded: &coded,
        compensated: &prepared.compensated,
    };
    let finished = workers.finish(alloc, &from)?;
    let Finished { texts, shown } = finished;
    let payload = payload_bytes(
        alloc,
        &sequence,
        asked.settings.blocks,
        asked.settings.precision,
        &coded,
        &texts,
    )?;
    are_bytes(payload.as_slice());
    Ok(Coded { payload, shown })
}

/// Codes a prepared picture at a quantiser index: its payload, and the picture that decoders show for it. The payload
/// is the one spelling of its coded picture with that index. Nothing that was prepared is done again.
pub fn code_prepared(
    alloc: Global,
    prepared: &Prepared,
    asked: &Asked<'_>,
    index: u8,
) -> Result<Coded, NoMemory>
    requires prepared { IsPreparedFor asked.now prepared.now }
    requires index { IsIndex index }
    ensures payload { IfOk result (λ c. c.payload.items
        ≡ payload_of (at_index asked.now.settings.now index) (coded_at_index asked.now index prepared.now)) }
    // What is shown is what a decoder rebuilds from it.
    ensures shown { IfOk result (λ c. c.shown ≡ rebuilt (sequence_for (at_index asked.now.settings.now index))
        asked.now.refs.now (coded_at_index asked.now index prepared.now)) }
    // The payload is read as that coded picture, with these pictures listed.
    ensures read { IfOk result (λ c. picture_read asked.now.planned.now.code
        (sequence_for (at_index asked.now.settings.now index)) asked.now.refs.now c.payload.items
        ≡ Ok (coded_at_index asked.now index prepared.now)) }
    // Its coefficients stay below 2^38.
    ensures magnitudes_bounded { IfOk result (λ c. ResidualIsSmall (residual_of (at_index asked.now.settings.now index)
        asked.now.refs.now (header_of asked.now.planned.now)
        (motion_among (at_index asked.now.settings.now index) (blocks_in prepared.now)) asked.now.source.now)) }
    // At index 0 nothing is lost.
    ensures lossless { IfOk result (λ c. asked.now.source.now.number ≡ asked.now.planned.now.number → index ≡ 0
        → c.shown ≡ asked.now.source.now) }
{
    let settings = Settings {
        index: u32::from(index),
        ..*asked.settings
    };
    let asked = Asked {
        settings: &settings,
        ..*asked
    };
    code_at(&OneWorker, alloc, prepared, &asked)
}

/// Codes a picture as it is planned, an inter picture predicted by this block table: its payload, and the picture that
/// decoders show for it. The payload is the one spelling of its coded picture.
pub fn code_with_blocks(
    alloc: Global,
    planned: &Planned,
    source: &Picture,
    refs: &RefBuffer,
    settings: &Settings,
    blocks: Option<&BlockData>,
) -> Result<Coded, NoMemory>
    requires accepted { IsAccepted settings.now }
    requires listed { AllByRecursion (IsSource settings.now) refs.now }
    requires source { IsSource settings.now source.now }
    requires planned { IsPlanned planned.now }
    requires found { are_listed refs.now (header_of planned.now) ≡ true }
    requires blocks { HasBlocks settings.now planned.now.code (option_copied blocks) }
    ensures payload { IfOk result (λ c. c.payload.items
        ≡ payload_of settings.now
        (coded_by settings.now refs.now planned.now source.now (option_copied blocks.entry))) }
    // What is shown is what a decoder rebuilds from it.
    ensures shown { IfOk result (λ c. c.shown
        ≡ rebuilt (sequence_for settings.now) refs.now
        (coded_by settings.now refs.now planned.now source.now (option_copied blocks.entry))) }
    // The payload is read as that coded picture, with these pictures listed.
    ensures read { IfOk result (λ c.
        picture_read planned.now.code (sequence_for settings.now) refs.now c.payload.items
        ≡ Ok (coded_by settings.now refs.now planned.now source.now (option_copied blocks.entry))) }
    // Its coefficients stay below 2^38.
    ensures magnitudes_bounded { IfOk result
        (λ c. ResidualIsSmall (residual_of settings.now refs.now (header_of planned.now)
        (motion_among settings.now (option_copied blocks.entry)) source.now)) }
    // At index 0 nothing is lost.
    ensures lossless { IfOk result (λ c. source.now.number ≡ planned.now.number → settings.now.index ≡ 0
        → c.shown ≡ source.now) }
{
    let asked = Asked {
        planned,
        source,
        refs,
        settings,
    };
    let prepared = prepare(alloc, &asked, blocks)?;
    code_at(&OneWorker, alloc, &prepared, &asked)
}
