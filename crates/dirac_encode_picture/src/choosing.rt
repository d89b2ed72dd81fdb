//! A picture, its block table chosen and then coded.

ghost use Rattle.std.specs.Prelude.{◌≡◌, false, true, Ok, Some, IfOk};
ghost use Rattle.std.specs.List.{AllByRecursion};
ghost use Rattle.dirac_types.specs.Settings.{IsAccepted};
ghost use Rattle.dirac_sequence.specs.Written.{sequence_of};
ghost use Rattle.dirac_picture.specs.Grammar.{are_listed, is_intra as is_intra_code, picture_read};
ghost use Rattle.dirac_encode_laws.specs.Payloads.{payload_of};
ghost use Rattle.dirac_content.specs.Content.{rebuilt};
ghost use Rattle.dirac_plan_laws.specs.Headers.{IsPlanned, header_of};
ghost use Rattle.dirac_encode_laws.specs.Coded.{IsSource, coded_of, motion_of, residual_of};
ghost use Rattle.dirac_encode_laws.specs.Codable.{ResidualIsSmall};
ghost use Rattle.dirac_motion.specs.Chosen.{IsChosenAtEachIndex, chosen, chosen_unless_intra};
ghost use Rattle.dirac_encode_picture.specs.Asked.{CanBeCoded};
ghost use Rattle.dirac_encode_picture.specs.Prepared.{IsPreparedFor, blocks_in};

use crate::asked::Asked;
use crate::picture::code_at;
use crate::prepared::{Moving, Prepared, prepare_by};
use crate::workers::SeveralWorkers;
use dirac_common::{NoMemory, Picture, RowGate};
use dirac_content::named_reference;
use dirac_encode_laws::Coded;
use dirac_motion::{Lumas, choose_from};
use dirac_picture::is_intra;
use dirac_plan::Planned;
use dirac_refs::RefBuffer;
use dirac_types::Settings;
use std::alloc::Global;
use std::thread::Threads;

/// Prepares an inter picture. Its references are looked up, and their luma is upconverted once where it isn't kept: the
/// search, the choice of modes and the prediction are lent it.
fn prepare_searched<R: Threads + Sync, G: RowGate>(
    rt: &R,
    alloc: Global,
    asked: &Asked<'_>,
    gate: &G,
) -> Result<Prepared, NoMemory>
    requires asked { CanBeCoded asked.now }
    requires inter { is_intra_code asked.now.planned.now.code ≡ false }
    ensures prepared { IfOk result (IsPreparedFor asked.now) }
    ensures blocks { IfOk result (λ x. blocks_in x
        ≡ Some (chosen asked.now.settings.now asked.now.refs.now asked.now.planned.now asked.now.source.now)) }
{
    let settings = asked.settings;
    let second = named_reference(asked.refs, asked.planned.ref2);
    match named_reference(asked.refs, asked.planned.ref1) {
        None => unreachable!(),
        Some(first) => {
            let lumas = Lumas::by_workers(rt, alloc, first, second, settings)?;
            let references = lumas.lend(first, second);
            let blocks = choose_from(rt, alloc, asked.source, &references, settings, gate)?;
            let moving = Moving {
                references: &references,
                blocks: &blocks,
            };
            let workers = SeveralWorkers {
                rt,
                count: settings.workers,
            };
            let moving = Some(moving);
            prepare_by(&workers, alloc, asked, moving)
        }
    }
}

/// Prepares a picture as it is planned: `code_prepared` then codes it at any quantiser index. An inter picture's blocks
/// are chosen first, and the gate is called before each row of each stage of the search for them.
pub fn prepare_picture<R: Threads + Sync, G: RowGate>(
    rt: &R,
    alloc: Global,
    asked: &Asked<'_>,
    gate: &G,
) -> Result<Prepared, NoMemory>
    requires { CanBeCoded asked.now }
    ensures prepared { IfOk result (IsPreparedFor asked.now) }
    ensures blocks { IfOk result (λ x. blocks_in x
        ≡ chosen_unless_intra asked.now.settings.now asked.now.refs.now asked.now.planned.now asked.now.source.now) }
    // They are the same at each index.
    ensures without_index { IfOk result (λ x. IsChosenAtEachIndex asked.now.settings.now asked.now.refs.now
        asked.now.planned.now asked.now.source.now (blocks_in x)) }
{
    if is_intra(asked.planned.code) {
        let workers = SeveralWorkers {
            rt,
            count: asked.settings.workers,
        };
        let prepared = prepare_by(&workers, alloc, asked, None)?;
        return Ok(prepared);
    }
    let prepared = prepare_searched(rt, alloc, asked, gate)?;
    Ok(prepared)
}

/// Codes a picture as it is planned: its payload, and the picture that decoders show for it. An inter picture's blocks
/// are chosen first, and the gate is called before each row of each stage of the search for them.
pub fn code_picture<R: Threads + Sync, G: RowGate>(
    rt: &R,
    alloc: Global,
    planned: &Planned,
    source: &Picture,
    refs: &RefBuffer,
    settings: &Settings,
    gate: &G,
) -> Result<Coded, NoMemory>
    requires accepted { IsAccepted settings.now }
    requires listed { AllByRecursion (IsSource settings.now) refs.now }
    requires source { IsSource settings.now source.now }
    requires planned { IsPlanned planned.now }
    requires found { are_listed refs.now (header_of planned.now) ≡ true }
    ensures payload { IfOk result (λ c. c.payload.items
        ≡ payload_of settings.now (coded_of settings.now refs.now planned.now source.now)) }
    // What is shown is what a decoder rebuilds from it.
    ensures shown { IfOk result (λ c. c.shown
        ≡ rebuilt (sequence_of settings.now) refs.now (coded_of settings.now refs.now planned.now source.now)) }
    // The payload is read as that coded picture, with these pictures listed.
    ensures read { IfOk result (λ c. picture_read planned.now.code (sequence_of settings.now) refs.now c.payload.items
        ≡ Ok (coded_of settings.now refs.now planned.now source.now)) }
    // Its coefficients stay below 2^38.
    ensures magnitudes_bounded { IfOk result
        (λ c. ResidualIsSmall (residual_of settings.now refs.now (header_of planned.now)
        (motion_of settings.now refs.now planned.now source.now) source.now)) }
    // At index 0 nothing is lost.
    ensures lossless { IfOk result (λ c. source.now.number ≡ planned.now.number → settings.now.index ≡ 0
        → c.shown ≡ source.now) }
{
    let asked = Asked {
        planned,
        source,
        refs,
        settings,
    };
    let prepared = prepare_picture(rt, alloc, &asked, gate)?;
    let workers = SeveralWorkers {
        rt,
        count: settings.workers,
    };
    code_at(&workers, alloc, &prepared, &asked)
}
