//! A picture, coded with the least quantiser index by which its unit fits a budget.

ghost use Rattle.std.specs.Prelude.{◌≡◌, ◌<◌, ◌≤◌, true, None, Ok, IfOk, IfSome};
ghost use Rattle.std.specs.List.{AllByRecursion};
ghost use Rattle.dirac_common.specs.Limits.{IsIndex};
ghost use Rattle.dirac_types.specs.Settings.{IsAccepted};
ghost use Rattle.dirac_picture.specs.Grammar.{are_listed};
ghost use Rattle.dirac_motion.specs.Chosen.{at_index};
ghost use Rattle.dirac_encode_picture.specs.Prepared.{IsPreparedFor};
ghost use Rattle.dirac_plan_laws.specs.Headers.{IsPlanned, header_of};
ghost use Rattle.dirac_encode_laws.specs.Coded.{IsSource};
ghost use Rattle.dirac_encode_laws.specs.Coding.{made, made_under};
ghost use Rattle.dirac_encode_laws.specs.Fit.{IsLeast, fit, length_at};
ghost use Rattle.dirac_encode.specs.Asked.{HasChosenBlocks, asked_job};

use dirac_common::{LARGEST_INDEX, NoMemory, Picture, RowGate};
use dirac_encode_laws::Coded;
use dirac_encode_picture::{Asked, Prepared, code_prepared, code_within, prepare_picture};
use dirac_plan::Planned;
use dirac_refs::RefBuffer;
use dirac_types::Settings;
use dirac_units::PARSE_INFO_LENGTH;
use std::alloc::Global;
use std::thread::Threads;

/// Codes a prepared picture with this quantiser index.
fn code_at(
    alloc: Global,
    prepared: &Prepared,
    asked: &Asked<'_>,
    index: u8,
) -> Result<Coded, NoMemory>
    requires prepared { IsPreparedFor asked.now prepared.now }
    requires blocks { HasChosenBlocks asked.now prepared.now }
    requires index { IsIndex index }
    ensures payload { IfOk result (λ c. c.payload.items
        ≡ (made (at_index asked.now.settings.now index) asked.now.refs.now (asked_job asked.now)).payload) }
    ensures shown { IfOk result (λ c. c.shown
        ≡ (made (at_index asked.now.settings.now index) asked.now.refs.now (asked_job asked.now)).shown) }
{
    code_prepared(alloc, prepared, asked, index)
}

/// Codes a prepared picture with this quantiser index where its unit has at most `budget` bytes; none where it is
/// longer, and then what decoders would show isn't made.
fn code_in_budget(
    alloc: Global,
    prepared: &Prepared,
    asked: &Asked<'_>,
    index: u8,
    budget: u32,
) -> Result<Option<Coded>, NoMemory>
    requires prepared { IsPreparedFor asked.now prepared.now }
    requires blocks { HasChosenBlocks asked.now prepared.now }
    requires index { IsIndex index }
    ensures payload { IfOk result (λ r. IfSome r (λ c. c.payload.items
        ≡ (made (at_index asked.now.settings.now index) asked.now.refs.now (asked_job asked.now)).payload)) }
    ensures shown { IfOk result (λ r. IfSome r (λ c. c.shown
        ≡ (made (at_index asked.now.settings.now index) asked.now.refs.now (asked_job asked.now)).shown)) }
    ensures fits { IfOk result (λ r. IfSome r (λ _.
        length_at asked.now.settings.now asked.now.refs.now (asked_job asked.now) index ≤ budget)) }
    ensures longer_where_none { result ≡ Ok None →
        budget < length_at asked.now.settings.now asked.now.refs.now (asked_job asked.now) index }
{
    let parse_info = PARSE_INFO_LENGTH as u32;
    if budget < parse_info {
        return Ok(None);
    }
    code_within(
        alloc,
        prepared,
        asked,
        index,
        u64::from(budget - parse_info),
    )
}

/// Codes a prepared picture with the least index, from the settings' on, by which its unit fits the budget, or with the
/// last. Lengths need not fall as the index grows, so each index is tried in turn.
fn fit_by(
    alloc: Global,
    prepared: &Prepared,
    asked: &Asked<'_>,
    budget: u32,
) -> Result<(Coded, u8), NoMemory>
    requires accepted { IsAccepted asked.now.settings.now }
    requires prepared { IsPreparedFor asked.now prepared.now }
    requires blocks { HasChosenBlocks asked.now prepared.now }
    ensures least { IfOk result (λ r. IsLeast
        (length_at asked.now.settings.now asked.now.refs.now (asked_job asked.now))
        budget asked.now.settings.now.index r.1) }
    ensures payload { IfOk result (λ r. r.0.payload.items
        ≡ (made (at_index asked.now.settings.now r.1) asked.now.refs.now (asked_job asked.now)).payload) }
    ensures shown { IfOk result (λ r. r.0.shown
        ≡ (made (at_index asked.now.settings.now r.1) asked.now.refs.now (asked_job asked.now)).shown) }
{
    'indices: for index in asked.settings.index as u8..LARGEST_INDEX as u8 {
        if let Some(coded) = code_in_budget(alloc, prepared, asked, index, budget)? {
            return Ok((coded, index));
        }
    }
    let last = LARGEST_INDEX as u8;
    let coded = code_at(alloc, prepared, asked, last)?;
    Ok((coded, last))
}

/// Codes a picture as it is planned, with the least quantiser index, from the settings' on, by which its unit, 13 bytes
/// of parse info and its payload, has at most `budget` bytes, and with the last where there is none: its payload, the
/// picture that decoders show for it, and the index. Blocks, prediction and analysis are made once for all indices;
/// what decoders show is made at the index that is taken.
pub fn fit_picture<R: Threads + Sync, G: RowGate>(
    rt: &R,
    alloc: Global,
    planned: &Planned,
    source: &Picture,
    refs: &RefBuffer,
    settings: &Settings,
    budget: u32,
    gate: &G,
) -> Result<(Coded, u8), NoMemory>
    requires accepted { IsAccepted settings.now }
    requires listed { AllByRecursion (IsSource settings.now) refs.now }
    requires source { IsSource settings.now source.now }
    requires planned { IsPlanned planned.now }
    requires found { are_listed refs.now (header_of planned.now) ≡ true }
    ensures index { IfOk result (λ r. r.1
        ≡ fit budget settings.now refs.now (record { planned = planned.now; source = source.now })) }
    // At that index the unit fits or it is the last, and at each before it the unit is too long.
    ensures least { IfOk result (λ r. IsLeast
        (length_at settings.now refs.now (record { planned = planned.now; source = source.now }))
        budget settings.now.index r.1) }
    // Payload and reconstruction are those at that index.
    ensures payload { IfOk result (λ r. r.0.payload.items
        ≡ (made_under (fit budget) settings.now refs.now
        (record { planned = planned.now; source = source.now })).payload) }
    ensures shown { IfOk result (λ r. r.0.shown
        ≡ (made_under (fit budget) settings.now refs.now
        (record { planned = planned.now; source = source.now })).shown) }
{
    let asked = Asked {
        planned,
        source,
        refs,
        settings,
    };
    let prepared = prepare_picture(rt, alloc, &asked, gate)?;
    let fitted = fit_by(alloc, &prepared, &asked, budget)?;
    Ok(fitted)
}
