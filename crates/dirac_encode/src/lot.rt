//! Pictures that wait, coded several at once, each by one worker.

ghost use Rattle.std.specs.Prelude.{◌≤◌, length, IfSome};
ghost use Rattle.dirac_types.specs.Settings.{IsAccepted};
ghost use Rattle.dirac_encode_laws.specs.Coded.{IsSource};
ghost use Rattle.dirac_encode_progress.specs.PictureCoding.{AreReadyBehind};
ghost use Rattle.dirac_encode.specs.Ahead.{IsCodedAlone};

use crate::ahead::{CodedAhead, code_ahead};
use dirac_common::{NoMemory, OpenGate, Picture};
use dirac_encode_laws::Coded;
use dirac_plan::{Planned, Planner};
use dirac_rows::map_rows;
use dirac_sources::raw_length;
use dirac_types::Settings;
use std::alloc::Global;
use std::cell::Cell;
use std::thread::Threads;

/// The most samples of a picture of a lot: all pictures of a lot are held at once.
const MOST_SAMPLES_OF_A_LOT: usize = 8_388_608;

/// What was coded ahead and isn't asked for yet, the next one last.
pub(crate) type Kept = Cell<Option<Vec<CodedAhead>>>;

/// How many pictures are coded together: where each is a group by itself, as many as there are workers.
pub(crate) fn lot_of(settings: &Settings) -> usize
    requires { IsAccepted settings.now }
{
    if settings.gop > 1 || settings.fields != 0 || raw_length(settings) > MOST_SAMPLES_OF_A_LOT {
        return 1;
    }
    settings.workers as usize
}

/// Codes a picture of a lot: the one that is asked for as number 0, and those that wait behind it as the next ones.
fn code_in_lot(
    alloc: Global,
    settings: &Settings,
    source: &Picture,
    behind: &Planner,
    number: u32,
) -> Result<CodedAhead, NoMemory>
    requires accepted { IsAccepted settings.now }
    requires source { IsSource settings.now source.now }
    requires behind { AreReadyBehind settings.now behind.now }
    requires number { number ≤ length behind.now.waiting }
{
    if number == 0 {
        return code_ahead(alloc, settings, source);
    }
    match behind.waiting_at(number as usize - 1) {
        None => unreachable!(),
        Some(picture) => code_ahead(alloc, settings, picture),
    }
}

/// Codes a picture and those that wait behind it, side by side. What is asked for first comes last.
fn code_lot<R: Threads + Sync>(
    rt: &R,
    alloc: Global,
    settings: &Settings,
    source: &Picture,
    behind: &Planner,
) -> Result<Vec<CodedAhead>, NoMemory>
    requires accepted { IsAccepted settings.now }
    requires source { IsSource settings.now source.now }
    requires behind { AreReadyBehind settings.now behind.now }
{
    let last = behind.waiting().min(63) as u32;
    let work = |row: u32| -> Result<CodedAhead, NoMemory>
        requires { IsAccepted settings.now × IsSource settings.now source.now × AreReadyBehind settings.now behind.now
            × (row ≤ last) × (last ≤ length behind.now.waiting) }
    { code_in_lot(alloc, settings, source, behind, last - row) };
    map_rows(
        rt,
        alloc,
        last + 1,
        settings.workers.max(1).min(64),
        &OpenGate,
        &work,
    )
}

/// What is kept; where nothing is, a picture and those that wait behind it are coded. None where none waits, since one
/// picture is coded sooner by all workers, and where there is no memory for that many.
fn lot_at_hand<R: Threads + Sync>(
    rt: &R,
    alloc: Global,
    settings: &Settings,
    kept: &Kept,
    source: &Picture,
    behind: &Planner,
) -> Option<Vec<CodedAhead>>
    requires accepted { IsAccepted settings.now }
    requires source { IsSource settings.now source.now }
    requires behind { AreReadyBehind settings.now behind.now }
{
    if let Some(lot) = kept.replace(None) {
        if !lot.is_empty() {
            return Some(lot);
        }
    }
    if behind.waiting() == 0 {
        return None;
    }
    match code_lot(rt, alloc, settings, source, behind) {
        Ok(lot) => Some(lot),
        Err(_) => None,
    }
}

/// What a picture becomes, coded together with those that wait behind it: it and they are coded now, or it was coded
/// with those before it. None where it is to be coded alone, or isn't the picture that was expected.
pub(crate) fn coded_in_lot<R: Threads + Sync>(
    rt: &R,
    alloc: Global,
    settings: &Settings,
    kept: &Kept,
    planned: &Planned,
    source: &Picture,
    behind: &Planner,
) -> Option<Coded>
    requires accepted { IsAccepted settings.now }
    requires source { IsSource settings.now source.now }
    requires behind { AreReadyBehind settings.now behind.now }
    ensures { IfSome result (IsCodedAlone settings.now planned.now source.now) }
{
    let mut lot = lot_at_hand(rt, alloc, settings, kept, source, behind)?;
    let ahead = lot.pop()?;
    kept.set(Some(lot));
    ahead.result_for(settings, planned, source)
}
