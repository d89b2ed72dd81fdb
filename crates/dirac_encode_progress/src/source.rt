//! A planned picture, coded, written and delivered.

ghost use Rattle.std.specs.Prelude.{◌≡◌, ◌≤◌, ◌<◌, ◌+◌, ◌^◌, if◌then◌else◌, length, Ok, Err, OnOk, IfOk, IfErr, true};
ghost use Rattle.std.specs.Io.KnownBytes.{Appends};
ghost use Rattle.std.specs.List.{All, AllByRecursion};
ghost use Rattle.dirac_io.specs.Faults.{Rose};
ghost use Rattle.dirac_io.specs.Writing.{AppendsFront};
ghost use Rattle.dirac_types.specs.Settings.{IsAccepted};
ghost use Rattle.dirac_sequence.specs.Written.{sequence_payload};
ghost use Rattle.dirac_picture.specs.Grammar.{are_listed, is_intra as is_intra_code};
ghost use Rattle.dirac_refs.specs.Delivery.{delivered};
ghost use Rattle.dirac_refs.specs.Halves.{CanBeDoubled};
ghost use Rattle.dirac_refs.specs.References.{committed};
ghost use Rattle.dirac_content.specs.StreamState.{as_reference};
ghost use Rattle.dirac_content.specs.Raw.{raws};
ghost use Rattle.dirac_plan_laws.specs.Headers.{IsPlanned, header_of};
ghost use Rattle.dirac_encode_laws.specs.Coded.{IsSource};
ghost use Rattle.dirac_encode_laws.specs.Coding.{made_under};
ghost use Rattle.dirac_encode_laws.specs.Fit.{rule_of};
ghost use Rattle.dirac_encode_laws.specs.Steps.{IsCoded, IsFault, StopsCoding, StopsPicture};
ghost use Rattle.dirac_encode_laws.specs.Stream.{unit};
ghost use Rattle.dirac_encode_progress.specs.Going.{waiting_joined, so_far};
ghost use Rattle.dirac_encode_progress.specs.PictureCoding.{AreReadyBehind, CodesUnder, IsReadyToCode};

use crate::coder::Coder;
use crate::delivering::deliver;
use crate::progress::Progress;
use crate::units::put_header;
use dirac_common::{NoMemory, Picture};
use dirac_encode_laws::{Coded, Encoded};
use dirac_io::{Put, Sink, Unwritten};
use dirac_picture::is_intra;
use dirac_plan::{Planned, Planner};
use dirac_refs::{RefBuffer, reference_of};
use dirac_types::Settings;
use dirac_units::{PARSE_INFO_LENGTH, put_unit};
use std::alloc::Global;

/// Writes the unit of a coded picture behind a unit of `previous` bytes, lists the reconstruction if others may refer
/// to it, and delivers what leaves.
fn put_coded<K: Sink, N: Sink>(
    alloc: Global,
    out: &mut K,
    side: &mut N,
    previous: u32,
    planned: &Planned,
    coded: Coded,
    coding: &mut Progress,
) -> Result<(), Encoded>
    requires fits { 13 + length coded.payload.items < 2 ^ 32 }
    requires in_range { coding.old.count + 1 < 2 ^ 32 }
    ensures count { OnOk result (coding.new.count ≡ coding.old.count + 1) }
    ensures previous { OnOk result (coding.new.previous ≡ 13 + length coded.payload.items) }
    ensures refs { OnOk result (coding.new.refs
        ≡ committed coding.old.refs planned.now.retire (as_reference planned.now.code coded.shown)) }
    ensures waiting { OnOk result (coding.new.delivery
        ≡ (delivered (waiting_joined coding.old.delivery planned.now.number coded.shown)).waiting) }
    ensures out { OnOk result (Appends (K.taken out.old) (K.taken out.new)
        (unit planned.now.code previous coded.payload.items)) }
    ensures side { OnOk result (Appends (N.taken side.old) (N.taken side.new)
        (raws (delivered (waiting_joined coding.old.delivery planned.now.number coded.shown)).gone)) }
    ensures out_front { AppendsFront (K.taken out.old) (K.taken out.new)
        (unit planned.now.code previous coded.payload.items) }
    ensures side_front { AppendsFront (N.taken side.old) (N.taken side.new)
        (raws (delivered (waiting_joined coding.old.delivery planned.now.number coded.shown)).gone) }
    ensures stopped { IfErr result IsFault }
    ensures write_fault { result ≡ Err Encoded.WriteFault → Rose (K.faults out.old) (K.faults out.new) }
    ensures side_fault { result ≡ Err Encoded.SideFault → Rose (N.faults side.old) (N.faults side.new) }
    ensures writes { K.faults out.old ≤ K.faults out.new }
    ensures sides { N.faults side.old ≤ N.faults side.new }
{
    let Ok(reference) = reference_of(alloc, planned.code, &coded.shown) else {
        return Err(Encoded::NoMemory);
    };
    match put_unit(out, planned.code, previous, coded.payload.as_slice()) {
        Put::All => {}
        Put::Failed => return Err(Encoded::WriteFault),
        Put::NoMemory => return Err(Encoded::NoMemory),
    }
    coding.count += 1;
    coding.previous = (PARSE_INFO_LENGTH + coded.payload.len()) as u32;
    coding.refs.commit(planned.retire, reference);
    match deliver(
        side,
        &mut coding.delivery,
        planned.number,
        coded.shown,
        &mut coding.row,
    ) {
        Ok(()) => Ok(()),
        Err(Unwritten::Failed) => Err(Encoded::SideFault),
        Err(Unwritten::NoMemory) => Err(Encoded::NoMemory),
    }
}

/// The length of the unit just before a picture with this parse code: of its sequence header, or of the unit before it.
fn length_before(code: u8, header: &[u8], previous: u32) -> u32
    requires { 13 + length header.now < 2 ^ 32 }
    ensures { result ≡ (if is_intra_code code then 13 + length header.now else previous) }
{
    if is_intra(code) {
        (PARSE_INFO_LENGTH + header.len()) as u32
    } else {
        previous
    }
}

/// Keeps half samples of the pictures that a planned frame refers to, and of no other; an intra frame changes nothing.
/// Fields refer to those of their own parity in turn, and would lose each time what was kept: of them none are.
fn keep_halves(alloc: Global, settings: &Settings, planned: &Planned, refs: &mut RefBuffer)
    requires { All CanBeDoubled refs.old }
    ensures { refs.new ≡ refs.old }
{
    if settings.fields != 0 {
        return;
    }
    let precision = settings.precision.min(3) as u8;
    refs.keep_halves(alloc, planned.ref1, planned.ref2, precision);
}

/// Codes a planned picture by the call handed in.
fn code_by_call<F: Fn(&Planned, &Picture, &RefBuffer, &Planner) -> Result<Coded, NoMemory>>(
    coder: &Coder<F>,
    planned: &Planned,
    source: &Picture,
    refs: &RefBuffer,
    behind: &Planner,
) -> Result<Coded, NoMemory>
    requires codes { CodesUnder (rule_of coder.now.budget) coder.now.settings.now (F.pre coder.now.code.now)
        (F.post coder.now.code.now) }
    requires ready { IsReadyToCode coder.now.settings.now refs.now planned.now source.now }
    requires behind { AreReadyBehind coder.now.settings.now behind.now }
    ensures payload { IfOk result (λ c. c.payload.items
        ≡ (made_under (rule_of coder.now.budget) coder.now.settings.now refs.now
        (record { planned = planned.now; source = source.now })).payload) }
    ensures shown { IfOk result (λ c. c.shown
        ≡ (made_under (rule_of coder.now.budget) coder.now.settings.now refs.now
        (record { planned = planned.now; source = source.now })).shown) }
{
    let code = coder.code;
    let coded = code(planned, source, refs, behind)?;
    Ok(coded)
}

/// Codes a planned picture by the call handed in, which finds the half samples of a frame's references kept.
fn code_source<F: Fn(&Planned, &Picture, &RefBuffer, &Planner) -> Result<Coded, NoMemory>>(
    coder: &Coder<F>,
    planned: &Planned,
    source: &Picture,
    refs: &mut RefBuffer,
    behind: &Planner,
) -> Result<Coded, NoMemory>
    requires codes { CodesUnder (rule_of coder.now.budget) coder.now.settings.now (F.pre coder.now.code.now)
        (F.post coder.now.code.now) }
    requires ready { IsReadyToCode coder.now.settings.now refs.old planned.now source.now }
    requires behind { AreReadyBehind coder.now.settings.now behind.now }
    ensures payload { IfOk result (λ c. c.payload.items
        ≡ (made_under (rule_of coder.now.budget) coder.now.settings.now refs.old
        (record { planned = planned.now; source = source.now })).payload) }
    ensures shown { IfOk result (λ c. c.shown
        ≡ (made_under (rule_of coder.now.budget) coder.now.settings.now refs.old
        (record { planned = planned.now; source = source.now })).shown) }
    ensures refs { refs.new ≡ refs.old }
{
    keep_halves(coder.alloc, coder.settings, planned, refs);
    code_by_call(coder, planned, source, refs, behind)
}

/// Codes a planned picture and writes its unit, an intra picture's behind a sequence header. The planner is the one
/// that gave it, with those that wait behind it.
pub(crate) fn put_source<
    F: Fn(&Planned, &Picture, &RefBuffer, &Planner) -> Result<Coded, NoMemory>,
    K: Sink,
    N: Sink,
>(
    coder: &Coder<F>,
    out: &mut K,
    side: &mut N,
    planned: &Planned,
    source: &Picture,
    behind: &Planner,
    coding: &mut Progress,
) -> Result<(), Encoded>
    requires codes { CodesUnder (rule_of coder.now.budget) coder.now.settings.now (F.pre coder.now.code.now)
        (F.post coder.now.code.now) }
    requires accepted { IsAccepted coder.now.settings.now }
    requires header { coder.now.header.now ≡ sequence_payload coder.now.settings.now }
    requires planned { IsPlanned planned.now }
    requires same { source.now.number ≡ planned.now.number }
    requires source { IsSource coder.now.settings.now source.now }
    requires behind { AreReadyBehind coder.now.settings.now behind.now }
    requires listed { AllByRecursion (IsSource coder.now.settings.now) coding.old.refs }
    requires found { are_listed coding.old.refs (header_of planned.now) ≡ true }
    requires in_range { coding.old.count + 1 < 2 ^ 32 }
    ensures coded { OnOk result (IsCoded coder.now.settings.now
        (made_under (rule_of coder.now.budget) coder.now.settings.now coding.old.refs
        (record { planned = planned.now; source = source.now }))
        (so_far coding.old) (so_far coding.new)
        (K.taken out.old) (K.taken out.new) (N.taken side.old) (N.taken side.new)) }
    ensures stopped { IfErr result (λ answer. StopsPicture coder.now.settings.now
        (made_under (rule_of coder.now.budget) coder.now.settings.now coding.old.refs
        (record { planned = planned.now; source = source.now }))
        (so_far coding.old) answer (K.taken out.old) (K.taken out.new) (N.taken side.old) (N.taken side.new)) }
    ensures stops { IfErr result StopsCoding }
    ensures write_fault { result ≡ Err Encoded.WriteFault → Rose (K.faults out.old) (K.faults out.new) }
    ensures side_fault { result ≡ Err Encoded.SideFault → Rose (N.faults side.old) (N.faults side.new) }
    ensures writes { K.faults out.old ≤ K.faults out.new }
    ensures sides { N.faults side.old ≤ N.faults side.new }
{
    let settings = coder.settings;
    match put_header(out, settings, coder.header, planned.code, coding.previous) {
        Ok(()) => {}
        Err(Unwritten::Failed) => return Err(Encoded::WriteFault),
        Err(Unwritten::NoMemory) => return Err(Encoded::NoMemory),
    }
    let Ok(coded) = code_source(coder, planned, source, &mut coding.refs, behind) else {
        return Err(Encoded::NoMemory);
    };
    if (PARSE_INFO_LENGTH + coded.payload.len()) as u64 > u64::from(settings.unit_bytes) {
        return Err(Encoded::UnitTooLong(planned.number));
    }
    let previous = length_before(planned.code, coder.header, coding.previous);
    put_coded(coder.alloc, out, side, previous, planned, coded, coding)
}
