ghost use Rattle.std.specs.Prelude.{◌≡◌, ℕ, ◌+◌, ◌<◌, ◌≤◌, ◌^◌, length, IfErr, IfOk, None, Some, Err, if◌then◌else◌};
ghost use Rattle.dirac_io.specs.Faults.{Rose};
ghost use Rattle.dirac_units.specs.Info.{span_of};
ghost use Rattle.dirac_units.specs.Cut.{fault_at, front_of};
ghost use Rattle.dirac_units.specs.Taking.{CutsPayload, TakesInfo, TakesNone, TakesPayload, TakesUnit};

use crate::info::{PARSE_INFO_LENGTH, ParseInfo, fields_are_read, read_info};
use crate::unit::{Payload, Unit};
use crate::unit_place::UnitPlace;
use dirac_common::{Cause, Fault};
use dirac_io::{Filled, Source, fill};
use std::alloc::Global;

/// The most bytes of a payload that are read at once.
pub const PIECE_LENGTH: usize = 4096;

/// Why no unit was taken.
#[derive(Clone, Copy, Debug, PartialEq, Eq)]
pub enum NoUnit {
    /// The lawful end of the input, or the first fault of the cutting.
    End(Option<Fault>),
    ReadFault,
    NoMemory,
}

/// Takes the unit that begins at the front of a source, and no byte beyond it. Its payload is kept where
/// `keep` is true and it is a sequence header or a picture; else it is passed over.
pub fn take_unit<S: Source>(
    alloc: Global,
    unit_place: UnitPlace,
    keep: bool,
    source: &mut S,
) -> Result<Unit, NoUnit>
    requires place { unit_place.at + S.left source.old < 2 ^ 63 }
    ensures unit { IfOk result (λ unit. TakesUnit keep unit unit_place (S.held source.old) (S.held source.new)) }
    ensures no_unit { IfErr result (λ why. TakesNone why unit_place (S.held source.old) (S.held source.new)) }
    ensures lowers { IfOk result (λ unit. span_of unit.info + S.left source.new ≤ S.left source.old) }
    ensures never_rises { S.left source.new ≤ S.left source.old }
    ensures read { result ≡ Err NoUnit.ReadFault → Rose (S.faults source.old) (S.faults source.new) }
    ensures count { S.faults source.old ≤ S.faults source.new }
{
    let info = take_info(unit_place, source)?;
    let kept = keep && fields_are_read(info.code);
    let length = info.span() - PARSE_INFO_LENGTH as u64;
    let payload = take_payload(alloc, unit_place, length, kept, source)?;
    Ok(Unit {
        index: unit_place.index,
        at: unit_place.at,
        info,
        payload,
    })
}

// Takes the parse info at the front of a source, and no byte beyond it.
fn take_info<S: Source>(unit_place: UnitPlace, source: &mut S) -> Result<ParseInfo, NoUnit>
    requires place { unit_place.at + S.left source.old < 2 ^ 63 }
    ensures info { IfOk result (λ info. TakesInfo info (S.held source.old) (S.held source.new)) }
    ensures no_unit { IfErr result (λ why. TakesNone why unit_place (S.held source.old) (S.held source.new)) }
    ensures lowers { IfOk result (λ _. PARSE_INFO_LENGTH + S.left source.new ≤ S.left source.old) }
    ensures never_rises { S.left source.new ≤ S.left source.old }
    ensures read { result ≡ Err NoUnit.ReadFault → Rose (S.faults source.old) (S.faults source.new) }
    ensures count { S.faults source.old ≤ S.faults source.new }
{
    let mut header = [0; PARSE_INFO_LENGTH];
    match fill(source, &mut header) {
        Filled::Whole => {}
        Filled::Ended(n) => return Err(NoUnit::End(end_in_header(unit_place, &header[..n]))),
        Filled::Failed => return Err(NoUnit::ReadFault),
    }
    match read_info(&header) {
        Ok(info) => Ok(info),
        Err(refusal) => Err(NoUnit::End(Some(unit_place.fault(refusal.at, refusal.cause)))),
    }
}

// Takes a payload of that many bytes, in pieces, and no byte beyond it. It grows as the source gives it: no memory is
// taken for bytes that don't come.
fn take_payload<S: Source>(
    alloc: Global,
    unit_place: UnitPlace,
    count: u64,
    keep: bool,
    source: &mut S,
) -> Result<Payload, NoUnit>
    requires place { unit_place.at + PARSE_INFO_LENGTH + S.left source.old < 2 ^ 64 }
    ensures payload { IfOk result (λ payload. TakesPayload count keep payload (S.held source.old) (S.held source.new)) }
    ensures cut { IfErr result (λ why. CutsPayload why unit_place count (S.held source.old) (S.held source.new)) }
    ensures lowers { IfOk result (λ _. count + S.left source.new ≤ S.left source.old) }
    ensures never_rises { S.left source.new ≤ S.left source.old }
    ensures read { result ≡ Err NoUnit.ReadFault → Rose (S.faults source.old) (S.faults source.new) }
    ensures count { S.faults source.old ≤ S.faults source.new }
{
    let mut buf = [0; PIECE_LENGTH];
    let mut payload = Vec::new(alloc);
    let mut rest = count;
    'pieces: while rest > 0 {
        let piece = &mut buf[..rest.min(PIECE_LENGTH as u64) as usize];
        match fill(source, piece) {
            Filled::Whole => {}
            Filled::Ended(n) => {
                let at = PARSE_INFO_LENGTH as u64 + (count - rest) + n as u64;
                return Err(NoUnit::End(Some(unit_place.fault(at, Cause::Truncated))));
            }
            Filled::Failed => return Err(NoUnit::ReadFault),
        }
        if keep && payload.extend_from_slice(piece).is_err() {
            return Err(NoUnit::NoMemory);
        }
        rest -= piece.len() as u64;
    }
    Ok(Payload::of(payload))
}

// What it means that the input ends behind these bytes, fewer than a parse info has.
fn end_in_header(unit_place: UnitPlace, bytes: &[u8]) -> Option<Fault>
    requires cut { length bytes.now < PARSE_INFO_LENGTH }
    requires place { unit_place.at + length bytes.now < 2 ^ 63 }
    ensures { front_of unit_place bytes.now ≡ Err result }
{
    if bytes.is_empty() {
        return ending(unit_place);
    }
    Some(unit_place.fault(bytes.len() as u64, Cause::Truncated))
}

// What it means that the input ends where a unit would begin.
fn ending(unit_place: UnitPlace) -> Option<Fault>
    requires { unit_place.at < 2 ^ 63 }
    ensures { result ≡ (if unit_place.closed then None else Some (fault_at unit_place 0 Cause.MissingEnd)) }
{
    if unit_place.closed {
        None
    } else {
        Some(unit_place.fault(0, Cause::MissingEnd))
    }
}
