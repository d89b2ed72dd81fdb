ghost use Rattle.std.specs.Prelude.{◌≡◌, ℕ, ◌+◌, ◌<◌, ◌≤◌, ◌^◌, [], length, Err, Option};
ghost use Rattle.std.specs.Io.KnownBytes.{IsAtEnd};
ghost use Rattle.dirac_io.specs.Faults.{Rose};
ghost use Rattle.dirac_units.specs.Progress.{TakesPart, TakesSome};
ghost use Rattle.dirac_decode.specs.Advancing.{Advances, AdvancesBefore, FindsUnit, GoesOn, HasContent};
ghost use Rattle.dirac_decode.specs.Advancing.{TakesBy, count_shown};
ghost use Rattle.dirac_decode_picture.specs.Payload.{DecodesPictures};

use crate::state::State;
use crate::step::{Halt, Step};
use dirac_common::{Fault, Stop};
use dirac_decode_picture::{DecodedPicture, DecodingRefs};
use dirac_io::Source;
use dirac_sequence_header::Sequence;
use dirac_units::{StreamEnd, Unit, UnitStep, Units};
use std::alloc::Global;

/// The next unit, or what stands in its place.
fn next_unit<S: Source>(units: &mut Units, source: &mut S) -> Result<Unit, Halt>
    requires going { units.old.stream_end ≡ StreamEnd.Going }
    requires no_overflow { units.old.unit_place.at + length units.old.ahead + S.left source.old < 2 ^ 63 }
    ensures finds { FindsUnit result units.old units.new (S.held source.old) (S.held source.new) }
    ensures none_ahead { units.new.ahead ≡ [] }
    ensures index { units.old.unit_place.index ≤ units.new.unit_place.index }
    ensures fits { units.new.unit_place.index < 2 ^ 64 }
    ensures read { result ≡ Err Halt.ReadFault → Rose (S.faults source.old) (S.faults source.new) }
    ensures count { S.faults source.old ≤ S.faults source.new }
    ensures no_overflow_result { units.new.unit_place.at + length units.new.ahead + S.left source.new
        ≤ units.old.unit_place.at + length units.old.ahead + S.left source.old }
{
    match units.next(source, true) {
        UnitStep::Unit(unit) => Ok(unit),
        UnitStep::End => Err(Halt::End),
        UnitStep::Fault(fault) => Err(Halt::Fault(fault)),
        UnitStep::ReadFault => Err(Halt::ReadFault),
        UnitStep::NoMemory => Err(Halt::NoMemory),
        UnitStep::Stopped => unreachable!(),
    }
}

/// What the content of this unit brings.
fn content_of<
    F: Fn(Global, &[u8], u8, &Sequence, &mut DecodingRefs) -> Result<DecodedPicture, Stop>,
>(decode: &F, alloc: Global, unit: Unit, state: &mut State) -> Result<Step, Halt>
    requires decodes { DecodesPictures (F.pre decode.now) (F.post decode.now) }
    requires below_2_63 { unit.at + 13 + length unit.payload < 2 ^ 63 }
    ensures brings { HasContent result unit state.old state.new }
    ensures one_more_at_most { count_shown result + length state.new.waiting ≤ length state.old.waiting + 1 }
    ensures greatest_never_falls { state.old.most ≤ state.new.most }
{
    match state.take(decode, alloc, unit.info.code, unit.payload) {
        Ok(step) => Ok(step),
        Err(Stop::NoMemory) => Err(Halt::NoMemory),
        Err(Stop::Refused(refusal)) => Err(Halt::Fault(Fault {
            unit: unit.index,
            at: unit.at + refusal.at,
            cause: refusal.cause,
        })),
    }
}

/// Takes the next unit of a stream.
pub(crate) fn advance_by_unit<
    S: Source,
    F: Fn(Global, &[u8], u8, &Sequence, &mut DecodingRefs) -> Result<DecodedPicture, Stop>,
>(
    decode: &F,
    alloc: Global,
    units: &mut Units,
    state: &mut State,
    source: &mut S,
) -> Result<Step, Halt>
    requires decodes { DecodesPictures (F.pre decode.now) (F.post decode.now) }
    requires going { units.old.stream_end ≡ StreamEnd.Going }
    requires no_overflow { units.old.unit_place.at + length units.old.ahead + S.left source.old < 2 ^ 63 }
    ensures advances { Advances result units.old units.new state.old state.new (S.held source.old) (S.held source.new) }
    ensures advances_before_more { AdvancesBefore result units.old units.new state.old state.new (S.held source.old)
        (S.held source.new) }
    ensures takes { TakesBy result units.old units.new state.old state.new (S.held source.old) (S.held source.new) }
    ensures none_ahead { units.new.ahead ≡ [] }
    ensures goes_on { GoesOn result units.old units.new }
    ensures no_more_than_units { units.old.unit_place.index + count_shown result + length state.new.waiting
        ≤ units.new.unit_place.index + length state.old.waiting }
    ensures fits { units.new.unit_place.index < 2 ^ 64 }
    ensures greatest_never_falls { state.old.most ≤ state.new.most }
    ensures at_the_end { result ≡ Err Halt.End → IsAtEnd (S.held source.new) }
    ensures part { result ≡ Err Halt.ReadFault → TakesPart units.old (S.held source.old) (S.held source.new) }
    ensures taken { result ≡ Err Halt.NoMemory → TakesSome units.old (S.held source.old) (S.held source.new) }
    ensures read { result ≡ Err Halt.ReadFault → Rose (S.faults source.old) (S.faults source.new) }
    ensures count { S.faults source.old ≤ S.faults source.new }
    ensures no_overflow_result { units.new.unit_place.at + length units.new.ahead + S.left source.new
        ≤ units.old.unit_place.at + length units.old.ahead + S.left source.old }
{
    match next_unit(units, source) {
        Err(halt) => Err(halt),
        Ok(unit) => content_of(decode, alloc, unit, state),
    }
}
