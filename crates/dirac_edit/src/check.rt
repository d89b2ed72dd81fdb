ghost use Rattle.std.specs.Prelude.{◌<◌, ◌^◌, IfErr, OnOk, length};
ghost use Rattle.std.specs.List.{AllByRecursion};
ghost use Rattle.dirac_edit.specs.Steps.{HasNoFault, IsStreamRefused};

use crate::answers::Edited;
use crate::course::Course;
use crate::lent::LentBytes;
use dirac_common::{Fault, Stop};
use dirac_units::{UnitStep, Units, bytes_have_one_cut};
use std::alloc::Global;

/// Reads a stream, unit by unit, and rebuilds no picture of it: where it has a fault, its first is answered.
pub(crate) fn check(alloc: Global, bytes: &[u8]) -> Result<(), Edited>
    requires { length bytes.now < 2 ^ 63 }
    ensures sound { OnOk result (HasNoFault bytes.now) }
    ensures refused { IfErr result (IsStreamRefused bytes.now) }
{
    bytes_have_one_cut();
    let mut source = LentBytes::of(bytes);
    let mut units = Units::new(alloc);
    let mut course = Course::new();
    'units: loop {
        let unit = match units.next(&mut source, true) {
            UnitStep::Unit(unit) => unit,
            UnitStep::End => return Ok(()),
            UnitStep::Fault(fault) => return Err(Edited::Fault(fault)),
            UnitStep::ReadFault => unreachable!(),
            UnitStep::NoMemory => return Err(Edited::NoMemory),
            UnitStep::Stopped => unreachable!(),
        };
        match course.take(alloc, unit.info.code, unit.payload) {
            Ok(()) => {}
            Err(Stop::NoMemory) => return Err(Edited::NoMemory),
            Err(Stop::Refused(refusal)) => {
                return Err(Edited::Fault(Fault {
                    unit: unit.index,
                    at: unit.at + refusal.at,
                    cause: refusal.cause,
                }));
            }
        }
    }
}

/// Bytes are below 256.
pub(crate) fn are_bytes(bytes: &[u8])
    ensures { AllByRecursion (λ b. b < 2 ^ 8) bytes.now }
{}
