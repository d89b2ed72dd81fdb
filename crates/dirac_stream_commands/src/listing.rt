ghost use Rattle.std.specs.Prelude.{◌≡◌, ◌≤◌, IfSome};
ghost use Rattle.std.specs.Io.KnownBytes.{IsAtEnd};
ghost use Rattle.dirac_io.specs.Faults.{Rose};
ghost use Rattle.dirac_stream_commands.specs.Inside.{IsFaultInside};
ghost use Rattle.dirac_stream_commands.specs.Listing.{IsFrontListed, IsListed, IsListAnswer, IsReadListed};

use crate::line::line;
use dirac_command_line::Ended;
use dirac_io::{Put, Sink, Source, put_all};
use dirac_units::{UnitStep, Units};
use std::alloc::Global;

/// Writes a line for each unit before the first fault of the cutting. It looks at no payload.
pub fn list<S: Source, K: Sink>(alloc: Global, source: &mut S, out: &mut K) -> Ended
    ensures answer { IsListAnswer result }
    ensures listed { IfSome (S.held source.old) (λ bytes. IsListed bytes result (K.taken out.old) (K.taken out.new)) }
    ensures fault_inside { IfSome (S.held source.old) (IsFaultInside result) }
    ensures whole { result ≡ Ended.Done → IsAtEnd (S.held source.new) }
    // Whatever is answered, what was written is a front of the lines of the units in what was read.
    ensures front_of_read { IfSome (S.held source.old) (λ bytes. IsFrontListed bytes (S.held source.new)
        (K.taken out.old) (K.taken out.new)) }
    // Where a read failed, the line of each unit that was read whole was written.
    ensures broken_off { result ≡ Ended.ReadFault → IfSome (S.held source.old) (λ bytes. IsReadListed bytes
        (S.held source.new) (K.taken out.old) (K.taken out.new)) }
    ensures read { result ≡ Ended.ReadFault → Rose (S.faults source.old) (S.faults source.new) }
    ensures write { result ≡ Ended.WriteFault → Rose (K.faults out.old) (K.faults out.new) }
    ensures reads { S.faults source.old ≤ S.faults source.new }
    ensures writes { K.faults out.old ≤ K.faults out.new }
{
    let mut units = Units::new(alloc);
    'units: loop {
        match units.next(source, false) {
            UnitStep::Unit(unit) => {
                let Ok(text) = line(alloc, &unit) else {
                    return Ended::NoMemory;
                };
                match put_all(out, text.as_bytes()) {
                    Put::All => {}
                    Put::Failed => return Ended::WriteFault,
                    Put::NoMemory => return Ended::NoMemory,
                }
            }
            UnitStep::End => return Ended::Done,
            UnitStep::Fault(fault) => return Ended::Fault(fault),
            UnitStep::ReadFault => return Ended::ReadFault,
            UnitStep::NoMemory => return Ended::NoMemory,
            UnitStep::Stopped => unreachable!(),
        }
    }
}
