ghost use Rattle.std.specs.Prelude.{◌≡◌, ℕ, ◌+◌, ◌<◌, ◌≤◌, ◌^◌, length, [], Option, None, Some};
ghost use Rattle.dirac_io.specs.Faults.{Rose};
ghost use Rattle.dirac_units.specs.Progress.{cutting_begun, Ends, GivesUnit, HoldsWhatFollows, IfUnit, met_after};
ghost use Rattle.dirac_units.specs.Progress.{Repeats};
ghost use Rattle.dirac_units.specs.Progress.{TakesPart, TakesSome};

use crate::take::{NoUnit, take_unit};
use crate::unit::{StreamEnd, UnitStep};
use crate::unit_place::UnitPlace;
use dirac_common::Fault;
use dirac_io::Source;
use std::alloc::Global;
use std::marker::Model;

/// Cuts what a source gives into units, and holds none of them.
#[derive(Drop)]
pub struct Units {
    alloc: Global,
    unit_place: UnitPlace,
    stream_end: StreamEnd,
}

impl Model for Units {
    ghost use Rattle.std.specs.Prelude.{◌≤◌, []};
    ghost use Rattle.dirac_units.specs.Progress.{CuttingProgress};

    ghost Value = { CuttingProgress };

    ghost view = { λ u. record { ahead = []; unit_place = u.unit_place; stream_end = u.stream_end } };

    ghost invariant = { λ u. u.unit_place.index ≤ u.unit_place.at };
}

impl Units {
    pub fn new(alloc: Global) -> Units
        ensures { result ≡ cutting_begun }
    {
        Units {
            alloc,
            unit_place: UnitPlace::first(),
            stream_end: StreamEnd::Going,
        }
    }

    /// The next unit of the source. Its payload is kept where `keep` is true and it is a sequence
    /// header or a picture; else it is passed over. No byte beyond the unit is taken from the source. A
    /// payload grows as the source gives it: a next offset alone takes no memory. After `End` and after a
    /// `Fault` each later call answers the same, and after `ReadFault` and `NoMemory` each later call
    /// answers `Stopped`; none of them reads.
    pub fn next<S: Source>(&mut self, source: &mut S, keep: bool) -> UnitStep
        requires { self.old.unit_place.at + length self.old.ahead + S.left source.old < 2 ^ 63 }
        ensures unit { IfUnit result (λ unit. GivesUnit keep unit self.old self.new (S.held source.old)
            (S.held source.new)) }
        // Behind a unit nothing was taken beyond it.
        ensures rest { IfUnit result (λ unit. HoldsWhatFollows unit self.old (S.held source.old) (S.held source.new)) }
        // Where a read failed, no whole unit was taken; where memory was wanting, some bytes were.
        ensures part { result ≡ UnitStep.ReadFault → TakesPart self.old (S.held source.old) (S.held source.new) }
        ensures taken { result ≡ UnitStep.NoMemory → TakesSome self.old (S.held source.old) (S.held source.new) }
        ensures none_ahead { self.new.ahead ≡ [] }
        ensures end { self.old.stream_end ≡ StreamEnd.Going → result ≡ UnitStep.End
            → Ends self.old (S.held source.old) (S.held source.new) None }
        ensures fault { (fault : Fault) → self.old.stream_end ≡ StreamEnd.Going → result ≡ UnitStep.Fault fault
            → Ends self.old (S.held source.old) (S.held source.new) (Some fault) }
        ensures stream_end { self.new.stream_end ≡ met_after result }
        ensures repeated { Repeats self.old.stream_end result ((self.new ≡ self.old) × (source.new ≡ source.old)) }
        ensures stopped { result ≡ UnitStep.Stopped → self.old.stream_end ≡ StreamEnd.Stopped }
        ensures read { result ≡ UnitStep.ReadFault → Rose (S.faults source.old) (S.faults source.new) }
        ensures count { S.faults source.old ≤ S.faults source.new }
        ensures no_overflow { self.new.unit_place.at + length self.new.ahead + S.left source.new
            ≤ self.old.unit_place.at + length self.old.ahead + S.left source.old }
        ensures index { self.old.unit_place.index ≤ self.new.unit_place.index }
        ensures fits { self.new.unit_place.index < 2 ^ 64 }
    {
        match self.stream_end {
            StreamEnd::Going => {}
            StreamEnd::Ended => return UnitStep::End,
            StreamEnd::Faulted(fault) => return UnitStep::Fault(fault),
            StreamEnd::Stopped => return UnitStep::Stopped,
        }
        match take_unit(self.alloc, self.unit_place, keep, source) {
            Ok(unit) => {
                self.unit_place = self.unit_place.after(&unit.info);
                UnitStep::Unit(unit)
            }
            Err(NoUnit::End(None)) => {
                self.stream_end = StreamEnd::Ended;
                UnitStep::End
            }
            Err(NoUnit::End(Some(fault))) => {
                self.stream_end = StreamEnd::Faulted(fault);
                UnitStep::Fault(fault)
            }
            Err(NoUnit::ReadFault) => {
                self.stream_end = StreamEnd::Stopped;
                UnitStep::ReadFault
            }
            Err(NoUnit::NoMemory) => {
                self.stream_end = StreamEnd::Stopped;
                UnitStep::NoMemory
            }
        }
    }
}
