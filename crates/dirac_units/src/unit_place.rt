ghost use Rattle.std.specs.Prelude.{◌≡◌, ℕ, ◌+◌, ◌<◌, ◌^◌};
ghost use Rattle.dirac_units.specs.Info.{span_of};

use crate::info::ParseInfo;
use dirac_common::{Cause, END_OF_SEQUENCE, Fault};

/// Where a unit begins: its number, from 0, its first byte's number, and whether the unit before is
/// an end unit.
#[derive(Clone, Copy, Debug, PartialEq, Eq)]
pub struct UnitPlace {
    pub index: u64,
    pub at: u64,
    pub closed: bool,
}

impl UnitPlace {
    ghost use Rattle.dirac_units.specs.Cut.{first_unit_place, after, fault_at};

    /// Where the first unit of an input begins.
    pub fn first() -> UnitPlace
        ensures { result ≡ first_unit_place }
    {
        UnitPlace {
            index: 0,
            at: 0,
            closed: false,
        }
    }

    /// Where the unit behind this one begins.
    pub fn after(self, info: &ParseInfo) -> UnitPlace
        requires index { self.index + 1 < 2 ^ 64 }
        requires at { self.at + span_of info.now < 2 ^ 64 }
        ensures { result ≡ after self info.now }
    {
        UnitPlace {
            index: self.index + 1,
            at: self.at + info.span(),
            closed: info.code == END_OF_SEQUENCE,
        }
    }

    /// A fault of the unit that begins here, that many bytes behind its first.
    pub fn fault(self, at: u64, cause: Cause) -> Fault
        requires { self.at + at < 2 ^ 64 }
        ensures { result ≡ fault_at self at cause }
    {
        Fault {
            unit: self.index,
            at: self.at + at,
            cause,
        }
    }
}
