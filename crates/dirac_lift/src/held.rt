//! Tables that are held in 32 bits where these are enough, else wide.
ghost use Rattle.std.specs.Prelude.{◌≡◌, true, ◌≤◌, unsigned_abs, IfOk};
ghost use Rattle.std.specs.List.{All};
ghost use Rattle.dirac_lift.specs.Held.{held_plane};

use dirac_common::{LARGEST_NARROW, Narrow, NoMemory, Wide};
use std::alloc::Global;

/// A plane, or the LL band of a level of it: in 32 bits where these were enough so far, else wide.
#[derive(Drop)]
pub enum Held {
    Wide(Wide),
    Narrow(Narrow),
}

impl Held {
    /// Its values, wide.
    pub fn into_wide(self, alloc: Global) -> Result<Wide, NoMemory>
        ensures { IfOk result (λ t. t ≡ held_plane self) }
    {
        match self {
            Held::Wide(values) => Ok(values),
            Held::Narrow(values) => values.try_wide(alloc),
        }
    }
}

/// Whether all values are at most 4,095 in magnitude.
pub fn is_narrow(values: &[i32]) -> bool
    ensures { result ≡ true → All (λ v. unsigned_abs v ≤ LARGEST_NARROW) values.now }
{
    let mut all = true;
    for n in 0..values.len() {
        all &= values[n].unsigned_abs() <= LARGEST_NARROW;
    }
    all
}
