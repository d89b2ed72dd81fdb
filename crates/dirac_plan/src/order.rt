//! All pictures of a stream in coding order.

ghost use Rattle.std.specs.Prelude.{◌≡◌, ◌≤◌, IfOk};
ghost use Rattle.dirac_types.specs.Settings.{IsAccepted};
ghost use Rattle.dirac_plan.specs.Plan as plans;

use crate::item::item_of;
use crate::planned::Planned;
use dirac_common::NoMemory;
use dirac_types::Settings;
use std::alloc::Global;

/// The plan of `count` pictures in coding order: groups of pictures, each opened by an intra picture, with each anchor
/// coded before the pictures between it and the anchor before it.
pub fn plan(alloc: Global, count: u32, settings: &Settings) -> Result<Vec<Planned>, NoMemory>
    requires settings { IsAccepted settings.now }
    requires in_range { count ≤ 2147483647 }
    ensures { IfOk result (λ p. p.items ≡ plans.plan count settings.now) }
{
    let mut planned = Vec::new(alloc);
    'places: for place in 0..count {
        planned.push(item_of(count, settings, place))?;
    }
    Ok(planned)
}
