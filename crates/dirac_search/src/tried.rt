ghost use Rattle.std.specs.Prelude.{◌^◌, ◌<◌};
ghost use Rattle.dirac_search.specs.Costs.{StopsAt};

use dirac_common::Vector;
use dirac_costs::Window;

/// A vector that is tried for a window, what it costs before its differences are summed, and the limit that all of it
/// is to stay below.
#[derive(Clone, Copy)]
pub struct Tried {
    pub window: Window,
    pub v: Vector,
    pub first: u32,
    pub limit: u32,
}

/// A cost, where it is below the limit.
#[inline(always)]
pub fn if_below(cost: u32, limit: u32) -> Option<u32>
    requires { cost < 2 ^ 25 }
    ensures { StopsAt limit cost result }
{
    if cost < limit { Some(cost) } else { None }
}
