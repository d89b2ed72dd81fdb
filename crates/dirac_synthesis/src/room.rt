//! Room for the samples of a plane.
ghost use Rattle.std.specs.Prelude.{◌≡◌, ◌≤◌, IfOk};

use dirac_common::{LARGEST_TABLE_SIDE, NoMemory, Plane};
use std::alloc::Global;

/// A plane of this size to be written over: the one that is given where it has that size, whatever it holds, else a new
/// one.
pub fn plane_room(
    alloc: Global,
    given: Option<Plane>,
    width: u32,
    height: u32,
) -> Result<Plane, NoMemory>
    requires across { (1 ≤ width) × (width ≤ LARGEST_TABLE_SIDE) }
    requires down { (1 ≤ height) × (height ≤ LARGEST_TABLE_SIDE) }
    ensures across { IfOk result (λ p. p.width ≡ width) }
    ensures down { IfOk result (λ p. p.height ≡ height) }
{
    if let Some(plane) = given {
        if plane.width() == width && plane.height() == height {
            return Ok(plane);
        }
    }
    Plane::try_new(alloc, width, height, 0)
}
