ghost use Rattle.std.specs.Prelude.{◌≡◌, IfOk};

use crate::memory::NoMemory;
use crate::table::Plane;
use std::alloc::Global;

/// A picture: its number in the stream and its three planes.
#[derive(Debug, Drop)]
pub struct Picture {
    pub number: u32,
    pub y: Plane,
    pub u: Plane,
    pub v: Plane,
}

impl Picture {
    /// An equal picture.
    pub fn try_copy(&self, alloc: Global) -> Result<Picture, NoMemory>
        ensures { IfOk result (λ p. p ≡ self.now) }
    {
        Ok(Picture {
            number: self.number,
            y: self.y.try_copy(alloc)?,
            u: self.u.try_copy(alloc)?,
            v: self.v.try_copy(alloc)?,
        })
    }
}
