ghost use Rattle.std.specs.Prelude.{◌≡◌};
ghost use Rattle.dirac_encode_progress.specs.Going.{so_far};
ghost use Rattle.dirac_encode_laws.specs.Steps.{no_progress};

use dirac_refs::{Delivery, RefBuffer};
use std::alloc::Global;

/// What is coded of a stream so far.
#[derive(Drop)]
pub struct Progress {
    /// How many pictures.
    pub count: u32,
    /// The length of the last unit, 0 before the first.
    pub previous: u32,
    /// The reconstructions that later pictures may refer to.
    pub refs: RefBuffer,
    /// The reconstructions that wait for delivery.
    pub delivery: Delivery,
    /// A buffer for bytes of a plane.
    pub row: Vec<u8>,
}

impl Progress {
    /// Nothing is coded.
    pub fn new(alloc: Global) -> Progress
        ensures { so_far result ≡ no_progress }
    {
        Progress {
            count: 0,
            previous: 0,
            refs: RefBuffer::new(),
            delivery: Delivery::new(),
            row: Vec::new(alloc),
        }
    }
}
