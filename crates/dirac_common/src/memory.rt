ghost use Rattle.dirac_common.specs.declared.faults.Stop.TheVariants as stop;

use std::alloc::{AllocError, AllocFailed};

/// Memory was wanting. It says nothing of the input, and no call promises that it doesn't come.
#[derive(Clone, Copy, Debug, PartialEq, Eq)]
pub struct NoMemory;

impl From<AllocError> for NoMemory {
    fn from(_e: AllocError) -> NoMemory {
        NoMemory
    }
}

impl<T: Drop> From<AllocFailed<T>> for NoMemory {
    fn from(_e: AllocFailed<T>) -> NoMemory {
        NoMemory
    }
}
