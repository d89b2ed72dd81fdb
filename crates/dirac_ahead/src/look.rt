use std::alloc::Global;

/// What is done with units as soon as they stand in memory, before their bytes are given. It changes no byte.
pub trait Look {
    /// Called once for each reading ahead that brought whole units, with just these, one behind the other.
    fn look(&self, alloc: Global, units: &[u8]);
}
