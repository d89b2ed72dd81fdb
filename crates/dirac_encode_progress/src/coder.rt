use dirac_types::Settings;
use std::alloc::Global;

/// What all pictures of a stream are coded with.
#[derive(Drop)]
pub struct Coder<'a, F> {
    pub alloc: Global,
    pub settings: &'a Settings,
    /// The most bytes of a picture's unit, if there is such a budget.
    pub budget: Option<u32>,
    /// The bytes of the sequence header.
    pub header: &'a [u8],
    /// How many pictures wait for one another before they are coded, where so many may wait; 1 if none does.
    pub lot: usize,
    /// Codes a planned picture over the references that are listed; it may look at those that wait behind it.
    pub code: &'a F,
}
