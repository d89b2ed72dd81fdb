//! The pictures that a sequence keeps: those that others may refer to, and those that wait for delivery.
#![tactic(auto)]

mod bounded;
mod copied;
mod delivery;
mod laws;
mod ref_buffer;
mod reference;
mod shared;
mod waiting;

pub use copied::reference_of;
pub use delivery::{Delivery, MOST_WAITING, key};
pub use laws::{least_leaves_first, refs_are_few};
pub use ref_buffer::{MOST_REFERENCES, RefBuffer};
pub use reference::{Halves, MOST_KEPT_SAMPLES, Reference};
pub use waiting::Waiting;
