//! What streams show that stop before a picture whose unit is too long: laws alone, no code.
#![tactic(auto)]

mod laws;

pub use laws::stopped_streams_show_their_pictures;
