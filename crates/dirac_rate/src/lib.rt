//! The encoder under a budget: each picture gets the least quantiser index, from the settings' on, by which its unit
//! has no more bytes than it allows, and the last one where there is none.
#![tactic(auto)]

mod stream;

pub use dirac_encode::fit_picture;
pub use stream::rate_stream;
