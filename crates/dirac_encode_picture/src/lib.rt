//! A picture, coded as it is planned: its payload, and the picture that decoders show for it.
#![tactic(auto)]

mod asked;
mod choosing;
mod left_out;
mod making;
mod motion;
mod picture;
mod predictions;
mod prepared;
mod transform;
mod within;
mod workers;

pub use asked::Asked;
pub use choosing::{code_picture, prepare_picture};
pub use dirac_motion::choose_blocks;
pub use picture::{code_prepared, code_with_blocks};
pub use prepared::{Prepared, prepare};
pub use within::code_within;
