//! Picture headers and transform parameters, and how their bits spell them.
#![tactic(auto)]

mod header;
mod prediction;
mod shared;
mod transform;
mod write;

pub use dirac_common::{is_reference, references};
pub use dirac_parameters::{Counts, Prediction, Transform, block_grid};
pub use header::{PictureHeader, read_header};
pub use prediction::read_prediction;
pub use transform::read_transform;
pub use write::{write_header, write_prediction, write_transform};
