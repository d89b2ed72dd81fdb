//! The transform and prediction parameters of a picture, and which block lengths and block separations it may have.
#![tactic(auto)]

mod counts;
mod grids;
mod prediction;
mod shared;
mod transform;

pub use counts::Counts;
pub use grids::{block_grid, is_divisible, is_overlap};
pub use prediction::Prediction;
pub use transform::Transform;
