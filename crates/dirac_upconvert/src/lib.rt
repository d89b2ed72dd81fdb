#![tactic(auto)]

//! Upconverted reference planes: the half samples of a plane, and its samples at positions counted in
//! parts of a sample.

mod half_sample;
mod lines;
mod parts;
mod phases;
mod plane;
mod rows;
mod shared;
mod whole_samples;

pub use plane::{UpPlane, upconvert, upconvert_for};
