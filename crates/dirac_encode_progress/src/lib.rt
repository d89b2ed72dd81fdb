//! How a stream of raw pictures is encoded, by whatever codes one picture: what was coded so far, the units around
//! pictures, deliveries and the end, with the laws by which a picture, a plan and a read lead on.
#![tactic(auto)]

mod coder;
mod delivering;
mod ending;
mod pictures;
mod planned;
mod progress;
mod rest;
mod source;
mod units;

pub use coder::Coder;
pub use pictures::put_pictures;
pub use progress::Progress;
