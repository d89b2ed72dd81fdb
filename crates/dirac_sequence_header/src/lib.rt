//! Sequence headers: what a stream's pictures have in common, and how the bits of a header are read.
#![tactic(auto)]

mod details;
mod frames;
mod read;
mod sequence;
mod shared;
mod tables;

pub use read::read_sequence;
pub use sequence::{Sequence, SignalRange};
pub use tables::{frame_rate, preset, signal_range};
