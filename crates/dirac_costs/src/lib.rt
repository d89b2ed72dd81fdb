#![tactic(auto)]

//! Windows of planes: sums of absolute differences, means, and what vectors cost. The motion search and the choice of
//! modes and splits stand on them.

mod bits;
mod differences;
mod means;
mod shared;
mod window;

pub use bits::{signed_bits, vector_bits};
pub use differences::{difference, row_differences, values_differences};
pub use means::mean;
pub use window::Window;
