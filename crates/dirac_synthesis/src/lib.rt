#![tactic(auto)]

//! From the quantised subbands of a plane to its residual, and from that and what is predicted to its samples.

mod bands;
mod clip;
mod codeblocks;
mod cut;
mod held;
mod join;
mod last;
mod laws;
mod levels;
mod narrow;
mod plane;
mod restore;
mod room;
mod scale;
mod shared;
mod strips;
mod sums;
mod unfinished;

pub use clip::{clipped, clipped_sum};
pub use codeblocks::first_codeblock;
pub use held::Residual;
pub use laws::{each_place_has_a_codeblock, one_index_restores_all, zero_bands_stand_for_zeros};
pub use plane::plane_residual;
pub use room::plane_room;
pub use strips::{clipped_by_strips, clipped_in, clipped_sum_by_strips, clipped_sum_of_rows};
pub use sums::{PredictsRows, clipped_sum_by_rows};
pub use unfinished::{Unfinished, unfinished_residual};
