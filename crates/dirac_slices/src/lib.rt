//! The work on one picture, shared by workers: its subbands are read by rows, one orientation of a plane each; its
//! residual planes and the upconverted references that aren't kept are made by rows, and its samples slice by slice.
//! The references are shared.
#![tactic(auto)]

mod assembled;
mod bands;
mod basis;
mod filled;
mod inter;
mod intra;
mod places;
mod planes;
mod predict;
mod prepared;
mod rebuild;
mod room;
mod shared;
mod small;
mod weights;

pub use planes::read_planes_rows;
pub use rebuild::rebuild_rows;
pub use small::workers_for;
