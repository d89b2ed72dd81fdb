#![tactic(auto)]

//! The subbands of a transformed plane: their sizes, how four of them make a plane, and the prediction
//! of the LL band in intra pictures.

mod dc;
mod geometry;
mod interleaving;

pub use dc::{dc_add, dc_subtract};
pub use geometry::{band_size, edge, padded};
pub use interleaving::{FourBands, join_bands, split_bands};
