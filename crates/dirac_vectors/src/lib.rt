#![tactic(auto)]

//! Predictions of block tables from their neighbours: splits, prediction modes, motion vectors
//! and DC values.

mod neighbours;
mod predictions;

pub use predictions::{predict_dc, predict_mode, predict_split, predict_vector};
