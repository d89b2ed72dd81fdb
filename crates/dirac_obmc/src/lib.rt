//! Motion compensation: what the overlapped blocks of an inter picture predict for a plane.
#![tactic(auto)]

mod columns;
mod direction;
mod motion;
mod of_samples;
mod predict;
mod predicted;
mod room;
mod rows;
mod shared;
mod sums;
mod values;
mod weights;

pub use columns::ColumnWeights;
pub use dirac_common::Component;
pub use motion::Motion;
pub use of_samples::samples_predict_samples;
pub use predict::{column_weights, predict_plane, predict_rows, predict_rows_with};
pub use predicted::Predicted;
pub use weights::{dc_blocks_predict_their_value, weight, weights_sum_to_64, weights_sum_to_eight};
