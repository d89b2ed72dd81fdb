//! The planes of a picture as an encoder makes them, one after the other or side by side: less what is predicted for
//! them, analysed and quantised.
#![tactic(auto)]

mod beside;
mod difference;
mod predictions;
mod residual;

pub use beside::{Planes, side_by_side};
pub use predictions::Predictions;
pub use residual::{
    AnalysedPlanes, Analysing, Quantising, analyse_planes, analyse_side_by_side, quantise_planes,
    quantise_side_by_side,
};
