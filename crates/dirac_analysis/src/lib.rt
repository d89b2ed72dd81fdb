//! From the samples of a plane, or from what a prediction leaves of them, to its quantised subbands: what the decoder's
//! residual undoes.
#![tactic(auto)]

mod analysed;
mod band;
mod choosing;
mod coded;
mod finer;
mod laws;
mod levels;
mod narrow;
mod padding;
mod plane;
mod quantising;
mod shared;
mod split;

pub use analysed::{AnalysedBand, AnalysedPlane};
pub use choosing::FLAT_BELOW;
pub use laws::planes_are_coded;
pub use plane::{analyse, analyse_plane};
pub use quantising::quantise_plane;
