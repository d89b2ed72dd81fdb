//! What is predicted for the planes of an inter picture.

use dirac_obmc::Predicted;

/// What is predicted for each plane of an inter picture, not clipped. It is taken away from the source, and added again
/// to what is left of it, so that each plane is predicted once.
#[derive(Drop)]
pub struct Predictions {
    pub y: Predicted,
    pub u: Predicted,
    pub v: Predicted,
}
