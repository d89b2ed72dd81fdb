//! Pictures rebuilt: what their blocks predict from their references, and the residual that is added.
#![tactic(auto)]

mod compensate;
mod motion_rows;
mod picture;
mod planes;

pub use compensate::{
    Moved, ReferencePlane, plane_motion, predict, predict_from, predict_with, up_of_reference,
    up_plane,
};
pub use picture::{predicted_samples, rebuild, rebuild_in};
pub use planes::{height_of, plane_of, residual_of, unfinished_of, width_of};
