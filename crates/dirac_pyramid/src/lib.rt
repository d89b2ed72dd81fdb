#![tactic(auto)]

//! The pyramid of a plane: smaller and smaller copies of it, on which motion is searched from coarse to fine.

mod pyramid;
mod shared;
mod shrink;

pub use pyramid::Pyramid;
