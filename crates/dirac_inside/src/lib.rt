#![tactic(auto)]

//! Vectors that keep inside: those that lead from a block to samples of the reference alone, and to half samples
//! between them, in all planes. What they predict is the same however a decoder extends its references.

mod picture_blocks;
mod range;
mod shared;

pub use picture_blocks::PictureBlocks;
pub use range::{VectorRange, inside_range};
