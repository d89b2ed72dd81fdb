#![tactic(auto)]

//! The block table of an inter picture, from its references: the motion search in each of them, then the choice of
//! modes and splits. Pyramids are made once a picture, and upconverted luma where its reference doesn't keep it.

mod choose;
mod laws;
mod lent;
mod search;
mod shared;

pub use choose::{choose_blocks, choose_from};
pub use laws::chosen_tables_fit;
pub use lent::{Luma, Lumas, Reference, References};
