//! A block table: which references each block of an inter picture uses, with which vectors or DC values, and what a
//! block's neighbours predict.
#![tactic(auto)]

mod block;
mod filling;
mod neighbours;
mod reference;
mod shared;
mod superblock;
mod table;

pub use block::Block;
pub use neighbours::{
    dc, predict_split_at, predicted_dc, predicted_use_bit, predicted_vector, use_bit, vector,
};
pub use reference::Reference;
pub use superblock::{unit_blocks, units_across};
pub use table::{BlockData, grey_block};
