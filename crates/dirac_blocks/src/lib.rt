//! Block tables: which references each block of an inter picture uses, with which vectors or DC values.
#![tactic(auto)]

mod laws;
mod list_reader;
mod list_writer;
mod parts;
mod reader;
mod split_reader;
mod split_writer;
mod unit_reader;
mod unit_writer;
mod writer;

pub use dirac_block_table::{Block, BlockData, grey_block, unit_blocks, units_across};
pub use laws::{carried_lists_are_read, read_lists_are_carried, refused_lists_break_off};
pub use reader::read_blocks;
pub use writer::write_blocks;
