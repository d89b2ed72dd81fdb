#![tactic(auto)]

//! The coefficients of subbands, read from their arithmetic blocks and written to them.

mod band;
mod band_writer;
mod block;
mod block_writer;
mod codeblock_writer;
mod codeblocks;
mod coefficients;
mod contexts;
mod indices;
mod laws;
mod layout;
mod numbers;
mod offsets;
mod rows;
mod shared;
mod site;
mod site_laws;
mod site_reader;
mod spans;
mod store;
mod value_writer;
mod values;
mod wide_values;
mod zeros;

pub use band::read_band;
pub use band_writer::write_band;
pub use block::read_block;
pub use block_writer::write_block;
pub use coefficients::Coefficients;
pub use indices::Indices;
pub use laws::{a_block_reads_to_its_band, blocks_are_short, one_band_is_carried};
pub use layout::{BandBlock, BandLayout, CodedBand};
pub use site::{Site, find_site};
pub use site_laws::a_band_is_read_where_its_block_is_found;
pub use site_reader::read_at;
pub use spans::is_parted;
