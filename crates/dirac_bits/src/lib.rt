//! The bits of a payload: numbers, flags, literals and blocks, read and written one after another.
//!
//! `specs/Syntax` has the grammar in which headers are written; `specs/Spelling` says which bits spell
//! a header's value, and the laws in `laws` join that to what is read.
#![tactic(auto)]

mod bit_place;
mod laws;
mod numbers;
mod reader;
mod spelling;
mod writer;

pub use laws::{headers_are_read_as_spelled, numbers_end_themselves};
pub use reader::BitReader;
pub use writer::BitWriter;
