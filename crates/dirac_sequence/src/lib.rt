//! The sequence header that the encoder writes for its settings. Sequences and how they are read are those of
//! `dirac_sequence_header`, passed on.
#![tactic(auto)]

mod write;

pub use dirac_sequence_header::{Sequence, preset, read_sequence};
pub use write::{sequence_of, write_sequence};
