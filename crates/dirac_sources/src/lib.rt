//! The pictures that are coded: raw pictures of settings, read from their bytes.
#![tactic(auto)]

mod raw;

pub use raw::{picture_of, raw_length};
