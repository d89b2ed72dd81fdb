//! The base video formats of the standard, in one table that settings and sequence headers both read.
#![tactic(auto)]

mod base_formats;

pub use base_formats::{BaseFormat, LAST_BASE, base_format};
