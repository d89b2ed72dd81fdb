//! The commands that take a stream: its units listed, decoded, a part of it cut, its sequences joined.
#![tactic(auto)]

mod cutting;
mod decoding;
mod joining;
mod line;
mod listing;

pub use cutting::cut;
pub use decoding::decode;
pub use joining::join;
pub use listing::list;
