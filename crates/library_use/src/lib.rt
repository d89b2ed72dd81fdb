//! One caller of the decoder and one of the encoder, over bytes in memory: `docs/LIBRARY.md` shows them.
#![tactic(auto)]

mod decode;
mod encode;

pub use decode::raw_pictures;
pub use encode::{NotCoded, coded};
