//! The encoder: from raw pictures to the bytes of a stream, and the pictures that these bytes decode to.
#![tactic(auto)]

mod ahead;
mod fitting;
mod lot;
mod same;
mod shared;
mod stream;

pub use dirac_encode_laws::{Coded, Encoded, streams_show_their_pictures};
pub use dirac_encode_picture::{choose_blocks, code_picture, code_with_blocks};
pub use dirac_sources::{picture_of, raw_length};
pub use fitting::fit_picture;
pub use stream::{StreamCoder, encode_by, encode_stream};
