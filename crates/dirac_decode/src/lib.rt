//! The decoder: from the bytes of a stream to its pictures, in order of delivery, up to the first fault.
//!
//! `specs/StreamState` of dirac_content says what the content of each unit does, its `specs/Shown` what a stream shows.
#![tactic(auto)]

mod advance;
mod answers;
mod decoder;
mod in_turn;
mod state;
mod step;
mod stream;

pub use answers::{Decoded, Next};
pub use decoder::Decoder;
pub use dirac_content::{
    Opened, Tally, a_stream_shows_its_sequences, byte, named, named_reference, put_picture,
    what_leaves_is_shown,
};
pub use dirac_decode_picture::{DecodedPicture, DecodingRefs, decode_picture};
pub use dirac_picture::{CodedMotion, CodedPicture, CodedResidual, PlaneBands, read_picture};
pub use dirac_rebuild::{
    Moved, height_of, plane_motion, plane_of, predict, predict_from, predict_with,
    predicted_samples, rebuild, residual_of, unfinished_of, up_plane, width_of,
};
pub use stream::{decode_stream, decode_stream_by};
