//! One picture decoded: read from the payload of its unit, and rebuilt from the pictures that it refers to; and the
//! pictures that later ones may refer to, with those that were decoded from them ahead.
#![tactic(auto)]

mod ahead;
mod decoded_picture;
mod decoding_refs;
mod in_turn;

pub use ahead::DecodedAhead;
pub use decoded_picture::DecodedPicture;
pub use decoding_refs::DecodingRefs;
pub use in_turn::{decode_picture, rebuild_picture};
