//! What a stream holds: the picture that a coded picture stands for, what the content of each unit does, and what the
//! whole stream shows; and how a picture that is shown is written.
//!
//! `specs/Content` says which picture a coded picture stands for, `specs/StreamState` what the content of each unit
//! does, `specs/Shown` what a stream shows.
#![tactic(auto)]

mod laws;
mod lookups;
mod opened;
mod shared;
mod tally;
mod written;

pub use laws::{a_stream_shows_its_sequences, what_leaves_is_shown};
pub use lookups::{named, named_reference};
pub use opened::{Opened, behind_parse_info, have_same_payload, opened_by};
pub use tally::Tally;
pub use written::{byte, put_picture};
