//! A decoder that is sent its stream in pieces of any length, and gives its pictures one by one.
//!
//! `specs/Pushing` says what a call does: whatever follows the bytes sent so far, the pictures given, and then those
//! still to come, are those of the whole stream.
#![tactic(auto)]

mod answer;
mod laws;
mod push;
mod queue;
mod rows;

pub use answer::{Answer, Unsent};
pub use laws::pieces_show_what_the_whole_shows;
pub use push::{MOST_SENT, PushDecoder};
pub use rows::put_rows;
