//! Runs of the commands over memory, for the crates of tests: small streams, runs in pieces whose calls may fail, and
//! comparisons of what they leave.
#![tactic(auto)]

mod comparing;
mod streams;
mod tries;

pub use comparing::{DECODE, PARDECODE, decoded, leaves, shows, writes};
pub use streams::{GREY, LINES, PLAIN, SIZES, SMALL, STREAM, faulty, header, joined, noise};
pub use tries::{Left, Outside, counts_its_fault, pieces, tried, words_of};
