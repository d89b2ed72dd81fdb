//! Rows of a picture dealt to workers: threads share claims, each row goes to one seat, and the answers are gathered
//! in the order of the rows.
#![tactic(auto)]

mod claims;
mod gather;
mod map;
mod ranges;
mod rule;
mod shared;
mod three;
mod view;

pub use claims::{Claimed, RowClaims, RowSeat};
pub use map::map_rows;
pub use ranges::split_rows;
pub use three::{take_first, three_of};
