//! Cutting and joining streams without recoding them: the payloads of pictures are copied as they stand.
//!
//! `specs/Edits` says what is answered and written, the definitions of dirac_edit_laws what a part and a joined stream
//! are.
#![tactic(auto)]

mod answers;
mod bounds;
mod check;
mod course;
mod cut;
mod join;
mod joining;
mod keys;
mod lent;
mod listed;
mod numbers;
mod open;
mod part;
mod reading;
mod sequence;
mod units;
mod writing;

pub use answers::Edited;
pub use cut::cut_stream;
pub use join::join_stream;
