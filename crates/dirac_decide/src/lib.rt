#![tactic(auto)]

//! How the blocks of an inter picture are predicted: for each unit of each split the mode that costs least, and for
//! each superblock the split that does.

mod best;
mod choice;
mod costs;
mod inputs;
mod inside;
mod laws;
mod modes;
mod prediction_unit;
mod predictor;
mod room;
mod shared;
mod splits;
mod superblock;
mod table;

pub use inputs::RefView;
pub use laws::decided_tables_are_lawful;
pub use table::{decide, decide_by_workers};
