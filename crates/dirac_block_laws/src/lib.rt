//! What holds of whole block tables and the blocks that stand for them.
#![tactic(auto)]

mod laws;

pub use laws::{carried_tables_are_read, read_tables_are_carried};
