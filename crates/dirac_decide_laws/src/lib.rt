//! What the definitions of modes and splits mean: laws alone, no code.
#![tactic(auto)]

mod laws;

pub use laws::{
    choices_are_first_of_least_cost, decided_tables_cost_least, decided_tables_keep_inside,
};
