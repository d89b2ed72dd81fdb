//! What is chosen for the pictures of a stream, and that the number of workers changes nothing: laws alone, no code.
#![tactic(auto)]

mod laws;

pub use laws::{
    chosen_tables_keep_inside, coded_vectors_keep_inside, inter_pictures_cost_least,
    workers_change_nothing,
};
