//! What the search's definitions mean: laws alone, no code.
#![tactic(auto)]

mod laws;

pub use laws::{
    the_first_of_least_cost_is_least, vectors_cost_least, vectors_keep_inside_where_asked,
    workers_change_no_field,
};
