//! What becomes of a source that is cut into parts of whole groups, each encoded apart: laws alone, no code.
#![tactic(auto)]

mod laws;

pub use laws::{
    joined_parts_show_the_whole, parts_join_to_the_whole, payloads_keep_all_but_numbers,
    plans_go_on, sources_behind_are_coded_alike,
};
