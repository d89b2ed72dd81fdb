//! What streams show that are put one behind another, cut and joined: laws alone, no code.
#![tactic(auto)]

mod laws;

pub use laws::{
    cuts_joined_show_the_whole_cut, cuts_of_all_show_all, joined_streams_stay, streams_follow,
};
