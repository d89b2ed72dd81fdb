//! What the cut of a stream and joined streams are, and what decoders show for them: definitions and laws, without any
//! code.
#![tactic(auto)]

mod laws;

pub use laws::{
    closed_parts_show_the_whole, closed_pictures_are_alike, cuts_show_their_parts,
    encoded_cuts_show_their_groups, encoded_streams_have_a_point_a_group, examples_of_edits,
    greater_keys_leave_later, joined_streams_show_the_same, numbers_have_their_keys,
    parts_keep_their_lists, pictures_of_parts_are_of_the_whole, units_show_their_sequences,
};
