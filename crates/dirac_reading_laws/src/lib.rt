//! Laws of reading: a header is refused exactly at the first of its fields that breaks a rule, each header is spelled
//! or breaks, each list of bytes shows exactly one outcome, and each fault lies in the bytes that show it.
#![tactic(auto)]

mod laws;

pub use laws::{
    a_stream_shows_one_outcome, faults_lie_in_their_bytes,
    headers_are_refused_where_a_field_breaks, headers_are_spelled_or_break,
};
