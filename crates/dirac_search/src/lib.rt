#![tactic(auto)]

//! The motion search of the encoder: for each block of a picture the vector into a reference that costs least, from
//! coarse to fine.

mod around;
mod byte_sums;
mod bytes;
mod candidate_list;
mod eight_columns;
mod field;
mod kept;
mod least;
mod places;
mod shared;
mod stage;
mod stage_candidates;
mod stages;
mod sub_bytes;
mod sub_sums;
mod tried;
mod whole_sums;
mod window_costs;

pub use candidate_list::CandidateList;
pub use field::Field;
pub use least::best;
pub use stage::{Search, Stage};
pub use stage_candidates::candidates;
pub use stages::{search_field, search_rows};
pub use window_costs::cost;
