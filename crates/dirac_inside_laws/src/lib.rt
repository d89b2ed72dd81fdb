//! What vectors that keep inside are good for: laws alone, no code.
#![tactic(auto)]

mod laws;

pub use laws::vectors_that_keep_inside_predict_alike;
