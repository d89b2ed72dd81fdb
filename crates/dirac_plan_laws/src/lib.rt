//! What holds of all plans, each as the contract of a function that does nothing.
#![tactic(auto)]

mod laws;

pub use laws::{
    items_last, pictures_are_delivered, planned_pictures_are_coded, plans_can_be_coded,
    references_are_listed,
};
