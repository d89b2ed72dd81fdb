#![tactic(auto)]

//! The quantiser of wavelet coefficients.

mod quantiser;

pub use quantiser::{
    MOST_QUARTERS, factor, narrow_limit, offset, reciprocal, reduce, reduce_at, reduce_by,
    reduce_narrow, restore, restore_narrow,
};
