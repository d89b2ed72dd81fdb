//! The decoder for C: what is sent, given and copied is that of `dirac_push`, over a handle in the caller's memory.
//!
//! No export requires more than that C keeps the rules of the header: each answer that a caller could provoke has a
//! number.
#![tactic(auto)]

mod causes;
mod codes;
mod exports;
mod handle;
mod structs;

pub use codes::{
    CLOSED, END, FAULT, FINISHED, NEEDS, NO_MEMORY, NO_PICTURE, OK, PICTURE, SMALL, STOPPED,
    UNKNOWN, VERSION,
};
pub use handle::Handle;
pub use structs::{Format, Frame};
