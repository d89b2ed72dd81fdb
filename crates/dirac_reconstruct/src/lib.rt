//! What an encoder does with a coded picture: the bytes of its bands, and the picture that decoders show for it, one
//! beside the other.
#![tactic(auto)]

mod gather;
mod parts;
mod planes;
mod showing;

pub use showing::{Compensated, Finished, Finishing, finish, finish_side_by_side, show};
