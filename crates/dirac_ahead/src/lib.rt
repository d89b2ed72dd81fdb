//! A source that reads ahead: the bytes of whole units stand in memory before they are asked for.
#![tactic(auto)]

mod ahead;
mod begun;
mod held;
mod lent;
mod look;
mod pieces;
mod units;

pub use ahead::Ahead;
pub use begun::Begun;
pub use lent::Lent;
pub use look::Look;
pub use units::Plan;
