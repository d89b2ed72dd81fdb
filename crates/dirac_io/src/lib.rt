//! The outside of the codec: where bytes come from, where they go, and what may hold a worker at a row.
//! Nothing above this crate knows files, pipes or terminals.
#![tactic(auto)]

mod adapters;
mod failing;
mod filling;
mod memory;
mod null;
mod sink;
mod source;

pub use adapters::{ReaderSource, WriterSink};
pub use dirac_common::{OpenGate, RowGate};
pub use filling::{Filled, fill};
pub use memory::{MemSink, MemSource};
pub use null::NullSink;
pub use sink::{Put, Sink, Took, Unwritten, put_all};
pub use source::{Got, Source};
