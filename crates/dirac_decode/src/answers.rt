use dirac_common::{Fault, Picture};
use dirac_content::Tally;

/// What the next picture of a stream is.
#[derive(Debug, Drop)]
pub enum Next {
    Shown(Picture),
    /// All pictures were given, and the stream ends lawfully.
    End,
    /// All pictures before the stream's first fault were given.
    Fault(Fault),
    /// A read of the source failed.
    ReadFault,
    NoMemory,
    /// An earlier call answered `ReadFault` or `NoMemory`.
    Stopped,
}

/// How the decoding of a whole stream ended.
#[derive(Clone, Copy, Debug, PartialEq, Eq, Drop)]
pub enum Decoded {
    Done(Tally),
    Fault(Fault, Tally),
    /// A read of the source failed.
    ReadFault,
    /// A write to the sink failed.
    WriteFault,
    NoMemory,
}
