use dirac_common::Fault;

/// What comes next, of the bytes that were sent so far.
#[derive(Clone, Copy, Debug, PartialEq, Eq, Drop)]
pub enum Answer {
    /// A picture: `shown` lends it until the next call.
    Shown,
    /// More bytes are needed, or that no more follow.
    Needs,
    /// All pictures were given, and the stream ends lawfully.
    End,
    /// All pictures before the stream's first fault were given.
    Fault(Fault),
    NoMemory,
    /// An earlier call answered `NoMemory`.
    Stopped,
}

/// Why bytes weren't added.
#[derive(Clone, Copy, Debug, PartialEq, Eq, Drop)]
pub enum Unsent {
    NoMemory,
    /// It was said before that no more bytes follow.
    Finished,
}
