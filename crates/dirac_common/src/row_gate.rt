use std::marker::Sync;

/// What a worker passes before a row of a map of rows, or a part of all planes; the call that has it tells which.
/// It answers nothing and changes no result: a test may hold a worker there until another one comes.
pub trait RowGate: Sync {
    /// Called once for each row of a map of rows, or for each part, before it is worked on. Both count from 0.
    fn enter(&self, row: u32);
}

/// A gate that holds nobody.
#[derive(Clone, Copy, Debug, Drop)]
pub struct OpenGate;

impl RowGate for OpenGate {
    fn enter(&self, _row: u32) {}
}
