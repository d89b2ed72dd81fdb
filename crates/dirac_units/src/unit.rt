ghost use Rattle.std.specs.Prelude.{◌≡◌};

use crate::info::ParseInfo;
use dirac_common::Fault;
use std::marker::Model;

/// The bytes of a unit behind its parse info.
#[derive(Debug, Drop)]
pub struct Payload {
    bytes: Vec<u8>,
}

impl Model for Payload {
    ghost use Rattle.std.specs.Prelude.{List, ℕ};

    ghost Value = { List ℕ };

    ghost view = { λ p. p.bytes.items };
}

impl Payload {
    pub fn of(bytes: Vec<u8>) -> Payload
        ensures { result ≡ bytes.items }
    {
        Payload { bytes }
    }

    pub fn bytes(&self) -> &[u8]
        ensures { result.now ≡ self.now }
    {
        &self.bytes
    }

    pub fn into_bytes(self) -> Vec<u8>
        ensures { result.items ≡ self }
    {
        self.bytes
    }
}

/// A unit: its number, from 0, the number of its first byte, its parse info, and its payload where
/// that is kept.
#[derive(Debug, Drop)]
pub struct Unit {
    pub index: u64,
    pub at: u64,
    pub info: ParseInfo,
    pub payload: Payload,
}

/// What the next unit of a source is.
#[derive(Debug, Drop)]
pub enum UnitStep {
    Unit(Unit),
    /// The input ends behind an end unit.
    End,
    /// The first fault of the cutting.
    Fault(Fault),
    /// A read of the source failed.
    ReadFault,
    NoMemory,
    /// An earlier call answered `ReadFault` or `NoMemory`.
    Stopped,
}

/// What later calls answer, where something was met.
#[derive(Clone, Copy, Debug, PartialEq, Eq)]
pub enum StreamEnd {
    /// Nothing yet: units go on.
    Going,
    Ended,
    Faulted(Fault),
    Stopped,
}
