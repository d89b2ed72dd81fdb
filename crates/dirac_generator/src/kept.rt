ghost use Rattle.std.specs.Prelude.{◌≡◌, ◌<◌, ◌≤◌, ◌^◌, [], Some, length};
ghost use Rattle.std.specs.Io.KnownBytes.{Keeps};
ghost use Rattle.dirac_io.specs.Writing.{IfTaken, TakesFront};

use dirac_io::{Sink, Took};
use std::alloc::Global;
use std::marker::Model;

/// A sink that keeps all bytes in memory. A write never fails, but there may be no memory.
#[derive(Drop)]
pub struct KeptBytes {
    bytes: Vec<u8>,
}

impl Model for KeptBytes {
    ghost use Rattle.std.specs.Prelude.{List, ℕ};

    ghost Value = { List ℕ };

    ghost view = { λ s. s.bytes.items };
}

impl KeptBytes {
    pub fn new(alloc: Global) -> KeptBytes
        ensures { result ≡ [] }
    {
        KeptBytes {
            bytes: Vec::new(alloc),
        }
    }

    /// The bytes taken so far.
    pub fn as_slice(&self) -> &[u8]
        ensures { result.now ≡ self.now }
    {
        &self.bytes
    }
}

impl Sink for KeptBytes {
    ghost use Rattle.std.proofs.Common.{lit<};

    ghost taken = { λ s. Some s };

    ghost faults = { λ _. 0 };

    ghost faults_fit = { λ _. lit< tt };

    fn write(&mut self, piece: &[u8]) -> Took
        requires { 0 < length piece.now }
        ensures bytes { IfTaken result (λ n. TakesFront n piece.now (Some self.old) (Some self.new)) }
        ensures not_failed { result ≡ Took.Failed → 1 ≤ 0 }
        ensures no_memory { result ≡ Took.NoMemory → Keeps (Some self.old) (Some self.new) }
    {
        if self.bytes.extend_from_slice(piece).is_err() {
            return Took::NoMemory;
        }
        Took::Bytes(piece.len())
    }
}
