ghost use Rattle.std.specs.Prelude.{◌≡◌, ◌<◌, ◌≤◌, ◌^◌, length, None};

use crate::{Sink, Took};

/// A sink that takes everything and keeps nothing.
#[derive(Clone, Copy, Debug, Drop)]
pub struct NullSink;

impl Sink for NullSink {
    ghost use Rattle.std.proofs.Common.{lit<};

    ghost taken = { λ _. None };

    ghost faults = { λ _. 0 };

    ghost faults_fit = { λ _. lit< tt };

    fn write(&mut self, piece: &[u8]) -> Took
        requires { 0 < length piece.now }
        ensures { result ≡ Took.Bytes (length piece.now) }
    {
        Took::Bytes(piece.len())
    }
}
