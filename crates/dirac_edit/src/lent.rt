ghost use Rattle.std.specs.Prelude.{◌≡◌, ◌<◌, ◌^◌, length};

use dirac_io::{Got, Source};
use std::marker::Model;

/// A source over bytes that stand in memory: no read of it fails.
#[derive(Drop)]
pub(crate) struct LentBytes<'a> {
    rest: &'a [u8],
}

impl<'a> Model for LentBytes<'a> {
    ghost use Rattle.std.specs.Prelude.{List, ℕ, ◌<◌, ◌^◌, length};

    ghost Value = { List ℕ };

    ghost view = { λ s. s.rest.now };

    ghost invariant = { λ s. length s.rest.now < 2 ^ 63 };
}

impl<'a> LentBytes<'a> {
    /// A source that holds these bytes.
    pub(crate) fn of(rest: &'a [u8]) -> LentBytes<'a>
        requires { length rest.now < 2 ^ 63 }
        ensures { result ≡ rest.now }
    {
        LentBytes { rest }
    }
}

impl<'a> Source for LentBytes<'a> {
    ghost use Rattle.std.specs.Prelude.{Some};
    ghost use Rattle.std.proofs.Common.{lit<};
    ghost use Rattle.dirac_io.specs.Memory.{count_left, left_of_fits};

    ghost held = { λ s. Some s };

    ghost faults = { λ _. 0 };

    ghost left = { λ s. count_left s };

    ghost left_fits = { λ s. left_of_fits s };

    ghost faults_fit = { λ _. lit< tt };

    fn read(&mut self, buf: &mut [u8]) -> Got {
        if self.rest.is_empty() {
            return Got::End;
        }
        let n = buf.len().min(self.rest.len());
        let (front, rest) = self.rest.split_at(n);
        buf[..n].copy_from_slice(front);
        self.rest = rest;
        Got::Bytes(n)
    }
}
