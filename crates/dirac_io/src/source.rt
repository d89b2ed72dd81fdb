ghost use Rattle.std.specs.Prelude.{◌≡◌, ℕ, ◌<◌, ◌≤◌, ◌^◌, List, Option, length};
ghost use Rattle.std.specs.Io.KnownBytes.{Keeps};
ghost use Rattle.dirac_io.specs.Faults.{Rose};
ghost use Rattle.dirac_io.specs.Reading.{IfBytes, GivesFront, MeetsEnd};

/// What a read gave.
#[derive(Clone, Copy, Debug, PartialEq, Eq, Drop)]
pub enum Got {
    /// So many bytes, at the front of the buffer. At least one.
    Bytes(usize),
    /// Nothing is left.
    End,
    /// The read failed. It isn't tried again here: whoever calls decides.
    Failed,
}

/// Where bytes come from: a file, a pipe, a list in memory.
pub trait Source {
    /// The bytes that it still holds, where it tells them.
    ghost held: { Self → Option (List ℕ) };

    /// How often a read has failed.
    ghost faults: { Self → ℕ };

    /// A number that each byte given lowers by at least one.
    ghost left: { Self → ℕ };

    /// Reads up to as many bytes as the buffer has room for.
    fn read(&mut self, buf: &mut [u8]) -> Got
        requires { 0 < length buf.old }
        ensures bytes { IfBytes result (λ n. GivesFront n buf.new
            (held self.old) (held self.new) (left self.old) (left self.new)) }
        ensures end { result ≡ Got.End → MeetsEnd (held self.old) (held self.new)
            (faults self.old) (faults self.new) (left self.old) (left self.new) }
        ensures failed { result ≡ Got.Failed → Rose (faults self.old) (faults self.new) }
        ensures kept { result ≡ Got.Failed → Keeps (held self.old) (held self.new) }
        ensures count { faults self.old ≤ faults self.new }
        ensures left { left self.new ≤ left self.old };

    /// What is left to give is a number below 2^63.
    ghost left_fits: { (s : Self) → left s < 2 ^ 63 };

    /// The count of faults is a number below 2^64.
    ghost faults_fit: { (s : Self) → faults s < 2 ^ 64 };
}
