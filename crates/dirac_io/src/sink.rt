ghost use Rattle.std.specs.Prelude.{◌≡◌, ℕ, ◌<◌, ◌≤◌, ◌^◌, List, Option, OnOk, Err, length};
ghost use Rattle.std.specs.Io.KnownBytes.{Keeps, Appends};
ghost use Rattle.dirac_io.specs.Faults.{Rose};
ghost use Rattle.dirac_io.specs.Writing.{IfTaken, TakesFront, AppendsFront};

/// What a write took.
#[derive(Clone, Copy, Debug, PartialEq, Eq, Drop)]
pub enum Took {
    /// So many bytes from the front of the piece. At least one.
    Bytes(usize),
    /// The write failed, and nothing was taken.
    Failed,
    /// There was no memory to keep the bytes, and nothing was taken.
    NoMemory,
}

/// Where bytes go: a file, a pipe, a list in memory.
pub trait Sink {
    /// The bytes taken so far, where it tells them.
    ghost taken: { Self → Option (List ℕ) };

    /// How often a write or a flush has failed.
    ghost faults: { Self → ℕ };

    /// Takes bytes from the front of a piece, perhaps not all of them.
    fn write(&mut self, piece: &[u8]) -> Took
        requires { 0 < length piece.now }
        ensures bytes { IfTaken result (λ n. TakesFront n piece.now (taken self.old) (taken self.new)) }
        ensures failed { result ≡ Took.Failed → Rose (faults self.old) (faults self.new) }
        ensures kept { result ≡ Took.Failed → Keeps (taken self.old) (taken self.new) }
        ensures no_memory { result ≡ Took.NoMemory → Keeps (taken self.old) (taken self.new) }
        ensures count { faults self.old ≤ faults self.new };

    /// The count of faults is a number below 2^64.
    ghost faults_fit: { (s : Self) → faults s < 2 ^ 64 };
}

/// What became of a whole piece.
#[derive(Clone, Copy, Debug, PartialEq, Eq, Drop)]
pub enum Put {
    /// All of it was taken.
    All,
    /// A write failed. A front of the piece was taken.
    Failed,
    /// A write found no memory. A front of the piece was taken.
    NoMemory,
}

/// Why a piece wasn't taken whole: a front of it was.
#[derive(Clone, Copy, Debug, PartialEq, Eq, Drop)]
pub enum Unwritten {
    /// A write failed.
    Failed,
    /// A write found no memory.
    NoMemory,
}

impl Put {
    /// The same as a `Result`, for `?`.
    pub fn done(self) -> Result<(), Unwritten>
        ensures all { OnOk result (self ≡ Put.All) }
        ensures failed { result ≡ Err Unwritten.Failed → self ≡ Put.Failed }
        ensures no_memory { result ≡ Err Unwritten.NoMemory → self ≡ Put.NoMemory }
    {
        match self {
            Put::All => Ok(()),
            Put::Failed => Err(Unwritten::Failed),
            Put::NoMemory => Err(Unwritten::NoMemory),
        }
    }
}

/// Writes a whole piece, in as many writes as the sink wants. A piece may be empty. It stops at the
/// first write that fails and doesn't try it again.
pub fn put_all<K: Sink>(sink: &mut K, piece: &[u8]) -> Put
    ensures all { result ≡ Put.All → Appends (K.taken sink.old) (K.taken sink.new) piece.now }
    ensures front { AppendsFront (K.taken sink.old) (K.taken sink.new) piece.now }
    ensures failed { result ≡ Put.Failed → Rose (K.faults sink.old) (K.faults sink.new) }
    ensures count { K.faults sink.old ≤ K.faults sink.new }
{
    let mut rest = piece;
    'writing: while !rest.is_empty() {
        match sink.write(rest) {
            Took::Bytes(n) => rest = &rest[n..],
            Took::Failed => return Put::Failed,
            Took::NoMemory => return Put::NoMemory,
        }
    }
    Put::All
}
