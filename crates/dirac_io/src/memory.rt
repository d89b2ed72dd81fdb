ghost use Rattle.std.specs.Prelude.{◌≡◌, ◌<◌, ◌≤◌, ◌^◌, [], Some, length, min};
ghost use Rattle.std.specs.Io.KnownBytes.{Keeps};
ghost use Rattle.dirac_io.specs.Faults.{Rose, held_count, clipped_fits};
ghost use Rattle.dirac_io.specs.Reading.{IfBytes, GivesFront, MeetsEnd};
ghost use Rattle.dirac_io.specs.Writing.{IfTaken, TakesFront};
ghost use Rattle.dirac_io.specs.Calls.{none_called, called};
ghost use Rattle.dirac_io.specs.Calls.{fails as is_failing};
ghost use Rattle.dirac_io.specs.Memory.{feed_answer, fed, count_left, left_of_fits, AnswersWrite, stored};

use crate::failing::Failing;
use crate::{Got, Sink, Source, Took};
use std::alloc::Global;
use std::marker::Model;

/// A source over bytes in memory, which gives at most that many bytes a read and fails at the calls
/// that it is told, counted from 0.
#[derive(Drop)]
pub struct MemSource {
    bytes: Vec<u8>,
    from: usize,
    most: usize,
    calls: Failing,
}

impl Model for MemSource {
    ghost use Rattle.std.specs.Prelude.{◌≤◌, drop, vec_len};
    ghost use Rattle.dirac_io.specs.Memory.{Feed};

    ghost Value = { Feed };

    ghost view = { λ s. record { bytes = drop s.from s.bytes.items; most = s.most; calls = s.calls } };

    ghost invariant = { λ s. (s.from ≤ vec_len s.bytes) × (1 ≤ s.most) };
}

impl MemSource {
    pub fn new(bytes: Vec<u8>, most: usize, failing: Vec<u64>) -> MemSource
        requires { 1 ≤ most }
        ensures { result ≡ record { bytes = bytes.items; most = most; calls = none_called failing.items } }
    {
        MemSource {
            bytes,
            from: 0,
            most,
            calls: Failing::new(failing),
        }
    }

    /// How many reads have failed.
    pub fn count(&self) -> u64
        ensures { result ≡ self.now.calls.count }
    {
        self.calls.count()
    }
}

impl Source for MemSource {
    ghost held = { λ s. Some s.bytes };

    ghost faults = { λ s. held_count s.calls.count };

    ghost left = { λ s. count_left s.bytes };

    ghost left_fits = { λ s. left_of_fits s.bytes };

    ghost faults_fit = { λ s. clipped_fits s.calls.count };

    fn read(&mut self, buf: &mut [u8]) -> Got
        requires { 0 < length buf.old }
        ensures bytes { IfBytes result (λ n. GivesFront n buf.new
            (Some self.old.bytes) (Some self.new.bytes) (count_left self.old.bytes) (count_left self.new.bytes)) }
        ensures end { result ≡ Got.End → MeetsEnd (Some self.old.bytes) (Some self.new.bytes)
            (held_count self.old.calls.count) (held_count self.new.calls.count) (count_left self.old.bytes)
            (count_left self.new.bytes) }
        ensures failed { result ≡ Got.Failed
            → Rose (held_count self.old.calls.count) (held_count self.new.calls.count) }
        ensures kept { result ≡ Got.Failed → Keeps (Some self.old.bytes) (Some self.new.bytes) }
        ensures count { held_count self.old.calls.count ≤ held_count self.new.calls.count }
        ensures left { count_left self.new.bytes ≤ count_left self.old.bytes }
        ensures answer { result ≡ feed_answer self.old (length buf.old) }
        ensures fed { self.new ≡ fed self.old (length buf.old) }
    {
        if self.calls.call() {
            return Got::Failed;
        }
        let rest = &self.bytes[self.from..];
        if rest.is_empty() {
            return Got::End;
        }
        let n = self.most.min(buf.len()).min(rest.len());
        buf[..n].copy_from_slice(&rest[..n]);
        self.from += n;
        Got::Bytes(n)
    }
}

/// A sink over bytes in memory, which takes at most that many bytes a write and fails at the calls
/// that it is told, counted from 0.
#[derive(Drop)]
pub struct MemSink {
    taken: Vec<u8>,
    most: usize,
    calls: Failing,
}

impl Model for MemSink {
    ghost use Rattle.std.specs.Prelude.{◌≤◌};
    ghost use Rattle.dirac_io.specs.Memory.{Store};

    ghost Value = { Store };

    ghost view = { λ s. record { taken = s.taken.items; most = s.most; calls = s.calls } };

    ghost invariant = { λ s. 1 ≤ s.most };
}

impl MemSink {
    pub fn new(alloc: Global, most: usize, failing: Vec<u64>) -> MemSink
        requires { 1 ≤ most }
        ensures { result ≡ record { taken = []; most = most; calls = none_called failing.items } }
    {
        MemSink {
            taken: Vec::new(alloc),
            most,
            calls: Failing::new(failing),
        }
    }

    /// The bytes taken so far.
    pub fn taken(&self) -> &[u8]
        ensures { result.now ≡ self.now.taken }
    {
        &self.taken
    }

    /// How many writes have failed.
    pub fn count(&self) -> u64
        ensures { result ≡ self.now.calls.count }
    {
        self.calls.count()
    }
}

impl Sink for MemSink {
    ghost taken = { λ s. Some s.taken };

    ghost faults = { λ s. held_count s.calls.count };

    ghost faults_fit = { λ s. clipped_fits s.calls.count };

    fn write(&mut self, piece: &[u8]) -> Took
        requires { 0 < length piece.now }
        ensures bytes { IfTaken result (λ n. TakesFront n piece.now (Some self.old.taken) (Some self.new.taken)) }
        ensures failed { result ≡ Took.Failed
            → Rose (held_count self.old.calls.count) (held_count self.new.calls.count) }
        ensures kept { result ≡ Took.Failed → Keeps (Some self.old.taken) (Some self.new.taken) }
        ensures no_memory { result ≡ Took.NoMemory → Keeps (Some self.old.taken) (Some self.new.taken) }
        ensures count { held_count self.old.calls.count ≤ held_count self.new.calls.count }
        ensures answer { AnswersWrite result (is_failing self.old.calls) (min self.old.most (length piece.now)) }
        ensures stored { self.new ≡ stored self.old result piece.now }
    {
        if self.calls.call() {
            return Took::Failed;
        }
        let n = self.most.min(piece.len());
        if self.taken.extend_from_slice(&piece[..n]).is_err() {
            return Took::NoMemory;
        }
        Took::Bytes(n)
    }
}
