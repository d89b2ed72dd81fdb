ghost use Rattle.std.specs.Prelude.{◌≡◌, ◌≤◌, ◌<◌, ◌+◌, ◌-◌, ◌^◌, ◌++◌, ◌↔◌, [], true, length};
ghost use Rattle.std.specs.Prelude.{IfOk, IfErr, IsTrue, Some, pos};
ghost use Rattle.dirac_io.specs.Faults.{Rose};
ghost use Rattle.dirac_io.specs.Reading.{IfBytes, GivesFront, MeetsEnd};
ghost use Rattle.std.specs.Io.KnownBytes.{Keeps};
ghost use Rattle.dirac_decode.specs.Stepping.{IsWholeUnit};
ghost use Rattle.dirac_push.specs.Pushing.{kept_bytes};
ghost use Rattle.dirac_push.specs.Queued.{count_fits, count_waiting, none_fits};

use dirac_common::NoMemory;
use dirac_io::{Got, Source};
use dirac_units::{PARSE_INFO_LENGTH, StreamEnd, read_info};
use std::alloc::Global;
use std::marker::Model;

/// The bytes that were sent and not yet taken. No read fails.
#[derive(Drop)]
pub(crate) struct Queue {
    bytes: Vec<u8>,
    from: usize,
}

impl Model for Queue {
    ghost use Rattle.std.specs.Prelude.{ℕ, ◌≤◌, ◌<◌, ◌+◌, ◌^◌, List, drop, vec_len};

    ghost Value = { List ℕ };

    ghost view = { λ q. drop q.from q.bytes.items };

    ghost invariant = { λ q. (q.from ≤ vec_len q.bytes) × (vec_len q.bytes < 2 ^ 63 + q.from) };
}

impl Queue {
    pub(crate) fn new(alloc: Global) -> Queue
        ensures { result ≡ [] }
    {
        Queue {
            bytes: Vec::new(alloc),
            from: 0,
        }
    }

    /// Adds bytes behind those that are there. Where there is no memory for them, none is added.
    pub(crate) fn add(&mut self, bytes: &[u8]) -> Result<(), NoMemory>
        requires { count_waiting self.old + length bytes.now < 2 ^ 63 }
        ensures added { IfOk result (λ _. self.new ≡ self.old ++ bytes.now) }
        ensures no_memory { IfErr result (λ _. self.new ≡ self.old) }
    {
        if self.from >= self.bytes.len() - self.from {
            self.close_gap();
        }
        if self.bytes.extend_from_slice(bytes).is_ok() {
            return Ok(());
        }
        self.close_gap();
        self.bytes.extend_from_slice(bytes)?;
        Ok(())
    }

    /// Drops the bytes that were taken. Where it is done as soon as those left are no more, a byte is moved at most
    /// once on the average.
    fn close_gap(&mut self)
        ensures { self.new ≡ self.old }
    {
        let len = self.bytes.len();
        let rest = len - self.from;
        self.bytes.as_mut_slice().copy_within(self.from..len, 0);
        self.bytes.truncate(rest);
        self.from = 0;
    }

    /// Gives up the bytes there, with their memory, where an end, a fault or a stop was met.
    #[tactic(auto, using(crate::proofs::Passing::none_kept))]
    pub(crate) fn give_up(&mut self, stream_end: StreamEnd)
        ensures { self.new ≡ kept_bytes stream_end self.old }
    {
        if let StreamEnd::Going = stream_end {
            return;
        }
        *self = Queue::new(*self.bytes.allocator());
    }

    /// Whether the next unit is there as a whole, or its parse info is, which is refused.
    pub(crate) fn has_unit(&self) -> bool
        ensures { IsTrue result ↔ IsWholeUnit self.now }
    {
        let rest = &self.bytes[self.from..];
        if rest.len() < PARSE_INFO_LENGTH {
            return false;
        }
        match read_info(&rest[..PARSE_INFO_LENGTH]) {
            Err(_) => true,
            Ok(info) => info.span() <= rest.len() as u64,
        }
    }
}

impl Source for Queue {
    ghost held = { λ q. Some q };

    ghost faults = { λ _. 0 };

    ghost left = { λ q. count_waiting q };

    ghost left_fits = { λ q. count_fits q };

    ghost faults_fit = { λ _. none_fits };

    fn read(&mut self, buf: &mut [u8]) -> Got {
        let rest = &self.bytes[self.from..];
        if rest.is_empty() {
            return Got::End;
        }
        let n = buf.len().min(rest.len());
        buf[..n].copy_from_slice(&rest[..n]);
        self.from += n;
        Got::Bytes(n)
    }
}
