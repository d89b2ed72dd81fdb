ghost use Rattle.std.specs.Prelude.{◌≡◌, ◌+◌, ◌≤◌, ◌<◌, ◌^◌, [], ◌∷◌, ◌++◌, IfOk, OnOk, OnErr, unsigned_abs};
ghost use Rattle.dirac_common.specs.Numbers as numbers;
ghost use Rattle.dirac_common.specs.Bits.{bits_of};
ghost use Rattle.dirac_bits.specs.Writing.{bits_below, gap, IsWhole};

use crate::spelling::{Run, joined, signed, unsigned, whole_bytes};
use dirac_common::NoMemory;
use std::alloc::Global;
use std::marker::Model;

/// Writes fields behind one another, from the most significant bit of each byte on.
///
/// It is seen as the list of the bits written. After want of memory it is as it was.
#[derive(Drop)]
pub struct BitWriter {
    bytes: Vec<u8>,
    /// The bits behind the last whole byte.
    pending: u8,
    used: u8,
}

impl Model for BitWriter {
    ghost use Rattle.std.specs.Prelude.{Bool, List, ◌++◌, ◌<◌, ◌^◌};
    ghost use Rattle.dirac_common.specs.Bits.{bits_of};
    ghost use Rattle.dirac_bits.specs.Writing.{bits_below};

    ghost Value = { List Bool };

    ghost view = { λ w. bits_of w.bytes.items ++ bits_below w.used w.pending };

    ghost invariant = { λ w. (w.used < 8) × (w.pending < 2 ^ w.used) };
}

impl BitWriter {
    /// A writer of no bits.
    pub fn new(alloc: Global) -> BitWriter
        ensures { result ≡ [] }
    {
        BitWriter {
            bytes: Vec::new(alloc),
            pending: 0,
            used: 0,
        }
    }

    /// One bit, 1 for true.
    pub fn bit(&mut self, value: bool) -> Result<(), NoMemory>
        ensures ok { OnOk result (self.new ≡ self.old ++ value ∷ []) }
        ensures err { OnErr result (self.new ≡ self.old) }
    {
        self.put(Run {
            count: 1,
            number: u128::from(value),
        })
    }

    /// An unsigned number in interleaved exp-Golomb code.
    pub fn uint(&mut self, value: u64) -> Result<(), NoMemory>
        requires { value + 1 < 2 ^ 39 }
        ensures ok { OnOk result (self.new ≡ self.old ++ numbers.uint value) }
        ensures err { OnErr result (self.new ≡ self.old) }
    {
        self.put(unsigned(value))
    }

    /// A signed number: an unsigned one and, where it isn't 0, its sign.
    pub fn sint(&mut self, value: i64) -> Result<(), NoMemory>
        requires { unsigned_abs value + 1 < 2 ^ 39 }
        ensures ok { OnOk result (self.new ≡ self.old ++ numbers.sint value) }
        ensures err { OnErr result (self.new ≡ self.old) }
    {
        self.put(signed(value))
    }

    /// Four bytes, the most significant first.
    #[tactic(auto, using(crate::proofs::Runs::bits_below_literal))]
    pub fn literal(&mut self, value: u32) -> Result<(), NoMemory>
        requires { IsWhole self.old }
        ensures ok { OnOk result (self.new ≡ self.old ++ numbers.literal value) }
        ensures err { OnErr result (self.new ≡ self.old) }
    {
        self.put(Run {
            count: 32,
            number: u128::from(value),
        })
    }

    /// Bits 0 up to the next byte.
    pub fn align(&mut self) -> Result<(), NoMemory>
        ensures ok { OnOk result (self.new ≡ self.old ++ gap self.old) }
        ensures err { OnErr result (self.new ≡ self.old) }
    {
        let count = (8 - self.used) % 8;
        self.put(Run { count, number: 0 })
    }

    /// These bytes.
    pub fn block(&mut self, bytes: &[u8]) -> Result<(), NoMemory>
        requires { IsWhole self.old }
        ensures ok { OnOk result (self.new ≡ self.old ++ bits_of bytes.now) }
        ensures err { OnErr result (self.new ≡ self.old) }
    {
        self.bytes.extend_from_slice(bytes)?;
        Ok(())
    }

    /// The bytes of all the bits written.
    pub fn finish(self) -> Result<Vec<u8>, NoMemory>
        requires { IsWhole self }
        ensures { IfOk result (λ v. bits_of v.items ≡ self) }
    {
        let BitWriter { bytes, .. } = self;
        Ok(bytes)
    }

    fn put(&mut self, run: Run) -> Result<(), NoMemory>
        requires at_most_80 { run.count ≤ 80 }
        requires fits { run.number < 2 ^ run.count }
        ensures ok { OnOk result (self.new ≡ self.old ++ bits_below run.count run.number) }
        ensures err { OnErr result (self.new ≡ self.old) }
    {
        let whole = joined(self.pending, self.used, run);
        let (bytes, pending) = whole_bytes(whole);
        let used = whole.count % 8;
        self.bytes
            .extend_from_slice(&bytes[..usize::from(whole.count / 8)])?;
        self.pending = pending;
        self.used = used;
        Ok(())
    }
}
