ghost use Rattle.std.specs.Prelude.{◌≡◌, ◌+◌, ◌<◌, ◌≤◌, ◌++◌, [], length, take, true, false};
ghost use Rattle.std.specs.Io.KnownBytes.{IsAtEnd, Keeps, prepend_known};
ghost use Rattle.dirac_io.specs.Faults.{Rose};

use crate::units::{Behind, Found, Plan, read_units};
use dirac_io::Source;
use std::alloc::Global;
use std::marker::Model;

/// Bytes that were read and not given yet.
#[derive(Drop)]
pub(crate) struct HeldBytes {
    bytes: Vec<u8>,
    from: usize,
}

impl Model for HeldBytes {
    ghost use Rattle.std.specs.Prelude.{List, ℕ, ◌≤◌, drop, vec_len};

    ghost Value = { List ℕ };

    ghost view = { λ h. drop h.from h.bytes.items };

    ghost invariant = { λ h. h.from ≤ vec_len h.bytes };
}

impl HeldBytes {
    /// None.
    pub(crate) fn new(alloc: Global) -> HeldBytes
        ensures { result ≡ [] }
    {
        HeldBytes {
            bytes: Vec::new(alloc),
            from: 0,
        }
    }

    /// Whether all were given.
    pub(crate) fn is_empty(&self) -> bool
        ensures empty { result ≡ true → self.now ≡ [] }
        ensures not_empty { result ≡ false → 0 < length self.now }
    {
        self.from == self.bytes.len()
    }

    pub(crate) fn as_slice(&self) -> &[u8]
        ensures { result.now ≡ self.now }
    {
        &self.bytes[self.from..]
    }

    /// Gives the front of them, as far as the buffer has room.
    pub(crate) fn give(&mut self, buf: &mut [u8]) -> usize
        requires buffer_not_empty { 0 < length buf.old }
        requires not_empty { 0 < length self.old }
        ensures at_least_1 { 1 ≤ result }
        ensures at_most_the_buffer { result ≤ length buf.new }
        ensures front { self.old ≡ take result buf.new ++ self.new }
        ensures so_many_fewer { length self.old ≡ result + length self.new }
    {
        let rest = &self.bytes[self.from..];
        let n = buf.len().min(rest.len());
        buf[..n].copy_from_slice(&rest[..n]);
        self.from += n;
        n
    }

    /// Where none are held, reads units.
    pub(crate) fn refill<S: Source>(&mut self, source: &mut S, plan: Plan) -> Found
        requires { self.old ≡ [] }
        ensures no_byte_lost { Keeps (S.held source.old) (prepend_known self.new (S.held source.new)) }
        ensures whole_units_held { result.whole ≤ length self.new }
        ensures at_most_the_plan { length self.new ≤ plan.most }
        ensures left_never_rises { length self.new + S.left source.new ≤ S.left source.old }
        ensures none_taken { self.new ≡ [] → (result.behind ≡ Behind.Failure → ⊥)
            → S.left source.new ≡ S.left source.old }
        ensures end { result.behind ≡ Behind.End → IsAtEnd (S.held source.new) }
        ensures failed { result.behind ≡ Behind.Failure → Rose (S.faults source.old) (S.faults source.new) }
        ensures faults_never_fall { S.faults source.old ≤ S.faults source.new }
    {
        self.from = 0;
        self.bytes.clear();
        read_units(source, &mut self.bytes, plan)
    }
}
