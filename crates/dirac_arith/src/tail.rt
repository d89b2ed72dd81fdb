//! The low end of an encoder's interval: written bytes, and a register of bits that wait behind them.
ghost use Rattle.std.specs.Prelude.{◌≡◌, ◌+◌, ◌-◌, ◌*◌, ◌/◌, ◌^◌, ◌<◌, ◌≤◌, ℕ, List, length, OnOk, IsTrue, ◌↔◌, ◌%◌};
ghost use Rattle.std.specs.Prelude.{true};
ghost use Rattle.dirac_arith.specs.Tail.{bytes_from};
ghost use Rattle.dirac_arith.specs.Written.{number_in_bytes};

use dirac_common::NoMemory;
use std::alloc::Global;
use std::marker::Model;

/// Bytes that are written, and bits that wait for more: a carry may still reach both.
#[derive(Drop)]
pub struct Tail {
    bytes: Vec<u8>,
    register: u64,
    pending: u32,
}

impl Model for Tail {
    ghost use Rattle.dirac_arith.specs.Tail.{Waiting};

    ghost Value = { Waiting };

    ghost use Rattle.dirac_arith.specs.Tail.{waiting, IsWaiting};

    ghost view = { waiting };

    ghost invariant = { IsWaiting };
}

/// Adds one to the number that bytes hold, from the last byte backwards over bytes FF.
fn carry(bytes: &mut [u8])
    requires { bytes_from 0 bytes.old + 1 < 2 ^ (8 * length bytes.old) }
    ensures { bytes_from 0 bytes.new ≡ bytes_from 0 bytes.old + 1 }
{
    let mut place = bytes.len();
    'carrying: while place > 0 {
        place -= 1;
        if bytes[place] < 0xFF {
            bytes[place] += 1;
            return;
        }
        bytes[place] = 0;
    }
}

/// The register without its carry, which goes into the bytes.
fn carried(bytes: &mut [u8], register: u64, pending: u32) -> u64
    requires pending { pending ≤ 47 }
    requires fits { register < 2 ^ (17 + pending) }
    requires no_overflow { 2 ^ (16 + pending) ≤ register → bytes_from 0 bytes.old + 1 < 2 ^ (8 * length bytes.old) }
    ensures value { bytes_from 0 bytes.new * 2 ^ (16 + pending) + result
        ≡ bytes_from 0 bytes.old * 2 ^ (16 + pending) + register }
    ensures fits { result < 2 ^ (16 + pending) }
{
    let top = 1 << (16 + pending);
    if register < top {
        return register;
    }
    carry(bytes);
    register - top
}

impl Tail {
    /// No byte, and sixteen bits 0 in the register.
    pub fn new(alloc: Global) -> Tail
        ensures { result ≡ record { value = 0; doublings = 0; register = 0; pending = 0 } }
    {
        Tail {
            bytes: Vec::new(alloc),
            register: 0,
            pending: 0,
        }
    }

    /// Whether nothing was doubled yet.
    pub fn is_fresh(&self) -> bool
        ensures doublings { IsTrue result ↔ (self.now.doublings ≡ 0) }
        ensures pending { result ≡ true → self.now.pending ≡ 0 }
    {
        self.bytes.is_empty() && self.pending == 0
    }

    /// By how many doublings the next whole byte ends behind the next two bits.
    pub fn gap(&self) -> u32
        ensures at_least_2 { 2 ≤ result }
        ensures at_most_9 { result ≤ 9 }
        ensures exact { self.now.doublings + result ≡ 8 * ((self.now.doublings + 9) / 8) }
    {
        9 - (self.pending + 1) % 8
    }

    /// Adds to the low end, and doubles it.
    pub fn advance(&mut self, amount: u32, count: u32)
        requires amount { self.old.register + amount < 2 ^ (17 + self.old.pending) }
        requires at_most_47_bits { self.old.pending + count ≤ 47 }
        ensures { self.new ≡ record {
          value = (self.old.value + amount) * 2 ^ count;
          doublings = self.old.doublings + count;
          register = (self.old.register + amount) * 2 ^ count;
          pending = self.old.pending + count;
        } }
    {
        self.register = (self.register + u64::from(amount)) << count;
        self.pending += count;
    }

    /// Writes the whole bytes that wait, where fewer doublings than a decision may take have room.
    pub fn settle(&mut self) -> Result<(), NoMemory>
        requires { self.old.value < 0xFFFF * 2 ^ self.old.doublings }
        ensures value { self.new.value ≡ self.old.value }
        ensures doublings { self.new.doublings ≡ self.old.doublings }
        ensures at_most_38_bits { OnOk result (self.new.pending ≤ 38) }
        ensures pending { self.new.pending ≤ 47 }
        ensures register { (range : ℕ) → range ≤ 0xFFFF → self.old.register + range ≤ 2 ^ (17 + self.old.pending) →
            self.new.register + range ≤ 2 ^ (17 + self.new.pending) }
    {
        if self.pending <= 38 {
            return Ok(());
        }
        self.write()
    }

    /// Writes the whole bytes that wait.
    pub fn write(&mut self) -> Result<(), NoMemory>
        requires { self.old.value < 0xFFFF * 2 ^ self.old.doublings }
        ensures value { self.new.value ≡ self.old.value }
        ensures doublings { self.new.doublings ≡ self.old.doublings }
        ensures below_8_bits { OnOk result (self.new.pending < 8) }
        ensures whole { OnOk result (self.new.pending ≡ self.new.doublings % 8) }
        ensures pending { self.new.pending ≤ 47 }
        ensures register { self.new.register < 2 ^ (16 + self.new.pending) }
    {
        self.register = carried(&mut self.bytes, self.register, self.pending);
        'writing: while self.pending >= 8 {
            let byte = self.register >> (8 + self.pending);
            self.bytes.push(byte as u8)?;
            self.register -= byte << (8 + self.pending);
            self.pending -= 8;
        }
        Ok(())
    }

    /// The bytes, where no bit waits.
    pub fn into_bytes(self) -> Vec<u8>
        requires whole { self.pending ≡ 0 }
        requires settled { self.register < 2 ^ 16 }
        ensures { result.items ≡ number_in_bytes (self.doublings / 8) (self.value / 2 ^ 16) }
    {
        self.bytes
    }
}
