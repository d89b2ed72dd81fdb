//! Arithmetic encoding of one block.
ghost use Rattle.std.specs.Prelude.{◌≡◌, ◌+◌, ◌-◌, ◌*◌, ◌/◌, ◌^◌, ◌<◌, ◌≤◌, ℕ, ℤ, nat_abs, Bool, List, length};
ghost use Rattle.std.specs.Prelude.{slice_index, IfOk, OnOk, OnErr};
ghost use Rattle.dirac_arith.specs.Interval.{Decision, InContexts, doublings_for, narrowed, narrowed_by, whole};
ghost use Rattle.dirac_arith.specs.Interval.{interval_of};
ghost use Rattle.dirac_arith.specs.Registers.{part_width, lift_of};
ghost use Rattle.dirac_arith.specs.Spelling.{AreContexts, signed_spelling, spelling};
ghost use Rattle.dirac_arith.specs.Written.{flush};

use crate::contexts::CONTEXTS;
use crate::follow::follow_context;
use crate::probabilities::adapt;
use crate::registers::doublings;
use crate::tail::Tail;
use dirac_common::NoMemory;
use std::alloc::Global;
use std::marker::Model;

/// Writes a block of decisions, each under the number of its context (arithmetic coding, Dirac specification).
/// After `NoMemory` a number may stand in part.
#[derive(Drop)]
pub struct Encoder {
    tail: Tail,
    range: u32,
    contexts: [u16; CONTEXTS],
}

impl Model for Encoder {
    ghost use Rattle.dirac_arith.specs.Interval.{Interval};

    ghost Value = { Interval };

    ghost use Rattle.dirac_arith.specs.Encoding.{exact_interval, IsEncoding};

    ghost view = { exact_interval };

    ghost invariant = { IsEncoding };
}

/// The part of a range that a decision keeps, after its doublings.
#[derive(Clone, Copy)]
struct SubInterval {
    /// What comes to the low end before the doublings.
    lift: u32,
    doublings: u32,
    range: u32,
}

/// The part that a decision of this truth keeps.
fn sub_interval_after(range: u32, probability: u16, truth: bool) -> SubInterval
    requires wide { 0x4000 < range }
    requires narrow { range ≤ 0xFFFF }
    requires some_probability { 254 ≤ probability }
    requires most_probability { probability ≤ 65281 }
    ensures lift { result.lift ≡ lift_of (range * probability / 2 ^ 16) truth }
    ensures doublings { result.doublings ≡ doublings_for (part_width range (range * probability / 2 ^ 16) truth) }
    ensures range { let part = part_width range (range * probability / 2 ^ 16) truth in
        result.range ≡ part * 2 ^ doublings_for part }
    ensures within { result.lift + part_width range (range * probability / 2 ^ 16) truth ≤ range }
    ensures few_doublings { result.doublings ≤ 9 }
    ensures wide { 0x4000 < result.range }
    ensures narrow { result.range ≤ 0xFFFF }
{
    let split = range * u32::from(probability) / 65536;
    if truth {
        let count = doublings(range - split);
        return SubInterval {
            lift: split,
            doublings: count,
            range: (range - split) << count,
        };
    }
    let count = doublings(split);
    SubInterval {
        lift: 0,
        doublings: count,
        range: split << count,
    }
}

impl Encoder {
    /// Has no decision yet, and every context at one half.
    pub fn new(alloc: Global) -> Encoder
        ensures { result ≡ whole }
    {
        Encoder {
            tail: Tail::new(alloc),
            range: 0xFFFF,
            contexts: [0x8000; CONTEXTS],
        }
    }

    /// The probability of a context, as a part of 0x10000, that its next decision is false.
    pub fn context(&self, ctx: u8) -> u16
        requires { ctx < CONTEXTS }
        ensures { result ≡ slice_index self.now.contexts ctx }
    {
        self.contexts[ctx as usize]
    }

    /// One decision in a context.
    pub fn decision(&mut self, ctx: u8, truth: bool) -> Result<(), NoMemory>
        requires { ctx < CONTEXTS }
        ensures taken { OnOk result (self.new ≡ narrowed self.old (ctx, truth)) }
        ensures unchanged { OnErr result (self.new ≡ self.old) }
    {
        self.tail.settle()?;
        let at = ctx as usize;
        let probability = self.contexts[at];
        let part = sub_interval_after(self.range, probability, truth);
        self.tail.advance(part.lift, part.doublings);
        self.range = part.range;
        self.contexts[at] = adapt(probability, truth);
        Ok(())
    }

    /// A number, whose follow decisions stand in these contexts, the last one repeated, and its digits in the context
    /// `bits`.
    pub fn number(&mut self, follow: &[u8], bits: u8, value: u64) -> Result<(), NoMemory>
        requires not_empty { 0 < length follow.now }
        requires follow { AreContexts follow.now }
        requires bits { bits < CONTEXTS }
        requires value { value < 2 ^ 39 - 1 }
        ensures { OnOk result (self.new ≡ narrowed_by self.old (spelling follow.now bits value)) }
    {
        let wide = value + 1;
        let count = wide.ilog2();
        'digits: for i in 0..count {
            self.decision(follow_context(follow, i as usize), false)?;
            let prefix = wide >> (count - 1 - i);
            self.decision(bits, prefix % 2 == 1)?;
        }
        self.decision(follow_context(follow, count as usize), true)?;
        Ok(())
    }

    /// A signed number: its magnitude as `number` writes it, and where it isn't 0 its sign in a context of its own.
    pub fn signed(&mut self, follow: &[u8], bits: u8, sign: u8, value: i64) -> Result<(), NoMemory>
        requires not_empty { 0 < length follow.now }
        requires follow { AreContexts follow.now }
        requires bits { bits < CONTEXTS }
        requires sign { sign < CONTEXTS }
        requires value { nat_abs value < 2 ^ 39 - 1 }
        ensures { OnOk result (self.new ≡ narrowed_by self.old (signed_spelling follow.now bits sign value)) }
    {
        self.number(follow, bits, value.unsigned_abs())?;
        if value == 0 {
            return Ok(());
        }
        self.decision(sign, value < 0)?;
        Ok(())
    }

    /// The block of all decisions.
    pub fn finish(self) -> Result<Vec<u8>, NoMemory>
        ensures { (ds : List Decision) → InContexts ds → self ≡ interval_of ds
            → IfOk result (λ block. block.items ≡ flush ds) }
    {
        let Encoder {
            mut tail,
            range,
            contexts: _,
        } = self;
        tail.write()?;
        if range == 0xFFFF && tail.is_fresh() {
            return Ok(tail.into_bytes());
        }
        let gap = tail.gap();
        tail.advance(range - (1 << (16 - gap)), gap);
        tail.write()?;
        Ok(tail.into_bytes())
    }
}
