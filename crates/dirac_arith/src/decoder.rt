//! Arithmetic decoding of one block.
ghost use Rattle.std.specs.Prelude.{◌≡◌, ◌≢◌, ◌↔◌, ◌+◌, ◌-◌, ◌*◌, ◌/◌, ◌^◌, ◌<◌, ◌≤◌, ◌⊎◌, ℕ, ℤ, nat_abs, Bool, true};
ghost use Rattle.std.specs.Prelude.{false};
ghost use Rattle.std.specs.Prelude.{List, length, slice_index, IfOk, IfErr, OnErr, Ok, Err};
ghost use Rattle.dirac_arith.specs.Carried.{Lies};
ghost use Rattle.dirac_arith.specs.Decoding.{reading_at};
ghost use Rattle.dirac_arith.specs.Deciding.{GivesReading, decision_read, number_read, signed_read};
ghost use Rattle.dirac_arith.specs.Front.{front};
ghost use Rattle.dirac_arith.specs.Interval.{narrowed, narrowed_by, whole};
ghost use Rattle.dirac_arith.specs.Reading.{Reading, DecisionsAreRead};
ghost use Rattle.dirac_arith.specs.Registers.{Runs, doublings_of};
ghost use Rattle.dirac_arith.specs.Spelling.{AreContexts, follow_at, signed_spelling, spelling, spelt};

use crate::contexts::CONTEXTS;
use crate::follow::follow_context;
use crate::probabilities::adapt;
use crate::registers::{Decided, Registers, begin, decide, fill, foresee, is_past};
use dirac_common::{Cause, MOST_DIGITS, with_sign};
use std::marker::Model;

/// Reads the decisions of a block, each under the number of its context (arithmetic decoding, Dirac specification).
/// Bits past the end of the block are ones.
#[derive(Drop)]
pub struct Decoder<'a> {
    block: &'a [u8],
    registers: Registers,
    contexts: [u16; CONTEXTS],
    refused: bool,
}

impl<'a> Model for Decoder<'a> {
    ghost use Rattle.dirac_arith.specs.Reading.{Reading};

    ghost Value = { Reading };

    ghost use Rattle.dirac_arith.specs.Decoding.{reading, IsSound};

    ghost view = { reading };

    ghost invariant = { IsSound };
}

impl<'a> Decoder<'a> {
    /// Stands at the begin of a block, with every context at one half.
    pub fn new(block: &'a [u8]) -> Decoder<'a>
        ensures { result ≡ record { block = block.entry.now; at = whole } }
    {
        let registers = begin(block);
        let refused = is_past(registers);
        Decoder {
            block,
            registers,
            contexts: [0x8000; CONTEXTS],
            refused,
        }
    }

    /// The probability of a context, as a part of 0x10000, that its next decision is false.
    pub fn context(&self, ctx: u8) -> u16
        requires { ctx < CONTEXTS }
        ensures { result ≡ slice_index self.now.at.contexts ctx }
    {
        self.contexts[ctx as usize]
    }

    /// One decision in a context. A block that begins with sixteen ones, as an empty one does, has none: `CodeWord`.
    #[inline(always)]
    pub fn decision(&mut self, ctx: u8) -> Result<bool, Cause>
        requires context { ctx < CONTEXTS }
        requires no_overflow { self.old.at.doublings < 2 ^ 62 }
        ensures read { GivesReading result self.new (decision_read ctx self.old) }
        ensures narrows { IfOk result (λ truth. self.new ≡ record {
          block = self.old.block;
          at = narrowed self.old.at (ctx, truth);
        }) }
        ensures lies_inside { IfOk result (λ truth. Lies self.old.block (narrowed self.old.at (ctx, truth))) }
        ensures no_other_truth { (truth : Bool) → Lies self.old.block (narrowed self.old.at (ctx, truth)) → result
            ≡ Ok truth }
        ensures few_doublings { self.new.at.doublings ≤ self.old.at.doublings + 9 }
        ensures refused { (result ≡ Err Cause.CodeWord) ↔ (front self.old.block 16 ≡ 0xFFFF) }
        ensures no_other_cause { OnErr result (result ≡ Err Cause.CodeWord) }
        ensures unchanged { OnErr result (self.new ≡ self.old) }
    {
        if self.refused {
            return Err(Cause::CodeWord);
        }
        let at = ctx as usize;
        let probability = self.contexts[at];
        let decided = decide(self.registers, probability);
        self.contexts[at] = adapt(probability, decided.truth);
        self.registers = fill(self.block, decided.registers);
        Ok(decided.truth)
    }

    /// The same of a decision that goes mostly one way, as follow decisions do: each way has sums of its own, so that
    /// what comes next need not wait for the code.
    #[inline(always)]
    pub fn foreseen(&mut self, ctx: u8) -> Result<bool, Cause>
        requires context { ctx < CONTEXTS }
        requires no_overflow { self.old.at.doublings < 2 ^ 62 }
        ensures read { GivesReading result self.new (decision_read ctx self.old) }
        ensures narrows { IfOk result (λ truth. self.new ≡ record {
          block = self.old.block;
          at = narrowed self.old.at (ctx, truth);
        }) }
        ensures lies_inside { IfOk result (λ truth. Lies self.old.block (narrowed self.old.at (ctx, truth))) }
        ensures no_other_truth { (truth : Bool) → Lies self.old.block (narrowed self.old.at (ctx, truth)) → result
            ≡ Ok truth }
        ensures few_doublings { self.new.at.doublings ≤ self.old.at.doublings + 9 }
        ensures refused { (result ≡ Err Cause.CodeWord) ↔ (front self.old.block 16 ≡ 0xFFFF) }
        ensures no_other_cause { OnErr result (result ≡ Err Cause.CodeWord) }
        ensures unchanged { OnErr result (self.new ≡ self.old) }
    {
        if self.refused {
            return Err(Cause::CodeWord);
        }
        let registers = self.registers;
        let decided = self.foreseen_from(registers, ctx);
        self.registers = decided.registers;
        Ok(decided.truth)
    }

    /// Whether the block has no decision.
    #[inline(always)]
    pub fn is_refused(&self) -> bool
        ensures refused { result ≡ true → front self.now.block 16 ≡ 0xFFFF }
        ensures not_refused { result ≡ false → front self.now.block 16 ≢ 0xFFFF }
    {
        self.refused
    }

    /// Where it stands, for a loop that keeps this by value.
    #[inline(always)]
    pub fn registers(&self) -> Registers
        requires not_refused { front self.now.block 16 ≢ 0xFFFF }
        ensures stands { reading_at self.now result ≡ self.now }
        ensures runs { Runs self.now.block result }
    {
        self.registers
    }

    /// Stands at these registers.
    #[inline(always)]
    pub fn resume(&mut self, registers: Registers)
        requires runs { Runs self.old.block registers }
        ensures { self.new ≡ reading_at self.old registers }
    {
        self.registers = registers;
    }

    /// The decision that `foreseen` takes, but from these registers, and the ones behind it; its own stay.
    #[inline(always)]
    pub fn foreseen_from(&mut self, registers: Registers, ctx: u8) -> Decided
        requires context { ctx < CONTEXTS }
        requires runs { Runs self.old.block registers }
        requires no_overflow { doublings_of registers < 2 ^ 62 }
        ensures read { decision_read ctx (reading_at self.old registers)
            ≡ Ok (result.truth, reading_at self.new result.registers) }
        ensures runs { Runs self.new.block result.registers }
        ensures few_doublings { doublings_of result.registers ≤ doublings_of registers + 9 }
    {
        let at = ctx as usize;
        let probability = self.contexts[at];
        let decided = foresee(registers, probability);
        if decided.truth {
            self.contexts[at] = adapt(probability, true);
            Decided {
                truth: true,
                registers: fill(self.block, decided.registers),
            }
        } else {
            self.contexts[at] = adapt(probability, false);
            Decided {
                truth: false,
                registers: fill(self.block, decided.registers),
            }
        }
    }

    /// A number, whose follow decisions stand in these contexts, the last one repeated, and its digits in the context
    /// `bits`. One of more than 38 digits behind its leading one is refused `NumberTooLong`; the decisions up to there
    /// were taken.
    pub fn number(&mut self, follow: &[u8], bits: u8) -> Result<u64, Cause>
        requires not_empty { 0 < length follow.now }
        requires follow { AreContexts follow.now }
        requires bits { bits < CONTEXTS }
        requires no_overflow { self.old.at.doublings < 2 ^ 61 }
        ensures read { GivesReading result self.new (number_read follow.now bits self.old) }
        ensures found { IfOk result (λ v. DecisionsAreRead self.old (spelling follow.now bits v) self.new) }
        ensures below_2_39 { IfOk result (λ v. v < 2 ^ 39 - 1) }
        ensures long { result ≡ Err Cause.NumberTooLong →
            (digits : List Bool) × (length digits ≡ MOST_DIGITS)
            × DecisionsAreRead self.old (spelt follow.now bits digits false) self.new }
        ensures number { (v : ℕ) → v < 2 ^ 39 - 1 → Lies self.old.block
            (narrowed_by self.old.at (spelling follow.now bits v)) →
            result ≡ Ok v }
        ensures no_number { (digits : List Bool) → length digits ≡ MOST_DIGITS →
            Lies self.old.block (narrowed_by self.old.at (spelt follow.now bits digits false)) →
            result ≡ Err Cause.NumberTooLong }
        ensures refused { (result ≡ Err Cause.CodeWord) ↔ (front self.old.block 16 ≡ 0xFFFF) }
        ensures no_other_cause { IfErr result (λ e. (e ≡ Cause.CodeWord) ⊎ (e ≡ Cause.NumberTooLong)) }
        ensures unchanged { result ≡ Err Cause.CodeWord → self.new ≡ self.old }
        ensures few_doublings { self.new.at.doublings ≤ self.old.at.doublings + 693 }
    {
        let _ = &self.contexts;
        self.read_number(follow, bits)
    }

    // Reads digits until a true follow decision.
    #[inline(always)]
    fn read_number(&mut self, follow: &[u8], bits: u8) -> Result<u64, Cause>
        requires not_empty { 0 < length follow.now }
        requires follow { AreContexts follow.now }
        requires bits { bits < CONTEXTS }
        requires no_overflow { self.old.at.doublings < 2 ^ 61 }
        ensures found { IfOk result (λ v. DecisionsAreRead self.old (spelling follow.now bits v) self.new) }
        ensures below_2_39 { IfOk result (λ v. v < 2 ^ 39 - 1) }
        ensures long { result ≡ Err Cause.NumberTooLong →
            (digits : List Bool) × (length digits ≡ MOST_DIGITS)
            × DecisionsAreRead self.old (spelt follow.now bits digits false) self.new }
        ensures refused { (result ≡ Err Cause.CodeWord) ↔ (front self.old.block 16 ≡ 0xFFFF) }
        ensures no_other_cause { IfErr result (λ e. (e ≡ Cause.CodeWord) ⊎ (e ≡ Cause.NumberTooLong)) }
        ensures unchanged { result ≡ Err Cause.CodeWord → self.new ≡ self.old }
        ensures few_doublings { self.new.at.doublings ≤ self.old.at.doublings + 693 }
    {
        let mut value: u64 = 1;
        'digits: for i in 0..MOST_DIGITS {
            let last = self.foreseen(follow_context(follow, i))?;
            if last {
                return Ok(value - 1);
            }
            let digit = self.decision(bits)?;
            value = value * 2 + u64::from(digit);
        }
        let end = self.foreseen(follow_context(follow, MOST_DIGITS))?;
        if end {
            return Ok(value - 1);
        }
        Err(Cause::NumberTooLong)
    }

    /// A signed number: its magnitude as `number` reads it, and where it isn't 0 its sign in a context of its own.
    #[inline(always)]
    pub fn signed(&mut self, follow: &[u8], bits: u8, sign: u8) -> Result<i64, Cause>
        requires not_empty { 0 < length follow.now }
        requires follow { AreContexts follow.now }
        requires bits { bits < CONTEXTS }
        requires sign { sign < CONTEXTS }
        requires no_overflow { self.old.at.doublings < 2 ^ 61 }
        ensures read { GivesReading result self.new (signed_read follow.now bits sign self.old) }
        ensures found { IfOk result (λ v. DecisionsAreRead self.old (signed_spelling follow.now bits sign v) self.new) }
        ensures below_2_39 { IfOk result (λ v. nat_abs v < 2 ^ 39 - 1) }
        ensures long { result ≡ Err Cause.NumberTooLong →
            (digits : List Bool) × (length digits ≡ MOST_DIGITS)
            × DecisionsAreRead self.old (spelt follow.now bits digits false) self.new }
        ensures number { (v : ℤ) → nat_abs v < 2 ^ 39 - 1 → Lies self.old.block
            (narrowed_by self.old.at (signed_spelling follow.now bits sign v)) →
            result ≡ Ok v }
        ensures no_number { (digits : List Bool) → length digits ≡ MOST_DIGITS →
            Lies self.old.block (narrowed_by self.old.at (spelt follow.now bits digits false)) →
            result ≡ Err Cause.NumberTooLong }
        ensures refused { (result ≡ Err Cause.CodeWord) ↔ (front self.old.block 16 ≡ 0xFFFF) }
        ensures no_other_cause { IfErr result (λ e. (e ≡ Cause.CodeWord) ⊎ (e ≡ Cause.NumberTooLong)) }
        ensures unchanged { result ≡ Err Cause.CodeWord → self.new ≡ self.old }
        ensures few_doublings { self.new.at.doublings ≤ self.old.at.doublings + 702 }
    {
        let _ = &self.contexts;
        self.read_signed(follow, bits, sign)
    }

    // Reads a magnitude and its sign.
    #[inline(always)]
    fn read_signed(&mut self, follow: &[u8], bits: u8, sign: u8) -> Result<i64, Cause>
        requires not_empty { 0 < length follow.now }
        requires follow { AreContexts follow.now }
        requires bits { bits < CONTEXTS }
        requires sign { sign < CONTEXTS }
        requires no_overflow { self.old.at.doublings < 2 ^ 61 }
        ensures found { IfOk result (λ v. DecisionsAreRead self.old (signed_spelling follow.now bits sign v) self.new) }
        ensures below_2_39 { IfOk result (λ v. nat_abs v < 2 ^ 39 - 1) }
        ensures long { result ≡ Err Cause.NumberTooLong →
            (digits : List Bool) × (length digits ≡ MOST_DIGITS)
            × DecisionsAreRead self.old (spelt follow.now bits digits false) self.new }
        ensures refused { (result ≡ Err Cause.CodeWord) ↔ (front self.old.block 16 ≡ 0xFFFF) }
        ensures no_other_cause { IfErr result (λ e. (e ≡ Cause.CodeWord) ⊎ (e ≡ Cause.NumberTooLong)) }
        ensures unchanged { result ≡ Err Cause.CodeWord → self.new ≡ self.old }
        ensures few_doublings { self.new.at.doublings ≤ self.old.at.doublings + 702 }
    {
        let magnitude = self.read_number(follow, bits)?;
        if magnitude == 0 {
            return Ok(0);
        }
        let negative = self.decision(sign)?;
        Ok(with_sign(magnitude, negative))
    }

    /// A signed number behind its first follow decision, which was false: as `signed` reads it from there on. The
    /// number isn't 0, which one true follow decision spells.
    pub fn signed_behind(&mut self, follow: &[u8], bits: u8, sign: u8) -> Result<i64, Cause>
        requires not_empty { 0 < length follow.now }
        requires follow { AreContexts follow.now }
        requires bits { bits < CONTEXTS }
        requires sign { sign < CONTEXTS }
        requires no_overflow { self.old.at.doublings < 2 ^ 61 + 9 }
        ensures read { (before : Reading) → decision_read (follow_at follow.now 0) before ≡ Ok (false, self.old) →
            GivesReading result self.new (signed_read follow.now bits sign before) }
        ensures few_doublings { self.new.at.doublings ≤ self.old.at.doublings + 693 }
    {
        let magnitude = self.magnitude_behind(follow, bits)?;
        let negative = self.decision(sign)?;
        Ok(with_sign(magnitude, negative))
    }

    // Reads the first digit, and further ones until a true follow decision.
    #[inline(always)]
    fn magnitude_behind(&mut self, follow: &[u8], bits: u8) -> Result<u64, Cause>
        requires not_empty { 0 < length follow.now }
        requires follow { AreContexts follow.now }
        requires bits { bits < CONTEXTS }
        requires no_overflow { self.old.at.doublings < 2 ^ 61 + 9 }
        ensures read { (before : Reading) → decision_read (follow_at follow.now 0) before ≡ Ok (false, self.old) →
            GivesReading result self.new (number_read follow.now bits before) }
        ensures not_zero { IfOk result (λ v. 1 ≤ v) }
        ensures below_2_39 { IfOk result (λ v. v < 2 ^ 39 - 1) }
        ensures few_doublings { self.new.at.doublings ≤ self.old.at.doublings + 684 }
    {
        let first = self.decision(bits)?;
        let mut value: u64 = 2 + u64::from(first);
        'digits: for i in 1..MOST_DIGITS {
            let last = self.foreseen(follow_context(follow, i))?;
            if last {
                return Ok(value - 1);
            }
            let digit = self.decision(bits)?;
            value = value * 2 + u64::from(digit);
        }
        let end = self.foreseen(follow_context(follow, MOST_DIGITS))?;
        if end {
            return Ok(value - 1);
        }
        Err(Cause::NumberTooLong)
    }
}
