ghost use Rattle.std.specs.Prelude.{◌≡◌, ◌+◌, ◌<◌, ◌≤◌, ◌^◌, [], length, List, ℕ, Some};
ghost use Rattle.std.specs.Io.KnownBytes.{IsAtEnd, Keeps, prepend_known};
ghost use Rattle.dirac_io.specs.Faults.{Rose, clipped_fits, held_count, one_more};
ghost use Rattle.dirac_io.specs.Reading.{IfBytes, GivesFront, MeetsEnd};
ghost use Rattle.dirac_ahead.specs.Held.{left_of, left_of_fits};
ghost use Rattle.dirac_ahead.specs.declared.units.Behind.TheVariants as stands;

use crate::begun::Begun;
use crate::held::HeldBytes;
use crate::lent::Lent;
use crate::look::Look;
use crate::units::{Behind, Plan};
use dirac_io::{Got, Source};
use std::alloc::Global;
use std::marker::PhantomData;

/// A source over another one whose units are read ahead, and looked at, before their bytes are asked for. The end of
/// the other source and a failure of it are told once all bytes that were read before are given. Nothing more is read
/// ahead behind a failure, behind a parse info that is refused, and once memory was refused.
#[derive(Drop)]
pub struct Ahead<'a, S: Source, L: Look, B: Begun> {
    source: &'a mut S,
    look: &'a L,
    alloc: Global,
    plan: Plan,
    held: HeldBytes,
    behind: Behind,
    rest: u64,
    told: u64,
    begun: PhantomData<B>,
    ghost same_reference: { source.ghost_name ≡ B.name },
    ghost at_most_the_plan: { length held ≤ plan.most },
    ghost fits: { length held + S.left source.now < 2 ^ 63 },
    ghost faults_never_fall: { B.faults ≤ S.faults source.now },
    ghost at_end: { (bytes : List ℕ) → behind ≡ stands.End → S.held source.now ≡ Some bytes → bytes ≡ [] },
    ghost failed: { behind ≡ stands.Failure → Rose B.faults (S.faults source.now) },
    ghost told_once: { 0 < told → Rose B.faults (S.faults source.now) },
    ghost told_last: { 0 < told → held ≡ [] },
    ghost told_for_good: { 0 < told → behind ≡ stands.More → ⊥ },
}

impl<'a, S: Source, L: Look, B: Begun> Ahead<'a, S, L, B> {
    /// A source that gives what this one holds.
    pub fn new(alloc: Global, lent: Lent<'a, S>, look: &'a L, plan: Plan) -> Ahead<'a, S, L, B>
        requires same_reference { lent.source.ghost_name ≡ B.name }
        requires faults { S.faults lent.source.now ≡ B.faults }
        ensures held { prepend_known result.held (S.held result.source.now) ≡ S.held lent.entry.source.now }
        ensures none_told { result.told ≡ 0 }
        ensures same_plan { result.plan ≡ plan }
    {
        let Lent { source } = lent;
        Ahead {
            source,
            look,
            alloc,
            plan,
            held: HeldBytes::new(alloc),
            behind: Behind::More,
            rest: 0,
            told: 0,
            begun: PhantomData,
        }
    }

    /// The other source. What was read ahead and not given is lost.
    pub fn into_source(self) -> &'a mut S
        ensures same_reference { result.ghost_name ≡ B.name }
        ensures same_source { result.now ≡ self.entry.source.now }
        ensures faults_never_fall { B.faults ≤ S.faults result.now }
        // Where a failure was told, nothing is lost.
        ensures told { 0 < self.entry.told → Rose B.faults (S.faults result.now) × (self.entry.held ≡ []) }
    {
        self.source
    }

    /// Where all bytes that were read before are given and more may be read ahead, reads units and looks at them.
    fn read_ahead(&mut self)
        ensures no_byte_lost { Keeps (prepend_known self.old.held (S.held self.old.source.now))
            (prepend_known self.new.held (S.held self.new.source.now)) }
        ensures left_never_rises { length self.new.held + S.left self.new.source.now
            ≤ length self.old.held + S.left self.old.source.now }
        // Where nothing stands in memory then, nothing was taken.
        ensures none_taken { self.new.held ≡ [] → (self.new.behind ≡ Behind.Failure → ⊥)
            → (self.old.held ≡ []) × (S.left self.new.source.now ≡ S.left self.old.source.now) }
        ensures told { self.new.told ≡ self.old.told }
        ensures same_plan { self.new.plan ≡ self.old.plan }
    {
        if !self.held.is_empty() || self.rest > 0 || !matches!(self.behind, Behind::More) {
            return;
        }
        let found = self.held.refill(self.source, self.plan);
        self.behind = found.behind;
        self.rest = found.rest;
        if found.whole > 0 {
            self.look
                .look(self.alloc, &self.held.as_slice()[..found.whole]);
        }
    }

    /// Reads straight from the other source, where nothing is held; of a unit that was read ahead in part, no byte
    /// more than its rest.
    fn read_directly(&mut self, buf: &mut [u8]) -> Got
        requires buffer_not_empty { 0 < length buf.old }
        requires none_held { self.old.held ≡ [] }
        requires not_at_end { (self.old.behind ≡ Behind.End → ⊥) × (self.old.behind ≡ Behind.Failure → ⊥) }
        ensures bytes { IfBytes result (λ n. GivesFront n buf.new (S.held self.old.source.now)
            (S.held self.new.source.now) (S.left self.old.source.now) (S.left self.new.source.now)) }
        ensures end { result ≡ Got.End → MeetsEnd (S.held self.old.source.now) (S.held self.new.source.now)
            (S.faults self.old.source.now) (S.faults self.new.source.now) (S.left self.old.source.now)
            (S.left self.new.source.now) }
        ensures no_byte_lost { result ≡ Got.Failed → Keeps (S.held self.old.source.now) (S.held self.new.source.now) }
        ensures left_never_rises { S.left self.new.source.now ≤ S.left self.old.source.now }
        ensures told { result ≡ Got.Failed → self.new.told ≡ one_more self.old.told }
        ensures not_told { (result ≡ Got.Failed → ⊥) → self.new.told ≡ self.old.told }
        ensures none_held { self.new.held ≡ [] }
        ensures same_plan { self.new.plan ≡ self.old.plan }
    {
        let most = if self.rest > 0 { self.rest } else { u64::MAX };
        let room = most.min(buf.len() as u64) as usize;
        let got = self.source.read(&mut buf[..room]);
        match got {
            Got::Bytes(n) => self.rest = self.rest.saturating_sub(n as u64),
            Got::End => {}
            Got::Failed => {
                self.told = self.told.saturating_add(1);
                self.behind = Behind::Direct;
            }
        }
        got
    }
}

impl<S: Source, L: Look, B: Begun> Source for Ahead<'_, S, L, B> {
    ghost held = { λ a. prepend_known a.held (S.held a.source.now) };

    ghost faults = { λ a. held_count a.told };

    ghost left = { λ a. left_of a.held (S.left a.source.now) };

    ghost left_fits = { λ a. left_of_fits a.held (S.left a.source.now) };

    ghost faults_fit = { λ a. clipped_fits a.told };

    fn read(&mut self, buf: &mut [u8]) -> Got
        requires { 0 < length buf.old }
        ensures bytes { IfBytes result (λ n. GivesFront n buf.new
            (prepend_known self.old.held (S.held self.old.source.now))
            (prepend_known self.new.held (S.held self.new.source.now))
            (left_of self.old.held (S.left self.old.source.now))
            (left_of self.new.held (S.left self.new.source.now))) }
        ensures end { result ≡ Got.End → MeetsEnd (prepend_known self.old.held (S.held self.old.source.now))
            (prepend_known self.new.held (S.held self.new.source.now)) (held_count self.old.told)
            (held_count self.new.told) (left_of self.old.held (S.left self.old.source.now))
            (left_of self.new.held (S.left self.new.source.now)) }
        ensures failed { result ≡ Got.Failed → Rose (held_count self.old.told) (held_count self.new.told) }
        ensures kept { result ≡ Got.Failed → Keeps (prepend_known self.old.held (S.held self.old.source.now))
            (prepend_known self.new.held (S.held self.new.source.now)) }
        ensures count { held_count self.old.told ≤ held_count self.new.told }
        ensures left { left_of self.new.held (S.left self.new.source.now)
            ≤ left_of self.old.held (S.left self.old.source.now) }
        ensures same_plan { self.new.plan ≡ self.old.plan }
    {
        self.read_ahead();
        if !self.held.is_empty() {
            return Got::Bytes(self.held.give(buf));
        }
        match self.behind {
            Behind::End => Got::End,
            Behind::Failure => {
                self.told = self.told.saturating_add(1);
                self.behind = Behind::Direct;
                Got::Failed
            }
            Behind::More | Behind::Direct => self.read_directly(buf),
        }
    }
}
