ghost use Rattle.std.specs.Prelude.{◌≡◌, ◌<◌, ◌≤◌, ◌^◌, ◌↔◌, [], ◌++◌, ◌+◌, true, false, length, IfErr, IfOk};
ghost use Rattle.std.specs.Prelude.{IfSome, None, Some, Err, Option};
ghost use Rattle.std.specs.Prelude.{option_map};
ghost use Rattle.std.specs.Borrow.{Bor};
ghost use Rattle.dirac_decode.specs.Stepping.{IsWholeUnit};
ghost use Rattle.dirac_push.specs.Pushing.{push_begun, IsFormat, PushPasses, PushGives, RepeatsAnswer, TakesUnits};
ghost use Rattle.dirac_push.specs.Pushing.{HoldsJustKept, TakesSilently, TurnGives, kept_bytes};
ghost use Rattle.dirac_push.specs.Pushing as pushing;

use crate::answer::{Answer, Unsent};
use crate::queue::Queue;
use dirac_common::{NoMemory, Picture};
use dirac_decode::{Decoder, Next};
use dirac_sequence_header::Sequence;
use dirac_units::StreamEnd;
use std::alloc::Global;
use std::marker::Model;

/// The most bytes that a decoder may be sent in all.
pub const MOST_SENT: u64 = i64::MAX as u64;

/// A decoder that is sent the bytes of its stream, in pieces of any length.
#[derive(Drop)]
pub struct PushDecoder {
    decoder: Decoder,
    queue: Queue,
    room: u64,
    is_finished: bool,
    shown: Option<Picture>,
    format: Option<Sequence>,
}

impl Model for PushDecoder {
    ghost use Rattle.std.specs.Prelude.{◌≡◌, ◌+◌, ◌<◌, ◌^◌, []};
    ghost use Rattle.dirac_push.specs.Queued.{count_waiting};
    ghost use Rattle.dirac_push.specs.Pushing.{IsFormat, Pushed, kept_bytes};

    ghost Value = { Pushed };

    ghost view = { λ d. record {
      decoder = d.decoder;
      there = d.queue;
      room = d.room;
      is_finished = d.is_finished;
      shown = d.shown;
      format = d.format;
    } };

    ghost invariant = { λ d. (d.decoder.units.ahead ≡ [])
        × (d.decoder.units.unit_place.at + count_waiting d.queue + d.room < 2 ^ 63)
        × IsFormat d.decoder.state.opened d.format
        × (d.queue ≡ kept_bytes d.decoder.stream_end d.queue) };
}

impl PushDecoder {
    /// A decoder before the first byte.
    pub fn new(alloc: Global) -> PushDecoder
        ensures { result ≡ push_begun }
    {
        PushDecoder {
            decoder: Decoder::new(alloc),
            queue: Queue::new(alloc),
            room: MOST_SENT,
            is_finished: false,
            shown: None,
            format: None,
        }
    }

    /// Adds bytes behind those that were sent: any number, cut anywhere. They are copied; after an error none is. Once
    /// a fault or want of memory was met they are counted and not kept. Till then a decoder holds all that was sent and
    /// not yet taken, and at most as many taken bytes: where `next` is asked until it answers `Needs`, less than a
    /// unit, though also of one that is only passed over, which may have 4 GiB by its parse info.
    #[tactic(auto, using(crate::proofs::Passing::passes_sent, crate::proofs::Passing::kept_more))]
    pub fn send(&mut self, bytes: &[u8]) -> Result<(), Unsent>
        ensures sent { IfOk result (λ _. PushPasses self.old self.new bytes.now []) }
        ensures added { IfOk result (λ _. self.new ≡ record self.old {
          there = self.old.there ++ kept_bytes self.old.decoder.stream_end bytes.now;
          room = self.new.room;
        }) }
        ensures room { IfOk result (λ _. self.new.room + length bytes.now ≡ self.old.room) }
        ensures unsent { IfErr result (λ _. self.new ≡ self.old) }
        ensures exactly_when_finished { (result ≡ Err Unsent.Finished) ↔ (self.old.is_finished ≡ true) }
    {
        if self.is_finished {
            return Err(Unsent::Finished);
        }
        if bytes.len() as u64 > self.room {
            return Err(Unsent::NoMemory);
        }
        match self.queue.add(kept(self.decoder.stream_end(), bytes)) {
            Ok(()) => {
                self.room -= bytes.len() as u64;
                Ok(())
            }
            Err(NoMemory) => Err(Unsent::NoMemory),
        }
    }

    /// Says that no more bytes follow.
    pub fn finish(&mut self)
        ensures finished { self.new ≡ record self.old { is_finished = true } }
        ensures passes { PushPasses self.old self.new [] [] }
    {
        self.is_finished = true;
    }

    /// The picture that the last call of `next` gave.
    pub fn shown(&self) -> Option<&Picture>
        ensures { option_map (λ (p : Bor Picture). p.now) result ≡ self.now.shown }
    {
        match &self.shown {
            None => None,
            Some(picture) => Some(picture),
        }
    }

    /// The sequence that was opened last. All pictures of a sequence are given before the next one is opened.
    pub fn format(&self) -> Option<Sequence>
        ensures value { result ≡ self.now.format }
        ensures open { IsFormat self.now.decoder.state.opened result }
    {
        self.format
    }

    /// What comes next. It never waits. The end and a fault are answered again by each later call, and after `NoMemory`
    /// each later call answers `Stopped`; none of them takes a byte.
    pub fn next(&mut self) -> Answer
        ensures gives { PushGives result self.old self.new }
        // Which units were taken, that no picture could be given before the last of them, and that the format is that
        // of the sequence opened last among them.
        ensures takes { TakesUnits self.old self.new }
        ensures repeats { RepeatsAnswer result self.old self.new }
        ensures finished_stays { self.new.is_finished ≡ self.old.is_finished }
        ensures given_up { HoldsJustKept self.new }
        // Bytes that were taken make no room for others.
        ensures room_stays { self.new.room ≡ self.old.room }
    {
        self.shown = None;
        if let StreamEnd::Stopped = self.decoder.stream_end() {
            return Answer::Stopped;
        }
        'units: loop {
            if let Some(answer) = self.turn() {
                return answer;
            }
        }
    }

    /// One turn: the picture that is due, what was met, or at most one unit.
    #[tactic(auto, using(crate::proofs::Passing::turn_taken, crate::proofs::Taking::takes_taken))]
    fn turn(&mut self) -> Option<Answer>
        requires not_stopped { self.old.decoder.stream_end ≡ StreamEnd.Stopped → ⊥ }
        requires none_shown { self.old.shown ≡ None }
        ensures gives { TurnGives result self.old self.new }
        ensures takes { TakesUnits self.old self.new }
        ensures silent { result ≡ None → TakesSilently self.old self.new }
        ensures repeats { IfSome result (λ answer. RepeatsAnswer answer self.old self.new) }
        ensures fits { self.new.decoder.units.unit_place.at < 2 ^ 63 }
        ensures given_up { HoldsJustKept self.new }
        ensures finished_stays { self.new.is_finished ≡ self.old.is_finished }
        ensures room_stays { self.new.room ≡ self.old.room }
    {
        if let Some(picture) = self.decoder.due_picture() {
            self.shown = Some(picture);
            #[tactic(auto, using(crate::proofs::Passing::turn_due, crate::proofs::Taking::takes_due))]
            return Some(Answer::Shown);
        }
        match self.decoder.stream_end() {
            StreamEnd::Going => {}
            #[tactic(auto, using(crate::proofs::Passing::turn_ended, crate::proofs::Taking::takes_due))]
            StreamEnd::Ended => return Some(Answer::End),
            #[tactic(auto, using(crate::proofs::Passing::turn_faulted, crate::proofs::Taking::takes_due))]
            StreamEnd::Faulted(fault) => return Some(Answer::Fault(fault)),
            StreamEnd::Stopped => unreachable!(),
        }
        if !self.is_finished && !self.queue.has_unit() {
            #[tactic(auto, using(crate::proofs::Passing::turn_needs, crate::proofs::Taking::takes_due))]
            return Some(Answer::Needs);
        }
        self.take_unit()
    }

    /// Takes a unit, and gives up the bytes behind it where something was met.
    #[tactic(auto, using(crate::proofs::Passing::kept_twice))]
    fn take_unit(&mut self) -> Option<Answer>
        requires going { self.old.decoder.stream_end ≡ StreamEnd.Going }
        requires none_due { self.old.decoder.due ≡ [] }
        requires there { self.old.is_finished ≡ false → IsWholeUnit self.old.there }
        requires none_shown { self.old.shown ≡ None }
        ensures gives { TurnGives result self.old self.new }
        ensures takes { TakesUnits self.old self.new }
        ensures silent { result ≡ None → TakesSilently self.old self.new }
        ensures fits { self.new.decoder.units.unit_place.at < 2 ^ 63 }
        ensures given_up { HoldsJustKept self.new }
        ensures finished_stays { self.new.is_finished ≡ self.old.is_finished }
        ensures room_stays { self.new.room ≡ self.old.room }
    {
        let step = self.decoder.step(&mut self.queue);
        self.format = latest(self.decoder.sequence(), self.format);
        self.queue.give_up(self.decoder.stream_end());
        match step {
            None => None,
            Some(Next::Shown(picture)) => {
                self.shown = Some(picture);
                Some(Answer::Shown)
            }
            Some(Next::End) => Some(Answer::End),
            Some(Next::Fault(fault)) => Some(Answer::Fault(fault)),
            Some(Next::NoMemory) => Some(Answer::NoMemory),
            Some(Next::ReadFault | Next::Stopped) => unreachable!(),
        }
    }
}

/// Of bytes that are sent, those that are kept.
fn kept(stream_end: StreamEnd, bytes: &[u8]) -> &[u8]
    ensures value { result.now ≡ kept_bytes stream_end bytes.now }
    ensures no_longer { length result.now ≤ length bytes.now }
{
    match stream_end {
        StreamEnd::Going => bytes,
        StreamEnd::Ended | StreamEnd::Faulted(_) | StreamEnd::Stopped => &bytes[..0],
    }
}

/// The open sequence, or the one before where none is open.
fn latest(opened: Option<Sequence>, before: Option<Sequence>) -> Option<Sequence>
    ensures { result ≡ pushing.latest opened before }
{
    match opened {
        None => before,
        Some(sequence) => Some(sequence),
    }
}
