//! A decoder that takes one unit at a time, for a caller whose bytes still come.
ghost use Rattle.std.specs.Prelude.{◌≡◌, ℕ, ◌+◌, ◌<◌, ◌≤◌, ◌^◌, [], length, IfSome, None, Some, Option};
ghost use Rattle.std.specs.Io.KnownBytes.{IsAtEnd};
ghost use Rattle.dirac_io.specs.Faults.{Rose};
ghost use Rattle.dirac_decode.specs.Decoding.{AnswersWhatWasMet, BreaksOff, StopsIn};
ghost use Rattle.dirac_decode_picture.specs.Payload.{DecodesPictures};
ghost use Rattle.dirac_decode.specs.Stepping.{DueGives, IsThere, StepGives, StepGivesBefore, TakesAs, TakesOne};
ghost use Rattle.dirac_decode.specs.Stepping.{opened_sequence};
ghost use Rattle.dirac_decode.specs.Advancing.{answer_by};

use crate::advance::advance_by_unit;
use crate::answers::Next;
use crate::decoder::Decoder;
use crate::in_turn::decode_in_turn;
use crate::step::{Turn, turn_of};
use dirac_common::{Picture, Stop};
use dirac_decode_picture::{DecodedPicture, DecodingRefs};
use dirac_io::Source;
use dirac_sequence_header::Sequence;
use dirac_units::StreamEnd;
use std::alloc::Global;

impl Decoder {
    /// The next picture that is due before a further unit is taken. Nothing is read.
    pub fn due_picture(&mut self) -> Option<Picture>
        ensures { DueGives result self.old self.new }
    {
        self.next_due()
    }

    /// The next picture that is due, and that the pictures given can be counted.
    fn next_due(&mut self) -> Option<Picture>
        ensures gives { DueGives result self.old self.new }
        ensures fits { self.new.given < 2 ^ 64 }
    {
        if !self.draining {
            return None;
        }
        match self.state.pop() {
            None => {
                self.draining = false;
                None
            }
            Some(picture) => {
                self.given += 1;
                Some(picture)
            }
        }
    }

    /// Whether units go on, or what was met.
    pub fn stream_end(&self) -> StreamEnd
        ensures { result ≡ self.now.stream_end }
    {
        self.stream_end
    }

    /// Whether units go on, or what was met, and that the pictures given can be counted.
    fn met(&self) -> StreamEnd
        ensures value { result ≡ self.now.stream_end }
        ensures fits { self.now.given < 2 ^ 64 }
    {
        self.stream_end
    }

    /// The open sequence.
    pub fn sequence(&self) -> Option<Sequence>
        ensures { result ≡ opened_sequence self.now.state.opened }
    {
        self.state.sequence()
    }

    /// Takes at most one unit: answers what `next_picture` would, or `None` where no picture leaves with that unit (at
    /// the end of a sequence those that leave are due then), or where the end or a fault was met, which a later call
    /// answers.
    pub fn step<S: Source>(&mut self, source: &mut S) -> Option<Next>
        requires { self.old.units.unit_place.at + length self.old.units.ahead + S.left source.old < 2 ^ 63 }
        ensures gives { StepGives result self.old self.new (S.held source.old) (S.held source.new) }
        ensures at_most_one_unit { TakesOne result self.old self.new (S.held source.old) (S.held source.new) }
        // Where the unit is there as a whole, the same holds whatever follows what the source holds.
        ensures before_more { IsThere self.old.units (S.held source.old)
            → StepGivesBefore result self.old self.new (S.held source.old) (S.held source.new) }
        ensures repeated { IfSome result (AnswersWhatWasMet self.old.stream_end self.old.due) }
        ensures repeats_without_reading { (self.old.stream_end ≡ StreamEnd.Going → ⊥) → source.new ≡ source.old }
        ensures due_without_reading { (self.old.due ≡ [] → ⊥) → source.new ≡ source.old }
        ensures whole { (self.old.stream_end ≡ StreamEnd.Ended → IsAtEnd (S.held source.old)) → self.new.stream_end
            ≡ StreamEnd.Ended → IsAtEnd (S.held source.new) }
        ensures broken_off { result ≡ Some Next.ReadFault → BreaksOff self.old (S.held source.old)
            (S.held source.new) }
        ensures stops { result ≡ Some Next.NoMemory → StopsIn self.old (S.held source.old) (S.held source.new) }
        ensures none_ahead { self.old.units.ahead ≡ [] → self.new.units.ahead ≡ [] }
        ensures read { result ≡ Some Next.ReadFault → Rose (S.faults source.old) (S.faults source.new) }
        ensures count { S.faults source.old ≤ S.faults source.new }
        ensures fits { self.new.given < 2 ^ 64 }
        ensures greatest { self.old.state.most ≤ self.new.state.most }
        ensures no_overflow { self.new.units.unit_place.at + length self.new.units.ahead + S.left source.new
            ≤ self.old.units.unit_place.at + length self.old.units.ahead + S.left source.old }
    {
        self.step_by(&decode_in_turn, source)
    }

    /// One step, as `step`, where `decode` decodes each picture.
    pub fn step_by<
        S: Source,
        F: Fn(Global, &[u8], u8, &Sequence, &mut DecodingRefs) -> Result<DecodedPicture, Stop>,
    >(&mut self, decode: &F, source: &mut S) -> Option<Next>
        requires decodes { DecodesPictures (F.pre decode.now) (F.post decode.now) }
        requires no_overflow { self.old.units.unit_place.at + length self.old.units.ahead + S.left source.old < 2 ^ 63 }
        ensures gives { StepGives result self.old self.new (S.held source.old) (S.held source.new) }
        ensures at_most_one_unit { TakesOne result self.old self.new (S.held source.old) (S.held source.new) }
        ensures before_more { IsThere self.old.units (S.held source.old)
            → StepGivesBefore result self.old self.new (S.held source.old) (S.held source.new) }
        ensures repeated { IfSome result (AnswersWhatWasMet self.old.stream_end self.old.due) }
        ensures repeats_without_reading { (self.old.stream_end ≡ StreamEnd.Going → ⊥) → source.new ≡ source.old }
        ensures due_without_reading { (self.old.due ≡ [] → ⊥) → source.new ≡ source.old }
        ensures whole { (self.old.stream_end ≡ StreamEnd.Ended → IsAtEnd (S.held source.old)) → self.new.stream_end
            ≡ StreamEnd.Ended → IsAtEnd (S.held source.new) }
        ensures broken_off { result ≡ Some Next.ReadFault → BreaksOff self.old (S.held source.old)
            (S.held source.new) }
        ensures stops { result ≡ Some Next.NoMemory → StopsIn self.old (S.held source.old) (S.held source.new) }
        ensures none_ahead { self.old.units.ahead ≡ [] → self.new.units.ahead ≡ [] }
        ensures read { result ≡ Some Next.ReadFault → Rose (S.faults source.old) (S.faults source.new) }
        ensures count { S.faults source.old ≤ S.faults source.new }
        ensures fits { self.new.given < 2 ^ 64 }
        ensures greatest { self.old.state.most ≤ self.new.state.most }
        ensures no_overflow { self.new.units.unit_place.at + length self.new.units.ahead + S.left source.new
            ≤ self.old.units.unit_place.at + length self.old.units.ahead + S.left source.old }
    {
        let met = self.met();
        if let StreamEnd::Stopped = met {
            return Some(Next::Stopped);
        }
        if let Some(picture) = self.next_due() {
            return Some(Next::Shown(picture));
        }
        if let StreamEnd::Going = met {
            return self.take_unit(decode, source);
        }
        Some(answer_behind(met))
    }

    /// Takes the next unit, where none is due before it.
    fn take_unit<
        S: Source,
        F: Fn(Global, &[u8], u8, &Sequence, &mut DecodingRefs) -> Result<DecodedPicture, Stop>,
    >(&mut self, decode: &F, source: &mut S) -> Option<Next>
        requires decodes { DecodesPictures (F.pre decode.now) (F.post decode.now) }
        requires no_overflow { self.old.units.unit_place.at + length self.old.units.ahead + S.left source.old < 2 ^ 63 }
        requires going { self.old.stream_end ≡ StreamEnd.Going }
        requires none_due { self.old.due ≡ [] }
        ensures gives { StepGives result self.old self.new (S.held source.old) (S.held source.new) }
        ensures takes { TakesAs self.new.stream_end result self.old self.new (S.held source.old) (S.held source.new) }
        ensures before_more { IsThere self.old.units (S.held source.old)
            → StepGivesBefore result self.old self.new (S.held source.old) (S.held source.new) }
        ensures at_the_end { self.new.stream_end ≡ StreamEnd.Ended → IsAtEnd (S.held source.new) }
        ensures broken_off { result ≡ Some Next.ReadFault → BreaksOff self.old (S.held source.old)
            (S.held source.new) }
        ensures stops { result ≡ Some Next.NoMemory → StopsIn self.old (S.held source.old) (S.held source.new) }
        ensures none_ahead { self.new.units.ahead ≡ [] }
        ensures read { result ≡ Some Next.ReadFault → Rose (S.faults source.old) (S.faults source.new) }
        ensures count { S.faults source.old ≤ S.faults source.new }
        ensures fits { self.new.given < 2 ^ 64 }
        ensures greatest { self.old.state.most ≤ self.new.state.most }
        ensures no_overflow { self.new.units.unit_place.at + length self.new.units.ahead + S.left source.new
            ≤ self.old.units.unit_place.at + length self.old.units.ahead + S.left source.old }
    {
        let taken = advance_by_unit(decode, self.alloc, &mut self.units, &mut self.state, source);
        let Turn {
            answer,
            shown,
            draining,
            stream_end,
        } = turn_of(taken);
        self.given += shown;
        self.draining = draining;
        self.stream_end = stream_end;
        answer
    }
}

/// What is answered once this was met and no picture is due.
fn answer_behind(met: StreamEnd) -> Next
    ensures { result ≡ answer_by met }
{
    match met {
        StreamEnd::Ended => Next::End,
        StreamEnd::Faulted(fault) => Next::Fault(fault),
        StreamEnd::Going | StreamEnd::Stopped => Next::Stopped,
    }
}
