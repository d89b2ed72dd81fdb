ghost use Rattle.std.specs.Prelude.{◌≡◌, ℕ, ◌+◌, ◌<◌, ◌≤◌, ◌^◌, [], length, Some, Option};
ghost use Rattle.std.specs.Io.KnownBytes.{IsAtEnd};
ghost use Rattle.dirac_io.specs.Faults.{Rose};
ghost use Rattle.dirac_decode.specs.Decoding.{decoder_begun, tally, AnswersWhatWasMet, BreaksOff, Gives, GivesDue};
ghost use Rattle.dirac_decode.specs.Decoding.{StopsIn};
ghost use Rattle.dirac_decode.specs.Stepping.{TakesUpTo};
ghost use Rattle.dirac_decode_picture.specs.Payload.{DecodesPictures};

mod stepping;

use crate::answers::Next;
use crate::in_turn::decode_in_turn;
use crate::state::State;
use dirac_common::{Picture, Stop};
use dirac_content::Tally;
use dirac_decode_picture::{DecodedPicture, DecodingRefs};
use dirac_io::Source;
use dirac_refs::MOST_REFERENCES;
use dirac_sequence_header::Sequence;
use dirac_units::{StreamEnd, Units};
use std::alloc::Global;
use std::marker::Model;

/// Decodes a stream, picture by picture.
#[derive(Drop)]
pub struct Decoder {
    alloc: Global,
    units: Units,
    state: State,
    draining: bool,
    given: u64,
    stream_end: StreamEnd,
}

impl Model for Decoder {
    ghost use Rattle.std.specs.Prelude.{◌≡◌, ◌+◌, ◌≤◌, ◌<◌, ◌^◌, length};
    ghost use Rattle.dirac_units.specs.declared.unit.StreamEnd.TheVariants.{Going};
    ghost use Rattle.dirac_decode.specs.Decoding.{Decoding, decoding};

    ghost Value = { Decoding };

    ghost view = { λ d. decoding d.units d.state d.draining d.given d.stream_end };

    ghost invariant = { λ d. (d.given + length d.state.waiting ≤ d.units.unit_place.index)
        × (d.units.unit_place.index < 2 ^ 64) × (d.stream_end ≡ Going → d.units.stream_end ≡ Going) };
}

impl Decoder {
    /// A decoder before the first unit.
    pub fn new(alloc: Global) -> Decoder
        ensures { result ≡ decoder_begun }
    {
        Decoder {
            alloc,
            units: Units::new(alloc),
            state: State::new(),
            draining: false,
            given: 0,
            stream_end: StreamEnd::Going,
        }
    }

    /// How many pictures were given so far, and the greatest length that the list of references had so far.
    pub fn tally(&self) -> Tally
        ensures value { result ≡ tally self.now }
        ensures at_most_8_references { result.references ≤ MOST_REFERENCES }
    {
        Tally {
            pictures: self.given,
            references: self.state.most(),
        }
    }

    /// Takes back a picture that was given and is needed no more: where one thread decodes, the next picture is made in
    /// its planes if they have the same size, so none are made and filled with zeros. Nothing else depends on it.
    pub fn take_back(&mut self, picture: Picture)
        ensures { self.new ≡ self.old }
    {
        self.state.take_back(picture);
    }

    /// The next picture of the stream, in order of delivery, as soon as it may leave. Pictures that wait
    /// come before the end or the first fault is answered. Both are answered again by each later call,
    /// and after `ReadFault` and `NoMemory` each later call answers `Stopped`; none of them reads.
    pub fn next_picture<S: Source>(&mut self, source: &mut S) -> Next
        requires { self.old.units.unit_place.at + length self.old.units.ahead + S.left source.old < 2 ^ 63 }
        ensures gives { Gives result self.old self.new (S.held source.old) (S.held source.new) }
        ensures repeated { AnswersWhatWasMet self.old.stream_end self.old.due result }
        ensures due { GivesDue result self.old self.new }
        ensures due_without_reading { (self.old.due ≡ [] → ⊥) → source.new ≡ source.old }
        // Where none is due, no unit is taken behind the first one with which a picture leaves.
        ensures up_to { self.old.stream_end ≡ StreamEnd.Going → self.old.due ≡ []
            → TakesUpTo (Some result) self.old self.new (S.held source.old) (S.held source.new) }
        ensures repeats_without_reading { (self.old.stream_end ≡ StreamEnd.Going → ⊥) → source.new ≡ source.old }
        ensures whole { (self.old.stream_end ≡ StreamEnd.Ended → IsAtEnd (S.held source.old)) → self.new.stream_end
            ≡ StreamEnd.Ended → IsAtEnd (S.held source.new) }
        // Where a read failed, no picture is due by the units that were read whole; where memory was wanting, what
        // wasn't read is held too.
        ensures broken_off { result ≡ Next.ReadFault → BreaksOff self.old (S.held source.old) (S.held source.new) }
        ensures stops { result ≡ Next.NoMemory → StopsIn self.old (S.held source.old) (S.held source.new) }
        ensures none_ahead { self.old.units.ahead ≡ [] → self.new.units.ahead ≡ [] }
        ensures read { result ≡ Next.ReadFault → Rose (S.faults source.old) (S.faults source.new) }
        ensures count { S.faults source.old ≤ S.faults source.new }
        ensures fits { self.new.given < 2 ^ 64 }
        // Whatever is answered, the greatest length of the list never falls.
        ensures greatest { self.old.state.most ≤ self.new.state.most }
        ensures no_overflow { self.new.units.unit_place.at + length self.new.units.ahead + S.left source.new
            ≤ self.old.units.unit_place.at + length self.old.units.ahead + S.left source.old }
    {
        self.next_picture_by(&decode_in_turn, source)
    }

    /// The next picture of the stream, as `next_picture`, where `decode` decodes each picture.
    pub fn next_picture_by<
        S: Source,
        F: Fn(Global, &[u8], u8, &Sequence, &mut DecodingRefs) -> Result<DecodedPicture, Stop>,
    >(&mut self, decode: &F, source: &mut S) -> Next
        requires decodes { DecodesPictures (F.pre decode.now) (F.post decode.now) }
        requires no_overflow { self.old.units.unit_place.at + length self.old.units.ahead + S.left source.old < 2 ^ 63 }
        ensures gives { Gives result self.old self.new (S.held source.old) (S.held source.new) }
        ensures repeated { AnswersWhatWasMet self.old.stream_end self.old.due result }
        ensures due { GivesDue result self.old self.new }
        ensures due_without_reading { (self.old.due ≡ [] → ⊥) → source.new ≡ source.old }
        // Where none is due, no unit is taken behind the first one with which a picture leaves.
        ensures up_to { self.old.stream_end ≡ StreamEnd.Going → self.old.due ≡ []
            → TakesUpTo (Some result) self.old self.new (S.held source.old) (S.held source.new) }
        ensures repeats_without_reading { (self.old.stream_end ≡ StreamEnd.Going → ⊥) → source.new ≡ source.old }
        ensures whole { (self.old.stream_end ≡ StreamEnd.Ended → IsAtEnd (S.held source.old)) → self.new.stream_end
            ≡ StreamEnd.Ended → IsAtEnd (S.held source.new) }
        // Where a read failed, no picture is due by the units that were read whole; where memory was wanting, what
        // wasn't read is held too.
        ensures broken_off { result ≡ Next.ReadFault → BreaksOff self.old (S.held source.old) (S.held source.new) }
        ensures stops { result ≡ Next.NoMemory → StopsIn self.old (S.held source.old) (S.held source.new) }
        ensures none_ahead { self.old.units.ahead ≡ [] → self.new.units.ahead ≡ [] }
        ensures read { result ≡ Next.ReadFault → Rose (S.faults source.old) (S.faults source.new) }
        ensures count { S.faults source.old ≤ S.faults source.new }
        ensures fits { self.new.given < 2 ^ 64 }
        // Whatever is answered, the greatest length of the list never falls.
        ensures greatest { self.old.state.most ≤ self.new.state.most }
        ensures no_overflow { self.new.units.unit_place.at + length self.new.units.ahead + S.left source.new
            ≤ self.old.units.unit_place.at + length self.old.units.ahead + S.left source.old }
    {
        'units: loop {
            if let Some(next) = self.step_by(decode, source) {
                return next;
            }
        }
    }
}
