ghost use Rattle.std.specs.Prelude.{◌≡◌, ℕ, ◌<◌, ◌≤◌, ◌^◌, length, IsTrue, Ok, Option};
ghost use Rattle.dirac_picture.specs.Grammar.{is_picture};
ghost use Rattle.dirac_decode_picture.specs.Payload.{CanBeDecoded, DecodesPayload, DecodesPictures};
ghost use Rattle.dirac_content.specs.StreamState.{as_reference, stream_begun, header_step};
ghost use Rattle.dirac_content.specs.StreamState.{first_or as first_of, unit_step, passed, picture_step};
ghost use Rattle.dirac_decode.specs.Stepping.{opened_sequence};
ghost use Rattle.dirac_decode.specs.Taking.{IsOfOpen, IsPopped, TakesContent, shows_decoded};

use crate::step::Step;
use dirac_common::{Cause, END_OF_SEQUENCE, Picture, Refusal, SEQUENCE_HEADER, Stop};
use dirac_content::{Opened, behind_parse_info, opened_by};
use dirac_decode_picture::{DecodedPicture, DecodingRefs};
use dirac_refs::{Delivery, MOST_REFERENCES, key};
use dirac_sequence_header::Sequence;
use dirac_units::{Payload, fields_are_read};
use std::alloc::Global;
use std::marker::Model;

/// The content of the units so far: the open sequence, its references, the pictures that wait.
#[derive(Drop)]
pub(crate) struct State {
    opened: Option<Opened>,
    first: Option<u32>,
    refs: DecodingRefs,
    waits: Delivery,
    most: u8,
}

impl Model for State {
    ghost use Rattle.std.specs.Prelude.{◌≤◌};
    ghost use Rattle.dirac_refs.specs.declared.ref_buffer.TheConstants.{MOST_REFERENCES};
    ghost use Rattle.dirac_content.specs.StreamState.{StreamState};
    ghost use Rattle.dirac_decode.specs.Taking.{IsOpen};

    ghost Value = { StreamState };

    ghost view = { λ s. record {
      opened = s.opened;
      first = s.first;
      list = s.refs;
      waiting = s.waits;
      most = s.most;
    } };

    ghost invariant = { λ s. IsOpen s.opened s.refs × (s.most ≤ MOST_REFERENCES) };
}

impl State {
    /// Before the first unit.
    pub(crate) fn new() -> State
        ensures { result ≡ stream_begun }
    {
        State {
            opened: None,
            first: None,
            refs: DecodingRefs::new(),
            waits: Delivery::new(),
            most: 0,
        }
    }

    /// The greatest length that a list of references had.
    pub(crate) fn most(&self) -> u8
        ensures value { result ≡ self.now.most }
        ensures at_most_8_references { result ≤ MOST_REFERENCES }
    {
        self.most
    }

    /// The open sequence.
    pub(crate) fn sequence(&self) -> Option<Sequence>
        ensures { result ≡ opened_sequence self.now.opened }
    {
        match &self.opened {
            None => None,
            Some(opened) => Some(opened.sequence),
        }
    }

    /// Takes the picture that leaves first, where one waits.
    pub(crate) fn pop(&mut self) -> Option<Picture>
        ensures { IsPopped result self.old self.new }
    {
        self.waits.pop()
    }

    /// Takes back a picture that left and is needed no more, to make the next one in its planes.
    pub(crate) fn take_back(&mut self, picture: Picture)
        ensures { self.new ≡ self.old }
    {
        self.refs.give_room(picture);
    }

    /// Takes the content of a unit with this parse code.
    pub(crate) fn take<
        F: Fn(Global, &[u8], u8, &Sequence, &mut DecodingRefs) -> Result<DecodedPicture, Stop>,
    >(&mut self, decode: &F, alloc: Global, code: u8, payload: Payload) -> Result<Step, Stop>
        requires decodes { DecodesPictures (F.pre decode.now) (F.post decode.now) }
        requires below_2_63 { length payload < 2 ^ 63 }
        ensures { TakesContent result (unit_step self.old code payload) (length payload) self.old self.new }
    {
        if !fields_are_read(code) {
            return Ok(self.pass(code));
        }
        if code == SEQUENCE_HEADER {
            self.take_header(payload)
        } else {
            self.take_picture(decode, alloc, code, payload.bytes())
        }
    }

    /// Passes over a unit without content, or closes the sequence.
    fn pass(&mut self, code: u8) -> Step
        ensures { TakesContent (Ok result) (Ok (passed self.old code)) 0 self.old self.new }
    {
        if code == END_OF_SEQUENCE {
            self.opened = None;
            self.first = None;
            self.refs = DecodingRefs::new();
            return Step::Drains;
        }
        Step::On
    }

    /// Opens a sequence, or compares a repeated header with the open one's.
    fn take_header(&mut self, payload: Payload) -> Result<Step, Stop>
        requires { length payload < 2 ^ 63 }
        ensures { TakesContent result (header_step self.old self.old.opened payload) (length payload)
            self.old self.new }
    {
        match opened_by(&self.opened, payload) {
            Err(refusal) => Err(Stop::Refused(refusal)),
            Ok(None) => Ok(Step::On),
            Ok(Some(opened)) => {
                self.opened = Some(opened);
                self.first = None;
                Ok(Step::On)
            }
        }
    }

    /// Decodes a picture of the open sequence.
    fn take_picture<
        F: Fn(Global, &[u8], u8, &Sequence, &mut DecodingRefs) -> Result<DecodedPicture, Stop>,
    >(&mut self, decode: &F, alloc: Global, code: u8, payload: &[u8]) -> Result<Step, Stop>
        requires decodes { DecodesPictures (F.pre decode.now) (F.post decode.now) }
        requires code { IsTrue (is_picture code) }
        requires below_2_63 { length payload.now < 2 ^ 63 }
        ensures { TakesContent result (picture_step self.old self.old.opened code payload.now) (length payload.now)
            self.old self.new }
    {
        let Some(opened) = &self.opened else {
            return Err(Stop::Refused(Refusal {
                at: 0,
                cause: Cause::NoSequence,
            }));
        };
        match decoded_by(
            decode,
            alloc,
            payload,
            code,
            &opened.sequence,
            &mut self.refs,
        ) {
            Err(Stop::Refused(refusal)) => Err(Stop::Refused(behind_parse_info(refusal))),
            Err(Stop::NoMemory) => Err(Stop::NoMemory),
            Ok(decoded) => Ok(self.show(decoded)),
        }
    }

    /// A decoded picture changes the list and joins those that wait.
    fn show(&mut self, decoded: DecodedPicture) -> Step
        requires reference { decoded.reference ≡ as_reference decoded.code decoded.picture }
        requires fits { IsOfOpen self.old.opened decoded.picture }
        ensures { TakesContent (Ok result) (Ok (shows_decoded self.old decoded)) 0 self.old self.new }
    {
        let DecodedPicture {
            code: _,
            header,
            picture,
            reference,
        } = decoded;
        let first = first_or(self.first, picture.number);
        self.first = Some(first);
        self.refs.commit(header.retire, reference);
        self.most = self.most.max(self.refs.count());
        match self.waits.push(key(first, picture.number), picture) {
            None => Step::On,
            Some(gone) => Step::Shown(gone),
        }
    }
}

/// A picture decoded by `decode`.
fn decoded_by<
    F: Fn(Global, &[u8], u8, &Sequence, &mut DecodingRefs) -> Result<DecodedPicture, Stop>,
>(
    decode: &F,
    alloc: Global,
    payload: &[u8],
    code: u8,
    sequence: &Sequence,
    refs: &mut DecodingRefs,
) -> Result<DecodedPicture, Stop>
    requires decodes { DecodesPictures (F.pre decode.now) (F.post decode.now) }
    requires can_be_decoded { CanBeDecoded code sequence.now refs.old }
    ensures { DecodesPayload payload.now code sequence.now refs.old result refs.new }
{
    decode(alloc, payload, code, sequence, refs)
}

/// The number of a sequence's first picture, which is this one where there was none.
fn first_or(first: Option<u32>, number: u32) -> u32
    ensures { result ≡ first_of first number }
{
    match first {
        None => number,
        Some(first) => first,
    }
}
