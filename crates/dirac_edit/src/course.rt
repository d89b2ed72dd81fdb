//! The content of a stream, unit by unit, as a check goes through it. What is refused is refused while it is read, so
//! no picture is rebuilt.

ghost use Rattle.std.specs.Prelude.{◌≡◌, ◌+◌, ◌<◌, ◌≤◌, ◌^◌, length, IfErr, IsTrue};
ghost use Rattle.dirac_picture.specs.Grammar.{is_picture};
ghost use Rattle.dirac_content.specs.StreamState.{stream_begun, header_step, passed};
ghost use Rattle.dirac_content.specs.Stopped.{IfStopped};
ghost use Rattle.dirac_edit.specs.Course.{IsTaken, picture_checked, state_of, unit_checked};

use crate::listed::list_by_number;
use dirac_common::{Cause, END_OF_SEQUENCE, Refusal, SEQUENCE_HEADER, Stop};
use dirac_content::{Opened, behind_parse_info, opened_by};
use dirac_picture::read_picture;
use dirac_refs::RefBuffer;
use dirac_units::{Payload, fields_are_read};
use std::alloc::Global;
use std::marker::Model;

/// The open sequence, and its reference pictures by their numbers alone.
#[derive(Drop)]
pub(crate) struct Course {
    opened: Option<Opened>,
    refs: RefBuffer,
}

impl Model for Course {
    ghost use Rattle.std.specs.Prelude.{[], None, IfSome};
    ghost use Rattle.dirac_sequence_header.specs.Lawful.{IsSequence};
    ghost use Rattle.dirac_content.specs.StreamState.{StreamState};

    ghost Value = { StreamState };

    ghost view = { λ c. record { opened = c.opened; first = None; list = c.refs; waiting = []; most = 0 } };

    ghost invariant = { λ c. IfSome c.opened (λ o. IsSequence o.sequence) };
}

impl Course {
    /// Before the first unit.
    pub(crate) fn new() -> Course
        ensures { result ≡ stream_begun }
    {
        Course {
            opened: None,
            refs: RefBuffer::new(),
        }
    }

    /// Takes the content of a unit with this parse code.
    #[tactic(auto, unfolding(crate::specs::Course::unit_checked))]
    pub(crate) fn take(&mut self, alloc: Global, code: u8, payload: Payload) -> Result<(), Stop>
        requires { length payload < 2 ^ 63 }
        ensures taken { IsTaken result (unit_checked self.old code payload) self.new }
        ensures place_inside { IfErr result (λ e. IfStopped e (λ r. r.at ≤ 13 + length payload)) }
    {
        if !fields_are_read(code) {
            self.pass(code);
            return Ok(());
        }
        if code == SEQUENCE_HEADER {
            self.take_header(payload)
        } else {
            self.take_picture(alloc, code, payload.bytes())
        }
    }

    /// Passes over a unit without content, or closes the sequence.
    fn pass(&mut self, code: u8)
        ensures { self.new ≡ (passed self.old code).state }
    {
        if code == END_OF_SEQUENCE {
            self.opened = None;
            self.refs = RefBuffer::new();
        }
    }

    /// Opens a sequence, or compares a repeated header with the open one's.
    fn take_header(&mut self, payload: Payload) -> Result<(), Stop>
        requires { length payload < 2 ^ 63 }
        ensures taken { IsTaken result (state_of (header_step self.old self.old.opened payload)) self.new }
        ensures place_inside { IfErr result (λ e. IfStopped e (λ r. r.at ≤ 13 + length payload)) }
    {
        match opened_by(&self.opened, payload) {
            Err(refusal) => Err(Stop::Refused(refusal)),
            Ok(None) => Ok(()),
            Ok(Some(opened)) => {
                self.opened = Some(opened);
                Ok(())
            }
        }
    }

    /// Reads a picture of the open sequence.
    fn take_picture(&mut self, alloc: Global, code: u8, payload: &[u8]) -> Result<(), Stop>
        requires code { IsTrue (is_picture code) }
        requires below_2_63 { length payload.now < 2 ^ 63 }
        ensures taken { IsTaken result (picture_checked self.old self.old.opened code payload.now) self.new }
        ensures place_inside { IfErr result (λ e. IfStopped e (λ r. r.at ≤ 13 + length payload.now)) }
    {
        let Some(opened) = &self.opened else {
            return Err(Stop::Refused(Refusal {
                at: 0,
                cause: Cause::NoSequence,
            }));
        };
        match read_picture(alloc, payload, code, &opened.sequence, &self.refs) {
            Err(Stop::Refused(refusal)) => Err(Stop::Refused(behind_parse_info(refusal))),
            Err(Stop::NoMemory) => Err(Stop::NoMemory),
            Ok(coded) => {
                list_by_number(alloc, &mut self.refs, coded.code, &coded.header)?;
                Ok(())
            }
        }
    }
}
