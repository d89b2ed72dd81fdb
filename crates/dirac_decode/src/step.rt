ghost use Rattle.std.specs.Prelude.{◌≡◌, true, false, None, Some};
ghost use Rattle.dirac_decode.specs.Advancing.{turn_by};

use crate::answers::Next;
use dirac_common::{Fault, Picture};
use dirac_units::StreamEnd;

/// What the content of a unit brings.
#[derive(Drop)]
pub(crate) enum Step {
    /// No picture leaves.
    On,
    /// This picture leaves.
    Shown(Picture),
    /// The sequence ended, and all that wait leave.
    Drains,
}

/// Why no further unit is taken.
#[derive(Clone, Copy, Drop)]
pub(crate) enum Halt {
    /// The stream ends lawfully, and all that wait leave.
    End,
    /// The stream's first fault; before it is answered all that wait leave.
    Fault(Fault),
    ReadFault,
    NoMemory,
}

/// What a decoder makes of the unit that it took, or of what stood in its place.
#[derive(Drop)]
pub(crate) struct Turn {
    /// What is answered at once, if anything.
    pub(crate) answer: Option<Next>,
    /// How many pictures that gives.
    pub(crate) shown: u64,
    /// Whether all pictures that wait are due.
    pub(crate) draining: bool,
    /// Whether units go on, or what was met.
    pub(crate) stream_end: StreamEnd,
}

/// Units go on.
fn goes_on(answer: Option<Next>, shown: u64, draining: bool) -> Turn
    ensures { result ≡ record {
      answer = answer;
      shown = shown;
      draining = draining;
      stream_end = StreamEnd.Going;
    } }
{
    Turn {
        answer,
        shown,
        draining,
        stream_end: StreamEnd::Going,
    }
}

/// This was met. It is answered once no picture waits.
fn meets(stream_end: StreamEnd) -> Turn
    ensures { result ≡ record { answer = None; shown = 0; draining = true; stream_end = stream_end } }
{
    Turn {
        answer: None,
        shown: 0,
        draining: true,
        stream_end,
    }
}

/// The decoder is stopped, and answers this at once.
fn stops(answer: Next) -> Turn
    ensures { result ≡ record {
      answer = Some answer;
      shown = 0;
      draining = false;
      stream_end = StreamEnd.Stopped;
    } }
{
    Turn {
        answer: Some(answer),
        shown: 0,
        draining: false,
        stream_end: StreamEnd::Stopped,
    }
}

/// What a decoder makes of this.
pub(crate) fn turn_of(taken: Result<Step, Halt>) -> Turn
    ensures { result ≡ turn_by taken }
{
    match taken {
        Ok(Step::On) => goes_on(None, 0, false),
        Ok(Step::Shown(picture)) => goes_on(Some(Next::Shown(picture)), 1, false),
        Ok(Step::Drains) => goes_on(None, 0, true),
        Err(Halt::End) => meets(StreamEnd::Ended),
        Err(Halt::Fault(fault)) => meets(StreamEnd::Faulted(fault)),
        Err(Halt::ReadFault) => stops(Next::ReadFault),
        Err(Halt::NoMemory) => stops(Next::NoMemory),
    }
}
