ghost use Rattle.std.specs.Prelude.{◌≡◌, ◌+◌, ◌<◌, ◌≤◌, ◌^◌, IfOk, None, OnOk};
ghost use Rattle.dirac_edit.specs.Kept.{all_of, walk_begun, keeps, kept_of, walked, with_kept};

use crate::bounds::Part;
use crate::sequence::{HeldPicture, HeldSequence};
use crate::units::HeldUnit;
use dirac_common::{END_OF_SEQUENCE, NoMemory, SEQUENCE_HEADER, is_intra};
use dirac_units::fields_are_read;
use std::alloc::Global;
use std::marker::Model;

/// How far units were gone through.
#[derive(Drop)]
struct Walk<'a> {
    alloc: Global,
    ended: Vec<HeldSequence<'a>>,
    now: Option<HeldSequence<'a>>,
    points: u64,
}

impl<'a> Model for Walk<'a> {
    ghost use Rattle.dirac_edit.specs.Kept.{Walked};

    ghost Value = { Walked };

    ghost view = { λ w. record { ended = w.ended.items; now = w.now; points = w.points } };
}

impl<'a> Walk<'a> {
    /// Before the first unit.
    fn new(alloc: Global) -> Walk<'a>
        ensures { result ≡ walk_begun }
    {
        Walk {
            alloc,
            ended: Vec::new(alloc),
            now: None,
            points: 0,
        }
    }

    /// Goes on behind the unit of this index, and keeps its picture where it is of the part.
    fn take(&mut self, part: Option<Part>, index: u64, unit: &HeldUnit<'a>) -> Result<(), NoMemory>
        requires { self.old.points + 1 < 2 ^ 64 }
        ensures walked { OnOk result (self.new ≡ walked part index self.old unit.now) }
        ensures points { OnOk result (self.new.points ≤ self.old.points + 1) }
    {
        if unit.code() == SEQUENCE_HEADER {
            if self.now.is_none() {
                self.now = Some(HeldSequence::opened_by(self.alloc, unit));
            }
        } else if unit.code() == END_OF_SEQUENCE {
            self.end()?;
        } else if fields_are_read(unit.code()) {
            if is_intra(unit.code()) {
                self.points += 1;
            }
            self.keep(part, HeldPicture::of(index, self.points, unit))?;
        }
        Ok(())
    }

    /// The open sequence ends.
    fn end(&mut self) -> Result<(), NoMemory>
        ensures { OnOk result (self.new ≡ record { ended = all_of self.old; now = None; points = self.old.points }) }
    {
        if let Some(sequence) = self.now.take() {
            self.ended.push(sequence)?;
        }
        Ok(())
    }

    /// A picture joins the open sequence, if it is kept.
    fn keep(&mut self, part: Option<Part>, picture: HeldPicture<'a>) -> Result<(), NoMemory>
        ensures { OnOk result (self.new ≡ record {
          ended = self.old.ended;
          now = with_kept part self.old.now picture.entry;
          points = self.old.points;
        }) }
    {
        if !is_kept(part, &picture) {
            return Ok(());
        }
        if let Some(sequence) = &mut self.now {
            sequence.push(picture)?;
        }
        Ok(())
    }
}

/// Whether a picture is of the part; where no part is given, each one is.
fn is_kept(part: Option<Part>, picture: &HeldPicture<'_>) -> bool
    ensures { result ≡ keeps part picture.now }
{
    match part {
        None => true,
        Some(part) => part.has(picture.points()),
    }
}

/// The sequences of these units, each with its pictures that are of the part; where no part is given, with all.
pub(crate) fn sequences_of<'a>(
    alloc: Global,
    units: &[HeldUnit<'a>],
    part: Option<Part>,
) -> Result<Vec<HeldSequence<'a>>, NoMemory>
    ensures { IfOk result (λ sequences. sequences.items ≡ kept_of part units.now) }
{
    let mut walk = Walk::new(alloc);
    for (index, unit) in units.iter().enumerate() {
        walk.take(part, index as u64, unit)?;
    }
    walk.end()?;
    Ok(walk.ended)
}
