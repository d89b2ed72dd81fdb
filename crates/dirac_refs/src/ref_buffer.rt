ghost use Rattle.std.specs.Prelude.{◌≡◌, ◌≤◌, [], length, IfOk};
ghost use Rattle.std.specs.List.{All};
ghost use Rattle.std.specs.Option.{option_copied};
ghost use Rattle.dirac_refs.specs.Halves.{AreHalves, CanBeDoubled, DoublesPictures};
ghost use Rattle.dirac_refs.specs.References as references;
ghost use Rattle.dirac_refs.specs.References.{append, committed, listed, without};

use crate::bounded::Bounded;
use crate::reference::{Halves, Reference, halves_of};
use dirac_common::{NoMemory, Picture};
use std::alloc::Global;
use std::marker::Model;

/// The most reference pictures that are listed.
pub const MOST_REFERENCES: usize = 8;

/// The reference pictures of a sequence, oldest first: at most eight (reference buffer, Dirac specification).
#[derive(Drop)]
pub struct RefBuffer {
    list: Bounded<Reference, MOST_REFERENCES>,
}

impl Model for RefBuffer {
    ghost use Rattle.std.specs.Prelude.{List, length, ◌≤◌};
    ghost use Rattle.dirac_common.specs.declared.picture.Picture.{Picture};
    ghost use Rattle.dirac_refs.specs.declared.ref_buffer.TheConstants.{MOST_REFERENCES};

    ghost Value = { List Picture };

    ghost view = { λ b. b.list };

    ghost invariant = { λ b. length b.list ≤ MOST_REFERENCES };
}

impl RefBuffer {
    /// The list at the start of a sequence.
    pub fn new() -> RefBuffer
        ensures { result ≡ [] }
    {
        RefBuffer {
            list: Bounded::new(),
        }
    }

    /// The listed picture of this number; `None` exactly where there is none.
    pub fn find(&self, number: u32) -> Option<&Picture>
        ensures { option_copied result ≡ listed self.now number }
    {
        match self.find_reference(number) {
            None => None,
            Some(reference) => Some(reference.picture()),
        }
    }

    /// The listed picture of this number, with its half samples where they are kept; `None` exactly where there is
    /// none.
    pub fn find_reference(&self, number: u32) -> Option<&Reference>
        ensures { option_copied result ≡ listed self.now number }
    {
        for place in 0..self.list.len() {
            let reference = self.list.at(place);
            if reference.number() == number {
                return Some(reference);
            }
        }
        None
    }

    /// Whether a reference is listed, where a header names one.
    pub fn is_listed(&self, number: Option<u32>) -> bool
        ensures { result ≡ references.is_listed self.now number }
    {
        match number {
            None => true,
            Some(number) => self.find(number).is_some(),
        }
    }

    /// Keeps the half samples of the pictures of these numbers, for vectors of this precision, and of no other picture;
    /// without a first number nothing changes. The list stays as it is.
    pub fn keep_halves(
        &mut self,
        alloc: Global,
        first: Option<u32>,
        second: Option<u32>,
        precision: u8,
    )
        requires { All CanBeDoubled self.old }
        ensures { self.new ≡ self.old }
    {
        let double = |picture: &Picture| -> Result<Halves, NoMemory>
            requires { CanBeDoubled picture.now }
            ensures { IfOk result (AreHalves picture.now) }
        { halves_of(alloc, picture, precision) };
        self.keep_named_halves_by(&double, first, second, precision);
    }

    /// Keeps the half samples of the pictures of these numbers, for vectors of this precision, and of no other picture;
    /// `double` makes those that aren't kept for it yet. Without a first number nothing changes. The list stays as it
    /// is.
    pub fn keep_named_halves_by<F: Fn(&Picture) -> Result<Halves, NoMemory>>(
        &mut self,
        double: &F,
        first: Option<u32>,
        second: Option<u32>,
        precision: u8,
    )
        requires doubles { DoublesPictures (F.pre double.now) (F.post double.now) }
        requires can_be_doubled { All CanBeDoubled self.old }
        ensures { self.new ≡ self.old }
    {
        let Some(first) = first else {
            return;
        };
        match second {
            None => self.keep_halves_by(double, &[first], precision),
            Some(second) => self.keep_halves_by(double, &[first, second], precision),
        }
    }

    /// Keeps the half samples of the pictures of these numbers, for vectors of this precision, and of no other picture;
    /// `double` makes those that aren't kept for it yet. Where memory is refused for one of them, what was kept for
    /// another precision stays, and of a plane above `MOST_KEPT_SAMPLES` none are kept. The list stays as it is.
    pub fn keep_halves_by<F: Fn(&Picture) -> Result<Halves, NoMemory>>(
        &mut self,
        double: &F,
        numbers: &[u32],
        precision: u8,
    )
        requires doubles { DoublesPictures (F.pre double.now) (F.post double.now) }
        requires can_be_doubled { All CanBeDoubled self.old }
        ensures { self.new ≡ self.old }
    {
        for _ in 0..self.list.len() {
            let reference = self.list.remove(0);
            self.list.push(kept(double, numbers, precision, reference));
        }
    }

    /// What a coded picture does to the list once it is made: the picture `retire` leaves, then
    /// `picture` is appended, in place of one of its own number, and of the oldest where eight are listed.
    #[tactic(auto, using(crate::proofs::Listed::few_without))]
    pub fn commit(&mut self, retire: Option<u32>, picture: Option<Picture>)
        ensures list { self.new ≡ committed self.old retire picture }
        ensures at_most_8_references { length self.new ≤ MOST_REFERENCES }
    {
        if let Some(number) = retire {
            leave(&mut self.list, number);
        }
        if let Some(picture) = picture {
            leave(&mut self.list, picture.number);
            append_last(&mut self.list, picture);
        }
    }

    /// How many pictures are listed.
    pub fn count(&self) -> u8
        ensures value { result ≡ length self.now }
        ensures at_most_8_references { result ≤ MOST_REFERENCES }
    {
        self.list.len() as u8
    }
}

/// A reference with its half samples for vectors of this precision if it is one of the pictures of these numbers, else
/// without.
fn kept<F: Fn(&Picture) -> Result<Halves, NoMemory>>(
    double: &F,
    numbers: &[u32],
    precision: u8,
    reference: Reference,
) -> Reference
    requires doubles { DoublesPictures (F.pre double.now) (F.post double.now) }
    requires can_be_doubled { CanBeDoubled reference }
    ensures { result ≡ reference }
{
    if numbers.contains(&reference.number()) {
        reference.doubled_by(double, precision)
    } else {
        reference.bare()
    }
}

/// Takes the pictures of this number out of the list.
fn leave(list: &mut Bounded<Reference, MOST_REFERENCES>, number: u32)
    ensures { list.new ≡ without number list.old }
{
    let mut place = 0;
    while place < list.len() {
        if list.at(place).number() == number {
            list.remove(place);
        } else {
            place += 1;
        }
    }
}

/// Appends a picture, in place of the oldest where eight are listed.
#[tactic(auto, using(crate::proofs::Listed::few_append))]
fn append_last(list: &mut Bounded<Reference, MOST_REFERENCES>, picture: Picture)
    requires { length list.old ≤ MOST_REFERENCES }
    ensures at_most_8_references { length list.new ≤ MOST_REFERENCES }
    ensures longer { list.new ≡ append list.old picture }
{
    if list.len() == MOST_REFERENCES {
        list.remove(0);
    }
    list.push(Reference::new(picture));
}
