//! The reference pictures of a sequence, as a decoder keeps them.
ghost use Rattle.std.specs.Prelude.{◌≡◌, ◌≤◌, List, [], length, Ok, IfSome};
ghost use Rattle.std.specs.List.{All};
ghost use Rattle.dirac_refs.specs.Halves.{CanBeDoubled, DoublesPictures};
ghost use Rattle.dirac_refs.specs.References.{committed};
ghost use Rattle.dirac_common.specs.declared.picture.Picture.{Picture as ThePicture};
ghost use Rattle.dirac_decode_picture.specs.Ahead.{AreDecodedFrom, IsDecodedAs};
ghost use Rattle.dirac_decode_picture.specs.Payload.{DecodesPayload};

use crate::ahead::DecodedAhead;
use crate::decoded_picture::DecodedPicture;
use dirac_common::{NoMemory, Picture};
use dirac_header::PictureHeader;
use dirac_refs::{Halves, MOST_REFERENCES, RefBuffer};
use dirac_sequence_header::Sequence;
use std::alloc::Global;
use std::marker::Model;

/// The reference pictures of a sequence, as a decoder keeps them: with pictures that were decoded from them before they
/// are asked for, and one that is needed no more, of which the value says nothing.
#[derive(Drop)]
pub struct DecodingRefs {
    refs: RefBuffer,
    /// The next one last; none in place of one that is refused.
    ahead: Option<Vec<Option<DecodedAhead>>>,
    /// A picture that is needed no more, to be written over.
    room: Option<Picture>,
}

impl Model for DecodingRefs {
    ghost use Rattle.std.specs.Prelude.{List, length, ◌≤◌};
    ghost use Rattle.std.specs.Option.{ForSome};
    ghost use Rattle.dirac_common.specs.declared.picture.Picture.{Picture};
    ghost use Rattle.dirac_refs.specs.declared.ref_buffer.TheConstants.{MOST_REFERENCES};
    ghost use Rattle.dirac_decode_picture.specs.Ahead.{AreDecodedFrom};

    ghost Value = { List Picture };

    ghost view = { λ d. d.refs };

    ghost invariant = { λ d. (length d.refs ≤ MOST_REFERENCES) × ForSome d.ahead (λ v. AreDecodedFrom d.refs v.items) };
}

impl DecodingRefs {
    /// The list at the start of a sequence.
    pub fn new() -> DecodingRefs
        ensures { result ≡ [] }
    {
        DecodingRefs {
            refs: RefBuffer::new(),
            ahead: None,
            room: None,
        }
    }

    /// Lends the list.
    pub fn list(&self) -> &RefBuffer
        ensures { result.now ≡ self.now }
    {
        &self.refs
    }

    /// Keeps a picture that is needed no more, in place of one that was kept before, so that the next one is made in
    /// its planes.
    pub fn give_room(&mut self, picture: Picture)
        ensures { self.new ≡ self.old }
    {
        self.room = Some(picture);
    }

    /// Takes the picture that is needed no more, where one is kept.
    pub fn take_room(&mut self) -> Option<Picture>
        ensures { self.new ≡ self.old }
    {
        self.room.take()
    }

    /// How many pictures are listed.
    pub fn count(&self) -> u8
        ensures value { result ≡ length self.now }
        ensures at_most_8_references { result ≤ MOST_REFERENCES }
    {
        self.refs.count()
    }

    /// What a coded picture does to the list once it is made. What was decoded ahead is kept where it does nothing.
    pub fn commit(&mut self, retire: Option<u32>, picture: Option<Picture>)
        ensures list { self.new ≡ committed self.old retire picture }
        ensures at_most_8_references { length self.new ≤ MOST_REFERENCES }
    {
        if retire.is_some() || picture.is_some() {
            self.ahead = None;
        }
        self.refs.commit(retire, picture);
    }

    /// Keeps half samples of the pictures that a coded picture refers to by vectors of this precision, and of no other;
    /// an intra picture changes nothing.
    pub fn keep_halves(&mut self, alloc: Global, header: &PictureHeader, precision: u8)
        requires { All CanBeDoubled self.old }
        ensures { self.new ≡ self.old }
    {
        self.refs
            .keep_halves(alloc, header.ref1, header.ref2, precision);
    }

    /// Keeps half samples of the pictures that a coded picture refers to by vectors of this precision, and of no other,
    /// where `double` makes those that aren't kept for it yet; an intra picture changes nothing.
    pub fn keep_named_halves_by<F: Fn(&Picture) -> Result<Halves, NoMemory>>(
        &mut self,
        double: &F,
        header: &PictureHeader,
        precision: u8,
    )
        requires doubles { DoublesPictures (F.pre double.now) (F.post double.now) }
        requires can_be_doubled { All CanBeDoubled self.old }
        ensures { self.new ≡ self.old }
    {
        self.refs
            .keep_named_halves_by(double, header.ref1, header.ref2, precision);
    }

    /// Keeps half samples of the pictures of these numbers for vectors of this precision, and of no other, where
    /// `double` makes those that aren't kept for it yet.
    pub fn keep_halves_by<F: Fn(&Picture) -> Result<Halves, NoMemory>>(
        &mut self,
        double: &F,
        numbers: &[u32],
        precision: u8,
    )
        requires doubles { DoublesPictures (F.pre double.now) (F.post double.now) }
        requires can_be_doubled { All CanBeDoubled self.old }
        ensures { self.new ≡ self.old }
    {
        self.refs.keep_halves_by(double, numbers, precision);
    }

    /// Keeps what was decoded ahead, the next one last, until the list changes, in place of what was kept before.
    pub fn keep_ahead(&mut self, ahead: Vec<Option<DecodedAhead>>)
        requires { AreDecodedFrom self.old ahead.items }
        ensures { self.new ≡ self.old }
    {
        self.ahead = Some(ahead);
    }

    /// What a picture was decoded to, if it is the next one that was decoded ahead. Where it is another one, nothing is
    /// kept.
    pub fn take_ahead(
        &mut self,
        payload: &[u8],
        code: u8,
        sequence: &Sequence,
    ) -> Option<DecodedPicture>
        ensures value { IfSome result (λ d. DecodesPayload payload.now code sequence.now self.old (Ok d) self.old) }
        ensures kept { self.new ≡ self.old }
    {
        let mut ahead = self.ahead.take()?;
        let decoded = next_of(&mut ahead, payload, code, sequence)?;
        self.ahead = Some(ahead);
        Some(decoded)
    }
}

/// What a picture was decoded to, if it is the next one of these.
fn next_of(
    ahead: &mut Vec<Option<DecodedAhead>>,
    payload: &[u8],
    code: u8,
    sequence: &Sequence,
) -> Option<DecodedPicture>
    ensures value { IfSome result (λ d. (refs : List ThePicture) → AreDecodedFrom refs ahead.old.items
        → IsDecodedAs payload.now code sequence.now refs d) }
    ensures rest { (refs : List ThePicture) → AreDecodedFrom refs ahead.old.items
        → AreDecodedFrom refs ahead.new.items }
{
    let next = ahead.pop()?;
    next?.result_for(payload, code, sequence)
}
