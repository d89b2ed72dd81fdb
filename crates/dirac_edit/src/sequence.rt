ghost use Rattle.std.specs.Prelude.{◌≡◌, ◌+◌, ◌<◌, ◌^◌, ◌++◌, [], ◌∷◌, OnErr, OnOk, length};

use crate::units::HeldUnit;
use dirac_common::NoMemory;
use std::alloc::Global;
use std::marker::Model;

/// A picture that is written again, its unit's index in the stream, and how many points there are up to it, itself
/// among them.
#[derive(Drop)]
pub(crate) struct HeldPicture<'a> {
    index: u64,
    points: u64,
    code: u8,
    payload: &'a [u8],
}

impl<'a> Model for HeldPicture<'a> {
    ghost use Rattle.std.specs.Prelude.{◌+◌, ◌<◌, ◌^◌, length};
    ghost use Rattle.dirac_edit_laws.specs.Texts.{PictureText};

    ghost Value = { PictureText };

    ghost view = { λ p. record { index = p.index; points = p.points; code = p.code; payload = p.payload.now } };

    ghost invariant = { λ p. 13 + length p.payload.now < 2 ^ 32 };
}

impl<'a> HeldPicture<'a> {
    ghost use Rattle.dirac_edit_laws.specs.Texts.{picture_text_at};

    /// The picture of a unit with this index, up to which there are that many points.
    pub(crate) fn of(index: u64, points: u64, unit: &HeldUnit<'a>) -> HeldPicture<'a>
        ensures { result ≡ picture_text_at index points unit.now }
    {
        HeldPicture {
            index,
            points,
            code: unit.code(),
            payload: unit.payload(),
        }
    }

    /// The index of its unit.
    pub(crate) fn index(&self) -> u64
        ensures { result ≡ self.now.index }
    {
        self.index
    }

    /// The parse code.
    pub(crate) fn code(&self) -> u8
        ensures { result ≡ self.now.code }
    {
        self.code
    }

    /// The payload.
    pub(crate) fn payload(&self) -> &'a [u8]
        ensures value { result.now ≡ self.now.payload }
        ensures fits { 13 + length result.now < 2 ^ 32 }
    {
        self.payload
    }

    /// How many points there are up to it, itself among them.
    pub(crate) fn points(&self) -> u64
        ensures { result ≡ self.now.points }
    {
        self.points
    }
}

/// A sequence of a stream: the payload of its header, and pictures of it in the order of the bytes.
#[derive(Drop)]
pub(crate) struct HeldSequence<'a> {
    header: &'a [u8],
    pictures: Vec<HeldPicture<'a>>,
}

impl<'a> Model for HeldSequence<'a> {
    ghost use Rattle.std.specs.Prelude.{◌+◌, ◌<◌, ◌^◌, length};
    ghost use Rattle.dirac_edit_laws.specs.Texts.{SequenceText};

    ghost Value = { SequenceText };

    ghost view = { λ s. record { header = s.header.now; pictures = s.pictures.items } };

    ghost invariant = { λ s. 13 + length s.header.now < 2 ^ 32 };
}

impl<'a> HeldSequence<'a> {
    /// The sequence that this header opens.
    pub(crate) fn opened_by(alloc: Global, unit: &HeldUnit<'a>) -> HeldSequence<'a>
        ensures { result ≡ record { header = unit.now.payload; pictures = [] } }
    {
        HeldSequence {
            header: unit.payload(),
            pictures: Vec::new(alloc),
        }
    }

    /// Appends a picture.
    pub(crate) fn push(&mut self, picture: HeldPicture<'a>) -> Result<(), NoMemory>
        ensures pushed { OnOk result (self.new ≡ record {
          header = self.old.header;
          pictures = self.old.pictures ++ picture.entry ∷ [];
        }) }
        ensures kept { OnErr result (self.new ≡ self.old) }
    {
        self.pictures.push(picture)?;
        Ok(())
    }

    /// The payload of the header.
    pub(crate) fn header(&self) -> &'a [u8]
        ensures value { result.now ≡ self.now.header }
        ensures fits { 13 + length result.now < 2 ^ 32 }
    {
        self.header
    }

    /// The pictures.
    pub(crate) fn pictures(&self) -> &[HeldPicture<'a>]
        ensures { result.now ≡ self.now.pictures }
    {
        self.pictures.as_slice()
    }
}
