//! Units that were read ahead, and their intra pictures, decoded several at once, each by one worker. Their inter
//! pictures are decoded by `run`.

ghost use Rattle.std.specs.Prelude.{◌≡◌, ◌<◌, ◌≤◌, [], true, length, IfSome, Ok};
ghost use Rattle.dirac_sequence_header.specs.Lawful.{IsSequence};
ghost use Rattle.dirac_picture.specs.Grammar.{is_intra as is_intra_code};
ghost use Rattle.dirac_decode_picture.specs.Ahead.{IsDecodedAs};
ghost use Rattle.dirac_decode_picture.specs.Payload.{DecodesPayload};
ghost use Rattle.dirac_pardec.specs.Run.{CanAllBeDecoded};

use crate::alone::{DecodedAlone, decode_alone};
use crate::asked::Asked;
use crate::crew::{Crew, are_enough};
use crate::front::{front_of, units_from};
use crate::halves::keep_halves_by_rows;
use crate::run::decode_run;
use dirac_ahead::Look;
use dirac_common::{END_OF_SEQUENCE, NoMemory, RowGate, is_intra};
use dirac_decode_picture::{DecodedPicture, DecodingRefs};
use dirac_rows::map_rows;
use dirac_sequence_header::Sequence;
use std::alloc::Global;
use std::cell::Cell;
use std::marker::Sync;
use std::thread::Threads;

/// Pictures that were decoded ahead, the next one last; none in place of one that is refused.
type Kept = Vec<Option<DecodedAlone>>;

/// What was read ahead: its units, and what their intra pictures were decoded to and isn't asked for yet.
#[derive(Drop)]
pub(crate) struct Lot {
    units: Cell<Option<Vec<u8>>>,
    kept: Cell<Option<Kept>>,
}

impl Look for Lot {
    fn look(&self, alloc: Global, units: &[u8]) {
        match Vec::from_slice(alloc, units) {
            Ok(units) => self.units.set(Some(units)),
            Err(_) => self.units.set(None),
        }
    }
}

/// The payload of an intra picture, and its parse code.
#[derive(Clone, Copy, Drop)]
struct IntraUnit<'a> {
    payload: &'a [u8],
    code: u8,
    ghost intra: { is_intra_code code ≡ true },
}

/// The intra pictures among these units, up to the end of the sequence.
fn intra_units<'a>(alloc: Global, units: &'a [u8]) -> Result<Vec<IntraUnit<'a>>, NoMemory> {
    let mut found = Vec::new(alloc);
    let mut rest = units;
    'units: while let Some(front) = front_of(rest) {
        if front.code == END_OF_SEQUENCE {
            return Ok(found);
        }
        if is_intra(front.code) {
            found.push(IntraUnit {
                payload: front.payload,
                code: front.code,
            })?;
        }
        rest = front.behind;
    }
    Ok(found)
}

/// Decodes these pictures side by side, each by one worker. The first one comes last.
fn decode_units<R: Threads + Sync, G: RowGate>(
    crew: &Crew<R, G>,
    alloc: Global,
    units: &[IntraUnit<'_>],
    sequence: &Sequence,
) -> Result<Kept, NoMemory>
    requires not_empty { 0 < length units.now }
    requires sequence { IsSequence sequence.now }
{
    let last = (units.len() - 1).min(63) as u32;
    let work = |row: u32| -> Result<Option<DecodedAlone>, NoMemory>
        requires { IsSequence sequence.now × (row ≤ last) × (last < length units.now) }
    {
        let unit = units[(last - row) as usize];
        let asked = Asked {
            payload: unit.payload,
            code: unit.code,
            sequence,
        };
        decode_alone(alloc, asked)
    };
    map_rows(crew.rt, alloc, last + 1, crew.workers, crew.gate, &work)
}

/// Decodes the intra pictures among these units side by side, from the one with this parse code and payload on. None
/// where there are too few of them, so that the workers decode a picture sooner together, and where they are too large.
fn decode_lot<R: Threads + Sync, G: RowGate>(
    crew: &Crew<R, G>,
    alloc: Global,
    units: &[u8],
    asked: Asked<'_>,
) -> Result<Option<Kept>, NoMemory>
    requires { IsSequence asked.sequence.now }
{
    let Some(units) = units_from(units, asked.payload, asked.code) else {
        return Ok(None);
    };
    let pictures = intra_units(alloc, units)?;
    if !are_enough(crew, pictures.len(), asked.sequence) {
        return Ok(None);
    }
    let kept = decode_units(crew, alloc, pictures.as_slice(), asked.sequence)?;
    Ok(Some(kept))
}

impl Lot {
    /// Nothing.
    pub(crate) fn new() -> Lot {
        Lot {
            units: Cell::new(None),
            kept: Cell::new(None),
        }
    }

    /// What is kept; where nothing is, the intra pictures of the units that were read ahead are decoded now, from the
    /// one with this parse code and payload on. Where there is no memory for that many, none of these units is looked
    /// at again.
    fn at_hand<R: Threads + Sync, G: RowGate>(
        &self,
        crew: &Crew<R, G>,
        alloc: Global,
        asked: Asked<'_>,
    ) -> Option<Kept>
        requires { IsSequence asked.sequence.now }
    {
        if let Some(kept) = self.kept.replace(None) {
            if !kept.is_empty() {
                return Some(kept);
            }
        }
        let units = self.units.replace(None)?;
        let Ok(kept) = decode_lot(crew, alloc, units.as_slice(), asked) else {
            return None;
        };
        self.units.set(Some(units));
        kept
    }

    /// What an intra picture was decoded to, if it is the next one that was decoded ahead, or is decoded now with those
    /// behind it. Where it is another one, nothing is kept.
    pub(crate) fn take_intra<R: Threads + Sync, G: RowGate>(
        &self,
        crew: &Crew<R, G>,
        alloc: Global,
        asked: Asked<'_>,
    ) -> Option<DecodedPicture>
        requires { IsSequence asked.sequence.now }
        ensures { IfSome result (IsDecodedAs asked.entry.payload.now asked.entry.code asked.entry.sequence.now []) }
    {
        let mut kept = self.at_hand(crew, alloc, asked)?;
        let next = kept.pop()?;
        let decoded = next?.result_for(asked)?;
        self.kept.set(Some(kept));
        Some(decoded)
    }

    /// What an inter picture was decoded to, if it is the next one that was decoded ahead, or is decoded now with those
    /// behind it. Where there is no memory for that many, none of these units is looked at again, and the half samples
    /// that were kept for them are given up before the picture is decoded by workers that share its rows, which make
    /// those of the pictures that it names again.
    pub(crate) fn take_inter<R: Threads + Sync, G: RowGate>(
        &self,
        crew: &Crew<R, G>,
        alloc: Global,
        asked: Asked<'_>,
        refs: &mut DecodingRefs,
    ) -> Option<DecodedPicture>
        requires { CanAllBeDecoded asked.sequence.now refs.old }
        ensures value { IfSome result
            (λ d. DecodesPayload asked.entry.payload.now asked.entry.code asked.entry.sequence.now refs.old (Ok d)
            refs.old) }
        ensures kept { refs.new ≡ refs.old }
    {
        if let Some(decoded) = refs.take_ahead(asked.payload, asked.code, asked.sequence) {
            return Some(decoded);
        }
        let units = self.units.replace(None)?;
        let Ok(decoded) = decode_run(crew, alloc, units.as_slice(), asked, refs) else {
            keep_halves_by_rows(crew, alloc, &[], 0, refs);
            return None;
        };
        self.units.set(Some(units));
        decoded
    }
}
