//! Inter pictures that are decoded while the same pictures are listed, decoded at once, each by one worker or by
//! workers of its own that share its rows: one that is asked for, and of the units read ahead those behind it, up to
//! the first reference picture or end unit.

ghost use Rattle.std.specs.Prelude.{◌≡◌, true, ◌<◌, ◌≤◌, length, IfOk, IfSome, IsTrue, Ok};
ghost use Rattle.std.specs.Thread.{IsSync};
ghost use Rattle.dirac_picture.specs.Grammar.{is_picture};
ghost use Rattle.dirac_decode_picture.specs.Ahead.{AreDecodedFrom, IsDecodedFrom};
ghost use Rattle.dirac_decode_picture.specs.Payload.{CanBeDecoded, DecodesPayload};
ghost use Rattle.dirac_pardec.specs.Run.{CanAllBeDecoded};

use crate::asked::Asked;
use crate::by_rows::{decode_listed_by_rows, decode_reading_by_rows};
use crate::crew::{Crew, are_decoded_at_once};
use crate::front::{front_of, units_from};
use crate::halves::keep_halves_by_rows;
use dirac_bits::BitReader;
use dirac_common::{END_OF_SEQUENCE, NoMemory, RowGate, is_reference, references};
use dirac_decode_picture::{DecodedAhead, DecodedPicture, DecodingRefs};
use dirac_header::{read_header, read_prediction};
use dirac_refs::RefBuffer;
use dirac_rows::map_rows;
use dirac_sequence_header::Sequence;
use std::alloc::Global;
use std::marker::Sync;
use std::thread::Threads;

/// The payload of an inter picture, and its parse code.
#[derive(Clone, Copy, Drop)]
struct InterUnit<'a> {
    payload: &'a [u8],
    code: u8,
    ghost picture: { IsTrue (is_picture code) },
}

/// Whether a unit with this parse code is an inter picture.
fn is_inter(code: u8) -> bool
    ensures { result ≡ true → IsTrue (is_picture code) }
{
    references(code) >= 1
}

/// The inter pictures among these units, up to the end of the sequence, or to the first reference picture, which is the
/// last of them where it is an inter picture.
fn inter_units_to_reference<'a>(
    alloc: Global,
    units: &'a [u8],
) -> Result<Vec<InterUnit<'a>>, NoMemory> {
    let mut found = Vec::new(alloc);
    let mut rest = units;
    'units: while let Some(front) = front_of(rest) {
        if is_inter(front.code) {
            found.push(InterUnit {
                payload: front.payload,
                code: front.code,
            })?;
        }
        if is_reference(front.code) || front.code == END_OF_SEQUENCE {
            return Ok(found);
        }
        rest = front.behind;
    }
    Ok(found)
}

/// The numbers of the pictures that these refer to, by their headers.
fn numbers_named(alloc: Global, units: &[InterUnit<'_>]) -> Result<Vec<u32>, NoMemory> {
    let mut numbers = Vec::new(alloc);
    for unit in units {
        let Ok(header) = read_header(&mut BitReader::new(unit.payload), unit.code) else {
            continue;
        };
        if let Some(first) = header.ref1 {
            numbers.push(first)?;
        }
        if let Some(second) = header.ref2 {
            numbers.push(second)?;
        }
    }
    Ok(numbers)
}

/// The greatest precision of the vectors of these pictures, as their prediction parameters say; one whose header or
/// parameters are refused counts as 0.
fn precision_among(units: &[InterUnit<'_>], sequence: &Sequence) -> u8 {
    let mut greatest = 0;
    for unit in units {
        let mut r = BitReader::new(unit.payload);
        let Ok(_) = read_header(&mut r, unit.code) else {
            continue;
        };
        let Ok(prediction) = read_prediction(&mut r, unit.code, sequence.chroma) else {
            continue;
        };
        greatest = prediction.precision.max(greatest);
    }
    greatest
}

/// Decodes a picture before it is asked for, by workers that share its rows, or with `reading` by workers that read its
/// bands and one that rebuilds it; none where it is refused.
fn decode_ahead<R: Threads + Sync, G: RowGate>(
    crew: &Crew<R, G>,
    reading: bool,
    alloc: Global,
    unit: InterUnit<'_>,
    sequence: &Sequence,
    refs: &RefBuffer,
) -> Result<Option<DecodedAhead>, NoMemory>
    requires { CanAllBeDecoded sequence.now refs.now }
    ensures { IfOk result (λ a. IfSome a (IsDecodedFrom refs.now)) }
{
    let asked = Asked {
        payload: unit.payload,
        code: unit.code,
        sequence,
    };
    let decoded = if reading {
        decode_reading_by_rows(crew, alloc, asked, refs)
    } else {
        decode_listed_by_rows(crew, alloc, asked, refs)
    };
    DecodedAhead::try_new(alloc, unit.payload, unit.code, sequence, decoded)
}

/// Decodes these pictures side by side, each by as many workers as all have; of those that are left one more works on
/// each of the last pictures. Workers of a picture share its rows; but where all have one, a second one only reads
/// bands. The first picture comes last.
fn decode_units<R: Threads + Sync, G: RowGate>(
    crew: &Crew<R, G>,
    alloc: Global,
    units: &[InterUnit<'_>],
    sequence: &Sequence,
    refs: &RefBuffer,
) -> Result<Vec<Option<DecodedAhead>>, NoMemory>
    requires not_empty { 0 < length units.now }
    requires can_be_decoded { CanAllBeDecoded sequence.now refs.now }
    ensures { IfOk result (λ v. AreDecodedFrom refs.now v.items) }
{
    let last = (units.len() - 1).min(63) as u32;
    let each = crew.each_of(last + 1);
    let left = crew.workers.saturating_sub(each * (last + 1));
    let work = |row: u32| -> Result<Option<DecodedAhead>, NoMemory>
        requires { IsSync R.row × IsSync G.row × CanAllBeDecoded sequence.now refs.now × (row ≤ last)
            × (last < length units.now) × ((1 ≤ each) × (each ≤ 64)) }
        ensures { IfOk result (λ a. IfSome a (IsDecodedFrom refs.entry.now)) }
    {
        let workers = if row < left { each + 1 } else { each };
        let own = Crew::new(crew.rt, workers.min(64), crew.gate);
        decode_ahead(
            &own,
            each == 1,
            alloc,
            units[(last - row) as usize],
            sequence,
            refs,
        )
    };
    map_rows(crew.rt, alloc, last + 1, crew.workers, crew.gate, &work)
}

/// A picture that is decoded beside those behind it among these units, which are kept until they are asked for. None
/// where there is none behind it, where they are too large, and where it is refused. An error is want of memory for
/// that many.
pub(crate) fn decode_run<R: Threads + Sync, G: RowGate>(
    crew: &Crew<R, G>,
    alloc: Global,
    units: &[u8],
    asked: Asked<'_>,
    refs: &mut DecodingRefs,
) -> Result<Option<DecodedPicture>, NoMemory>
    requires { CanAllBeDecoded asked.sequence.now refs.old }
    ensures value { IfOk result (λ found. IfSome found
        (λ d. DecodesPayload asked.entry.payload.now asked.entry.code asked.entry.sequence.now refs.old (Ok d)
        refs.old)) }
    ensures kept { refs.new ≡ refs.old }
{
    let Some(units) = units_from(units, asked.payload, asked.code) else {
        return Ok(None);
    };
    let pictures = inter_units_to_reference(alloc, units)?;
    if !are_decoded_at_once(crew, pictures.len(), asked.sequence) {
        return Ok(None);
    }
    let numbers = numbers_named(alloc, pictures.as_slice())?;
    let precision = precision_among(pictures.as_slice(), asked.sequence);
    let doublers = crew.for_picture_of(asked.sequence);
    keep_halves_by_rows(&doublers, alloc, numbers.as_slice(), precision, refs);
    let ahead = decode_units(
        crew,
        alloc,
        pictures.as_slice(),
        asked.sequence,
        refs.list(),
    )?;
    refs.keep_ahead(ahead);
    Ok(refs.take_ahead(asked.payload, asked.code, asked.sequence))
}
