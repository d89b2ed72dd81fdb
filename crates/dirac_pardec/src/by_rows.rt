ghost use Rattle.std.specs.Prelude.{◌≡◌, ◌≤◌, length, IfErr, IfOk, IsTrue};
ghost use Rattle.std.specs.Thread.{IsSync};
ghost use Rattle.dirac_bits.specs.Answers.{IsEarly};
ghost use Rattle.dirac_sequence_header.specs.Lawful.{IsSequence};
ghost use Rattle.dirac_picture.specs.Answers.{GivesOrStops};
ghost use Rattle.dirac_picture.specs.Fits.{FitsSequence};
ghost use Rattle.dirac_picture.specs.Grammar.{are_listed, is_picture, picture_read};
ghost use Rattle.dirac_picture.specs.Reading.{CanBeRead, ReadsThem};
ghost use Rattle.dirac_content.specs.Content.{AreReferences, IsPicture};
ghost use Rattle.dirac_decode_picture.specs.Payload.{CanBeDecoded, DecodesPayload, StandsFor};

use crate::asked::Asked;
use crate::crew::Crew;
use crate::halves::keep_named_halves;
use dirac_bits::BitReader;
use dirac_common::{NoMemory, RowGate, Stop};
use dirac_decode_picture::{DecodedPicture, DecodingRefs, rebuild_picture};
use dirac_parameters::Transform;
use dirac_picture::{CodedPicture, CodedResidual, read_picture_by};
use dirac_refs::{RefBuffer, reference_of};
use dirac_sequence_header::Sequence;
use dirac_slices::{read_planes_rows, rebuild_rows};
use std::alloc::Global;
use std::marker::Sync;
use std::thread::Threads;

/// Reads a picture from the payload of its unit, the bands of its planes by workers.
fn read_by_rows<R: Threads + Sync, G: RowGate>(
    crew: &Crew<R, G>,
    alloc: Global,
    asked: Asked<'_>,
    refs: &RefBuffer,
) -> Result<CodedPicture, Stop>
    requires code { IsTrue (is_picture asked.code) }
    requires sequence { IsSequence asked.sequence.now }
    ensures value { GivesOrStops result
        (picture_read asked.entry.code asked.entry.sequence.now refs.now asked.entry.payload.now) }
    ensures place_inside { IfErr result (IsEarly (length asked.entry.payload.now)) }
    ensures fits { IfOk result (FitsSequence asked.entry.code asked.entry.sequence.now) }
    ensures listed { IfOk result (λ p. IsTrue (are_listed refs.now p.header)) }
{
    let (rt, workers, gate) = (crew.rt, crew.workers, crew.gate);
    let planes = |alloc: Global, r: &mut BitReader<
        '_,
    >, transform: Transform, sequence: &Sequence| -> Result<CodedResidual, Stop>
        requires { IsSync R.row × IsSync G.row × (1 ≤ workers) × (workers ≤ 64) × CanBeRead sequence.now transform }
        ensures { ReadsThem sequence.now transform r.old result r.new }
    { read_planes_rows(rt, alloc, r, transform, sequence, workers, gate) };
    read_picture_by(
        &planes,
        alloc,
        asked.payload,
        asked.code,
        asked.sequence,
        refs,
    )
}

/// Rebuilds a picture that was read, by workers that share its rows.
fn rebuild_by_rows<R: Threads + Sync, G: RowGate>(
    crew: &Crew<R, G>,
    alloc: Global,
    coded: &CodedPicture,
    sequence: &Sequence,
    refs: &RefBuffer,
) -> Result<DecodedPicture, NoMemory>
    requires sequence { IsSequence sequence.now }
    requires fits { FitsSequence coded.now.code sequence.now coded.now }
    requires refs { AreReferences sequence.now refs.now coded.now.header }
    ensures stands { IfOk result (StandsFor coded.now sequence.now refs.now) }
    ensures fits { IfOk result (λ d. IsPicture sequence.now d.picture) }
{
    let picture = rebuild_rows(
        crew.rt,
        alloc,
        coded,
        sequence,
        refs,
        crew.workers,
        crew.gate,
    )?;
    let reference = reference_of(alloc, coded.code, &picture)?;
    Ok(DecodedPicture {
        code: coded.code,
        header: coded.header,
        picture,
        reference,
    })
}

/// Reads a picture from the payload of its unit and rebuilds it, both by workers that share its rows. The half samples
/// of the pictures that it refers to are kept.
pub(crate) fn decode_by_rows<R: Threads + Sync, G: RowGate>(
    crew: &Crew<R, G>,
    alloc: Global,
    asked: Asked<'_>,
    refs: &mut DecodingRefs,
) -> Result<DecodedPicture, Stop>
    requires { CanBeDecoded asked.code asked.sequence.now refs.old }
    ensures { DecodesPayload asked.entry.payload.now asked.entry.code asked.entry.sequence.now refs.old result
        refs.new }
{
    let coded = read_by_rows(crew, alloc, asked, refs.list())?;
    let doublers = crew.for_picture_of(asked.sequence);
    let precision = coded.vector_precision();
    keep_named_halves(&doublers, alloc, &coded.header, precision, refs);
    let decoded = rebuild_by_rows(crew, alloc, &coded, asked.sequence, refs.list())?;
    Ok(decoded)
}

/// Reads a picture from the payload of its unit and rebuilds it, both by workers that share its rows, with the half
/// samples that are kept.
pub(crate) fn decode_listed_by_rows<R: Threads + Sync, G: RowGate>(
    crew: &Crew<R, G>,
    alloc: Global,
    asked: Asked<'_>,
    refs: &RefBuffer,
) -> Result<DecodedPicture, Stop>
    requires { CanBeDecoded asked.code asked.sequence.now refs.now }
    ensures { DecodesPayload asked.entry.payload.now asked.entry.code asked.entry.sequence.now refs.now result
        refs.now }
{
    let coded = read_by_rows(crew, alloc, asked, refs)?;
    let decoded = rebuild_by_rows(crew, alloc, &coded, asked.sequence, refs)?;
    Ok(decoded)
}

/// Reads a picture from the payload of its unit, the bands of its planes by workers, and rebuilds it on one thread,
/// with the half samples that are kept.
pub(crate) fn decode_reading_by_rows<R: Threads + Sync, G: RowGate>(
    crew: &Crew<R, G>,
    alloc: Global,
    asked: Asked<'_>,
    refs: &RefBuffer,
) -> Result<DecodedPicture, Stop>
    requires { CanBeDecoded asked.code asked.sequence.now refs.now }
    ensures { DecodesPayload asked.entry.payload.now asked.entry.code asked.entry.sequence.now refs.now result
        refs.now }
{
    let coded = read_by_rows(crew, alloc, asked, refs)?;
    let decoded = rebuild_picture(alloc, &coded, asked.sequence, refs, None)?;
    Ok(decoded)
}
