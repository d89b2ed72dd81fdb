ghost use Rattle.std.specs.Prelude.{◌≡◌, ◌≤◌, IfSome};
ghost use Rattle.std.specs.Io.KnownBytes.{IsAtEnd};
ghost use Rattle.std.specs.Thread.{IsSync};
ghost use Rattle.dirac_io.specs.Faults.{Rose};
ghost use Rattle.dirac_content.specs.Leaving.{IsBrokenOff, IsFrontOfRead};
ghost use Rattle.dirac_decode_picture.specs.Payload.{CanBeDecoded, DecodesPayload};
ghost use Rattle.dirac_decode.specs.Decoded.{IfDone, IfTally, IsDecodedStream, IsFrontOfMore};

use crate::asked::Asked;
use crate::at_hand::decode_at_hand;
use crate::crew::Crew;
use crate::lot::Lot;
use dirac_ahead::{Ahead, Begun, Lent, Plan};
use dirac_common::{RowGate, Stop};
use dirac_decode::{Decoded, decode_stream_by};
use dirac_decode_picture::{DecodedPicture, DecodingRefs};
use dirac_io::{Sink, Source};
use dirac_refs::MOST_REFERENCES;
use dirac_sequence_header::Sequence;
use std::alloc::Global;
use std::marker::{Brand, Sync};
use std::thread::Threads;

/// Decodes a whole stream, as `decode_stream`, by that many workers. From 2 to 15 workers units are read ahead, with
/// twice as many pictures as there are workers, eight at most. Of these the intra pictures up to the first end unit are
/// decoded at once, a worker each, and so are inter pictures up to the next reference picture, that one too, where they
/// are at least two, more than half as many as there are workers, and of at most 2^23 luma samples. Inter pictures that
/// are at least two, but no more than half as many, are decoded at once too where half samples of their size are kept:
/// each is read and rebuilt by as many workers as all have, as `read_planes_rows` and `rebuild_rows` do. So are all
/// other pictures, one after another by all workers, and by a single worker as `decode_stream` does. Before inter
/// pictures are rebuilt, the half samples of each picture that they refer to and that keeps none yet are made by a map
/// whose rows are its three planes, unless these are too large to be kept.
pub fn decode_rows<R: Threads + Sync, S: Source, K: Sink, G: RowGate>(
    rt: &R,
    alloc: Global,
    source: &mut S,
    out: &mut K,
    workers: u32,
    gate: &G,
) -> Decoded
    requires { (1 ≤ workers) × (workers ≤ 64) }
    ensures decoded { IfSome (S.held source.old)
        (λ bytes. IsDecodedStream bytes result (K.taken out.old) (K.taken out.new)) }
    // Where a read failed, just what leaves while the units that were read whole are taken was written.
    ensures broken_off { result ≡ Decoded.ReadFault → IfSome (S.held source.old) (λ bytes. IsBrokenOff bytes
        (S.held source.new) (K.taken out.old) (K.taken out.new)) }
    // Whatever is answered, what was written is a front of what the bytes read show by themselves.
    ensures front_of_read { IfSome (S.held source.old) (λ bytes. IsFrontOfRead bytes (S.held source.new)
        (K.taken out.old) (K.taken out.new)) }
    ensures whole { IfDone result (IsAtEnd (S.held source.new)) }
    ensures at_most_8_references { IfTally result (λ tally. tally.references ≤ MOST_REFERENCES) }
    ensures read { result ≡ Decoded.ReadFault → Rose (S.faults source.old) (S.faults source.new) }
    ensures write { result ≡ Decoded.WriteFault → Rose (K.faults out.old) (K.faults out.new) }
    ensures reads { S.faults source.old ≤ S.faults source.new }
    ensures writes { K.faults out.old ≤ K.faults out.new }
{
    let crew = Crew::new(rt, workers, gate);
    let lot = Lot::new();
    let pictures = pictures_ahead(workers);
    if pictures == 0 {
        return decode_by_crew(&crew, &lot, alloc, source, out);
    }
    let Finished { answer, source } = decode_reading_ahead::<R, S, K, G, Brand>(
        &crew,
        &lot,
        pictures,
        alloc,
        Lent { source },
        out,
    );
    // No effect at run time: it tells what the source is at the end.
    let _ = &*source;
    answer
}

/// How a decoding ended, and the source again.
#[derive(Drop)]
struct Finished<'a, S> {
    answer: Decoded,
    source: &'a mut S,
}

/// The most pictures that are read ahead.
const MOST_PICTURES_AHEAD: u32 = 8;

/// How many pictures are read ahead for so many workers. One worker gains nothing by it. For sixteen even eight are too
/// few for a worker each, and none are read ahead, though inter pictures could be decoded at once by several.
fn pictures_ahead(workers: u32) -> u32 {
    if workers == 1 || workers >= 2 * MOST_PICTURES_AHEAD {
        return 0;
    }
    (2 * workers).min(MOST_PICTURES_AHEAD)
}

/// The most bytes that are read ahead.
const MOST_AHEAD: usize = 1 << 25;

/// Decodes a whole stream, as `decode_rows`, from a source that may show this lot the units that it reads ahead.
fn decode_by_crew<R: Threads + Sync, S: Source, K: Sink, G: RowGate>(
    crew: &Crew<R, G>,
    lot: &Lot,
    alloc: Global,
    source: &mut S,
    out: &mut K,
) -> Decoded
    ensures decoded { IfSome (S.held source.old)
        (λ bytes. IsDecodedStream bytes result (K.taken out.old) (K.taken out.new)) }
    // Where a read failed, just what leaves while the units that were read whole are taken was written.
    ensures broken_off { result ≡ Decoded.ReadFault → IfSome (S.held source.old) (λ bytes. IsBrokenOff bytes
        (S.held source.new) (K.taken out.old) (K.taken out.new)) }
    // Whatever front of the bytes left is read too, what was written is a front of what the bytes read then show.
    ensures front_of_more { IfSome (S.held source.old) (λ bytes. IsFrontOfMore bytes (S.held source.new)
        (K.taken out.old) (K.taken out.new)) }
    // Whatever is answered, what was written is a front of what the bytes read show by themselves.
    ensures front_of_read { IfSome (S.held source.old) (λ bytes. IsFrontOfRead bytes (S.held source.new)
        (K.taken out.old) (K.taken out.new)) }
    ensures whole { IfDone result (IsAtEnd (S.held source.new)) }
    ensures at_most_8_references { IfTally result (λ tally. tally.references ≤ MOST_REFERENCES) }
    ensures read { result ≡ Decoded.ReadFault → Rose (S.faults source.old) (S.faults source.new) }
    ensures write { result ≡ Decoded.WriteFault → Rose (K.faults out.old) (K.faults out.new) }
    ensures reads { S.faults source.old ≤ S.faults source.new }
    ensures writes { K.faults out.old ≤ K.faults out.new }
{
    let decode = |alloc: Global, payload: &[u8], code: u8, sequence: &Sequence, refs: &mut DecodingRefs| -> Result<
        DecodedPicture,
        Stop,
    >
        requires { IsSync R.row × IsSync G.row × CanBeDecoded code sequence.now refs.old }
        ensures { DecodesPayload payload.now code sequence.now refs.old result refs.new }
    {
        let asked = Asked {
            payload,
            code,
            sequence,
        };
        decode_at_hand(crew, lot, alloc, asked, refs)
    };
    decode_stream_by(&decode, alloc, source, out)
}

/// Decodes a whole stream, as `decode_rows`, its units read ahead with so many pictures.
fn decode_reading_ahead<'a, R: Threads + Sync, S: Source, K: Sink, G: RowGate, B: Begun>(
    crew: &Crew<R, G>,
    lot: &'a Lot,
    pictures: u32,
    alloc: Global,
    lent: Lent<'a, S>,
    out: &mut K,
) -> Finished<'a, S>
    requires same_reference { lent.source.ghost_name ≡ B.name }
    requires faults { S.faults lent.source.now ≡ B.faults }
    ensures same_reference { result.source.ghost_name ≡ lent.entry.source.ghost_name }
    ensures decoded { IfSome (S.held lent.entry.source.now)
        (λ bytes. IsDecodedStream bytes result.answer (K.taken out.old) (K.taken out.new)) }
    // Where a read failed, just what leaves while the units that were read whole are taken was written.
    ensures broken_off { result.answer ≡ Decoded.ReadFault → IfSome (S.held lent.entry.source.now)
        (λ bytes. IsBrokenOff bytes (S.held result.source.now) (K.taken out.old) (K.taken out.new)) }
    // Whatever is answered, what was written is a front of what the bytes read show by themselves.
    ensures front_of_read { IfSome (S.held lent.entry.source.now)
        (λ bytes. IsFrontOfRead bytes (S.held result.source.now) (K.taken out.old) (K.taken out.new)) }
    ensures whole { IfDone result.answer (IsAtEnd (S.held result.source.now)) }
    ensures at_most_8_references { IfTally result.answer (λ tally. tally.references ≤ MOST_REFERENCES) }
    ensures read { result.answer ≡ Decoded.ReadFault
        → Rose (S.faults lent.entry.source.now) (S.faults result.source.now) }
    ensures write { result.answer ≡ Decoded.WriteFault → Rose (K.faults out.old) (K.faults out.new) }
    ensures reads { S.faults lent.entry.source.now ≤ S.faults result.source.now }
    ensures writes { K.faults out.old ≤ K.faults out.new }
{
    let plan = Plan {
        pictures: pictures as usize,
        most: MOST_AHEAD,
    };
    let mut ahead = Ahead::<S, Lot, B>::new(alloc, lent, lot, plan);
    let answer = decode_by_crew(crew, lot, alloc, &mut ahead, out);
    Finished {
        answer,
        source: ahead.into_source(),
    }
}
