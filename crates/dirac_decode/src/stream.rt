ghost use Rattle.std.specs.Prelude.{◌≡◌, ◌≤◌, IfSome};
ghost use Rattle.std.specs.Io.KnownBytes.{IsAtEnd};
ghost use Rattle.dirac_io.specs.Faults.{Rose};
ghost use Rattle.dirac_decode.specs.Decoding.{decoder_begun};
ghost use Rattle.dirac_decode.specs.Decoded.{IfDone, IfTally, IsDecodedStream, IsFrontOfMore};
ghost use Rattle.dirac_decode.specs.Streamed.{CountsFaults, IsStreamWritten};
ghost use Rattle.dirac_content.specs.Leaving.{IsBrokenOff, IsFrontOfRead};
ghost use Rattle.dirac_decode_picture.specs.Payload.{DecodesPictures};

use crate::answers::{Decoded, Next};
use crate::decoder::Decoder;
use crate::in_turn::decode_in_turn;
use dirac_common::Stop;
use dirac_content::put_picture;
use dirac_decode_picture::{DecodedPicture, DecodingRefs};
use dirac_io::{Put, Sink, Source};
use dirac_refs::MOST_REFERENCES;
use dirac_sequence_header::Sequence;
use std::alloc::Global;

/// Decodes a whole stream, and writes its pictures as raw pictures in order of delivery, up to the first fault.
pub fn decode_stream<S: Source, K: Sink>(alloc: Global, source: &mut S, out: &mut K) -> Decoded
    ensures decoded { IfSome (S.held source.old)
        (λ bytes. IsDecodedStream bytes result (K.taken out.old) (K.taken out.new)) }
    // Where a read failed, just what leaves while the units that were read whole are taken was written.
    ensures broken_off { result ≡ Decoded.ReadFault → IfSome (S.held source.old) (λ bytes. IsBrokenOff bytes
        (S.held source.new) (K.taken out.old) (K.taken out.new)) }
    // Whatever is answered, what was written is a front of what the bytes read show by themselves.
    ensures front_of_read { IfSome (S.held source.old) (λ bytes. IsFrontOfRead bytes (S.held source.new)
        (K.taken out.old) (K.taken out.new)) }
    // Whatever front of the bytes left is read too, what was written is a front of what the bytes read then show.
    ensures front_of_more { IfSome (S.held source.old) (λ bytes. IsFrontOfMore bytes (S.held source.new)
        (K.taken out.old) (K.taken out.new)) }
    ensures whole { IfDone result (IsAtEnd (S.held source.new)) }
    ensures at_most_8_references { IfTally result (λ tally. tally.references ≤ MOST_REFERENCES) }
    ensures read { result ≡ Decoded.ReadFault → Rose (S.faults source.old) (S.faults source.new) }
    ensures write { result ≡ Decoded.WriteFault → Rose (K.faults out.old) (K.faults out.new) }
    ensures reads { S.faults source.old ≤ S.faults source.new }
    ensures writes { K.faults out.old ≤ K.faults out.new }
{
    let mut decoder = Decoder::new(alloc);
    let mut row = Vec::new(alloc);
    write_pictures(&decode_in_turn, &mut decoder, &mut row, source, out)
}

/// Decodes a whole stream, as `decode_stream`, where `decode` decodes each picture.
pub fn decode_stream_by<
    S: Source,
    K: Sink,
    F: Fn(Global, &[u8], u8, &Sequence, &mut DecodingRefs) -> Result<DecodedPicture, Stop>,
>(decode: &F, alloc: Global, source: &mut S, out: &mut K) -> Decoded
    requires decodes { DecodesPictures (F.pre decode.now) (F.post decode.now) }
    ensures decoded { IfSome (S.held source.old)
        (λ bytes. IsDecodedStream bytes result (K.taken out.old) (K.taken out.new)) }
    // Where a read failed, just what leaves while the units that were read whole are taken was written.
    ensures broken_off { result ≡ Decoded.ReadFault → IfSome (S.held source.old) (λ bytes. IsBrokenOff bytes
        (S.held source.new) (K.taken out.old) (K.taken out.new)) }
    // Whatever is answered, what was written is a front of what the bytes read show by themselves.
    ensures front_of_read { IfSome (S.held source.old) (λ bytes. IsFrontOfRead bytes (S.held source.new)
        (K.taken out.old) (K.taken out.new)) }
    // Whatever front of the bytes left is read too, what was written is a front of what the bytes read then show.
    ensures front_of_more { IfSome (S.held source.old) (λ bytes. IsFrontOfMore bytes (S.held source.new)
        (K.taken out.old) (K.taken out.new)) }
    ensures whole { IfDone result (IsAtEnd (S.held source.new)) }
    ensures at_most_8_references { IfTally result (λ tally. tally.references ≤ MOST_REFERENCES) }
    ensures read { result ≡ Decoded.ReadFault → Rose (S.faults source.old) (S.faults source.new) }
    ensures write { result ≡ Decoded.WriteFault → Rose (K.faults out.old) (K.faults out.new) }
    ensures reads { S.faults source.old ≤ S.faults source.new }
    ensures writes { K.faults out.old ≤ K.faults out.new }
{
    let mut decoder = Decoder::new(alloc);
    let mut row = Vec::new(alloc);
    write_pictures(decode, &mut decoder, &mut row, source, out)
}

/// Writes the pictures of a stream that a new decoder gives; `row` is a buffer for bytes of a plane.
fn write_pictures<
    S: Source,
    K: Sink,
    F: Fn(Global, &[u8], u8, &Sequence, &mut DecodingRefs) -> Result<DecodedPicture, Stop>,
>(decode: &F, decoder: &mut Decoder, row: &mut Vec<u8>, source: &mut S, out: &mut K) -> Decoded
    requires decodes { DecodesPictures (F.pre decode.now) (F.post decode.now) }
    requires new { decoder.old ≡ decoder_begun }
    ensures written { IsStreamWritten result (S.held source.old) (S.held source.new) (K.taken out.old)
        (K.taken out.new) }
    ensures faults { CountsFaults result (S.faults source.old) (S.faults source.new) (K.faults out.old)
        (K.faults out.new) }
{
    'pictures: loop {
        match decoder.next_picture_by(decode, source) {
            Next::Shown(picture) => match put_picture(out, &picture, row) {
                Put::All => decoder.take_back(picture),
                Put::Failed => return Decoded::WriteFault,
                Put::NoMemory => return Decoded::NoMemory,
            },
            Next::End => return Decoded::Done(decoder.tally()),
            Next::Fault(fault) => return Decoded::Fault(fault, decoder.tally()),
            Next::ReadFault => return Decoded::ReadFault,
            Next::NoMemory => return Decoded::NoMemory,
            Next::Stopped => unreachable!(),
        }
    }
}
