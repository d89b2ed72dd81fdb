//! A part of a stream.

ghost use Rattle.std.specs.Prelude.{◌≡◌, ◌≤◌, ◌<◌, ◌^◌, IfErr, IfOk, IfSome, length};
ghost use Rattle.std.specs.Io.KnownBytes.{IsAtEnd};
ghost use Rattle.dirac_io.specs.Faults.{Rose};
ghost use Rattle.dirac_edit.specs.Edits.{IfUnwritten, IsCutBy, ShowsPart};
ghost use Rattle.dirac_edit.specs.Steps.{IsCutPart, RefusesCut};

use crate::answers::Edited;
use crate::bounds::{Part, points_of, wrong_point};
use crate::check::{are_bytes, check};
use crate::open::first_open;
use crate::part::sequences_of;
use crate::reading::take_all;
use crate::sequence::HeldSequence;
use crate::units::units_of;
use crate::writing::put_sequences;
use dirac_edit_laws::{cuts_show_their_parts, units_show_their_sequences};
use dirac_io::{Sink, Source};
use dirac_units::bytes_have_one_cut;
use std::alloc::Global;

/// Writes a part of a stream: its pictures from point `from` up to, and without, point `to`, or to its end. The source
/// is read to its end into memory, and checked, before anything is written.
pub fn cut_stream<S: Source, K: Sink>(
    alloc: Global,
    source: &mut S,
    out: &mut K,
    from: u64,
    to: Option<u64>,
) -> Edited
    ensures cut { IfSome (S.held source.old) (λ bytes. IsCutBy bytes from to result
        (K.taken out.old) (K.taken out.new)) }
    // The cut has no fault, and shows just the pictures of the part as the whole stream rebuilds them.
    ensures shows { IfSome (S.held source.old) (λ bytes. result ≡ Edited.Done → ShowsPart bytes from to) }
    // A refusal and a failed read leave the sink as it was.
    ensures untouched { IfUnwritten result (out.new ≡ out.old) }
    ensures whole { result ≡ Edited.Done → IsAtEnd (S.held source.new) }

    // A fault of the outside comes only where its count rose in this call.
    ensures read { result ≡ Edited.ReadFault → Rose (S.faults source.old) (S.faults source.new) }
    ensures write { result ≡ Edited.WriteFault → Rose (K.faults out.old) (K.faults out.new) }
    ensures reads { S.faults source.old ≤ S.faults source.new }
    ensures writes { K.faults out.old ≤ K.faults out.new }
{
    bytes_have_one_cut();
    let bytes = match take_all(alloc, source) {
        Ok(bytes) => bytes,
        Err(answer) => return answer,
    };
    match part_of(alloc, bytes.as_slice(), from, to) {
        Ok(part) => Edited::of(put_sequences(out, part.as_slice())),
        Err(answer) => answer,
    }
}

/// The sequences of a part, or why it isn't written.
fn part_of<'a>(
    alloc: Global,
    bytes: &'a [u8],
    from: u64,
    to: Option<u64>,
) -> Result<Vec<HeldSequence<'a>>, Edited>
    requires { length bytes.now < 2 ^ 63 }
    ensures part { IfOk result (λ part. IsCutPart bytes.now from to part.items) }
    ensures refused { IfErr result (RefusesCut bytes.now from to) }
{
    check(alloc, bytes)?;
    are_bytes(bytes);
    bytes_have_one_cut();
    cuts_show_their_parts();
    units_show_their_sequences();
    let Ok(units) = units_of(alloc, bytes) else {
        return Err(Edited::NoMemory);
    };
    let points = points_of(units.as_slice());
    if let Some(number) = wrong_point(from, to, points) {
        return Err(Edited::NoSuchPoint(number));
    }
    let part = Part {
        from,
        to: to.unwrap_or(points),
    };
    let Ok(sequences) = sequences_of(alloc, units.as_slice(), Some(part)) else {
        return Err(Edited::NoMemory);
    };
    match first_open(alloc, sequences.as_slice()) {
        Ok(None) => Ok(sequences),
        Ok(Some(unit)) => Err(Edited::OpenCut(unit)),
        Err(_) => Err(Edited::NoMemory),
    }
}
