//! The sequences of a stream, joined.

ghost use Rattle.std.specs.Prelude.{◌≡◌, ◌≤◌, ◌<◌, ◌^◌, IfErr, IfOk, IfSome, length};
ghost use Rattle.std.specs.Io.KnownBytes.{IsAtEnd};
ghost use Rattle.dirac_io.specs.Faults.{Rose};
ghost use Rattle.dirac_edit.specs.Edits.{IfUnwritten, IsAnswerOfJoining, IsJoinedBy, JoinedShowsSame};
ghost use Rattle.dirac_edit.specs.Steps.{IsJoinable, RefusesJoin};

use crate::answers::Edited;
use crate::check::{are_bytes, check};
use crate::joining::put_joined;
use crate::part::sequences_of;
use crate::reading::take_all;
use crate::sequence::HeldSequence;
use crate::units::units_of;
use dirac_edit_laws::joined_streams_show_the_same;
use dirac_io::{Sink, Source};
use dirac_units::bytes_have_one_cut;
use std::alloc::Global;

/// Writes the sequences of a stream joined: one is appended to the one before it where their headers are equal and its
/// keys leave room, and its pictures get new numbers. The source is read to its end into memory, and checked, before
/// anything is written.
pub fn join_stream<S: Source, K: Sink>(alloc: Global, source: &mut S, out: &mut K) -> Edited
    ensures joined { IfSome (S.held source.old) (λ bytes. IsJoinedBy bytes result (K.taken out.old) (K.taken out.new)) }
    // What was written has no fault, and shows the raw pictures of the whole stream, in order.
    ensures shows { IfSome (S.held source.old) (λ bytes. result ≡ Edited.Done → JoinedShowsSame bytes) }
    // No answer names a point or an open unit.
    ensures answer { IsAnswerOfJoining result }
    // A refusal and a failed read leave the sink as it was.
    ensures untouched { IfUnwritten result (out.new ≡ out.old) }
    ensures whole { result ≡ Edited.Done → IsAtEnd (S.held source.new) }

    // A fault of the outside comes only where its count rose in this call.
    ensures read { result ≡ Edited.ReadFault → Rose (S.faults source.old) (S.faults source.new) }
    ensures write { result ≡ Edited.WriteFault → Rose (K.faults out.old) (K.faults out.new) }
    ensures reads { S.faults source.old ≤ S.faults source.new }
    ensures writes { K.faults out.old ≤ K.faults out.new }
{
    bytes_have_one_cut();
    let bytes = match take_all(alloc, source) {
        Ok(bytes) => bytes,
        Err(answer) => return answer,
    };
    match whole_of(alloc, bytes.as_slice()) {
        Ok(sequences) => Edited::of(put_joined(out, sequences.as_slice())),
        Err(answer) => answer,
    }
}

/// The sequences of a stream, or why nothing is written.
fn whole_of<'a>(alloc: Global, bytes: &'a [u8]) -> Result<Vec<HeldSequence<'a>>, Edited>
    requires { length bytes.now < 2 ^ 63 }
    ensures is_joinable { IfOk result (λ all. IsJoinable bytes.now all.items) }
    ensures refused { IfErr result (RefusesJoin bytes.now) }
{
    check(alloc, bytes)?;
    are_bytes(bytes);
    bytes_have_one_cut();
    joined_streams_show_the_same();
    let Ok(units) = units_of(alloc, bytes) else {
        return Err(Edited::NoMemory);
    };
    let Ok(sequences) = sequences_of(alloc, units.as_slice(), None) else {
        return Err(Edited::NoMemory);
    };
    Ok(sequences)
}
