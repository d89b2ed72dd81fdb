ghost use Rattle.std.specs.Prelude.{◌≡◌, ◌≤◌, IfOk, IfSome, string_bytes};
ghost use Rattle.std.specs.Io.KnownBytes.{Appends, IsAtEnd};
ghost use Rattle.dirac_io.specs.Faults.{Rose};
ghost use Rattle.dirac_io.specs.Writing.{AppendsFront};
ghost use Rattle.dirac_decode.specs.Decoded.{IfDone, IfTally, IsDecodedStream};
ghost use Rattle.dirac_content.specs.Leaving.{IsBrokenOff, IsFrontOfRead};
ghost use Rattle.dirac_stream_commands.specs.Decoding.{IsDecodeAnswer, IsDecoded, TellsFew, tally_line};
ghost use Rattle.dirac_stream_commands.specs.Inside.{IsFaultInside};

use dirac_command_line::Ended;
use dirac_common::{NoMemory, RowGate};
use dirac_decode::{Decoded, Tally, decode_stream};
use dirac_io::{Put, Sink, Source, put_all};
use dirac_pardec::decode_rows;
use dirac_refs::MOST_REFERENCES;
use std::alloc::Global;
use std::thread::Threads;

// Decodes a stream on the caller's thread, or by that many workers.
fn decoded_by<R: Threads + Sync, S: Source, K: Sink, G: RowGate>(
    rt: &R,
    alloc: Global,
    source: &mut S,
    out: &mut K,
    workers: Option<u32>,
    gate: &G,
) -> Decoded
    requires { IfSome workers (λ n. (1 ≤ n) × (n ≤ 64)) }
    ensures decoded { IfSome (S.held source.old) (λ bytes. IsDecodedStream bytes result
        (K.taken out.old) (K.taken out.new)) }
    ensures broken_off { result ≡ Decoded.ReadFault → IfSome (S.held source.old) (λ bytes. IsBrokenOff bytes
        (S.held source.new) (K.taken out.old) (K.taken out.new)) }
    ensures front_of_read { IfSome (S.held source.old) (λ bytes. IsFrontOfRead bytes (S.held source.new)
        (K.taken out.old) (K.taken out.new)) }
    ensures whole { IfDone result (IsAtEnd (S.held source.new)) }
    ensures at_most_8_references { IfTally result (λ tally. tally.references ≤ MOST_REFERENCES) }
    ensures read { result ≡ Decoded.ReadFault → Rose (S.faults source.old) (S.faults source.new) }
    ensures write { result ≡ Decoded.WriteFault → Rose (K.faults out.old) (K.faults out.new) }
    ensures reads { S.faults source.old ≤ S.faults source.new }
    ensures writes { K.faults out.old ≤ K.faults out.new }
{
    match workers {
        None => decode_stream(alloc, source, out),
        Some(workers) => decode_rows(rt, alloc, source, out, workers, gate),
    }
}

/// Decodes a stream to raw pictures, up to the first fault. At its end or at its fault it writes the tally
/// to the side. Where a number of workers is given, it is decoded by them, as `decode_rows` does.
pub fn decode<R: Threads + Sync, S: Source, K: Sink, N: Sink, G: RowGate>(
    rt: &R,
    alloc: Global,
    source: &mut S,
    out: &mut K,
    side: &mut N,
    workers: Option<u32>,
    gate: &G,
) -> Ended
    requires { IfSome workers (λ n. (1 ≤ n) × (n ≤ 64)) }
    ensures answer { IsDecodeAnswer result }
    ensures decoded { IfSome (S.held source.old) (λ bytes. IsDecoded bytes result
        (K.taken out.old) (K.taken out.new) (N.taken side.old) (N.taken side.new)) }
    ensures tells_at_most_8_references { IfSome (S.held source.old) (TellsFew result) }
    ensures fault_inside { IfSome (S.held source.old) (IsFaultInside result) }
    ensures whole { result ≡ Ended.Done → IsAtEnd (S.held source.new) }
    // Whatever is answered, what was written is a front of what the bytes read show by themselves.
    ensures front_of_read { IfSome (S.held source.old) (λ bytes. IsFrontOfRead bytes (S.held source.new)
        (K.taken out.old) (K.taken out.new)) }
    // Where a read failed, just the pictures that leave while the units that were read whole are taken were written.
    ensures broken_off { result ≡ Ended.ReadFault → IfSome (S.held source.old) (λ bytes. IsBrokenOff bytes
        (S.held source.new) (K.taken out.old) (K.taken out.new)) }
    ensures read { result ≡ Ended.ReadFault → Rose (S.faults source.old) (S.faults source.new) }
    ensures write { result ≡ Ended.WriteFault → Rose (K.faults out.old) (K.faults out.new) }
    ensures side { result ≡ Ended.SideFault → Rose (N.faults side.old) (N.faults side.new) }
    ensures reads { S.faults source.old ≤ S.faults source.new }
    ensures writes { K.faults out.old ≤ K.faults out.new }
    ensures sides { N.faults side.old ≤ N.faults side.new }
{
    match decoded_by(rt, alloc, source, out, workers, gate) {
        Decoded::Done(tally) => match put_tally(alloc, side, tally) {
            Put::All => Ended::Done,
            Put::Failed => Ended::SideFault,
            Put::NoMemory => Ended::NoMemory,
        },
        Decoded::Fault(fault, tally) => match put_tally(alloc, side, tally) {
            Put::All => Ended::Fault(fault),
            Put::Failed => Ended::SideFault,
            Put::NoMemory => Ended::NoMemory,
        },
        Decoded::ReadFault => Ended::ReadFault,
        Decoded::WriteFault => Ended::WriteFault,
        Decoded::NoMemory => Ended::NoMemory,
    }
}

// Writes the line of the tally.
fn put_tally<N: Sink>(alloc: Global, side: &mut N, tally: Tally) -> Put
    ensures all { result ≡ Put.All → Appends (N.taken side.old) (N.taken side.new) (tally_line tally) }
    ensures front { AppendsFront (N.taken side.old) (N.taken side.new) (tally_line tally) }
    ensures failed { result ≡ Put.Failed → Rose (N.faults side.old) (N.faults side.new) }
    ensures count { N.faults side.old ≤ N.faults side.new }
{
    match line_of(alloc, tally) {
        Ok(text) => put_all(side, text.as_bytes()),
        Err(NoMemory) => Put::NoMemory,
    }
}

// The line of a tally.
fn line_of(alloc: Global, tally: Tally) -> Result<String, NoMemory>
    ensures { IfOk result (λ text. string_bytes text ≡ tally_line tally) }
{
    let (pictures, references) = (tally.pictures, tally.references);
    Ok(format!(in alloc; "pictures={pictures} references={references}\n")?)
}
