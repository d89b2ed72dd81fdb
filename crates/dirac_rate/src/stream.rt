//! A stream whose pictures fit a budget.

ghost use Rattle.std.specs.Prelude.{◌≡◌, ◌≤◌, ℕ, List, [], IfSome};
ghost use Rattle.std.specs.Io.KnownBytes.{IsAtEnd};
ghost use Rattle.dirac_io.specs.Faults.{Rose};
ghost use Rattle.dirac_types.specs.Settings.{IsAccepted};
ghost use Rattle.dirac_encode_laws.specs.Alike.{AreShownAlike};
ghost use Rattle.dirac_encode_laws.specs.Encoding.{AnswersEncodedStream, EncodesToTheEnd, IsRecoveredUnder};
ghost use Rattle.dirac_encode_laws.specs.Encoding.{encoding_under};
ghost use Rattle.dirac_encode_laws.specs.Fit.{AllFitOrNone, fit};
ghost use Rattle.dirac_encode_laws.specs.Standing.{jobs_in};
ghost use Rattle.dirac_encode.specs.Alone.{WritesDue, WritesFrontOfRead};

use dirac_common::RowGate;
use dirac_encode::{Encoded, StreamCoder, encode_by, streams_show_their_pictures};
use dirac_io::{Sink, Source};
use dirac_types::Settings;
use std::alloc::Global;
use std::thread::Threads;

/// Encodes raw pictures until the source ends, each with the least quantiser index, from the settings' on, by which its
/// unit has at most `budget` bytes, and with the last where there is none: the stream goes to `out`, and the pictures
/// that decoders show for it, in order of display, as raw pictures to `side`. The gate changes no answer and no byte.
pub fn rate_stream<R: Threads + Sync, S: Source, K: Sink, N: Sink, G: RowGate>(
    rt: &R,
    alloc: Global,
    source: &mut S,
    out: &mut K,
    side: &mut N,
    settings: &Settings,
    budget: u32,
    gate: &G,
) -> Encoded
    requires { IsAccepted settings.now }
    // The answer, and what both sinks took, are those of the encoding with these indices; a fault or want of memory
    // leaves a front of each.
    ensures encoded { IfSome (S.held source.old) (λ bytes. AnswersEncodedStream result
        (encoding_under (fit budget) settings.now bytes)
        (K.taken out.old) (K.taken out.new) (N.taken side.old) (N.taken side.new)) }
    // A whole stream is decoded to what the side got.
    ensures recovered { IfSome (S.held source.old) (λ bytes.
        EncodesToTheEnd result → IsRecoveredUnder (fit budget) settings.now bytes) }
    // Each unit fits the budget, or at no index from the settings' on it does.
    ensures fits { (bytes : List ℕ) → AllFitOrNone budget settings.now [] (jobs_in settings.now bytes) }
    // Where the settings ask for it, other decoders find in each picture what they need to show it alike.
    ensures alike { (bytes : List ℕ) → settings.now.alike ≡ 1
        → AreShownAlike (fit budget) settings.now [] (jobs_in settings.now bytes) }
    // Whatever is answered, what was written is a front of the encoding of the bytes read by themselves.
    ensures front_of_read { IfSome (S.held source.old) (λ bytes. WritesFrontOfRead (fit budget) settings.now bytes
        (S.held source.new) (K.taken out.old) (K.taken out.new) (N.taken side.old) (N.taken side.new)) }
    // Where a read failed, all that was due was written: of the whole pictures read no more are left than may wait, and
    // none that the planner gives while more may come.
    ensures due { result ≡ Encoded.ReadFault → IfSome (S.held source.old) (λ bytes. WritesDue
        (fit budget) settings.now bytes (S.held source.new)
        (K.taken out.old) (K.taken out.new) (N.taken side.old) (N.taken side.new)) }
    ensures whole { result ≡ Encoded.Done → IsAtEnd (S.held source.new) }
    ensures partial { (n : ℕ) → result ≡ Encoded.PartialPicture n → (1 ≤ n) × IsAtEnd (S.held source.new) }

    // A fault of the outside comes only where its count rose in this call.
    ensures read { result ≡ Encoded.ReadFault → Rose (S.faults source.old) (S.faults source.new) }
    ensures write { result ≡ Encoded.WriteFault → Rose (K.faults out.old) (K.faults out.new) }
    ensures side { result ≡ Encoded.SideFault → Rose (N.faults side.old) (N.faults side.new) }
    ensures reads { S.faults source.old ≤ S.faults source.new }
    ensures writes { K.faults out.old ≤ K.faults out.new }
    ensures sides { N.faults side.old ≤ N.faults side.new }
{
    streams_show_their_pictures();
    encode_by(
        &StreamCoder {
            rt,
            alloc,
            settings,
            budget: Some(budget),
            gate,
        },
        source,
        out,
        side,
    )
}
