ghost use Rattle.std.specs.Prelude.{◌≡◌, ◌≤◌, ℕ, List, [], IfSome};
ghost use Rattle.std.specs.Io.KnownBytes.{IsAtEnd};
ghost use Rattle.dirac_io.specs.Faults.{Rose};
ghost use Rattle.dirac_types.specs.Settings.{IsAccepted};
ghost use Rattle.dirac_encode_laws.specs.Alike.{AreShownAlike};
ghost use Rattle.dirac_encode_laws.specs.Coding.{own_index};
ghost use Rattle.dirac_encode_laws.specs.Encoding.{encoding};
ghost use Rattle.dirac_encode_laws.specs.Standing.{jobs_in};
ghost use Rattle.dirac_encode.specs.Alone.{WritesDue, WritesFrontOfRead};
ghost use Rattle.dirac_choice_laws.specs.Insides.{HaveVectorsInside};
ghost use Rattle.dirac_choice_laws.specs.Pictures.{AreLeastInters};
ghost use Rattle.dirac_choice_laws.specs.Workers.{with_workers};
ghost use Rattle.dirac_encode_commands.specs.Delivered.{SideGetsShown};
ghost use Rattle.dirac_encode_commands.specs.Encoding.{EndsStream, IsEncoded, IsEncodeAnswer};

use crate::ending::ended;
use dirac_choice_laws::{
    coded_vectors_keep_inside, inter_pictures_cost_least, workers_change_nothing,
};
use dirac_command_line::Ended;
use dirac_common::RowGate;
use dirac_encode::encode_stream;
use dirac_io::{Sink, Source};
use dirac_plan_laws::plans_can_be_coded;
use dirac_types::Settings;
use std::alloc::Global;
use std::thread::Threads;

/// Encodes raw pictures: the stream goes to `out`, the reconstructions as raw pictures to the side.
pub fn encode<R: Threads + Sync, S: Source, K: Sink, N: Sink, G: RowGate>(
    rt: &R,
    alloc: Global,
    source: &mut S,
    out: &mut K,
    side: &mut N,
    settings: &Settings,
    gate: &G,
) -> Ended
    requires { IsAccepted settings.now }
    ensures answer { IsEncodeAnswer result }
    ensures encoded { IfSome (S.held source.old) (λ bytes. IsEncoded settings.now bytes result
        (K.taken out.old) (K.taken out.new) (N.taken side.old) (N.taken side.new)) }
    // Whatever is answered, what was written is a front of the encoding of the bytes read by themselves.
    ensures front_of_read { IfSome (S.held source.old) (λ bytes. WritesFrontOfRead own_index settings.now bytes
        (S.held source.new) (K.taken out.old) (K.taken out.new) (N.taken side.old) (N.taken side.new)) }
    // Where a read failed, all that was due was written: of the whole pictures read no more are left than may wait.
    ensures due { result ≡ Ended.ReadFault → IfSome (S.held source.old) (λ bytes. WritesDue own_index settings.now bytes
        (S.held source.new) (K.taken out.old) (K.taken out.new) (N.taken side.old) (N.taken side.new)) }
    ensures whole { result ≡ Ended.Done → IsAtEnd (S.held source.new) }
    ensures partial { (n : ℕ) → result ≡ Ended.PartialPicture n → (1 ≤ n) × IsAtEnd (S.held source.new) }
    // Behind a whole stream the side got just what the stream shows.
    ensures shows { IfSome (S.held source.old) (λ bytes. EndsStream result
        → SideGetsShown (encoding settings.now bytes) (N.taken side.old) (N.taken side.new)) }
    // Whatever the raw pictures are: what is chosen for each inter picture of their stream costs least,
    ensures least { (bytes : List ℕ) → AreLeastInters own_index settings.now [] (jobs_in settings.now bytes) }
    // and the number of workers changes nothing.
    ensures workers { (workers : ℕ) (bytes : List ℕ)
        → encoding (with_workers settings.now workers) bytes ≡ encoding settings.now bytes }
    // Where the settings ask for it, each inter picture has a residual, and vectors that keep inside.
    ensures alike { (bytes : List ℕ) → settings.now.alike ≡ 1
        → AreShownAlike own_index settings.now [] (jobs_in settings.now bytes)
        × HaveVectorsInside own_index settings.now [] (jobs_in settings.now bytes) }
    ensures read { result ≡ Ended.ReadFault → Rose (S.faults source.old) (S.faults source.new) }
    ensures write { result ≡ Ended.WriteFault → Rose (K.faults out.old) (K.faults out.new) }
    ensures side { result ≡ Ended.SideFault → Rose (N.faults side.old) (N.faults side.new) }
    ensures reads { S.faults source.old ≤ S.faults source.new }
    ensures writes { K.faults out.old ≤ K.faults out.new }
    ensures sides { N.faults side.old ≤ N.faults side.new }
{
    plans_can_be_coded();
    inter_pictures_cost_least();
    coded_vectors_keep_inside();
    workers_change_nothing();
    ended(encode_stream(rt, alloc, source, out, side, settings, gate))
}
