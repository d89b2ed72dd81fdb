ghost use Rattle.std.specs.Prelude.{◌≡◌, ℕ, ◌≤◌, ◌↔◌, Option, Some, Ok, Err};
ghost use Rattle.std.specs.Io.KnownBytes.{IsAtEnd};
ghost use Rattle.dirac_io.specs.Faults.{Rose};
ghost use Rattle.dirac_types.specs.declared.settings.BadSetting.{BadSetting};
ghost use Rattle.dirac_types.specs.declared.settings.Settings.{Settings};
ghost use Rattle.dirac_stream_commands.specs.Cutting.{IfUnwrittenBy};
ghost use Rattle.dirac_command_line.specs.Words.{command_read};
ghost use Rattle.dirac_commands.specs.Running.{RunsTo, bad_setting};

use crate::rate::rate;
use dirac_command_line::{
    Command, Ended, Words, WordsStop, check_make, check_rate, check_workers, read_words,
};
use dirac_common::RowGate;
use dirac_encode_commands::{encode, make};
use dirac_io::{Sink, Source};
use dirac_stream_commands::{cut, decode, join, list};
use std::alloc::Global;
use std::thread::Threads;

/// Runs the command that the words say, from a source to two sinks: what comes out, and what is said
/// beside it. The gate changes no answer and no byte.
pub fn run<R: Threads + Sync, S: Source, K: Sink, N: Sink, G: RowGate>(
    rt: &R,
    alloc: Global,
    words: &Words,
    source: &mut S,
    out: &mut K,
    side: &mut N,
    gate: &G,
) -> Ended
    // What comes out and which answer comes, command by command.
    ensures runs { RunsTo (command_read words.now)
        (record { held = S.held source.old; out = K.taken out.old; side = N.taken side.old })
        (record { held = S.held source.new; out = K.taken out.new; side = N.taken side.new }) result }

    // Words that don't fit are refused before anything is read or written.
    ensures usage { (n : ℕ) → (result ≡ Ended.Usage n) ↔ (command_read words.now ≡ Err (WordsStop.Usage n)) }
    ensures untouched { (n : ℕ) → result ≡ Ended.Usage n
        → (source.new ≡ source.old) × (out.new ≡ out.old) × (side.new ≡ side.old) }

    // A setting out of its range is refused, the first one, before anything is read or written.
    ensures bad_settings { (bad : BadSetting) → (result ≡ Ended.BadSettings bad)
        ↔ (bad_setting (command_read words.now) ≡ Some bad) }
    ensures unread { (bad : BadSetting) → result ≡ Ended.BadSettings bad
        → (source.new ≡ source.old) × (out.new ≡ out.old) × (side.new ≡ side.old) }

    ensures list_side { command_read words.now ≡ Ok Command.List → side.new ≡ side.old }
    ensures make_untouched { (t : Settings) (count : ℕ) → command_read words.now ≡ Ok (Command.Make t count)
        → (source.new ≡ source.old) × (side.new ≡ side.old) }
    ensures cut_side { (from : ℕ) (to : Option ℕ) → command_read words.now ≡ Ok (Command.Cut from to)
        → side.new ≡ side.old }
    // What is refused is refused before anything is written, also where the sink tells no bytes.
    ensures cut_untouched { (from : ℕ) (to : Option ℕ) → command_read words.now ≡ Ok (Command.Cut from to)
        → IfUnwrittenBy result (out.new ≡ out.old) }
    ensures join_side { command_read words.now ≡ Ok Command.Join → side.new ≡ side.old }
    ensures join_untouched { command_read words.now ≡ Ok Command.Join → IfUnwrittenBy result (out.new ≡ out.old) }

    // A fault of the outside comes only where its count rose in this call.
    ensures read { result ≡ Ended.ReadFault → Rose (S.faults source.old) (S.faults source.new) }
    ensures write { result ≡ Ended.WriteFault → Rose (K.faults out.old) (K.faults out.new) }
    ensures side { result ≡ Ended.SideFault → Rose (N.faults side.old) (N.faults side.new) }
    ensures reads { S.faults source.old ≤ S.faults source.new }
    ensures writes { K.faults out.old ≤ K.faults out.new }
    ensures sides { N.faults side.old ≤ N.faults side.new }
{
    match read_words(words) {
        Err(WordsStop::Usage(n)) => Ended::Usage(n),
        Ok(Command::List) => list(alloc, source, out),
        Ok(Command::Decode) => decode(rt, alloc, source, out, side, None, gate),
        Ok(Command::Encode(settings)) => match settings.check() {
            Ok(()) => encode(rt, alloc, source, out, side, &settings, gate),
            Err(bad) => Ended::BadSettings(bad),
        },
        Ok(Command::Make(settings, count)) => match check_make(&settings, count) {
            Ok(()) => make(rt, alloc, &settings, count, out, gate),
            Err(bad) => Ended::BadSettings(bad),
        },
        Ok(Command::Pardecode(workers)) => match check_workers(workers) {
            Ok(()) => decode(rt, alloc, source, out, side, Some(workers), gate),
            Err(bad) => Ended::BadSettings(bad),
        },
        Ok(Command::Cut(from, to)) => cut(alloc, source, out, from, to),
        Ok(Command::Rate(settings, budget)) => match check_rate(&settings, budget) {
            Ok(()) => rate(rt, alloc, source, out, side, &settings, budget, gate),
            Err(bad) => Ended::BadSettings(bad),
        },
        Ok(Command::Join) => join(alloc, source, out),
    }
}
