ghost use Rattle.std.specs.Prelude.{◌≡◌, ◌==◌, ℕ, ◌≤◌, true, ◌↔◌, Option, Some, Ok, Err};
ghost use Rattle.std.specs.Io.KnownBytes.{Keeps};
ghost use Rattle.dirac_io.specs.Faults.{Rose, held_count};
ghost use Rattle.dirac_types.specs.declared.settings.BadSetting.{BadSetting};
ghost use Rattle.dirac_types.specs.declared.settings.Settings.{Settings};
ghost use Rattle.dirac_stream_commands.specs.Cutting.{IfUnwrittenBy};
ghost use Rattle.dirac_commands.specs.Flushing.{RunsAndKeeps};
ghost use Rattle.dirac_command_line.specs.Words.{command_read};
ghost use Rattle.dirac_commands.specs.Running.{bad_setting};

use crate::running::run;
use dirac_command_line::{Command, Ended, Words, WordsStop, after_flushes};
use dirac_common::OpenGate;
use dirac_io::{ReaderSource, Sink, WriterSink};
use std::alloc::Global;
use std::io::{Read, Write};
use std::thread::Threads;

/// Runs words from a reader to a writer, which is flushed behind the run.
pub fn run_on<R: Threads + Sync, I: Read, O: Write, N: Sink>(
    rt: &R,
    alloc: Global,
    words: &Words,
    input: &mut ReaderSource<I>,
    output: &mut WriterSink<O>,
    side: &mut N,
) -> Ended
    // What comes out and which answer comes, command by command.
    ensures runs { RunsAndKeeps (command_read words.now)
        (record { held = I.remaining input.old.reader; out = O.contents output.old.writer; side = N.taken side.old })
        (record { held = I.remaining input.new.reader; out = O.contents output.new.writer; side = N.taken side.new })
        (output.new.faults == output.old.faults) true result }
    // At `Done` no write and no flush was counted as failed.
    ensures unfailed { result ≡ Ended.Done → output.new.faults ≡ output.old.faults }

    // Words that don't fit are refused before anything is read or written.
    ensures usage { (n : ℕ) → (result ≡ Ended.Usage n) ↔ (command_read words.now ≡ Err (WordsStop.Usage n)) }
    ensures untouched { (n : ℕ) → result ≡ Ended.Usage n → (input.new ≡ input.old)
        × Keeps (O.contents output.old.writer) (O.contents output.new.writer) × (side.new ≡ side.old) }

    // A setting out of its range is refused, the first one, before anything is read or written.
    ensures bad_settings { (bad : BadSetting) → (result ≡ Ended.BadSettings bad)
        ↔ (bad_setting (command_read words.now) ≡ Some bad) }
    ensures unread { (bad : BadSetting) → result ≡ Ended.BadSettings bad → (input.new ≡ input.old)
        × Keeps (O.contents output.old.writer) (O.contents output.new.writer) × (side.new ≡ side.old) }

    ensures list_side { command_read words.now ≡ Ok Command.List → side.new ≡ side.old }
    ensures make_untouched { (t : Settings) (count : ℕ) → command_read words.now ≡ Ok (Command.Make t count)
        → (input.new ≡ input.old) × (side.new ≡ side.old) }
    ensures cut_side { (from : ℕ) (to : Option ℕ) → command_read words.now ≡ Ok (Command.Cut from to)
        → side.new ≡ side.old }
    // What is refused is refused before anything is written.
    ensures cut_untouched { (from : ℕ) (to : Option ℕ) → command_read words.now ≡ Ok (Command.Cut from to)
        → IfUnwrittenBy result (Keeps (O.contents output.old.writer) (O.contents output.new.writer)) }
    ensures join_side { command_read words.now ≡ Ok Command.Join → side.new ≡ side.old }
    ensures join_untouched { command_read words.now ≡ Ok Command.Join
        → IfUnwrittenBy result (Keeps (O.contents output.old.writer) (O.contents output.new.writer)) }

    // A fault of the outside comes only where its count rose in this call.
    ensures read { result ≡ Ended.ReadFault → Rose (held_count input.old.faults) (held_count input.new.faults) }
    ensures write { result ≡ Ended.WriteFault → Rose (held_count output.old.faults) (held_count output.new.faults) }
    ensures side { result ≡ Ended.SideFault → Rose (N.faults side.old) (N.faults side.new) }
    ensures reads { held_count input.old.faults ≤ held_count input.new.faults }
    ensures writes { held_count output.old.faults ≤ held_count output.new.faults }
    ensures sides { N.faults side.old ≤ N.faults side.new }
{
    let before = output.fault_count();
    let ended = run(rt, alloc, words, input, output, side, &OpenGate);
    output.flush();
    after_flushes(ended, output.fault_count() == before, true)
}

/// Runs words from a reader to a writer and beside a second one, which are both flushed behind the run, the first one
/// first.
pub fn run_beside<R: Threads + Sync, I: Read, O: Write, W: Write>(
    rt: &R,
    alloc: Global,
    words: &Words,
    input: &mut ReaderSource<I>,
    output: &mut WriterSink<O>,
    side: &mut WriterSink<W>,
) -> Ended
    ensures runs { RunsAndKeeps (command_read words.now)
        (record {
          held = I.remaining input.old.reader;
          out = O.contents output.old.writer;
          side = W.contents side.old.writer;
        })
        (record {
          held = I.remaining input.new.reader;
          out = O.contents output.new.writer;
          side = W.contents side.new.writer;
        })
        (output.new.faults == output.old.faults) (side.new.faults == side.old.faults) result }
    ensures unfailed { result ≡ Ended.Done
        → (output.new.faults ≡ output.old.faults) × (side.new.faults ≡ side.old.faults) }
    ensures usage { (n : ℕ) → (result ≡ Ended.Usage n) ↔ (command_read words.now ≡ Err (WordsStop.Usage n)) }
    ensures untouched { (n : ℕ) → result ≡ Ended.Usage n → (input.new ≡ input.old)
        × Keeps (O.contents output.old.writer) (O.contents output.new.writer)
        × Keeps (W.contents side.old.writer) (W.contents side.new.writer) }
    ensures bad_settings { (bad : BadSetting) → (result ≡ Ended.BadSettings bad)
        ↔ (bad_setting (command_read words.now) ≡ Some bad) }
    ensures unread { (bad : BadSetting) → result ≡ Ended.BadSettings bad → (input.new ≡ input.old)
        × Keeps (O.contents output.old.writer) (O.contents output.new.writer)
        × Keeps (W.contents side.old.writer) (W.contents side.new.writer) }

    ensures list_side { command_read words.now ≡ Ok Command.List
        → Keeps (W.contents side.old.writer) (W.contents side.new.writer) }
    ensures make_untouched { (t : Settings) (count : ℕ) → command_read words.now ≡ Ok (Command.Make t count)
        → (input.new ≡ input.old) × Keeps (W.contents side.old.writer) (W.contents side.new.writer) }
    ensures cut_side { (from : ℕ) (to : Option ℕ) → command_read words.now ≡ Ok (Command.Cut from to)
        → Keeps (W.contents side.old.writer) (W.contents side.new.writer) }
    ensures cut_untouched { (from : ℕ) (to : Option ℕ) → command_read words.now ≡ Ok (Command.Cut from to)
        → IfUnwrittenBy result (Keeps (O.contents output.old.writer) (O.contents output.new.writer)) }
    ensures join_side { command_read words.now ≡ Ok Command.Join
        → Keeps (W.contents side.old.writer) (W.contents side.new.writer) }
    ensures join_untouched { command_read words.now ≡ Ok Command.Join
        → IfUnwrittenBy result (Keeps (O.contents output.old.writer) (O.contents output.new.writer)) }

    ensures read { result ≡ Ended.ReadFault → Rose (held_count input.old.faults) (held_count input.new.faults) }
    ensures write { result ≡ Ended.WriteFault → Rose (held_count output.old.faults) (held_count output.new.faults) }
    ensures side { result ≡ Ended.SideFault → Rose (held_count side.old.faults) (held_count side.new.faults) }
    ensures reads { held_count input.old.faults ≤ held_count input.new.faults }
    ensures writes { held_count output.old.faults ≤ held_count output.new.faults }
    ensures sides { held_count side.old.faults ≤ held_count side.new.faults }
{
    let before = side.fault_count();
    let ended = run_on(rt, alloc, words, input, output, side);
    side.flush();
    after_flushes(ended, true, side.fault_count() == before)
}
