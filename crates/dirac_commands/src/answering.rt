ghost use Rattle.std.specs.Prelude.{◌≡◌, ◌==◌, ℕ, ◌≤◌, ◌↔◌, IsErr, IsSome, Option, Ok};
ghost use Rattle.std.specs.Io.KnownBytes.{Keeps};
ghost use Rattle.dirac_io.specs.Faults.{Rose, held_count};
ghost use Rattle.dirac_types.specs.declared.settings.BadSetting.{BadSetting};
ghost use Rattle.dirac_types.specs.declared.settings.Settings.{Settings};
ghost use Rattle.dirac_commands.specs.Answering.{Answers};
ghost use Rattle.dirac_command_line.specs.Ended.{status_of};
ghost use Rattle.dirac_command_line.specs.Words.{command_read};
ghost use Rattle.dirac_commands.specs.Running.{bad_setting};

use crate::flushed::run_beside;
use dirac_command_line::{Command, Ended, Words, status, tell};
use dirac_io::{ReaderSource, WriterSink};
use std::alloc::Global;
use std::io::{Read, Write};
use std::thread::Threads;

/// Runs words from a reader to a writer and beside a second one, as `run_beside`, and tells the answer to a third: its
/// text and a newline, where it has a text. What can't be told is lost. The exit status of the program.
pub fn answer_beside<R: Threads + Sync, I: Read, O: Write, W: Write, T: Write>(
    rt: &R,
    alloc: Global,
    words: &Words,
    input: &mut ReaderSource<I>,
    output: &mut WriterSink<O>,
    side: &mut WriterSink<W>,
    texts: &mut WriterSink<T>,
) -> u8
    // How the run ended, what it left, what is told of it, and that this is its status.
    ensures answers { Answers (command_read words.now)
        (record {
          held = I.remaining input.old.reader;
          out = O.contents output.old.writer;
          side = W.contents side.old.writer;
        })
        (record {
          held = I.remaining input.new.reader;
          out = O.contents output.new.writer;
          side = W.contents side.new.writer;
        })
        (output.new.faults == output.old.faults) (side.new.faults == side.old.faults)
        (record { bytes = T.contents texts.old.writer; faults = texts.old.faults })
        (record { bytes = T.contents texts.new.writer; faults = texts.new.faults }) result }
    // At the status of `Done` no write and no flush was counted as failed.
    ensures unfailed { result ≡ status_of Ended.Done
        → (output.new.faults ≡ output.old.faults) × (side.new.faults ≡ side.old.faults) }

    // Words that don't fit and settings out of their ranges are refused before anything is read or written.
    ensures usage { (n : ℕ) → (result ≡ status_of (Ended.Usage n)) ↔ IsErr (command_read words.now) }
    ensures untouched { (n : ℕ) → result ≡ status_of (Ended.Usage n) → (input.new ≡ input.old)
        × Keeps (O.contents output.old.writer) (O.contents output.new.writer)
        × Keeps (W.contents side.old.writer) (W.contents side.new.writer) }
    ensures bad_settings { (bad : BadSetting) → (result ≡ status_of (Ended.BadSettings bad))
        ↔ IsSome (bad_setting (command_read words.now)) }
    ensures unread { (bad : BadSetting) → result ≡ status_of (Ended.BadSettings bad) → (input.new ≡ input.old)
        × Keeps (O.contents output.old.writer) (O.contents output.new.writer)
        × Keeps (W.contents side.old.writer) (W.contents side.new.writer) }

    ensures list_side { command_read words.now ≡ Ok Command.List
        → Keeps (W.contents side.old.writer) (W.contents side.new.writer) }
    ensures make_untouched { (t : Settings) (count : ℕ) → command_read words.now ≡ Ok (Command.Make t count)
        → (input.new ≡ input.old) × Keeps (W.contents side.old.writer) (W.contents side.new.writer) }
    ensures cut_side { (from : ℕ) (to : Option ℕ) → command_read words.now ≡ Ok (Command.Cut from to)
        → Keeps (W.contents side.old.writer) (W.contents side.new.writer) }
    ensures join_side { command_read words.now ≡ Ok Command.Join
        → Keeps (W.contents side.old.writer) (W.contents side.new.writer) }

    // The status of a fault of the outside comes only where its count rose in this call.
    ensures read { result ≡ status_of Ended.ReadFault
        → Rose (held_count input.old.faults) (held_count input.new.faults) }
    ensures write { result ≡ status_of Ended.WriteFault
        → Rose (held_count output.old.faults) (held_count output.new.faults) }
    ensures side { result ≡ status_of Ended.SideFault → Rose (held_count side.old.faults) (held_count side.new.faults) }
    ensures reads { held_count input.old.faults ≤ held_count input.new.faults }
    ensures writes { held_count output.old.faults ≤ held_count output.new.faults }
    ensures sides { held_count side.old.faults ≤ held_count side.new.faults }
    ensures texts { held_count texts.old.faults ≤ held_count texts.new.faults }
{
    let ended = run_beside(rt, alloc, words, input, output, side);
    tell(alloc, texts, &ended);
    status(&ended)
}
