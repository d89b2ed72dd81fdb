ghost use Rattle.std.specs.Prelude.{◌≡◌, ◌≤◌, IfOk, string_bytes};
ghost use Rattle.dirac_io.specs.Faults.{held_count};
ghost use Rattle.dirac_command_line.specs.Ended.{text_of};
ghost use Rattle.dirac_command_line.specs.Telling.{Tells, line_of as line_with};

use crate::ended::{Ended, ended_text};
use dirac_common::NoMemory;
use dirac_io::{Sink, Took, WriterSink};
use std::alloc::Global;
use std::io::Write;

/// Writes what is told of an answer: its text and a newline, where it has a text. What memory is wanting for, or a
/// write fails at, is lost.
pub fn tell<T: Write>(alloc: Global, texts: &mut WriterSink<T>, ended: &Ended)
    ensures told { Tells (line_with (text_of ended.now))
        (record { bytes = T.contents texts.old.writer; faults = texts.old.faults })
        (record { bytes = T.contents texts.new.writer; faults = texts.new.faults }) }
    ensures count { held_count texts.old.faults ≤ held_count texts.new.faults }
{
    match line_of(alloc, ended) {
        Ok(line) => put_line(texts, line.as_bytes()),
        Err(NoMemory) => {}
    }
}

// The text of an answer and a newline. Nothing, where it has no text.
fn line_of(alloc: Global, ended: &Ended) -> Result<String, NoMemory>
    ensures { IfOk result (λ line. string_bytes line ≡ line_with (text_of ended.now)) }
{
    let mut line = ended_text(alloc, ended)?;
    if !line.is_empty() {
        line.push_str("\n")?;
    }
    Ok(line)
}

// Writes a line, up to the first write that fails.
fn put_line<T: Write>(texts: &mut WriterSink<T>, line: &[u8])
    ensures told { Tells line.now
        (record { bytes = T.contents texts.old.writer; faults = texts.old.faults })
        (record { bytes = T.contents texts.new.writer; faults = texts.new.faults }) }
    ensures count { held_count texts.old.faults ≤ held_count texts.new.faults }
{
    let mut rest = line;
    'writing: while !rest.is_empty() {
        match texts.write(rest) {
            Took::Bytes(n) => rest = &rest[n..],
            Took::Failed => return,
            Took::NoMemory => unreachable!(),
        }
    }
}
