//! The program `dirac_tool`: fetches its words, makes the file of the reconstructions where they name one, and runs a
//! command on the standard streams. All that it promises stands on `answer_beside` of `dirac_commands`.
#![tactic(auto)]

mod outlet;

use crate::outlet::{beside, texts};
use dirac_commands::{Ended, Words, answer_beside, status};
use dirac_common::NoMemory;
use dirac_io::{ReaderSource, WriterSink};
use std::alloc::Global;
use std::env;
use std::env::Env;
use std::io::{BufReader, ErrorKind, Write};
use std::process::ExitCode;

// The status where the file of the reconstructions can't be made.
const NO_FILE: u8 = 12;

// How many bytes of standard input are fetched at once at most: what a pipe holds. A read gives what is there.
const READ_AHEAD: usize = 65_536;

// The longest piece of memory, in bytes, from whose freeing the C library learns: it takes pieces up to that length
// from its own store from then on, and keeps there what is freed, up to twice as much. Where the environment sets its
// thresholds, as `run` does, it learns nothing, and nothing is lost.
const LEARNT_PIECE: usize = 31 << 20;

fn main(rt: HostRuntime) -> ExitCode {
    let alloc = rt.alloc();
    keep_freed_memory(alloc);
    let Ok(words) = fetched_words(&rt, alloc) else {
        return ExitCode::from(status(&Ended::NoMemory));
    };
    let Ok(input) = BufReader::with_capacity(alloc, READ_AHEAD, rt.stdin()) else {
        return ExitCode::from(status(&Ended::NoMemory));
    };
    // This comes before the file is made, which would get the place of a standard stream that is closed.
    let mut texts = WriterSink::new(texts(&rt));
    let Ok(side) = beside(&rt, &words) else {
        // A text that can't be written is lost; the status tells the same.
        let _ = writeln!(rt.stderr(), "cannot make recon file");
        return ExitCode::from(NO_FILE);
    };
    ExitCode::from(answer_beside(
        &rt,
        alloc,
        &words,
        &mut ReaderSource::new(input),
        &mut WriterSink::new(rt.stdout()),
        &mut WriterSink::new(side),
        &mut texts,
    ))
}

// Takes a large piece of memory and frees it untouched, so that the tables of one picture stay at hand for the next,
// and aren't given back to the system and asked for again, page by page. Where there is no such piece, nothing is lost.
fn keep_freed_memory(alloc: Global) {
    let _ = Vec::<u8>::with_capacity(alloc, LEARNT_PIECE);
}

// The words behind the program's name. Where they can't be fetched there is none.
fn fetched_words<R: Env + AllocGlobal>(rt: &R, alloc: Global) -> Result<Words, NoMemory> {
    let mut words = Words::new(alloc);
    match env::args(rt) {
        Ok(args) => {
            for word in args.skip(1) {
                words.push(word.as_str())?;
            }
        }
        Err(e) => {
            if e.kind() == ErrorKind::OutOfMemory {
                return Err(NoMemory);
            }
        }
    }
    Ok(words)
}
