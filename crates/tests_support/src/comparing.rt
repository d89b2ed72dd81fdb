use crate::tries::{Left, Outside, pieces, tried, words_of};
use dirac_commands::{Ended, Words};
use std::alloc::Global;
use std::test::Fail;
use std::thread::Threads;

/// The words of both commands that decode.
pub const DECODE: [&str; 1] = ["decode"];

pub const PARDECODE: [&str; 2] = ["pardecode", "--workers=3"];

/// Decodes bytes by a command, by calls that may fail.
pub fn decoded<R: Threads + Sync>(
    rt: &R,
    alloc: Global,
    command: &[&str],
    bytes: &[u8],
    outside: &Outside<'_>,
) -> Result<Left, Fail> {
    let words = words_of(alloc, command)?;
    tried(rt, alloc, &words, bytes, outside)
}

// Compares what a run left, in pieces of that many bytes, with the answer, what is to come out and what beside it.
fn compared(left: &Left, most: usize, answer: Ended, out: &[u8], side: &[u8]) -> Result<(), Fail> {
    if left.ended != answer {
        let ended = left.ended;
        return Err(Fail::new(format_args!(
            "{ended:?} is answered in place of {answer:?}, in pieces of {most}"
        )));
    }
    if left.out.taken() != out {
        return Err(Fail::new(format_args!("other bytes come out, in pieces of {most}")));
    }
    if left.side.taken() != side {
        return Err(Fail::new(format_args!("other bytes come out beside it, in pieces of {most}")));
    }
    Ok(())
}

/// Runs words over bytes in pieces, and compares the answer, what comes out, and what is said beside it.
pub fn leaves<R: Threads + Sync>(
    rt: &R,
    alloc: Global,
    words: &Words,
    bytes: &[u8],
    answer: Ended,
    out: &[u8],
    side: &[u8],
) -> Result<(), Fail> {
    for most in [1, 7, 4096] {
        let left = tried(rt, alloc, words, bytes, &pieces(most))?;
        compared(&left, most, answer, out, side)?;
    }
    Ok(())
}

/// The same of a command line, where nothing is said beside what comes out.
pub fn writes<R: Threads + Sync>(
    rt: &R,
    alloc: Global,
    words: &[&str],
    bytes: &[u8],
    answer: Ended,
    written: &[u8],
) -> Result<(), Fail> {
    let words = words_of(alloc, words)?;
    leaves(rt, alloc, &words, bytes, answer, written, &[])
}

/// Decodes bytes in pieces by both commands, and compares the answer, what comes out, and what is said beside it.
pub fn shows<R: Threads + Sync>(
    rt: &R,
    alloc: Global,
    bytes: &[u8],
    answer: Ended,
    raw: &[u8],
    line: &str,
) -> Result<(), Fail> {
    for (most, command) in [
        (1, DECODE.as_slice()),
        (7, DECODE.as_slice()),
        (4096, DECODE.as_slice()),
        (7, PARDECODE.as_slice()),
    ] {
        let left = decoded(rt, alloc, command, bytes, &pieces(most))?;
        compared(&left, most, answer, raw, line.as_bytes())?;
    }
    Ok(())
}
