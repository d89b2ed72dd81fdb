use dirac_commands::{Ended, Words, run};
use dirac_common::OpenGate;
use dirac_io::{MemSink, MemSource};
use std::alloc::Global;
use std::test::Fail;
use std::thread::Threads;

/// How many bytes a read gives at most, and a write takes, to `out` and beside it, at least one; and which of the calls
/// fail.
#[derive(Clone, Copy)]
pub struct Outside<'a> {
    pub read: usize,
    pub write: usize,
    pub side: usize,
    pub reads: &'a [u64],
    pub writes: &'a [u64],
    pub sides: &'a [u64],
}

/// Pieces of that many bytes, and no call fails.
pub fn pieces(most: usize) -> Outside<'static> {
    Outside {
        read: most,
        write: most,
        side: most,
        reads: &[],
        writes: &[],
        sides: &[],
    }
}

/// What a run left.
#[derive(Drop)]
pub struct Left {
    pub ended: Ended,
    pub source: MemSource,
    pub out: MemSink,
    pub side: MemSink,
}

/// The words of a command line.
pub fn words_of(alloc: Global, list: &[&str]) -> Result<Words, Fail> {
    let mut words = Words::new(alloc);
    for word in list {
        words.push(word)?;
    }
    Ok(words)
}

/// Runs words over bytes.
pub fn tried<R: Threads + Sync>(
    rt: &R,
    alloc: Global,
    words: &Words,
    bytes: &[u8],
    outside: &Outside<'_>,
) -> Result<Left, Fail> {
    let bytes = Vec::from_slice(alloc, bytes)?;
    let mut source = MemSource::new(
        bytes,
        outside.read.max(1),
        Vec::from_slice(alloc, outside.reads)?,
    );
    let mut out = MemSink::new(
        alloc,
        outside.write.max(1),
        Vec::from_slice(alloc, outside.writes)?,
    );
    let mut side = MemSink::new(
        alloc,
        outside.side.max(1),
        Vec::from_slice(alloc, outside.sides)?,
    );
    let ended = run(
        rt,
        alloc,
        words,
        &mut source,
        &mut out,
        &mut side,
        &OpenGate,
    );
    Ok(Left {
        ended,
        source,
        out,
        side,
    })
}

/// Each fault of the outside was counted once, and nothing else was.
pub fn counts_its_fault(left: &Left) -> bool {
    left.source.count() == u64::from(left.ended == Ended::ReadFault)
        && left.out.count() == u64::from(left.ended == Ended::WriteFault)
        && left.side.count() == u64::from(left.ended == Ended::SideFault)
}
