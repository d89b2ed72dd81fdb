use dirac_commands::{Ended, run_beside};
use dirac_io::{ReaderSource, WriterSink};
use std::alloc::Global;
use std::cell::Cell;
use std::io::{Error, Result as Outcome, Write};
use std::process::Abort;
use std::test::Fail;
use std::thread::Threads;
use tests_support::{DECODE, GREY, STREAM, words_of};

// A writer that keeps what it takes, and at which turn of a clock it was flushed last; it may fail to be flushed.
#[derive(Drop)]
struct Clocked<'a> {
    taken: Vec<u8>,
    clock: &'a Cell<u8>,
    flushed: u8,
    fails: bool,
}

impl<'a> Clocked<'a> {
    fn new(alloc: Global, clock: &'a Cell<u8>, fails: bool) -> Clocked<'a> {
        Clocked {
            taken: Vec::new(alloc),
            clock,
            flushed: 0,
            fails,
        }
    }
}

impl Write for Clocked<'_> {
    fn write(&mut self, piece: &[u8]) -> Outcome<usize> {
        match self.taken.extend_from_slice(piece) {
            Ok(()) => Ok(piece.len()),
            Err(_) => Err(Error::other("no memory")),
        }
    }

    fn flush(&mut self) -> Outcome<()> {
        let now = self.clock.get().saturating_add(1);
        self.clock.set(now);
        self.flushed = now;
        if self.fails {
            return Err(Error::other("it isn't flushed"));
        }
        Ok(())
    }
}

// Runs words over a stream of two pictures, with flushes that fail or don't: both writers get all, and are flushed
// once each, what comes out first.
fn flushes<R: Abort + Threads + Sync>(
    rt: &R,
    alloc: Global,
    out_fails: bool,
    side_fails: bool,
    answer: Ended,
) -> Result<(), Fail> {
    let words = words_of(alloc, &DECODE)?;
    let clock = Cell::new(0);
    let mut out = Clocked::new(alloc, &clock, out_fails);
    let mut side = Clocked::new(alloc, &clock, side_fails);
    let ended = run_beside(
        rt,
        alloc,
        &words,
        &mut ReaderSource::new(STREAM.as_slice()),
        &mut WriterSink::new(&mut out),
        &mut WriterSink::new(&mut side),
    );
    assert_eq!(rt;
        ended,
        answer,
        "flushes that fail: {out_fails}, {side_fails}"
    );
    assert_eq!(rt; out.taken.as_slice(), &GREY[..192]);
    assert_eq!(rt;
        side.taken.as_slice(),
        b"pictures=2 references=2\n".as_slice()
    );
    assert_eq!(rt; (out.flushed, side.flushed, clock.get()), (1, 2, 2));
    Ok(())
}

#[test]
fn flushes_what_came_out_first(rt: HostRuntime) -> Result<(), Fail> {
    let alloc = rt.alloc();
    flushes(&rt, alloc, false, false, Ended::Done)?;
    flushes(&rt, alloc, true, false, Ended::WriteFault)?;
    flushes(&rt, alloc, false, true, Ended::SideFault)?;
    flushes(&rt, alloc, true, true, Ended::WriteFault)
}
