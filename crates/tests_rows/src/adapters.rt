use dirac_io::{Got, Put, ReaderSource, Sink, Source, Took, WriterSink, put_all};
use std::io::{Error, Read, Result, Write};

// A reader that gives five bytes, then fails once, and then is at its end.
#[derive(Drop)]
struct Faltering {
    calls: u8,
}

impl Read for Faltering {
    fn read(&mut self, buf: &mut [u8]) -> Result<usize> {
        let call = self.calls;
        self.calls = call.saturating_add(1);
        match call {
            0 if 5 <= buf.len() => {
                buf[..5].copy_from_slice(&[1, 2, 3, 4, 5]);
                Ok(5)
            }
            1 => Err(Error::other("it fails once")),
            _ => Ok(0),
        }
    }
}

#[test]
fn a_reader_that_fails_once(rt: HostRuntime) {
    let mut source = ReaderSource::new(Faltering { calls: 0 });
    let mut buf = [0; 8];
    let got = source.read(&mut buf);
    assert!(rt; (got, buf) == (Got::Bytes(5), [1, 2, 3, 4, 5, 0, 0, 0]));
    let first = source.read(&mut buf);
    let second = source.read(&mut buf);
    let third = source.read(&mut buf);
    assert!(rt; (first, second, third) == (Got::Failed, Got::End, Got::End));
}

// A writer that takes nothing of its first piece, three bytes of the second one, fails once, and then takes all; its
// first flush fails.
#[derive(Drop)]
struct Choosy {
    taken: Vec<u8>,
    writes: u8,
    flushes: u8,
}

impl Write for Choosy {
    fn write(&mut self, piece: &[u8]) -> Result<usize> {
        let call = self.writes;
        self.writes = call.saturating_add(1);
        let most = match call {
            0 => 0,
            1 => 3,
            2 => return Err(Error::other("it fails once")),
            _ => piece.len(),
        };
        let taken = &piece[..most.min(piece.len())];
        match self.taken.extend_from_slice(taken) {
            Ok(()) => Ok(taken.len()),
            Err(_) => Err(Error::other("no memory")),
        }
    }

    fn flush(&mut self) -> Result<()> {
        let call = self.flushes;
        self.flushes = call.saturating_add(1);
        if call == 0 {
            return Err(Error::other("it fails once"));
        }
        Ok(())
    }
}

#[test]
fn a_writer_that_takes_nothing_or_fails_once(rt: HostRuntime) {
    let mut writer = Choosy {
        taken: Vec::new(rt.alloc()),
        writes: 0,
        flushes: 0,
    };
    let mut sink = WriterSink::new(&mut writer);
    let first = sink.write(b"abcde");
    // three bytes, and then the call that fails, which isn't made again
    let second = put_all(&mut sink, b"fghij");
    let third = sink.write(b"kl");
    assert!(rt; (first, second, third) == (Took::Failed, Put::Failed, Took::Bytes(2)));
    let flushed = (sink.flush(), sink.flush());
    assert_eq!(rt; (flushed, sink.fault_count()), ((false, true), 3));
    assert_eq!(rt;
        (writer.taken.as_slice(), writer.flushes),
        (b"fghkl".as_slice(), 2)
    );
}
