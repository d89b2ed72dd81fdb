ghost use Rattle.std.specs.Prelude.{◌≡◌, ◌+◌, ◌-◌, ◌<◌, ◌≤◌, ◌^◌, false, length, true};
ghost use Rattle.std.specs.Io.KnownBytes.{Keeps};
ghost use Rattle.dirac_io.specs.Faults.{Rose, held_count, clipped_fits, one_more};
ghost use Rattle.dirac_io.specs.Reading.{GivesFront, IfBytes, MeetsEnd};
ghost use Rattle.dirac_io.specs.Writing.{IfTaken, TakesFront};
ghost use Rattle.dirac_io.specs.Adapters.{left_after, left_after_fits};

use crate::{Got, Sink, Source, Took};
use std::io::{Read, Write};
use std::marker::Model;

// The most bytes that a reader may give.
const MOST: u64 = (1 << 63) - 1;

/// A source over a reader of the standard library. An error of the reader is counted and not tried
/// again; a read of no byte is the end. After 2^63 - 1 bytes each read fails.
#[derive(Drop)]
pub struct ReaderSource<R> {
    reader: R,
    given: u64,
    faults: u64,
}

impl<R> Model for ReaderSource<R> {
    ghost use Rattle.std.specs.Prelude.{◌≤◌, ◌-◌, ◌^◌};
    ghost use Rattle.dirac_io.specs.Adapters.{Reads};

    ghost Value = { Reads R };

    ghost view = { λ s. record { reader = s.reader; given = s.given; faults = s.faults } };

    ghost invariant = { λ s. s.given ≤ 2 ^ 63 - 1 };
}

impl<R> ReaderSource<R> {
    pub fn new(reader: R) -> ReaderSource<R>
        ensures { result ≡ record { reader = reader; given = 0; faults = 0 } }
    {
        ReaderSource {
            reader,
            given: 0,
            faults: 0,
        }
    }
}

impl<R: Read> Source for ReaderSource<R> {
    ghost held = { λ s. R.remaining s.reader };

    ghost faults = { λ s. held_count s.faults };

    ghost left = { λ s. left_after s.given };

    ghost left_fits = { λ s. left_after_fits s.given };

    ghost faults_fit = { λ s. clipped_fits s.faults };

    fn read(&mut self, buf: &mut [u8]) -> Got
        requires { 0 < length buf.old }
        ensures bytes { IfBytes result (λ n. GivesFront n buf.new (R.remaining self.old.reader)
            (R.remaining self.new.reader) (left_after self.old.given) (left_after self.new.given)) }
        ensures end { result ≡ Got.End → MeetsEnd (R.remaining self.old.reader) (R.remaining self.new.reader)
            (held_count self.old.faults) (held_count self.new.faults) (left_after self.old.given)
            (left_after self.new.given) }
        ensures failed { result ≡ Got.Failed → Rose (held_count self.old.faults) (held_count self.new.faults) }
        ensures kept { result ≡ Got.Failed → Keeps (R.remaining self.old.reader) (R.remaining self.new.reader) }
        ensures count { held_count self.old.faults ≤ held_count self.new.faults }
        ensures left { left_after self.new.given ≤ left_after self.old.given }
        ensures uncounted { IfBytes result (λ _. self.new.faults ≡ self.old.faults) }
        ensures counted { result ≡ Got.Failed → self.new.faults ≡ one_more self.old.faults }
        // Behind 2^63 - 1 bytes each read fails.
        ensures given { IfBytes result (λ n. self.new.given ≡ self.old.given + n) }
        ensures spent { self.old.given ≡ 2 ^ 63 - 1 → result ≡ Got.Failed }
    {
        if self.given >= MOST {
            self.faults = self.faults.saturating_add(1);
            return Got::Failed;
        }
        let room = buf.len().min((MOST - self.given) as usize);
        match self.reader.read(&mut buf[..room]) {
            Ok(0) => Got::End,
            Ok(n) => {
                self.given += n as u64;
                Got::Bytes(n)
            }
            Err(_) => {
                self.faults = self.faults.saturating_add(1);
                Got::Failed
            }
        }
    }
}

/// A sink over a writer of the standard library. An error of the writer is counted and not tried
/// again; so is a write of no byte.
#[derive(Drop)]
pub struct WriterSink<W> {
    writer: W,
    faults: u64,
}

impl<W> Model for WriterSink<W> {
    ghost use Rattle.dirac_io.specs.Adapters.{Writes};

    ghost Value = { Writes W };

    ghost view = { λ s. record { writer = s.writer; faults = s.faults } };
}

impl<W> WriterSink<W> {
    pub fn new(writer: W) -> WriterSink<W>
        ensures { result ≡ record { writer = writer; faults = 0 } }
    {
        WriterSink { writer, faults: 0 }
    }

    /// How often a write or a flush of the writer has failed.
    pub fn fault_count(&self) -> u64
        ensures { result ≡ self.now.faults }
    {
        self.faults
    }
}

impl<W: Write> WriterSink<W> {
    /// Flushes the writer. False where that fails, which is counted.
    pub fn flush(&mut self) -> bool
        ensures failed { result ≡ false → Rose (held_count self.old.faults) (held_count self.new.faults) }
        ensures kept { Keeps (W.contents self.old.writer) (W.contents self.new.writer) }
        ensures count { self.old.faults ≤ self.new.faults }
        ensures uncounted { result ≡ true → self.new.faults ≡ self.old.faults }
        ensures counted { result ≡ false → self.new.faults ≡ one_more self.old.faults }
    {
        match self.writer.flush() {
            Ok(()) => true,
            Err(_) => {
                self.faults = self.faults.saturating_add(1);
                false
            }
        }
    }
}

impl<W: Write> Sink for WriterSink<W> {
    ghost taken = { λ s. W.contents s.writer };

    ghost faults = { λ s. held_count s.faults };

    ghost faults_fit = { λ s. clipped_fits s.faults };

    fn write(&mut self, piece: &[u8]) -> Took
        requires { 0 < length piece.now }
        ensures bytes { IfTaken result (λ n. TakesFront n piece.now (W.contents self.old.writer)
            (W.contents self.new.writer)) }
        ensures failed { result ≡ Took.Failed → Rose (held_count self.old.faults) (held_count self.new.faults) }
        ensures kept { result ≡ Took.Failed → Keeps (W.contents self.old.writer) (W.contents self.new.writer) }
        ensures memory { result ≡ Took.NoMemory → ⊥ }
        ensures count { held_count self.old.faults ≤ held_count self.new.faults }
        ensures uncounted { IfTaken result (λ _. self.new.faults ≡ self.old.faults) }
        ensures counted { result ≡ Took.Failed → self.new.faults ≡ one_more self.old.faults }
    {
        match self.writer.write(piece) {
            Ok(0) | Err(_) => {
                self.faults = self.faults.saturating_add(1);
                Took::Failed
            }
            Ok(n) => Took::Bytes(n),
        }
    }
}
