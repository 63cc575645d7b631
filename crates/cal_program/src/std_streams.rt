//! Standard input and standard output as a source and a sink. They tell the bytes that their reader and writer tell;
//! those of the process tell none.

ghost use Rattle.std.specs.Prelude.{◌≡◌, OnOk, OnErr};
ghost use Rattle.std.specs.Io.KnownBytes.{Appends};
ghost use Rattle.cal_program.specs.Streams.{AppendsFront};

use crate::sink::Sink;
use crate::source::{Failed, Source};
use std::io::{Read, Write};
use std::marker::Model;

/// A reader as a source, for standard input. Each error of the reader is a fault.
#[derive(Drop)]
pub struct StdSource<R: Read> {
    /// What is read from.
    reader: R,
    /// How many bytes it gave so far.
    given: u64,
    /// How many calls failed. It stands still at its type's end.
    faults: u64,
}

impl<R: Read> Model for StdSource<R> {
    ghost use Rattle.cal_program.specs.Streams.{ReaderState};

    ghost Value = { ReaderState R };

    ghost view = { λ s. record { reader = s.reader; given = s.given; faults = s.faults } };
}

impl<R: Read> StdSource<R> {
    /// A source that gives what the reader gives from here on.
    pub fn new(reader: R) -> StdSource<R>
        ensures fresh { result ≡ record { reader = reader; given = 0; faults = 0 } }
    {
        StdSource {
            reader,
            given: 0,
            faults: 0,
        }
    }
}

impl<R: Read> Source for StdSource<R> {
    ghost state = { λ s. record { left = R.remaining s.reader; given = s.given; faults = s.faults } };

    fn take(&mut self, into: &mut [u8]) -> Result<usize, Failed> {
        // Past the last byte that can be counted nothing is read.
        if self.given.checked_add(into.len() as u64).is_none() {
            self.faults = self.faults.saturating_add(1);
            return Err(Failed);
        }
        let Ok(count) = self.reader.read(into) else {
            self.faults = self.faults.saturating_add(1);
            return Err(Failed);
        };
        self.given += count as u64;
        Ok(count)
    }
}

/// A writer as a sink, for standard output. Each error of the writer is a fault, and so is a write that takes nothing.
#[derive(Drop)]
pub struct StdSink<W: Write> {
    /// What is written to.
    writer: W,
    /// How many calls failed. It stands still at its type's end.
    faults: u64,
}

impl<W: Write> Model for StdSink<W> {
    ghost use Rattle.cal_program.specs.Streams.{WriterState};

    ghost Value = { WriterState W };

    ghost view = { λ s. record { writer = s.writer; faults = s.faults } };
}

impl<W: Write> StdSink<W> {
    /// A sink that puts its bytes into the writer.
    pub fn new(writer: W) -> StdSink<W>
        ensures fresh { result ≡ record { writer = writer; faults = 0 } }
    {
        StdSink { writer, faults: 0 }
    }
}

impl<W: Write> Sink for StdSink<W> {
    ghost state = { λ s. record { written = W.contents s.writer; faults = s.faults } };

    fn put(&mut self, bytes: &[u8]) -> Result<(), Failed> {
        let Ok(()) = write_all(&mut self.writer, bytes) else {
            self.faults = self.faults.saturating_add(1);
            return Err(Failed);
        };
        Ok(())
    }
}

/// Writes all bytes, or a front of them where it fails.
fn write_all<W: Write>(writer: &mut W, bytes: &[u8]) -> Result<(), Failed>
    ensures all { OnOk result (Appends (W.contents writer.old) (W.contents writer.new) bytes.now) }
    ensures front { OnErr result (AppendsFront (W.contents writer.old) (W.contents writer.new) bytes.now) }
{
    let mut rest = bytes;
    while !rest.is_empty() {
        let Ok(count) = writer.write(rest) else {
            return Err(Failed);
        };
        if count == 0 {
            return Err(Failed);
        }
        rest = &rest[count..];
    }
    Ok(())
}
