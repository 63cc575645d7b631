//! Streams that fail in the middle, and outputs of several pages.

use crate::run_program::run_program;
use crate::sink::Sink;
use crate::source::{Failed, Source};
use crate::status::Status;
use crate::std_streams::{StdSink, StdSource};
use crate::tests::clean::{CleanSink, CleanSource};
use crate::tests::memory::{MemorySink, MemorySource};
use crate::tests::{ONE_CHUNK, ONE_CHUNK_LINES, words_of};
use std::alloc::{AllocError, AllocGlobal, Global};
use std::io;
use std::test::Fail;

/// The bytes that a page of output holds.
const PAGE: usize = 4096;

/// A script of more than one block, whose replies take more than two pages: a discard of a chunk that isn't there,
/// 1,000 times.
fn long_script(alloc: Global) -> Result<Vec<u8>, AllocError> {
    let mut script = Vec::from_slice(alloc, b"transport 8 8 1 static 1 1 off 1 1 1")?;
    for _ in 0..1000 {
        script.extend_from_slice(b"\ndiscard 1")?;
    }
    Ok(script)
}

/// The replies to it.
fn long_text(alloc: Global) -> Result<Vec<u8>, AllocError> {
    let mut text = Vec::new(alloc);
    for _ in 0..1000 {
        text.extend_from_slice(b"refused NotLoaned\n")?;
    }
    Ok(text)
}

#[test]
fn a_source_that_fails_later(rt: HostRuntime) -> Result<(), Fail> {
    let words = words_of(rt.alloc(), "run")?;
    let script = long_script(rt.alloc())?;
    let mut source = MemorySource::new(script.as_slice(), &[1]);
    let mut sink = MemorySink::new(rt.alloc(), &[]);
    let outcome = run_program(rt.alloc(), words.as_slice(), &mut source, &mut sink);
    assert_eq!(rt; outcome.status, Status::ReadFault);
    assert_eq!(rt; sink.as_slice(), b"".as_slice());
    Ok(())
}

#[test]
fn a_sink_that_fails_later(rt: HostRuntime) -> Result<(), Fail> {
    let words = words_of(rt.alloc(), "run")?;
    let script = long_script(rt.alloc())?;
    let text = long_text(rt.alloc())?;
    for (failing, pages) in [(1, 1), (2, 2)] {
        let mut source = MemorySource::new(script.as_slice(), &[]);
        let calls = [failing];
        let mut sink = MemorySink::new(rt.alloc(), &calls);
        let outcome = run_program(rt.alloc(), words.as_slice(), &mut source, &mut sink);
        assert_eq!(rt; outcome.status, Status::WriteFault);
        assert_eq!(rt; outcome.replies.len(), 1000);
        let front = text.get(..pages * PAGE).ok_or("the text has more pages")?;
        assert_eq!(rt; sink.as_slice(), front);
    }
    Ok(())
}

/// A reader and a writer that fail.
#[derive(Drop)]
struct Broken;

impl io::Read for Broken {
    fn read(&mut self, _buf: &mut [u8]) -> io::Result<usize> {
        Err(io::Error::from(io::ErrorKind::Other))
    }
}

impl io::Write for Broken {
    fn write(&mut self, _buf: &[u8]) -> io::Result<usize> {
        Ok(0)
    }

    fn flush(&mut self) -> io::Result<()> {
        Ok(())
    }
}

/// A reader that gives one byte, and fails then.
#[derive(Drop)]
struct OneByteThenAnError {
    given: bool,
}

impl io::Read for OneByteThenAnError {
    fn read(&mut self, buf: &mut [u8]) -> io::Result<usize> {
        if self.given || buf.is_empty() {
            return Err(io::Error::from(io::ErrorKind::Other));
        }
        self.given = true;
        buf[0] = b't';
        Ok(1)
    }
}

/// A writer that takes at most 1,000 bytes a call.
#[derive(Drop)]
struct InPieces(Vec<u8>);

impl io::Write for InPieces {
    fn write(&mut self, buf: &[u8]) -> io::Result<usize> {
        let count = buf.len().min(1000);
        self.0.extend_from_slice(&buf[..count])?;
        Ok(count)
    }

    fn flush(&mut self) -> io::Result<()> {
        Ok(())
    }
}

#[test]
fn standard_streams(rt: HostRuntime) -> Result<(), Fail> {
    let mut block = [0; 4];
    let mut source = StdSource::new(b"abc".as_slice());
    assert_eq!(rt; source.take(&mut block), Ok(3));
    assert_eq!(rt; block.as_slice(), b"abc\0".as_slice());
    assert_eq!(rt; source.take(&mut block), Ok(0));
    assert_eq!(rt; StdSource::new(Broken).take(&mut block), Err(Failed));

    let mut bytes = Vec::new(rt.alloc());
    assert_eq!(rt; StdSink::new(&mut bytes).put(b"abc"), Ok(()));
    assert_eq!(rt; bytes.as_slice(), b"abc".as_slice());
    assert_eq!(rt; StdSink::new(Broken).put(b"abc"), Err(Failed));
    Ok(())
}

#[test]
fn standard_streams_over_several_pages(rt: HostRuntime) -> Result<(), Fail> {
    let words = words_of(rt.alloc(), "run")?;
    let script = long_script(rt.alloc())?;
    let mut writer = InPieces(Vec::new(rt.alloc()));
    let mut source = StdSource::new(script.as_slice());
    let mut sink = StdSink::new(&mut writer);
    let outcome = run_program(rt.alloc(), words.as_slice(), &mut source, &mut sink);
    assert_eq!(rt; outcome.status, Status::Done);
    assert_eq!(rt; writer.0, long_text(rt.alloc())?);
    Ok(())
}

#[test]
fn a_reader_with_a_late_error(rt: HostRuntime) -> Result<(), Fail> {
    let words = words_of(rt.alloc(), "run")?;
    let mut source = StdSource::new(OneByteThenAnError { given: false });
    let mut sink = MemorySink::new(rt.alloc(), &[]);
    let outcome = run_program(rt.alloc(), words.as_slice(), &mut source, &mut sink);
    assert_eq!(rt; outcome.status, Status::ReadFault);
    assert_eq!(rt; sink.as_slice(), b"".as_slice());
    Ok(())
}

#[test]
fn streams_that_never_fail(rt: HostRuntime) -> Result<(), Fail> {
    let words = words_of(rt.alloc(), "run")?;
    let mut sink = MemorySink::new(rt.alloc(), &[]);
    let mut source = CleanSource::new(ONE_CHUNK);
    let outcome = run_program(rt.alloc(), words.as_slice(), &mut source, &mut sink);
    assert_eq!(rt; outcome.status, Status::Done);
    assert_eq!(rt; sink.as_slice(), ONE_CHUNK_LINES);
    let mut source = CleanSource::new(ONE_CHUNK);
    let outcome = run_program(rt.alloc(), words.as_slice(), &mut source, &mut CleanSink);
    assert_eq!(rt; outcome.status, Status::Done);
    assert_eq!(rt; outcome.replies.len(), 6);
    Ok(())
}
