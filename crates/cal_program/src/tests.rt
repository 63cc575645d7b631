//! Runs of the program over streams in memory, and the text that it writes.

ghost use Rattle.std.specs.Prelude.{◌≡◌, ◌<◌, ◌≤◌, length, take, IfOk, OnErr};
ghost use Rattle.std.specs.Io.KnownBytes.{IsAtEnd};
ghost use Rattle.cal_program.specs.Streams.{Takes, TakesNothing};

mod clean;
mod made;
mod many;
mod memory;
mod relays;
mod scripts;
mod streams;
mod worked_examples;
mod worked_growth;

use crate::read::SCRIPT_LIMIT;
use crate::run_program::run_program;
use crate::source::{Failed, Source};
use crate::status::Status;
use crate::tests::memory::{MemorySink, MemorySource};
use cal_transport::CreateCause;
use std::alloc::{AllocError, Global};
use std::process::Abort;
use std::test::Fail;

/// One chunk, from its loan to its bytes on the other side.
const ONE_CHUNK: &[u8] =
    b"transport 8 8 1 static 1 1 off 1 1 1\nloan 8 8\nwrite 1 0 7b00\nsend 0 1\nreceive 0\nread 0 1 0 2";

/// The replies to it.
const ONE_CHUNK_LINES: &[u8] =
    b"loaned 1 0:0\nwritten\nsent\nreceived 1 0:0\nbytes 7b00\ntransit 0 1 0:0\n";

/// Each command that is served, in a script whose chunk comes back.
const EACH_COMMAND: &[u8] =
    b"transport 8 8 1 static 1 1 off 1 1 1\nloan 8 8\nwrite 1 0 7b00\nsend 0 1\nreceive 0\nread 0 1 0 2\n\
      release 0 1\nreclaim 0\ndiscard 1\n";

/// The replies to it, if it is whole.
const EACH_REPLY: &[u8] =
    b"loaned 1 0:0\nwritten\nsent\nreceived 1 0:0\nbytes 7b00\nreleased\nreclaimed 1 0:0\ndiscarded\n";

/// The line that follows them while the chunk is in transit.
const IN_TRANSIT: &[u8] = b"transit 0 1 0:0\n";

/// The cuts that leave whole lines: how many bytes of the script are left, and how many of the replies are due. A line
/// is whole with and without its line feed, and half of the bytes to write are as good.
const WHOLE: [(usize, usize); 19] = [
    (36, 0),
    (37, 0),
    (45, 13),
    (46, 13),
    (58, 21),
    (60, 21),
    (61, 21),
    (69, 26),
    (70, 26),
    (79, 41),
    (80, 41),
    (92, 52),
    (93, 52),
    (104, 61),
    (105, 61),
    (114, 77),
    (115, 77),
    (124, 87),
    (125, 87),
];

/// A source that gives one byte a call.
#[derive(Drop)]
struct OneByOne<'a>(MemorySource<'a>);

impl<'a> Source for OneByOne<'a> {
    ghost state = { λ s. s.0.state };

    fn take(&mut self, into: &mut [u8]) -> Result<usize, Failed> {
        self.0.take(&mut into[..1])
    }
}

/// The words of a command line, which are one space apart.
fn words_of(alloc: Global, line: &str) -> Result<Vec<String>, AllocError> {
    let mut words = Vec::new(alloc);
    for word in line.split(' ') {
        words.push(String::from_str(alloc, word)?)?;
    }
    Ok(words)
}

/// Runs a script, and asserts with which status it ends and what is written.
fn assert_run(
    rt: &(impl Abort + AllocGlobal),
    script: &[u8],
    status: Status,
    text: &[u8],
) -> Result<(), AllocError> {
    let words = words_of(rt.alloc(), "run")?;
    let mut source = MemorySource::new(script, &[]);
    let mut sink = MemorySink::new(rt.alloc(), &[]);
    let outcome = run_program(rt.alloc(), words.as_slice(), &mut source, &mut sink);
    assert_eq!(rt; outcome.status, status);
    assert_eq!(rt; sink.as_slice(), text);
    Ok(())
}

#[test]
fn one_chunk(rt: HostRuntime) -> Result<(), Fail> {
    assert_run(&rt, ONE_CHUNK, Status::Done, ONE_CHUNK_LINES)?;
    assert_run(&rt, &ONE_CHUNK[..36], Status::Done, b"")?;
    Ok(())
}

#[test]
fn bad_lines(rt: HostRuntime) -> Result<(), Fail> {
    let third = b"transport 8 8 1 static 1 1 off 1 1 1\ncount\nbogus";
    assert_run(&rt, third, Status::BadScript { line: 3 }, b"line 3\n")?;
    assert_run(&rt, b"", Status::BadScript { line: 1 }, b"line 1\n")?;
    Ok(())
}

/// Asserts that a script that is cut there, in this line of it, has its due outcome.
fn assert_cut(rt: &(impl Abort + AllocGlobal), cut: usize, line: usize) -> Result<(), Fail> {
    let script = EACH_COMMAND.get(..cut).ok_or("a cut is within the script")?;
    for (bytes, replies) in WHOLE {
        if bytes == cut {
            let due = EACH_REPLY
                .get(..replies)
                .ok_or("a cut's replies are within them")?;
            let mut text = Vec::from_slice(rt.alloc(), due)?;
            if (26..=61).contains(&replies) {
                text.extend_from_slice(IN_TRANSIT)?;
            }
            return Ok(assert_run(rt, script, Status::Done, text.as_slice())?);
        }
    }
    let text = format!(in rt.alloc(); "line {line}\n")?;
    Ok(assert_run(rt, script, Status::BadScript { line }, text.as_bytes())?)
}

#[test]
fn scripts_that_are_cut(rt: HostRuntime) -> Result<(), Fail> {
    let mut line = 1;
    for (cut, byte) in EACH_COMMAND.iter().enumerate() {
        assert_cut(&rt, cut, line)?;
        if *byte == b'\n' {
            line = line.saturating_add(1);
        }
    }
    assert_cut(&rt, EACH_COMMAND.len(), line)?;
    Ok(())
}

#[test]
fn settings_that_cannot_be(rt: HostRuntime) -> Result<(), Fail> {
    let layout = b"transport 8 3 1 static 1 1 off 1 1 1";
    let bad_layout = Status::NotCreated {
        cause: CreateCause::BadLayout,
    };
    assert_run(&rt, layout, bad_layout, b"create BadLayout\n")?;
    let none = b"transport 0 8 1 static 1 1 off 1 1 1";
    let size_is_zero = Status::NotCreated {
        cause: CreateCause::SizeIsZero,
    };
    assert_run(&rt, none, size_is_zero, b"create SizeIsZero\n")?;
    let alignment = b"transport 8 8192 1 static 1 1 off 1 1 1";
    let internal = Status::NotCreated {
        cause: CreateCause::InternalError,
    };
    assert_run(&rt, alignment, internal, b"create InternalError\n")?;
    let out_of_range = Status::NotCreated {
        cause: CreateCause::SizeOutOfRange,
    };
    let count = b"transport 8 8 4294967296 static 1 1 off 1 1 1";
    assert_run(&rt, count, out_of_range, b"create SizeOutOfRange\n")?;
    let buffer = b"transport 8 8 1 static 9223372036854775807 1 off 1 1 1";
    assert_run(&rt, buffer, out_of_range, b"create SizeOutOfRange\n")?;
    Ok(())
}

#[test]
fn a_last_line_without_its_end(rt: HostRuntime) -> Result<(), Fail> {
    let counting = b"transport 8 8 1 static 1 1 off 1 1 1\ncount";
    assert_run(&rt, counting, Status::Done, b"counted 1 0 0 8 1\n")?;
    Ok(())
}

#[test]
fn other_words(rt: HostRuntime) -> Result<(), Fail> {
    let words = words_of(rt.alloc(), "run now")?;
    let mut source = MemorySource::new(ONE_CHUNK, &[]);
    let mut sink = MemorySink::new(rt.alloc(), &[]);
    let outcome = run_program(rt.alloc(), words.as_slice(), &mut source, &mut sink);
    assert_eq!(rt; outcome.status, Status::Usage);
    assert_eq!(rt;
        sink.as_slice(),
        b"usage: run, make NUMBER ROUNDS, relay BUFFER COUNT\n".as_slice()
    );
    Ok(())
}

#[test]
fn faults(rt: HostRuntime) -> Result<(), Fail> {
    let words = words_of(rt.alloc(), "run")?;
    let mut source = MemorySource::new(ONE_CHUNK, &[0]);
    let mut sink = MemorySink::new(rt.alloc(), &[]);
    let outcome = run_program(rt.alloc(), words.as_slice(), &mut source, &mut sink);
    assert_eq!(rt; outcome.status, Status::ReadFault);
    assert!(rt; outcome.end.is_none());
    assert_eq!(rt; sink.as_slice(), b"".as_slice());

    let mut source = MemorySource::new(ONE_CHUNK, &[]);
    let mut sink = MemorySink::new(rt.alloc(), &[0]);
    let outcome = run_program(rt.alloc(), words.as_slice(), &mut source, &mut sink);
    assert_eq!(rt; outcome.status, Status::WriteFault);
    assert_eq!(rt; outcome.replies.len(), 6);
    let transport = outcome.end.ok_or("the run leaves its transport")?;
    assert_eq!(rt; transport.in_transit(), 1);
    assert_eq!(rt; sink.as_slice(), b"".as_slice());
    Ok(())
}

#[test]
fn any_pieces(rt: HostRuntime) -> Result<(), Fail> {
    let words = words_of(rt.alloc(), "run")?;
    let mut source = OneByOne(MemorySource::new(ONE_CHUNK, &[]));
    let mut sink = MemorySink::new(rt.alloc(), &[]);
    let outcome = run_program(rt.alloc(), words.as_slice(), &mut source, &mut sink);
    assert_eq!(rt; outcome.status, Status::Done);
    assert_eq!(rt; sink.as_slice(), ONE_CHUNK_LINES);
    Ok(())
}

#[test]
fn long_scripts(rt: HostRuntime) -> Result<(), Fail> {
    let bytes = vec![in rt.alloc(); b'\n'; SCRIPT_LIMIT + 1]?;
    assert_run(&rt, bytes.as_slice(), Status::TooLong, b"too long\n")?;
    let bytes = vec![in rt.alloc(); b'\n'; SCRIPT_LIMIT]?;
    assert_run(
        &rt,
        bytes.as_slice(),
        Status::BadScript { line: 1 },
        b"line 1\n",
    )?;
    Ok(())
}
