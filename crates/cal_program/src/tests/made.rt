//! Made runs: their line, their commands, and words that ask for none.

use crate::made_script::made_script;
use crate::request::{Request, request_of};
use crate::run_program::run_program;
use crate::status::{Outcome, Status};
use crate::tests::memory::{MemorySink, MemorySource};
use crate::tests::words_of;
use cal_transport::{Bytes, Command};
use std::alloc::AllocGlobal;
use std::process::Abort;
use std::test::Fail;

/// Runs the program over a source of which each look fails, and asserts what is written. So whoever reads is told.
fn run_unread(rt: &(impl Abort + AllocGlobal), line: &str, text: &[u8]) -> Result<Outcome, Fail> {
    let words = words_of(rt.alloc(), line)?;
    let mut source = MemorySource::new(b"", &[0]);
    let mut sink = MemorySink::new(rt.alloc(), &[]);
    let outcome = run_program(rt.alloc(), words.as_slice(), &mut source, &mut sink);
    assert_eq!(rt; sink.as_slice(), text);
    Ok(outcome)
}

#[test]
fn one_round(rt: HostRuntime) -> Result<(), Fail> {
    let line = b"replies 8 refused 0 transit 0 sum 223\n";
    let outcome = run_unread(&rt, "make 1 1", line)?;
    assert_eq!(rt; outcome.status, Status::Done);
    assert_eq!(rt; outcome.replies.len(), 8);
    let transport = outcome.end.ok_or("the run leaves its transport")?;
    assert_eq!(rt; transport.in_transit(), 0);
    Ok(())
}

#[test]
fn no_round(rt: HostRuntime) -> Result<(), Fail> {
    let line = b"replies 0 refused 0 transit 0 sum 0\n";
    let outcome = run_unread(&rt, "make 0 0", line)?;
    assert_eq!(rt; outcome.status, Status::Done);
    assert!(rt; outcome.end.is_some());
    Ok(())
}

/// The sum of the bytes of so many rounds, by a product of 128 bits.
fn sum_of_bytes(number: u64, rounds: usize) -> u64 {
    let mut state = number as u128;
    let mut sum: u64 = 0;
    for _ in 0..rounds {
        state = (state % (1 << 64) * 6_364_136_223_846_793_005 + 1_442_695_040_888_963_407)
            % (1 << 64);
        sum = sum.saturating_add(((state >> 39) % 256) as u64);
    }
    sum
}

#[test]
fn the_greatest_number_of_rounds_twice(rt: HostRuntime) -> Result<(), Fail> {
    assert_eq!(rt; sum_of_bytes(1, 1), 223);
    assert_eq!(rt; sum_of_bytes(1, 10_000), 1_273_595);
    let line = b"replies 80000 refused 0 transit 0 sum 1273595\n";
    let first = run_unread(&rt, "make 1 10000", line)?;
    assert_eq!(rt; first.status, Status::Done);
    let second = run_unread(&rt, "make 1 10000", line)?;
    assert_eq!(rt; second.status, Status::Done);
    Ok(())
}

#[test]
fn the_greatest_number(rt: HostRuntime) -> Result<(), Fail> {
    let words = words_of(rt.alloc(), "make 18446744073709551615 10000")?;
    let asked = Request::Make {
        number: 18_446_744_073_709_551_615,
        rounds: 10_000,
    };
    assert_eq!(rt; request_of(words.as_slice()), Some(asked));
    Ok(())
}

#[test]
fn the_commands_of_one_round(rt: HostRuntime) -> Result<(), Fail> {
    let script = made_script(rt.alloc(), 1, 1)?;
    let due = [
        Command::Loan {
            size: 23,
            alignment: 1,
        },
        Command::Write {
            chunk: 1,
            at: 0,
            bytes: Bytes::new(rt.alloc(), &[223])?,
        },
        Command::Send {
            channel: 0,
            chunk: 1,
        },
        Command::Discard { chunk: 1 },
        Command::Receive { channel: 0 },
        Command::Read {
            channel: 0,
            chunk: 1,
            at: 0,
            length: 1,
        },
        Command::Release {
            channel: 0,
            chunk: 1,
        },
        Command::Reclaim { channel: 0 },
    ];
    assert_eq!(rt; script.commands(), due.as_slice());
    Ok(())
}

/// Words that have no form.
const NO_FORM: [&str; 11] = [
    "make",
    "make 1",
    "make 1 10001",
    "make 1 1 1",
    "make 01 1",
    "make -1 1",
    "make 1 +1",
    "make 1 18446744073709551616",
    "Make 1 1",
    "run 1 1",
    "relay 4 1000",
];

#[test]
fn words_without_a_form(rt: HostRuntime) -> Result<(), Fail> {
    let usage = b"usage: run, make NUMBER ROUNDS, relay BUFFER COUNT\n";
    for line in NO_FORM {
        let outcome = run_unread(&rt, line, usage)?;
        assert_eq!(rt; outcome.status, Status::Usage);
        assert!(rt; outcome.end.is_none());
    }
    Ok(())
}

#[test]
fn a_sink_that_fails(rt: HostRuntime) -> Result<(), Fail> {
    let words = words_of(rt.alloc(), "make 1 2")?;
    let mut source = MemorySource::new(b"", &[0]);
    let mut sink = MemorySink::new(rt.alloc(), &[0]);
    let outcome = run_program(rt.alloc(), words.as_slice(), &mut source, &mut sink);
    assert_eq!(rt; outcome.status, Status::WriteFault);
    assert_eq!(rt; outcome.replies.len(), 16);
    assert!(rt; outcome.end.is_some());
    assert_eq!(rt; sink.as_slice(), b"".as_slice());
    Ok(())
}
