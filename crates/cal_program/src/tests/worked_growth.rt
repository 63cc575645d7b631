//! Worked examples: whole scripts of memory that grows, of overflow, of several channels and of counting.

use crate::run_program::run_program;
use crate::status::Status;
use crate::tests::memory::{MemorySink, MemorySource};
use crate::tests::scripts::assert_lines;
use crate::tests::words_of;
use std::alloc::{AllocError, Global};
use std::test::Fail;

#[test]
fn a_loan_from_a_second_segment(rt: HostRuntime) -> Result<(), Fail> {
    assert_lines(
        &rt,
        "transport 4 4 128 power 4 4 off 128 1 1;loan 2 2;write 1 0 7b00;loan 8 8;discard 3;count;send 0 1;receive 0;\
         read 0 1 0 2",
        "loaned 1 0:*;written;loaned 3 1:*;discarded;counted 2 0 1 8 128;sent;received 1 0:*;bytes 7b00",
        &[(0, 1)],
    )
}

#[test]
fn growth_by_the_best_fit(rt: HostRuntime) -> Result<(), Fail> {
    assert_lines(
        &rt,
        "transport 1024 8 4 best 1 1 off 1 1 1;loan 1024 8;loan 1024 8;loan 1024 8;loan 1024 8;loan 1500 16;count",
        "loaned 1 0:*;loaned 2 0:*;loaned 3 0:*;loaned 4 0:*;loaned 5 1:*;counted 2 0 1 1504 5",
        &[],
    )
}

#[test]
fn growth_by_powers_of_two(rt: HostRuntime) -> Result<(), Fail> {
    assert_lines(
        &rt,
        "transport 1024 8 4 power 1 1 off 1 1 1;loan 1024 8;loan 1024 8;loan 1024 8;loan 1024 8;loan 1500 16;count",
        "loaned 1 0:*;loaned 2 0:*;loaned 3 0:*;loaned 4 0:*;loaned 5 1:*;counted 2 0 1 2048 8",
        &[],
    )
}

/// Appends a text in which `;` stands for a line's end, and one after it.
fn push_line(text: &mut String, line: &str) -> Result<(), AllocError> {
    text.push_str(line)?;
    text.push(';')
}

/// A script that loans 257 chunks, each larger than the ones before, and sends the last two that were served.
fn growing_script(alloc: Global) -> Result<String, Fail> {
    let mut script = String::new(alloc);
    push_line(&mut script, "transport 1 1 2 best 1 1 off 2 255 1")?;
    for size in 1..258 {
        let line = format!(in alloc; "loan {size} 1")?;
        push_line(&mut script, line.as_str())?;
    }
    script.push_str("count;send 0 256;send 0 255")?;
    Ok(script)
}

/// The lines that it owes.
fn growing_lines(alloc: Global) -> Result<String, Fail> {
    let mut due = String::new(alloc);
    for segment in 0..256 {
        let chunk = segment + 1;
        let line = format!(in alloc; "loaned {chunk} {segment}:*")?;
        push_line(&mut due, line.as_str())?;
    }
    due.push_str(
        "refused MaxReallocationsReached;counted 256 0 255 256 2;refused OutsideConnection;sent",
    )?;
    Ok(due)
}

#[test]
fn growth_to_the_last_segment(rt: HostRuntime) -> Result<(), Fail> {
    let script = growing_script(rt.alloc())?;
    let due = growing_lines(rt.alloc())?;
    assert_lines(&rt, script.as_str(), due.as_str(), &[(0, 255)])
}

#[test]
fn overflow_hands_the_oldest_back(rt: HostRuntime) -> Result<(), Fail> {
    assert_lines(
        &rt,
        "transport 8 8 3 static 2 2 on 3 1 1;loan 8 8;loan 8 8;loan 8 8;send 0 1;send 0 2;send 0 3;receive 0;receive 0;\
         receive 0",
        "loaned 1 0:*;loaned 2 0:*;loaned 3 0:*;sent;sent;sent back 1 0:*;received 2 0:*;received 3 0:*;\
         refused ReceiveWouldExceedMaxBorrowValue",
        &[(0, 2), (0, 3)],
    )
}

#[test]
fn a_chunk_on_two_channels(rt: HostRuntime) -> Result<(), Fail> {
    assert_lines(
        &rt,
        "transport 8 8 1 static 1 1 off 1 1 2;loan 8 8;write 1 0 ff;send 0 1;send 1 1;discard 1;receive 0;release 0 1;\
         reclaim 0;loan 8 8;receive 1;read 1 1 0 1;release 1 1;reclaim 1;loan 8 8;send 1 14;receive 1;read 1 14 0 8",
        "loaned 1 0:0;written;sent;sent;discarded;received 1 0:0;released;reclaimed 1 0:0;refused OutOfMemory;\
         received 1 0:0;bytes ff;released;reclaimed 1 0:0;loaned 14 0:0;sent;received 14 0:0;bytes 0000000000000000",
        &[(1, 14)],
    )
}

#[test]
fn segments_that_are_mapped(rt: HostRuntime) -> Result<(), Fail> {
    assert_lines(
        &rt,
        "transport 8 8 1 best 2 2 off 4 4 2;loan 8 8;loan 16 8;loan 24 8;send 1 1;send 0 3;send 0 2;receive 0;\
         receive 1;release 1 1;count",
        "loaned 1 0:0;loaned 2 1:*;loaned 3 2:*;sent;sent;sent;received 3 2:*;received 1 0:0;released;\
         counted 3 2 2 24 2",
        &[(0, 2), (0, 3), (1, 1)],
    )
}

#[test]
fn segments_that_go(rt: HostRuntime) -> Result<(), Fail> {
    assert_lines(
        &rt,
        "transport 8 8 1 best 4 4 off 8 8 1;loan 8 8;loan 16 8;count;discard 1;count;discard 2;loan 32 8;count",
        "loaned 1 0:0;loaned 2 1:*;counted 2 0 1 16 2;discarded;counted 1 0 1 16 2;discarded;loaned 7 2:*;\
         counted 1 0 2 32 2",
        &[],
    )
}

#[test]
fn a_bucket_that_overflowed_is_loaned_again(rt: HostRuntime) -> Result<(), Fail> {
    assert_lines(
        &rt,
        "transport 8 8 2 static 1 1 on 2 1 1;loan 8 8;loan 8 8;send 0 1;discard 1;send 0 2;loan 8 8",
        "loaned 1 0:0;loaned 2 0:8;sent;discarded;sent back 1 0:0;loaned 6 0:0",
        &[(0, 2)],
    )
}

#[test]
fn growth_that_is_refused(rt: HostRuntime) -> Result<(), Fail> {
    assert_lines(
        &rt,
        "transport 8 8 1 best 1 1 off 1 1 1;loan 8 8192;loan 72057594037927937 1",
        "refused InternalError;refused SizeOutOfRange",
        &[],
    )
}

#[test]
fn padded_buckets_are_counted(rt: HostRuntime) -> Result<(), Fail> {
    assert_lines(
        &rt,
        "transport 24 16 2 static 1 1 off 1 1 1;loan 32 16;write 1 32 -;write 1 32 00;count",
        "loaned 1 0:*;written;refused OutsideChunk;counted 1 0 0 32 2",
        &[],
    )
}

#[test]
fn a_video_frame(rt: HostRuntime) -> Result<(), Fail> {
    assert_lines(
        &rt,
        "transport 3686400 64 4 static 2 2 on 4 1 1;loan 3686400 64;write 1 0 00ff;send 0 1;discard 1;receive 0;\
         read 0 1 0 4;release 0 1;reclaim 0;count",
        "loaned 1 0:*;written;sent;discarded;received 1 0:*;bytes 00ff0000;released;reclaimed 1 0:*;\
         counted 1 1 0 3686400 4",
        &[],
    )
}

/// A chunk is sent, and then one is asked for that is larger than the memory of any machine.
const TOO_LARGE: &[u8] =
    b"transport 8 8 1 best 1 1 off 1 1 1\nloan 8 8\nsend 0 1\nloan 36028797018963968 8\ncount\n";

#[test]
fn growth_that_finds_no_memory(rt: HostRuntime) -> Result<(), Fail> {
    let words = words_of(rt.alloc(), "run")?;
    let mut source = MemorySource::new(TOO_LARGE, &[]);
    let mut sink = MemorySink::new(rt.alloc(), &[]);
    let outcome = run_program(rt.alloc(), words.as_slice(), &mut source, &mut sink);
    assert_eq!(rt; outcome.status, Status::NoMemory);
    assert_eq!(rt; sink.as_slice(), b"".as_slice());
    assert_eq!(rt; outcome.replies.len(), 2);
    let transport = outcome.end.ok_or("the run leaves its transport")?;
    assert_eq!(rt; transport.in_transit(), 1);
    Ok(())
}
