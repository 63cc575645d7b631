//! Relays: worked examples, and that both workers are at work at once.
use crate::gate::{Gate, OpenGate, Side};
use crate::relay::{RelayOutcome, run_relay};
use crate::status::Status;
use crate::tests::memory::MemorySink;
use crate::tests::words_of;
use std::alloc::{AllocError, Global};
use std::process::Abort;
use std::sync::Wait;
use std::sync::atomic::{AtomicU64, Ordering};
use std::test::Fail;
use std::thread::Threads;

/// How often a worker looks at most whether the other one has come.
const LOOK_LIMIT: usize = 10_000_000;

/// A gate at which each worker, before its first turn, waits until the other has come.
#[derive(Drop)]
struct BothGate {
    /// Whether the sender came, and whether the receiver did.
    sender: AtomicU64,
    receiver: AtomicU64,
    /// Whether a worker looked so often that it gave up.
    failed: AtomicU64,
}

impl BothGate {
    /// Looks until the other worker has come, and notes where it gives up.
    fn wait_for(&self, other: &AtomicU64) {
        for _ in 0..LOOK_LIMIT {
            if other.load(Ordering::SeqCst) == 1 {
                return;
            }
        }
        self.failed.store(1, Ordering::SeqCst);
    }
}

impl Gate for BothGate {
    fn before(&self, side: Side, call: usize) {
        if call > 0 {
            return;
        }
        match side {
            Side::Sender => {
                self.sender.store(1, Ordering::SeqCst);
                self.wait_for(&self.receiver);
            }
            Side::Receiver => {
                self.receiver.store(1, Ordering::SeqCst);
                self.wait_for(&self.sender);
            }
        }
    }
}

/// Runs a relay into a sink that fails at these calls, and gives how it ended and what it wrote.
fn relayed<'a, R: Threads + Wait + Sync, G: Gate + Sync>(
    rt: &R,
    alloc: Global,
    line: &str,
    gate: &G,
    failing: &'a [u64],
) -> Result<(RelayOutcome, MemorySink<'a>), AllocError> {
    let words = words_of(alloc, line)?;
    let mut sink = MemorySink::new(alloc, failing);
    let outcome = run_relay(rt, alloc, words.as_slice(), gate, &mut sink);
    Ok((outcome, sink))
}

/// Asserts that a relay of this many offsets is done, and that each of them was received or returned.
fn assert_none_lost(rt: &impl Abort, outcome: RelayOutcome, count: usize) {
    assert_eq!(rt; outcome.status, Status::Done);
    assert_eq!(rt; (outcome.sent, outcome.left), (count, 0));
    assert_eq!(rt; outcome.received.wrapping_add(outcome.returned), count);
}

#[test]
fn a_hundred_relays_lose_nothing(rt: HostRuntime) -> Result<(), Fail> {
    for _ in 0..100 {
        let (outcome, _sink) = relayed(&rt, rt.alloc(), "relay 4 1000", &OpenGate, &[])?;
        assert_none_lost(&rt, outcome, 1000);
    }
    Ok(())
}

#[test]
fn a_long_relay_loses_nothing(rt: HostRuntime) -> Result<(), Fail> {
    let (outcome, _sink) = relayed(&rt, rt.alloc(), "relay 1024 1000000", &OpenGate, &[])?;
    assert_none_lost(&rt, outcome, 1_000_000);
    Ok(())
}

#[test]
fn nothing_is_relayed_where_nothing_is_asked(rt: HostRuntime) -> Result<(), Fail> {
    let (outcome, sink) = relayed(&rt, rt.alloc(), "relay 1 0", &OpenGate, &[])?;
    assert_eq!(rt; outcome.status, Status::Done);
    assert_eq!(rt;
        sink.as_slice(),
        b"sent 0 received 0 returned 0 left 0\n".as_slice()
    );
    Ok(())
}

#[test]
fn other_words_are_no_relay(rt: HostRuntime) -> Result<(), Fail> {
    for line in [
        "relay 0 1",
        "relay 1025 1",
        "relay 1 1000001",
        "relay 1",
        "relay 1 1 1",
        "relay 01 1",
    ] {
        let (outcome, sink) = relayed(&rt, rt.alloc(), line, &OpenGate, &[])?;
        assert_eq!(rt; outcome.status, Status::Usage, "{line}");
        let usage = b"usage: run, make NUMBER ROUNDS, relay BUFFER COUNT\n".as_slice();
        assert_eq!(rt; sink.as_slice(), usage, "{line}");
    }
    Ok(())
}

#[test]
fn a_failing_sink_leaves_the_counts(rt: HostRuntime) -> Result<(), Fail> {
    let (outcome, sink) = relayed(&rt, rt.alloc(), "relay 4 10", &OpenGate, &[0])?;
    assert_eq!(rt; outcome.status, Status::WriteFault);
    assert_eq!(rt; (outcome.sent, outcome.left), (10, 0));
    assert_eq!(rt; b"sent 10 received ".starts_with(sink.as_slice()), true);
    Ok(())
}

#[test]
fn both_workers_are_at_work_at_once(rt: HostRuntime) -> Result<(), Fail> {
    let gate = BothGate {
        sender: AtomicU64::new(0),
        receiver: AtomicU64::new(0),
        failed: AtomicU64::new(0),
    };
    let (outcome, _sink) = relayed(&rt, rt.alloc(), "relay 4 10", &gate, &[])?;
    assert_eq!(rt; outcome.status, Status::Done);
    assert_eq!(rt; gate.failed.load(Ordering::SeqCst), 0);
    assert_eq!(rt; gate.receiver.load(Ordering::SeqCst), 1);
    Ok(())
}
