//! A source and a sink in memory, which fail at the calls that they are told to fail at.

ghost use Rattle.std.specs.Prelude.{◌≡◌, ◌<◌, ◌≤◌, ◌↔◌, [], length, take, Contains, Some, IfOk, IsErr, OnOk, OnErr};
ghost use Rattle.std.specs.Io.KnownBytes.{IsAtEnd};
ghost use Rattle.cal_program.specs.Streams.{Takes, TakesNothing, Puts, PutsFront, new_source, new_sink};
ghost use Rattle.cal_program.specs.MemoryStreams.{one_more_call};

use crate::sink::Sink;
use crate::source::{Failed, Source};
use crate::tests::clean::fill_front;
use std::alloc::Global;
use std::marker::Model;

/// A source of bytes in memory. It tells them.
#[derive(Debug, Drop)]
pub struct MemorySource<'a> {
    /// All bytes that it gives.
    bytes: &'a [u8],
    /// Which calls fail, counted from 0.
    failing: &'a [u64],
    /// How many bytes it gave so far, at most as many as there are.
    given: usize,
    /// How many calls there were. It stands still at its type's end.
    calls: u64,
    /// How many calls failed. It stands still at its type's end.
    faults: u64,
}

impl<'a> Model for MemorySource<'a> {
    ghost use Rattle.std.specs.Prelude.{◌≤◌, Some, length, drop};
    ghost use Rattle.cal_program.specs.MemoryStreams.{MemorySourceState};

    ghost Value = { MemorySourceState };

    ghost view = { λ s. record {
      state = record { left = Some (drop s.given s.bytes.now); given = s.given; faults = s.faults };
      calls = s.calls;
      failing = s.failing.now;
    } };

    ghost invariant = { λ s. s.given ≤ length s.bytes.now };
}

impl<'a> MemorySource<'a> {
    /// A source of these bytes. Its calls of these numbers, from 0, fail.
    pub fn new(bytes: &'a [u8], failing: &'a [u64]) -> MemorySource<'a>
        ensures fresh { result ≡ record { state = new_source (Some bytes.now); calls = 0; failing = failing.now } }
    {
        MemorySource {
            bytes,
            failing,
            given: 0,
            calls: 0,
            faults: 0,
        }
    }
}

impl<'a> Source for MemorySource<'a> {
    ghost state = { λ s. s.state };

    fn take(&mut self, into: &mut [u8]) -> Result<usize, Failed>
        requires { 0 < length into.old }
        ensures count { IfOk result (λ count. count ≤ length into.new) }
        ensures taken { IfOk result (λ count. Takes self.old.state self.new.state (take count into.new)) }
        ensures end { IfOk result (λ count. count ≡ 0 → IsAtEnd self.new.state.left) }
        ensures failed { OnErr result (TakesNothing self.old.state self.new.state) }
        ensures fails { IsErr result ↔ Contains self.old.failing self.old.calls }
        ensures calls { self.new.calls ≡ one_more_call self.old.calls }
        ensures failing { self.new.failing ≡ self.old.failing }
    {
        let fails = self.failing.contains(&self.calls);
        self.calls = self.calls.saturating_add(1);
        if fails {
            self.faults = self.faults.saturating_add(1);
            return Err(Failed);
        }
        let count = fill_front(into, &self.bytes[self.given..]);
        self.given += count;
        Ok(count)
    }
}

/// A sink in memory. It tells its bytes. Out of memory is a fault as any other.
#[derive(Debug, Drop)]
pub struct MemorySink<'a> {
    /// The bytes that it took.
    bytes: Vec<u8>,
    /// Which calls fail, counted from 0.
    failing: &'a [u64],
    /// How many calls there were. It stands still at its type's end.
    calls: u64,
    /// How many calls failed. It stands still at its type's end.
    faults: u64,
}

impl<'a> Model for MemorySink<'a> {
    ghost use Rattle.std.specs.Prelude.{Some};
    ghost use Rattle.cal_program.specs.MemoryStreams.{MemorySinkState};

    ghost Value = { MemorySinkState };

    ghost view = { λ s. record {
      state = record { written = Some s.bytes.items; faults = s.faults };
      calls = s.calls;
      failing = s.failing.now;
    } };
}

impl<'a> MemorySink<'a> {
    /// A sink with no byte. Its calls of these numbers, from 0, fail and put nothing.
    pub fn new(alloc: Global, failing: &'a [u64]) -> MemorySink<'a>
        ensures fresh { result ≡ record { state = new_sink (Some []); calls = 0; failing = failing.now } }
    {
        MemorySink {
            bytes: Vec::new(alloc),
            failing,
            calls: 0,
            faults: 0,
        }
    }

    /// The bytes that were put.
    pub fn as_slice(&self) -> &[u8]
        ensures value { Some result.now ≡ self.now.state.written }
    {
        self.bytes.as_slice()
    }
}

impl<'a> Sink for MemorySink<'a> {
    ghost state = { λ s. s.state };

    fn put(&mut self, bytes: &[u8]) -> Result<(), Failed>
        ensures put { OnOk result (Puts self.old.state self.new.state bytes.now) }
        ensures failed { OnErr result (PutsFront self.old.state self.new.state bytes.now) }
        ensures fails { Contains self.old.failing self.old.calls → IsErr result }
        ensures calls { self.new.calls ≡ one_more_call self.old.calls }
        ensures failing { self.new.failing ≡ self.old.failing }
    {
        let fails = self.failing.contains(&self.calls);
        self.calls = self.calls.saturating_add(1);
        if fails {
            self.faults = self.faults.saturating_add(1);
            return Err(Failed);
        }
        let Ok(()) = self.bytes.extend_from_slice(bytes) else {
            self.faults = self.faults.saturating_add(1);
            return Err(Failed);
        };
        Ok(())
    }
}
