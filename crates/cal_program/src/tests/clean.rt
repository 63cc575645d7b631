//! A source and a sink that never fail.

ghost use Rattle.std.specs.Prelude.{◌≡◌, ◌<◌, ◌≤◌, min, length, take, Some, None, IfOk, IsOk, OnErr};
ghost use Rattle.std.specs.Io.KnownBytes.{IsAtEnd};
ghost use Rattle.cal_program.specs.Streams.{Takes, TakesNothing, Puts, PutsFront, new_source, new_sink};

use crate::sink::Sink;
use crate::source::{Failed, Source};
use std::marker::Model;

/// A source of bytes in memory. It tells them, and never fails.
#[derive(Debug, Drop)]
pub struct CleanSource<'a> {
    /// All bytes that it gives.
    bytes: &'a [u8],
    /// How many bytes it gave so far, at most as many as there are.
    given: usize,
}

impl<'a> Model for CleanSource<'a> {
    ghost use Rattle.std.specs.Prelude.{◌≤◌, Some, length, drop};
    ghost use Rattle.cal_program.specs.Streams.{SourceState};

    ghost Value = { SourceState };

    ghost view = { λ s. record { left = Some (drop s.given s.bytes.now); given = s.given; faults = 0 } };

    ghost invariant = { λ s. s.given ≤ length s.bytes.now };
}

impl<'a> CleanSource<'a> {
    /// A source of these bytes.
    pub fn new(bytes: &'a [u8]) -> CleanSource<'a>
        ensures fresh { result ≡ new_source (Some bytes.now) }
    {
        CleanSource { bytes, given: 0 }
    }
}

impl Source for CleanSource<'_> {
    ghost state = { λ s. s };

    fn take(&mut self, into: &mut [u8]) -> Result<usize, Failed>
        requires { 0 < length into.old }
        ensures count { IfOk result (λ count. count ≤ length into.new) }
        ensures taken { IfOk result (λ count. Takes self.old self.new (take count into.new)) }
        ensures end { IfOk result (λ count. count ≡ 0 → IsAtEnd self.new.left) }
        ensures failed { OnErr result (TakesNothing self.old self.new) }
        ensures never_fails { IsOk result }
    {
        let count = fill_front(into, &self.bytes[self.given..]);
        self.given += count;
        Ok(count)
    }
}

/// Copies as many bytes as there is room for, and says how many.
pub(crate) fn fill_front(into: &mut [u8], bytes: &[u8]) -> usize
    ensures count { result ≡ min (length into.new) (length bytes.now) }
    ensures front { take result into.new ≡ take result bytes.now }
{
    let count = into.len().min(bytes.len());
    into[..count].copy_from_slice(&bytes[..count]);
    count
}

/// A sink that keeps nothing, tells nothing and never fails.
#[derive(Debug, Drop)]
pub struct CleanSink;

impl Sink for CleanSink {
    ghost state = { λ _. new_sink None };

    fn put(&mut self, _bytes: &[u8]) -> Result<(), Failed>
        ensures never_fails { IsOk result }
    {
        Ok(())
    }
}
