//! Calls of both ports of a connection in an order that a fixed seed chooses, half of them with wild pointers.
ghost use Rattle.std.specs.Prelude.{◌<◌, IfOk, IfSome};
ghost use Rattle.cal_connection.specs.Calls.{AreJoined};

use anyhow::Result;
use cal_connection::{
    Builder, PortCall, PortReply, Receiver, Sender, SharedManagementData,
    ZeroCopyConnectionBuilder, ZeroCopyCreationError, run_calls,
};
use cal_names::{FileName, NamedConceptBuilder};
use cal_storage::Registry;
use cal_storage::dynamic_storage::process_local;
use std::alloc::{AllocError, Global};
use std::rt::Clock;
use std::time::Instant;

type InProcess = process_local::Storage<SharedManagementData>;

// How many samples of 64 bytes the segment has, as a new builder says it.
const SAMPLES: u64 = 8;

const SAMPLE_SIZE: usize = 64;

// How many channels there are in the second measurement.
const MANY_CHANNELS: usize = 1024;

/// How many channels the words of the command line ask for, and how many calls; both are at least 1.
pub fn channels_of(words: &[String]) -> Option<(usize, usize)>
    ensures some { IfSome result (λ asked. 0 < asked.0) }
{
    if words.len() != 2 {
        return None;
    }
    let count: usize = words[1].parse().ok()?;
    match words[0].as_str() {
        _ if count == 0 => None,
        "channel" => Some((1, count)),
        "channels" => Some((MANY_CHANNELS, count)),
        _ => None,
    }
}

/// Numbers that a fixed seed gives.
#[derive(Drop)]
struct Random {
    /// What the next number follows from.
    state: u64,
}

impl Random {
    /// The next number; its upper half is the one to use.
    fn step(&mut self) -> u64 {
        self.state = self
            .state
            .wrapping_mul(6364136223846793005)
            .wrapping_add(1442695040888963407);
        self.state / (1 << 32)
    }

    /// Any number.
    fn any(&mut self) -> u64 {
        self.step().wrapping_mul(1 << 32).wrapping_add(self.step())
    }

    /// A number below a limit.
    fn below(&mut self, limit: u64) -> u64
        requires { 0 < limit }
        ensures below { result < limit }
    {
        self.step() % limit
    }
}

/// A call that is chosen: every second one has a wild pointer, and the others are such as both ports make of samples.
fn chosen_call(random: &mut Random, channels: usize) -> PortCall
    requires { 0 < channels }
{
    let channel = random.below(channels as u64) as usize;
    let sample = random.below(SAMPLES) * SAMPLE_SIZE as u64 * 256;
    let wild = random.any();
    let size = SAMPLE_SIZE;
    match random.below(8) {
        0 | 1 => PortCall::Send {
            channel,
            ptr: wild,
            size,
        },
        2 | 3 => PortCall::Release { channel, ptr: wild },
        4 => PortCall::Send {
            channel,
            ptr: sample,
            size,
        },
        5 => PortCall::Receive { channel },
        6 => PortCall::Release {
            channel,
            ptr: sample,
        },
        _ => PortCall::Reclaim { channel },
    }
}

/// So many calls, the same ones each time.
fn chosen_calls(alloc: Global, channels: usize, count: usize) -> Result<Vec<PortCall>, AllocError>
    requires { 0 < channels }
{
    let mut random = Random { state: 1 };
    let mut calls = Vec::new(alloc);
    for _ in 0..count {
        calls.push(chosen_call(&mut random, channels))?;
    }
    Ok(calls)
}

/// A connection with so many channels, both ends of it.
fn connect(
    alloc: Global,
    reg: &mut Registry<SharedManagementData>,
    name: &FileName,
    channels: usize,
) -> Result<(Sender<InProcess>, Receiver<InProcess>), ZeroCopyCreationError>
    ensures joined { IfOk result (λ ends. AreJoined reg.new ends.0 ends.1) }
{
    let sender = Builder::<InProcess>::new(name)
        .number_of_channels(channels)
        .create_sender(alloc, reg)?;
    let receiver = Builder::<InProcess>::new(name)
        .number_of_channels(channels)
        .create_receiver(alloc, reg)?;
    Ok((sender, receiver))
}

/// Makes so many calls over a new connection; how many nanoseconds they took, and how many had a condition that holds.
pub fn measure<R: Clock + AllocGlobal>(
    rt: &R,
    channels: usize,
    count: usize,
) -> Result<(u128, usize)>
    requires some { 0 < channels }
{
    let alloc = rt.alloc();
    let name = FileName::new(b"bench").unwrap();
    let calls = chosen_calls(alloc, channels, count)?;
    let mut reg = Registry::new(alloc);
    let mut ends = connect(alloc, &mut reg, &name, channels)?;
    let start = Instant::now(rt)?;
    let replies = run_calls(alloc, &mut ends.0, &mut ends.1, &mut reg, calls.as_slice())?;
    let nanoseconds = start.elapsed(rt)?.as_nanos();
    let suited = replies
        .iter()
        .filter(|reply| **reply != PortReply::Unsuited)
        .count();
    Ok((nanoseconds, suited))
}
