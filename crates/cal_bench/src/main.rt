//! Measures the rings: `cal_bench one COUNT` pushes and pops that many values of a submission ring on one thread,
//! `cal_bench two COUNT` sends them from one thread to another with overflow, and `cal_bench completion COUNT` puts
//! them into a completion ring and gets them out on one thread. `cal_bench ports COUNT` sends that many samples from
//! one thread to another over a pair of ports, and back. `cal_bench pool COUNT`, `queue` and `used` measure the plain
//! containers: a chunk got and freed, a value pushed and popped, a number put in and taken out. `channel` and
//! `channels` make that many calls of both ports of a connection with one channel, and with 1,024. Each prints the
//! nanoseconds that it took.
//!
//! What `cal_bench one` measures:
//!
//! ```
//! let (mut send, mut take) = SubmissionRing::new(alloc, BUFFER)?;
//! for value in 0..count {
//!     let _ = send.push(value, false);
//!     let _ = take.pop(rt);
//! }
//! Ok(rest(send, take))
//! ```
#![tactic(auto)]

mod one_thread;
mod plain_calls;
mod port_calls;
mod port_pairs;
mod two_threads;

use crate::plain_calls::container_of;
use crate::port_calls::{channels_of, measure};
use anyhow::Result;
use cal_queue::submission_ring::RingRest;
use std::alloc::Global;
use std::env;
use std::rt::Env;
use std::sync::Wait;
use std::thread::Threads;
use std::time::Instant;

const USAGE: &str =
    "usage: cal_bench (one | two | completion | ports | pool | queue | used | channel | channels) COUNT";

/// Which measurement, and of how many values.
#[derive(Clone, Copy)]
enum Plan {
    OneThread(u64),
    TwoThreads(u64),
    Completion(u64),
    Ports(u64),
}

/// What the words of the command line ask for; the count is at least 1.
fn plan_of(words: &[String]) -> Option<Plan> {
    if words.len() != 2 {
        return None;
    }
    let count: u64 = words[1].parse().ok()?;
    match words[0].as_str() {
        _ if count == 0 => None,
        "one" => Some(Plan::OneThread(count)),
        "two" => Some(Plan::TwoThreads(count)),
        "completion" => Some(Plan::Completion(count)),
        "ports" => Some(Plan::Ports(count)),
        _ => None,
    }
}

/// The words of the command line after the program's name.
fn words_of<R: Env + AllocGlobal>(rt: &R) -> Result<Vec<String>> {
    let mut words = env::args(rt)?;
    let _ = words.next();
    Ok(words.collect(rt.alloc())?)
}

/// Runs a measurement, and tells of how many values it was and what became of them.
fn run<R: Threads + Wait + Sync>(rt: &R, alloc: Global, plan: Plan) -> Result<(u64, RingRest)> {
    Ok(match plan {
        Plan::OneThread(count) => (count, one_thread::push_and_pop(rt, alloc, count)?),
        Plan::TwoThreads(count) => (count, two_threads::send_and_take(rt, alloc, count)?),
        Plan::Completion(count) => {
            let all = one_thread::put_and_get(alloc, count)?;
            let rest = RingRest {
                sent: all.put,
                received: all.got,
                returned: 0,
                left: all.left,
            };
            (count, rest)
        }
        Plan::Ports(count) => {
            let all = port_pairs::send_to_reclaim(rt, alloc, count)?;
            let rest = RingRest {
                sent: all.sent,
                received: all.received,
                returned: all.returned,
                left: all.left,
            };
            (count, rest)
        }
    })
}

fn main(rt: HostRuntime) -> Result<()> {
    let words = words_of(&rt)?;
    if let Some((container, count)) = container_of(words.as_slice()) {
        let start = Instant::now(&rt)?;
        let done = container.call(rt.alloc(), count)?;
        let nanoseconds = start.elapsed(&rt)?.as_nanos();
        println!(rt; "{count} calls in {nanoseconds} ns: {done} done")?;
        return Ok(());
    }
    if let Some((channels, count)) = channels_of(words.as_slice()) {
        let (nanoseconds, suited) = measure(&rt, channels, count)?;
        println!(rt; "{count} calls in {nanoseconds} ns: {suited} done")?;
        return Ok(());
    }
    let Some(plan) = plan_of(words.as_slice()) else {
        println!(rt; "{USAGE}")?;
        return Ok(());
    };
    let start = Instant::now(&rt)?;
    let (count, rest) = run(&rt, rt.alloc(), plan)?;
    let nanoseconds = start.elapsed(&rt)?.as_nanos();
    println!(rt;
        "{count} sent in {nanoseconds} ns: {} received, {} returned, {} left",
        rest.received, rest.returned, rest.left
    )?;
    Ok(())
}
