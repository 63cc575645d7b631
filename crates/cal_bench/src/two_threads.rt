//! Values sent from one thread to another, with overflow.
ghost use Rattle.std.specs.Prelude.{◌≡◌, ◌+◌, IfOk};
ghost use Rattle.cal_queue.specs.SubmissionCalls.{SameSendEnd, SameTakeEnd};

use cal_queue::submission_ring::{RingRest, SendSeat, SubmissionRing, TakeSeat, rest};
use std::alloc::{AllocError, Global};
use std::sync::Wait;
use std::thread::{Threads, join};

// How many values the ring holds.
const BUFFER: usize = 1024;

/// Sends each number below `count`.
fn send_all(mut send: SendSeat, count: u64) -> SendSeat
    ensures same_end { SameSendEnd send result }
{
    for value in 0..count {
        let _ = send.push(value, true);
    }
    send
}

/// Takes values until the last one, which no other overflows.
fn take_to_last<R: Wait>(rt: &R, mut take: TakeSeat, last: u64) -> TakeSeat
    ensures same_end { SameTakeEnd take result }
{
    for _ in rt.forever() {
        if take.pop(rt) == Some(last) {
            break;
        }
    }
    take
}

/// One thread sends the numbers up to and with `last`, and another takes what it can of them.
pub fn send_and_take<R: Threads + Wait + Sync>(
    rt: &R,
    alloc: Global,
    count: u64,
) -> Result<RingRest, AllocError>
    ensures adds_up { IfOk result (λ all. all.sent ≡ all.received + all.returned + all.left) }
{
    let (send, take) = SubmissionRing::new(alloc, BUFFER)?;
    let last = count.saturating_sub(1);
    let (send, take) = join(
        rt,
        || -> SendSeat
            ensures sent { SameSendEnd send result }
        { send_all(send, count) },
        || -> TakeSeat
            ensures taken { SameTakeEnd take result }
        { take_to_last(rt, take, last) },
    );
    Ok(rest(send, take))
}
