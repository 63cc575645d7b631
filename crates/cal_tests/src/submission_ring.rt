//! A submission ring between two threads: what is taken rises as what was sent does, and nothing is lost.
ghost use Rattle.std.specs.Prelude.{◌≡◌, ◌+◌, ◌-◌, ◌^◌, ◌<◌, ◌≤◌, [], ◌++◌, length, map, IfOk, OnOk};
ghost use Rattle.std.specs.List.{range_with_len};
ghost use Rattle.std.specs.Option.{option_to_list};
ghost use Rattle.cal_queue.specs.SubmissionCalls.{send_pass, take_pass, SameSendEnd, SameTakeEnd};
ghost use Rattle.cal_tests.specs.Rising.{IsRising};

use cal_queue::submission_ring::{RingRest, SendSeat, SubmissionRing, TakeSeat, rest};
use std::alloc::{AllocError, Global};
use std::sync::Wait;
use std::thread::{Threads, join};

/// Adds a value to those that came back, if one did.
fn keep(returned: &mut Vec<u64>, back: Option<u64>) -> Result<(), AllocError>
    ensures kept { OnOk result (returned.new.items ≡ returned.old.items ++ option_to_list back) }
{
    if let Some(oldest) = back {
        returned.push(oldest)?;
    }
    Ok(())
}

/// Sends the numbers below `count`, the lowest first, and keeps those that overflow.
fn send_all(
    alloc: Global,
    mut send: SendSeat,
    count: u64,
) -> Result<(SendSeat, Vec<u64>), AllocError>
    requires unused { ((send_pass send).sent ≡ []) × ((send_pass send).overflowed ≡ []) }
    requires counts { count < 2 ^ 64 - 1 }
    ensures same_ring { IfOk result (λ s. SameSendEnd send s.0) }
    ensures sent { IfOk result (λ s. (send_pass s.0).sent ≡ range_with_len 0 count) }
    ensures returned { IfOk result (λ s. s.1.items ≡ map (λ entry. entry.1) (send_pass s.0).overflowed) }
{
    let mut returned = Vec::new(alloc);
    for value in 0..count {
        let Ok(back) = send.push(value, true) else {
            unreachable!()
        };
        keep(&mut returned, back)?;
    }
    Ok((send, returned))
}

/// Waits until a value is there, and then tries that many times to take one.
fn take_some<R: Wait>(
    rt: &R,
    alloc: Global,
    mut take: TakeSeat,
    turns: u64,
) -> Result<(TakeSeat, Vec<u64>), AllocError>
    requires unused { (take_pass take).received ≡ [] }
    ensures same_ring { IfOk result (λ t. SameTakeEnd take t.0) }
    ensures taken { IfOk result (λ t. t.1.items ≡ map (λ entry. entry.1) (take_pass t.0).received) }
{
    let mut taken = Vec::new(alloc);
    for _ in rt.forever() {
        if take.has_value() {
            break;
        }
    }
    for _ in 0..turns {
        if let Some(value) = take.pop(rt) {
            taken.push(value)?;
        }
    }
    Ok((take, taken))
}

/// One thread sends the numbers below `count`, and another takes what it can of them. The answers are the counts, the
/// numbers that were taken, and those that came back to the sender. Either list rises, and what was sent was taken,
/// came back, or is left in the ring.
pub fn send_and_take<R: Threads + Wait + Sync>(
    rt: &R,
    alloc: Global,
    buffer: usize,
    count: u64,
) -> Result<(RingRest, Vec<u64>, Vec<u64>), AllocError>
    requires some { 1 ≤ buffer }
    requires most { buffer < 2 ^ 32 }
    requires counts { count < 2 ^ 64 - 1 }
    ensures sent { IfOk result (λ r. r.0.sent ≡ count) }
    ensures taken { IfOk result (λ r. r.0.received ≡ length r.1.items) }
    ensures returned { IfOk result (λ r. r.0.returned ≡ length r.2.items) }
    ensures adds_up { IfOk result (λ r. r.0.sent ≡ r.0.received + r.0.returned + r.0.left) }
    ensures left { IfOk result (λ r. r.0.left ≤ buffer) }
    ensures taken_rise { IfOk result (λ r. IsRising r.1.items) }
    ensures returned_rise { IfOk result (λ r. IsRising r.2.items) }
{
    let (send, take) = SubmissionRing::new(alloc, buffer)?;
    let (sent, took) = join(
        rt,
        || -> Result<(SendSeat, Vec<u64>), AllocError>
            requires unused { ((send_pass send).sent ≡ []) × ((send_pass send).overflowed ≡ []) × (count < 2 ^ 64 - 1) }
            ensures sent { IfOk result (λ s. SameSendEnd send s.0 × ((send_pass s.0).sent ≡ range_with_len 0 count)
                × (s.1.items ≡ map (λ entry. entry.1) (send_pass s.0).overflowed)) }
        { send_all(alloc, send, count) },
        || -> Result<(TakeSeat, Vec<u64>), AllocError>
            requires unused { (take_pass take).received ≡ [] }
            ensures taken { IfOk result (λ t. SameTakeEnd take t.0
                × (t.1.items ≡ map (λ entry. entry.1) (take_pass t.0).received)) }
        { take_some(rt, alloc, take, count) },
    );
    let (send, returned) = sent?;
    let (take, taken) = took?;
    Ok((rest(send, take), taken, returned))
}

#[cfg(test)]
mod tests {
    use super::*;
    use std::test::Fail;

    #[test]
    fn two_threads_lose_nothing(rt: HostRuntime) -> Result<(), Fail> {
        let (all, taken, returned) = send_and_take(&rt, rt.alloc(), 3, 10_000)?;
        assert_eq!(rt; all.sent, 10_000);
        assert!(rt; !taken.is_empty());
        assert!(rt; taken.len() + returned.len() <= 10_000);
        Ok(())
    }
}
