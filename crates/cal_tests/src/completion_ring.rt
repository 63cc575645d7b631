//! A completion ring between two threads: every value that one thread puts, the other gets, in the same order.
ghost use Rattle.std.specs.Prelude.{◌≡◌, ◌+◌, ◌^◌, ◌<◌, ◌≤◌, [], length, take, vec_capacity, vec_len, IfOk};
ghost use Rattle.cal_queue.specs.CompletionCalls.{SameGetEnd, SamePutEnd, get_pass, put_pass};

use cal_queue::completion_ring::{
    CompletionRest, CompletionRing, GetSeat, PutSeat, rest_completion,
};
use cal_queue::push_refusal::PushRefusal;
use std::alloc::{AllocError, Global};
use std::sync::Wait;
use std::thread;
use std::thread::{Threads, join};

/// Puts all values, and tries again where the ring is full.
fn put_all<R: Wait>(rt: &R, mut put: PutSeat, values: &[u64]) -> PutSeat
    requires unused { (put_pass put).put ≡ [] }
    ensures same_end { SamePutEnd put result }
    ensures put { (put_pass result).put ≡ values.now }
{
    let mut next = 0;
    for _ in rt.forever() {
        if next >= values.len() {
            break;
        }
        match put.push(values[next]) {
            Ok(()) => next += 1,
            Err(PushRefusal::Full) => thread::yield_now(),
            Err(PushRefusal::PositionsUsedUp) => unreachable!(),
        }
    }
    put
}

/// Gets as many values as there is room for, and tries again where none waits.
fn get_all<R: Wait>(
    rt: &R,
    mut get: GetSeat,
    mut got: Vec<u64>,
    count: usize,
) -> (GetSeat, Vec<u64>)
    requires unused { (get_pass get).got ≡ [] }
    requires empty { got.items ≡ [] }
    requires room { count ≤ vec_capacity got }
    ensures same_end { SameGetEnd get result.0 }
    ensures got { (get_pass result.0).got ≡ result.1.items }
    ensures all { vec_len result.1 ≡ count }
{
    for _ in rt.forever() {
        if got.len() >= count {
            break;
        }
        match get.pop() {
            Some(value) => got.push_reserved(value),
            None => thread::yield_now(),
        }
    }
    (get, got)
}

/// One thread puts all values into a ring, and another gets them out of it.
pub fn put_and_get<R: Threads + Wait + Sync>(
    rt: &R,
    alloc: Global,
    capacity: usize,
    values: &[u64],
) -> Result<(CompletionRest, Vec<u64>), AllocError>
    requires some { 1 ≤ capacity }
    requires most { capacity < 2 ^ 32 }
    ensures put { IfOk result (λ r. r.0.put ≡ length values.now) }
    ensures got { IfOk result (λ r. r.0.got ≡ vec_len r.1) }
    ensures adds_up { IfOk result (λ r. r.0.got + r.0.left ≡ r.0.put) }
    ensures first { IfOk result (λ r. r.1.items ≡ take r.0.got values.now) }
    ensures all { IfOk result (λ r. r.1.items ≡ values.now) }
{
    let room = Vec::with_capacity(alloc, values.len())?;
    let (put, get) = CompletionRing::new(alloc, capacity)?;
    let count = values.len();
    let (put, taken) = join(
        rt,
        || -> PutSeat
            requires unused { (put_pass put).put ≡ [] }
            ensures put { SamePutEnd put result × ((put_pass result).put ≡ values.entry.now) }
        { put_all(rt, put, values) },
        || -> (GetSeat, Vec<u64>)
            requires unused { ((get_pass get).got ≡ []) × (room.items ≡ []) × (count ≤ vec_capacity room) }
            ensures got { SameGetEnd get result.0 × ((get_pass result.0).got ≡ result.1.items)
                × (vec_len result.1 ≡ count) }
        { get_all(rt, get, room, count) },
    );
    let (get, got) = taken;
    Ok((rest_completion(put, get), got))
}

#[cfg(test)]
mod tests {
    use super::*;
    use std::test::Fail;

    #[test]
    fn two_threads_lose_no_value(rt: HostRuntime) -> Result<(), Fail> {
        let mut values = Vec::new(rt.alloc());
        for value in 0..10_000 {
            values.push(value)?;
        }
        let (rest, got) = put_and_get(&rt, rt.alloc(), 3, values.as_slice())?;
        assert_eq!(rt; (rest.put, rest.got, rest.left), (10_000, 10_000, 0));
        assert!(rt; got.as_slice() == values.as_slice());
        Ok(())
    }
}
