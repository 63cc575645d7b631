//! What each ring costs on one thread: a value in, and out again.
ghost use Rattle.std.specs.Prelude.{◌≡◌, ◌+◌, IfOk};

use cal_queue::completion_ring::{CompletionRest, CompletionRing, rest_completion};
use cal_queue::submission_ring::{RingRest, SubmissionRing, rest};
use std::alloc::{AllocError, Global};
use std::sync::Wait;

// How many values either ring holds.
const BUFFER: usize = 1024;

/// Pushes each number below `count` into a submission ring, and pops it again.
pub fn push_and_pop<R: Wait>(rt: &R, alloc: Global, count: u64) -> Result<RingRest, AllocError>
    ensures adds_up { IfOk result (λ all. all.sent ≡ all.received + all.returned + all.left) }
{
    let (mut send, mut take) = SubmissionRing::new(alloc, BUFFER)?;
    for value in 0..count {
        let _ = send.push(value, false);
        let _ = take.pop(rt);
    }
    Ok(rest(send, take))
}

/// Puts each number below `count` into a completion ring, and gets it out again.
pub fn put_and_get(alloc: Global, count: u64) -> Result<CompletionRest, AllocError>
    ensures adds_up { IfOk result (λ all. all.put ≡ all.got + all.left) }
{
    let (mut put, mut get) = CompletionRing::new(alloc, BUFFER)?;
    for value in 0..count {
        let _ = put.push(value);
        let _ = get.pop();
    }
    Ok(rest_completion(put, get))
}
