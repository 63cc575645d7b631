//! Both ports in threads of their own.
use crate::tests::calls::{pair, receive, reclaim, release, send, settings};
use crate::{SharedReceiver, SharedSender};
use cal_alloc::PointerOffset;
use cal_connection::{CHANNEL_STATE_OPEN, ChannelId};
use std::alloc::Global;
use std::process::Abort;
use std::sync::Wait;
use std::test::Fail;
use std::thread;
use std::thread::{Threads, join};

/// Takes back all that the receiver released so far.
fn reclaim_all<R: Abort + Wait>(rt: &R, sender: &mut SharedSender) {
    for _ in rt.forever() {
        if let Ok(None) = reclaim(rt, sender, 0) {
            break;
        }
    }
}

/// Sends that many samples of 8 bytes, one after the other, and closes the channel. The answer is how many came back by
/// overflow.
fn send_all<R: Abort + Wait>(rt: &R, mut sender: SharedSender, count: usize) -> usize {
    let mut returned = 0usize;
    for index in 0..count {
        reclaim_all(rt, &mut sender);
        assert!(rt; index < 1 << 32);
        if let Ok(Some(_)) = send(rt, &mut sender, PointerOffset::new(index * 8), 0) {
            returned = returned.wrapping_add(1);
        }
    }
    assert!(rt; sender.number_of_channels() > 0);
    sender.close_channel(ChannelId::new(0), CHANNEL_STATE_OPEN);
    returned
}

/// Releases an offset, and tries again where the ring is full.
fn give_back<R: Abort + Wait>(rt: &R, receiver: &mut SharedReceiver, ptr: PointerOffset) {
    for _ in rt.forever() {
        if release(rt, receiver, ptr, 0).is_ok() {
            break;
        }
    }
}

/// Receives and releases until the channel is closed and nothing is queued. The answer is how many were received.
fn receive_all<R: Abort + Wait>(rt: &R, mut receiver: SharedReceiver) -> usize {
    let mut received = 0usize;
    for _ in rt.forever() {
        assert!(rt; receiver.number_of_channels() > 0);
        let is_closed = receiver.is_channel_closed(ChannelId::new(0));
        match receive(rt, &mut receiver, 0) {
            Ok(Some(ptr)) => {
                give_back(rt, &mut receiver, ptr);
                received = received.wrapping_add(1);
            }
            _ if is_closed => break,
            _ => thread::yield_now(),
        }
    }
    received
}

/// How many of that many samples came back by overflow, and how many were received.
fn send_and_receive<R: Abort + Threads + Wait + Sync>(
    rt: &R,
    alloc: Global,
    count: usize,
) -> Result<(usize, usize), Fail> {
    let (sender, receiver) = pair(alloc, &settings(4, 1, count, true))?;
    Ok(join(
        rt,
        || send_all(rt, sender, count),
        || receive_all(rt, receiver),
    ))
}

#[test]
fn two_threads_lose_no_sample(rt: HostRuntime) -> Result<(), Fail> {
    let (returned, received) = send_and_receive(&rt, rt.alloc(), 10_000)?;
    assert!(rt; returned.wrapping_add(received) == 10_000);
    Ok(())
}
