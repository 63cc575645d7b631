//! Worked examples of what goes over a channel, on one thread.
ghost use Rattle.cal_shared.specs.Port.{IsOnePair};

use crate::tests::calls::{
    borrow_count, is_in_use, pair, receive, reclaim, release, send, settings,
};
use crate::{PortRest, PortSettings, SharedReceiver, SharedSender, rest};
use cal_alloc::{PointerOffset, SegmentId};
use cal_connection::{
    ZeroCopyReceiveError, ZeroCopyReclaimError, ZeroCopyReleaseError, ZeroCopySendError,
};
use std::process::Abort;
use std::test::Fail;

/// Counts what went over the channel of a pair that has one.
fn rest_of(rt: &impl Abort, sender: SharedSender, receiver: SharedReceiver) -> PortRest
    requires { IsOnePair sender receiver }
{
    assert!(rt; sender.number_of_channels() == 1);
    rest(sender, receiver)
}

#[test]
fn a_full_queue_gives_the_oldest_back(rt: HostRuntime) -> Result<(), Fail> {
    let (mut sender, mut receiver) = pair(rt.alloc(), &settings(1, 1, 2, true))?;
    let first = PointerOffset::new(0);
    let second = PointerOffset::new(8);
    assert!(rt; send(&rt, &mut sender, first, 0) == Ok(None));
    assert!(rt; send(&rt, &mut sender, second, 0) == Ok(Some(first)));
    assert!(rt; !is_in_use(&rt, &sender, first, 0));
    assert!(rt; receive(&rt, &mut receiver, 0) == Ok(Some(second)));
    let all = PortRest {
        sent: 2,
        received: 1,
        returned: 1,
        left: 0,
        released: 0,
        reclaimed: 0,
    };
    assert!(rt; rest_of(&rt, sender, receiver) == all);
    Ok(())
}

#[test]
fn a_full_queue_refuses_without_overflow(rt: HostRuntime) -> Result<(), Fail> {
    let (mut sender, mut receiver) = pair(rt.alloc(), &settings(1, 1, 2, false))?;
    let first = PointerOffset::new(0);
    let second = PointerOffset::new(8);
    assert!(rt; send(&rt, &mut sender, first, 0) == Ok(None));
    assert!(rt; send(&rt, &mut sender, second, 0) == Err(ZeroCopySendError::ReceiveBufferFull));
    assert!(rt; !is_in_use(&rt, &sender, second, 0));
    assert!(rt; receive(&rt, &mut receiver, 0) == Ok(Some(first)));
    assert!(rt; send(&rt, &mut sender, second, 0) == Ok(None));
    Ok(())
}

#[test]
fn an_offset_comes_back_once_it_is_released(rt: HostRuntime) -> Result<(), Fail> {
    let (mut sender, mut receiver) = pair(rt.alloc(), &settings(1, 1, 1, false))?;
    let only = PointerOffset::new(0);
    assert!(rt; send(&rt, &mut sender, only, 0) == Ok(None));
    assert!(rt; receive(&rt, &mut receiver, 0) == Ok(Some(only)));
    assert!(rt; reclaim(&rt, &mut sender, 0) == Ok(None));
    assert!(rt; release(&rt, &mut receiver, only, 0) == Ok(()));
    assert!(rt; reclaim(&rt, &mut sender, 0) == Ok(Some(only)));
    assert!(rt; !is_in_use(&rt, &sender, only, 0));
    let all = PortRest {
        sent: 1,
        received: 1,
        returned: 0,
        left: 0,
        released: 1,
        reclaimed: 1,
    };
    assert!(rt; rest_of(&rt, sender, receiver) == all);
    Ok(())
}

#[test]
fn no_more_are_borrowed_than_may_be(rt: HostRuntime) -> Result<(), Fail> {
    let (mut sender, mut receiver) = pair(rt.alloc(), &settings(2, 1, 2, false))?;
    let first = PointerOffset::new(0);
    assert!(rt; send(&rt, &mut sender, first, 0) == Ok(None));
    assert!(rt; receive(&rt, &mut receiver, 0) == Ok(Some(first)));
    let refused = Err(ZeroCopyReceiveError::ReceiveWouldExceedMaxBorrowValue);
    assert!(rt; receive(&rt, &mut receiver, 0) == refused);
    assert!(rt; release(&rt, &mut receiver, first, 0) == Ok(()));
    assert!(rt; receive(&rt, &mut receiver, 0) == Ok(None));
    Ok(())
}

#[test]
fn a_foreign_segment_is_refused_and_gone(rt: HostRuntime) -> Result<(), Fail> {
    let (mut sender, mut receiver) = pair(rt.alloc(), &settings(1, 1, 1, false))?;
    let own = PointerOffset::new(0);
    let foreign = PointerOffset::from_offset_and_segment_id(0, SegmentId::new(7));
    assert!(rt; send(&rt, &mut sender, own, 0) == Ok(None));
    assert!(rt; receive(&rt, &mut receiver, 0) == Ok(Some(own)));
    assert!(rt; release(&rt, &mut receiver, foreign, 0) == Ok(()));
    let corrupted = Err(ZeroCopyReclaimError::ReceiverReturnedCorruptedPointerOffset);
    assert!(rt; reclaim(&rt, &mut sender, 0) == corrupted);
    assert!(rt; reclaim(&rt, &mut sender, 0) == Ok(None));
    assert!(rt; is_in_use(&rt, &sender, own, 0));
    Ok(())
}

/// The completion ring has room for one offset more than can be queued and borrowed, and then it is full.
#[test]
fn a_full_completion_ring_refuses(rt: HostRuntime) -> Result<(), Fail> {
    let (mut sender, mut receiver) = pair(rt.alloc(), &settings(1, 1, 8, false))?;
    for index in 0..3 {
        let ptr = PointerOffset::new(index * 8);
        assert!(rt; send(&rt, &mut sender, ptr, 0) == Ok(None));
        assert!(rt; receive(&rt, &mut receiver, 0) == Ok(Some(ptr)));
        assert!(rt; release(&rt, &mut receiver, ptr, 0) == Ok(()));
    }
    let last = PointerOffset::new(24);
    assert!(rt; send(&rt, &mut sender, last, 0) == Ok(None));
    assert!(rt; receive(&rt, &mut receiver, 0) == Ok(Some(last)));
    assert!(rt;
        release(&rt, &mut receiver, last, 0) == Err(ZeroCopyReleaseError::RetrieveBufferFull)
    );
    assert!(rt; borrow_count(&rt, &receiver, 0) == 1);
    Ok(())
}

/// What is sent on one channel isn't received on another.
#[test]
fn channels_are_apart(rt: HostRuntime) -> Result<(), Fail> {
    let two = PortSettings {
        channels: 2,
        ..settings(1, 1, 1, false)
    };
    let (mut sender, mut receiver) = pair(rt.alloc(), &two)?;
    let ptr = PointerOffset::new(0);
    assert!(rt; send(&rt, &mut sender, ptr, 1) == Ok(None));
    assert!(rt; receive(&rt, &mut receiver, 0) == Ok(None));
    assert!(rt; !is_in_use(&rt, &sender, ptr, 0));
    assert!(rt; receive(&rt, &mut receiver, 1) == Ok(Some(ptr)));
    Ok(())
}
