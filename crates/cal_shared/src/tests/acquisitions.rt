//! A sender that takes all used offsets back.
ghost use Rattle.std.specs.Prelude.{◌≡◌, true};
ghost use Rattle.cal_shared.specs.Acquiring.{IsAcquirable};

use crate::tests::calls::{pair, receive, send, settings};
use crate::{PortSettings, SharedSender};
use cal_alloc::{PointerOffset, SegmentId};
use cal_connection::ZeroCopySendError;
use std::process::Abort;
use std::test::Fail;

/// Whether each segment has one sample. Then all offsets are 0, and can be acquired.
fn has_one_sample(sender: &SharedSender) -> bool
    ensures acquirable { result ≡ true → IsAcquirable sender.now }
{
    sender.settings().number_of_samples == 1
}

/// How many offsets the sender acquires.
fn acquired(rt: &impl Abort, sender: &mut SharedSender) -> u64 {
    let mut count = 0u64;
    assert!(rt; has_one_sample(sender));
    sender.acquire_used_offsets(|_ptr| count = count.wrapping_add(1));
    count
}

/// What is acquired on two channels is acquired once, and stays queued.
#[test]
fn used_offsets_are_acquired_once(rt: HostRuntime) -> Result<(), Fail> {
    let two = PortSettings {
        channels: 2,
        ..settings(1, 1, 1, false)
    };
    let (mut sender, mut receiver) = pair(rt.alloc(), &two)?;
    let ptr = PointerOffset::new(0);
    assert!(rt; send(&rt, &mut sender, ptr, 0) == Ok(None));
    assert!(rt; send(&rt, &mut sender, ptr, 1) == Ok(None));
    assert!(rt; acquired(&rt, &mut sender) == 2);
    assert!(rt; acquired(&rt, &mut sender) == 0);
    assert!(rt; receive(&rt, &mut receiver, 1) == Ok(Some(ptr)));
    Ok(())
}

/// An offset that overflows after it was acquired names no sample in use.
#[test]
fn an_acquired_offset_that_overflows_is_refused(rt: HostRuntime) -> Result<(), Fail> {
    let two = PortSettings {
        segments: 2,
        ..settings(1, 1, 1, true)
    };
    let (mut sender, mut receiver) = pair(rt.alloc(), &two)?;
    let first = PointerOffset::new(0);
    let second = PointerOffset::from_offset_and_segment_id(0, SegmentId::new(1));
    assert!(rt; send(&rt, &mut sender, first, 0) == Ok(None));
    assert!(rt; acquired(&rt, &mut sender) == 1);
    assert!(rt; send(&rt, &mut sender, second, 0) == Err(ZeroCopySendError::ConnectionCorrupted));
    assert!(rt; receive(&rt, &mut receiver, 0) == Ok(Some(second)));
    Ok(())
}
