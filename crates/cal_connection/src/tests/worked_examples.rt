//! The worked examples of what comes back to the sender.
ghost use Rattle.std.specs.Prelude.{◌<◌, ◌^◌};
ghost use Rattle.cal_connection.specs.Ends.{AreOpen};

use crate::tests::ends::{builder, connect, receive, reclaim, release, send};
use crate::{
    Receiver, Sender, SharedManagementData, ZeroCopyConnectionBuilder, ZeroCopyReclaimError,
    ZeroCopyReleaseError, ZeroCopySendError,
};
use cal_alloc::{PointerOffset, SegmentId};
use cal_storage::dynamic_storage::{file, process_local};
use cal_storage::{DynamicStorage, Registry};
use std::alloc::Global;
use std::process::Abort;
use std::test::Fail;

type InFile = file::Storage<SharedManagementData>;

type InProcess = process_local::Storage<SharedManagementData>;

/// Sends an offset of samples of 8 bytes on a channel, and receives it.
fn pass<S: DynamicStorage<SharedManagementData>>(
    rt: &impl Abort,
    reg: &mut Registry<SharedManagementData>,
    ends: &mut (Sender<S>, Receiver<S>),
    ptr: PointerOffset,
    channel: usize,
)
    requires { AreOpen reg.old ends.old.0.handle ends.old.1.handle }
    ensures open { AreOpen reg.new ends.new.0.handle ends.new.1.handle }
{
    assert!(rt; matches!(send(rt, reg, ends, ptr, 8, channel), Ok(None)));
    assert!(rt; receive(rt, reg, ends, channel) == Ok(Some(ptr)));
}

/// Releases an offset on channel 0, and tells what the sender gets when it reclaims twice.
fn reclaimed<S: DynamicStorage<SharedManagementData>>(
    rt: &impl Abort,
    reg: &mut Registry<SharedManagementData>,
    ends: &mut (Sender<S>, Receiver<S>),
    ptr: PointerOffset,
) -> [Result<Option<PointerOffset>, ZeroCopyReclaimError>; 2]
    requires { AreOpen reg.old ends.old.0.handle ends.old.1.handle }
    ensures open { AreOpen reg.new ends.new.0.handle ends.new.1.handle }
{
    assert!(rt; matches!(release(rt, reg, ends, ptr, 0), Ok(())));
    let first = reclaim(rt, reg, ends, 0);
    [first, reclaim(rt, reg, ends, 0)]
}

/// A returned offset of a foreign segment is refused once and is gone, and another channel is as before.
fn a_foreign_segment_is_refused<S: DynamicStorage<SharedManagementData>>(
    rt: &impl Abort,
    alloc: Global,
) -> Result<(), Fail> {
    let mut reg = Registry::new(alloc);
    let mut ends = connect::<S>(
        alloc,
        &mut reg,
        builder()?.number_of_channels(2),
        builder()?.number_of_channels(2),
    )?;
    let ptr = PointerOffset::new(0);
    assert!(rt; matches!(send(rt, &mut reg, &mut ends, ptr, 8, 1), Ok(None)));
    pass(rt, &mut reg, &mut ends, ptr, 0);
    let foreign = PointerOffset::from_offset_and_segment_id(0, SegmentId::new(7));
    let answers = reclaimed(rt, &mut reg, &mut ends, foreign);
    let corrupted = Err(ZeroCopyReclaimError::ReceiverReturnedCorruptedPointerOffset);
    assert!(rt; answers == [corrupted, Ok(None)]);
    assert!(rt; receive(rt, &mut reg, &mut ends, 1) == Ok(Some(ptr)));
    Ok(())
}

#[test]
fn foreign_segments_are_refused(rt: HostRuntime) -> Result<(), Fail> {
    a_foreign_segment_is_refused::<InProcess>(&rt, rt.alloc())?;
    a_foreign_segment_is_refused::<InFile>(&rt, rt.alloc())
}

/// With overflow the oldest offset of a full queue comes back, and can be sent again.
#[test]
fn an_overflow_gives_the_oldest_back(rt: HostRuntime) -> Result<(), Fail> {
    let mut reg = Registry::new(rt.alloc());
    let mut ends = connect::<InProcess>(
        rt.alloc(),
        &mut reg,
        builder()?.buffer_size(1).enable_safe_overflow(true),
        builder()?.buffer_size(1).enable_safe_overflow(true),
    )?;
    let first = PointerOffset::new(0);
    let second = PointerOffset::new(8);
    assert!(rt; matches!(send(&rt, &mut reg, &mut ends, first, 8, 0), Ok(None)));
    assert!(rt; send(&rt, &mut reg, &mut ends, second, 8, 0) == Ok(Some(first)));
    assert!(rt; receive(&rt, &mut reg, &mut ends, 0) == Ok(Some(second)));
    Ok(())
}

/// Passes samples on channel 0 and releases each, as many as are asked for.
fn pass_and_release<S: DynamicStorage<SharedManagementData>>(
    rt: &impl Abort,
    reg: &mut Registry<SharedManagementData>,
    ends: &mut (Sender<S>, Receiver<S>),
    samples: usize,
)
    requires open { AreOpen reg.old ends.old.0.handle ends.old.1.handle }
    requires few { samples < 2 ^ 32 }
    ensures open { AreOpen reg.new ends.new.0.handle ends.new.1.handle }
{
    for index in 0..samples {
        let ptr = PointerOffset::new(index * 8);
        pass(rt, reg, ends, ptr, 0);
        assert!(rt; matches!(release(rt, reg, ends, ptr, 0), Ok(())));
    }
}

/// The completion queue holds the buffer, the borrow limit and one more.
fn the_completion_queue_holds_nine<S: DynamicStorage<SharedManagementData>>(
    rt: &impl Abort,
    alloc: Global,
) -> Result<(), Fail> {
    let mut reg = Registry::new(alloc);
    let mut ends = connect::<S>(
        alloc,
        &mut reg,
        builder()?.number_of_samples_per_segment(16),
        builder()?.number_of_samples_per_segment(16),
    )?;
    pass_and_release(rt, &mut reg, &mut ends, 9);
    let tenth = PointerOffset::new(72);
    pass(rt, &mut reg, &mut ends, tenth, 0);
    assert!(rt;
        matches!(
            release(rt, &mut reg, &mut ends, tenth, 0),
            Err(ZeroCopyReleaseError::RetrieveBufferFull)
        )
    );
    Ok(())
}

#[test]
fn completion_queues_hold_nine(rt: HostRuntime) -> Result<(), Fail> {
    the_completion_queue_holds_nine::<InProcess>(&rt, rt.alloc())?;
    the_completion_queue_holds_nine::<InFile>(&rt, rt.alloc())
}

/// A queue that doesn't overflow refuses what has no room.
#[test]
fn a_full_queue_refuses(rt: HostRuntime) -> Result<(), Fail> {
    let mut reg = Registry::new(rt.alloc());
    let mut ends = connect::<InProcess>(
        rt.alloc(),
        &mut reg,
        builder()?.buffer_size(1),
        builder()?.buffer_size(1),
    )?;
    let first = PointerOffset::new(0);
    assert!(rt; matches!(send(&rt, &mut reg, &mut ends, first, 8, 0), Ok(None)));
    assert!(rt;
        matches!(
            send(&rt, &mut reg, &mut ends, PointerOffset::new(8), 8, 0),
            Err(ZeroCopySendError::ReceiveBufferFull)
        )
    );
    assert!(rt; receive(&rt, &mut reg, &mut ends, 0) == Ok(Some(first)));
    Ok(())
}
