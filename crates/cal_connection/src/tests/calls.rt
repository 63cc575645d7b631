//! Worked examples of a receiver that gives back what it likes, over both kinds of storage.
ghost use Rattle.std.specs.Prelude.{◌≡◌, IfOk};
ghost use Rattle.cal_connection.specs.Calls.{AreJoined};
ghost use Rattle.cal_connection.specs.Plan.{path_of};

use crate::tests::ends::name;
use crate::{
    Builder, PortCall, PortReply, Receiver, Sender, SharedManagementData,
    ZeroCopyConnectionBuilder, run_calls,
};
use cal_names::NamedConceptBuilder;
use cal_storage::dynamic_storage::{file, process_local};
use cal_storage::{DynamicStorage, Registry};
use std::alloc::Global;
use std::process::Abort;
use std::test::Fail;

type InFile = file::Storage<SharedManagementData>;

type InProcess = process_local::Storage<SharedManagementData>;

/// Two channels with a queue of one offset, two samples, and one offset to be borrowed.
fn small<S: DynamicStorage<SharedManagementData>>(builder: Builder<S>) -> Builder<S>
    ensures path { path_of result ≡ path_of builder }
{
    builder
        .buffer_size(1)
        .receiver_max_borrowed_samples_per_channel(1)
        .number_of_samples_per_segment(2)
        .number_of_channels(2)
}

/// Both ends of a new connection.
fn both_ends<S: DynamicStorage<SharedManagementData>>(
    alloc: Global,
    reg: &mut Registry<SharedManagementData>,
) -> Result<(Sender<S>, Receiver<S>), Fail>
    ensures joined { IfOk result (λ ends. AreJoined reg.new ends.0 ends.1) }
{
    let name = name()?;
    let sender = small(Builder::<S>::new(&name)).create_sender(alloc, reg)?;
    let receiver = small(Builder::<S>::new(&name)).create_receiver(alloc, reg)?;
    Ok((sender, receiver))
}

/// Calls over a new connection have these replies.
fn are_answered<S: DynamicStorage<SharedManagementData>>(
    rt: &impl Abort,
    alloc: Global,
    calls: &[PortCall],
    expected: &[PortReply],
) -> Result<(), Fail> {
    let mut reg = Registry::new(alloc);
    let mut ends = both_ends::<S>(alloc, &mut reg)?;
    let replies = run_calls(alloc, &mut ends.0, &mut ends.1, &mut reg, calls)?;
    assert!(rt; replies.as_slice() == expected);
    Ok(())
}

/// A send of a sample of 8 bytes.
fn send(channel: usize, ptr: u64) -> PortCall {
    PortCall::Send {
        channel,
        ptr,
        size: 8,
    }
}

/// A call on channel 0.
fn receive() -> PortCall {
    PortCall::Receive { channel: 0 }
}

/// A call on channel 0.
fn release(ptr: u64) -> PortCall {
    PortCall::Release { channel: 0, ptr }
}

/// A call on channel 0.
fn reclaim() -> PortCall {
    PortCall::Reclaim { channel: 0 }
}

/// A returned offset of another segment is refused once, and another channel is served.
fn a_foreign_return<S: DynamicStorage<SharedManagementData>>(
    rt: &impl Abort,
    alloc: Global,
) -> Result<(), Fail> {
    let calls = [
        send(0, 0),
        receive(),
        release(7),
        reclaim(),
        reclaim(),
        send(0, 0),
        send(1, 0),
        release(0),
    ];
    let replies = [
        PortReply::Sent(None),
        PortReply::Received(Some(0)),
        PortReply::Released,
        PortReply::Corrupted,
        PortReply::Reclaimed(None),
        PortReply::Unsuited,
        PortReply::Sent(None),
        PortReply::Unsuited,
    ];
    are_answered::<S>(rt, alloc, &calls, &replies)
}

#[test]
fn foreign_returns_are_refused(rt: HostRuntime) -> Result<(), Fail> {
    a_foreign_return::<InProcess>(&rt, rt.alloc())?;
    a_foreign_return::<InFile>(&rt, rt.alloc())
}

/// What was sent once comes back once, however often it is given back.
fn a_double_return<S: DynamicStorage<SharedManagementData>>(
    rt: &impl Abort,
    alloc: Global,
) -> Result<(), Fail> {
    let calls = [
        send(0, 0),
        receive(),
        send(0, 2048),
        release(0),
        receive(),
        release(0),
        reclaim(),
        reclaim(),
    ];
    let replies = [
        PortReply::Sent(None),
        PortReply::Received(Some(0)),
        PortReply::Sent(None),
        PortReply::Released,
        PortReply::Received(Some(2048)),
        PortReply::Released,
        PortReply::Reclaimed(Some(0)),
        PortReply::Corrupted,
    ];
    are_answered::<S>(rt, alloc, &calls, &replies)
}

#[test]
fn double_returns_come_back_once(rt: HostRuntime) -> Result<(), Fail> {
    a_double_return::<InProcess>(&rt, rt.alloc())?;
    a_double_return::<InFile>(&rt, rt.alloc())
}
