//! Calls of both ends of a connection that look first whether their conditions hold, for the tests.
ghost use Rattle.std.specs.Prelude.{IfOk};
ghost use Rattle.cal_storage.specs.Holding.{Holds};
ghost use Rattle.cal_connection.specs.Ends.{AreOpen};

use crate::calls::may_send;
use crate::{
    Builder, ChannelId, Receiver, Sender, SharedManagementData, ZeroCopyConnectionBuilder,
    ZeroCopyPortDetails, ZeroCopyReceiveError, ZeroCopyReceiver, ZeroCopyReclaimError,
    ZeroCopyReleaseError, ZeroCopySendError, ZeroCopySender,
};
use cal_alloc::PointerOffset;
use cal_names::{FileName, NamedConceptBuilder};
use cal_storage::{DynamicStorage, Registry};
use std::alloc::Global;
use std::process::Abort;
use std::test::Fail;

/// The name of each connection.
pub(crate) fn name() -> Result<FileName, Fail> {
    Ok(FileName::new(b"connection").ok_or("a file name")?)
}

/// A builder of the connection.
pub(crate) fn builder<S: DynamicStorage<SharedManagementData>>() -> Result<Builder<S>, Fail> {
    Ok(Builder::new(&name()?))
}

/// The sender of a default connection.
pub(crate) fn open_sender<S: DynamicStorage<SharedManagementData>>(
    alloc: Global,
    reg: &mut Registry<SharedManagementData>,
) -> Result<Sender<S>, Fail>
    ensures open { IfOk result (λ sender. Holds reg.new 1 sender.handle) }
{
    Ok(builder::<S>()?.create_sender(alloc, reg)?)
}

/// Both ends that two builders create, one after the other.
pub(crate) fn connect<S: DynamicStorage<SharedManagementData>>(
    alloc: Global,
    reg: &mut Registry<SharedManagementData>,
    sending: Builder<S>,
    receiving: Builder<S>,
) -> Result<(Sender<S>, Receiver<S>), Fail>
    ensures open { IfOk result (λ ends. AreOpen reg.new ends.0.handle ends.1.handle) }
{
    let sender = sending.create_sender(alloc, reg)?;
    let receiver = receiving.create_receiver(alloc, reg)?;
    Ok((sender, receiver))
}

/// Sends an offset in bytes of a segment on a channel.
pub(crate) fn send<S: DynamicStorage<SharedManagementData>>(
    rt: &impl Abort,
    reg: &mut Registry<SharedManagementData>,
    ends: &mut (Sender<S>, Receiver<S>),
    ptr: PointerOffset,
    sample_size: usize,
    channel: usize,
) -> Result<Option<PointerOffset>, ZeroCopySendError>
    requires { AreOpen reg.old ends.old.0.handle ends.old.1.handle }
    ensures open { AreOpen reg.new ends.new.0.handle ends.new.1.handle }
{
    assert!(rt; may_send(ends.0.management_data(reg), ptr, sample_size, channel));
    ends.0
        .try_send(reg, ptr, sample_size, ChannelId::new(channel))
}

/// Takes back what the receiver released on a channel.
pub(crate) fn reclaim<S: DynamicStorage<SharedManagementData>>(
    rt: &impl Abort,
    reg: &mut Registry<SharedManagementData>,
    ends: &mut (Sender<S>, Receiver<S>),
    channel: usize,
) -> Result<Option<PointerOffset>, ZeroCopyReclaimError>
    requires { AreOpen reg.old ends.old.0.handle ends.old.1.handle }
    ensures open { AreOpen reg.new ends.new.0.handle ends.new.1.handle }
{
    assert!(rt; channel < ends.0.number_of_channels(reg));
    ends.0.reclaim(reg, ChannelId::new(channel))
}

/// Receives on a channel.
pub(crate) fn receive<S: DynamicStorage<SharedManagementData>>(
    rt: &impl Abort,
    reg: &mut Registry<SharedManagementData>,
    ends: &mut (Sender<S>, Receiver<S>),
    channel: usize,
) -> Result<Option<PointerOffset>, ZeroCopyReceiveError>
    requires { AreOpen reg.old ends.old.0.handle ends.old.1.handle }
    ensures open { AreOpen reg.new ends.new.0.handle ends.new.1.handle }
{
    assert!(rt; channel < ends.1.number_of_channels(reg));
    assert!(rt; channel < ends.1.borrow_counts.len());
    ends.1.receive(reg, ChannelId::new(channel))
}

/// Releases an offset on a channel.
pub(crate) fn release<S: DynamicStorage<SharedManagementData>>(
    rt: &impl Abort,
    reg: &mut Registry<SharedManagementData>,
    ends: &mut (Sender<S>, Receiver<S>),
    ptr: PointerOffset,
    channel: usize,
) -> Result<(), ZeroCopyReleaseError>
    requires { AreOpen reg.old ends.old.0.handle ends.old.1.handle }
    ensures open { AreOpen reg.new ends.new.0.handle ends.new.1.handle }
{
    let channel_id = ChannelId::new(channel);
    assert!(rt; channel < ends.1.number_of_channels(reg));
    assert!(rt; channel < ends.1.borrow_counts.len());
    assert!(rt; ends.1.borrow_count(channel_id) > 0);
    ends.1.release(reg, ptr, channel_id)
}
