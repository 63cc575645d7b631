//! Calls of both ports of a pair that look first whether their conditions hold, for the tests.
ghost use Rattle.std.specs.Prelude.{◌≡◌, true, IfOk};
ghost use Rattle.cal_shared.specs.Port.{IsOnePair, pair_of_receiver, pair_of_sender};
ghost use Rattle.cal_shared.specs.Sending.{IsSendable, IsWithin};

use crate::{PortSettings, SharedReceiver, SharedSender, shared_pair};
use cal_alloc::PointerOffset;
use cal_connection::{
    CHANNEL_STATE_OPEN, ChannelId, ZeroCopyReceiveError, ZeroCopyReclaimError,
    ZeroCopyReleaseError, ZeroCopySendError,
};
use std::alloc::Global;
use std::process::Abort;
use std::sync::Wait;
use std::test::Fail;

/// Settings of one open channel, over one segment.
pub(crate) fn settings(
    buffer: usize,
    borrow: usize,
    samples: usize,
    overflow: bool,
) -> PortSettings {
    PortSettings {
        buffer,
        borrow,
        samples,
        channels: 1,
        overflow,
        segments: 1,
        initial: CHANNEL_STATE_OPEN,
    }
}

/// A pair of ports with these settings.
pub(crate) fn pair(
    alloc: Global,
    settings: &PortSettings,
) -> Result<(SharedSender, SharedReceiver), Fail>
    ensures pair { IfOk result (λ ports. IsOnePair ports.0 ports.1) }
{
    Ok(shared_pair(alloc, settings)?)
}

/// Whether the sample of an offset, of that size in bytes, is one that a channel can name.
fn may_name(sender: &SharedSender, ptr: PointerOffset, sample_size: usize, channel: usize) -> bool
    ensures within { result ≡ true → IsWithin sender.now.settings channel ptr sample_size }
{
    let settings = sender.settings();
    if channel >= settings.number_of_channels {
        return false;
    }
    if sample_size == 0 || ptr.offset() % sample_size != 0 {
        return false;
    }
    if ptr.segment_id().value() >= settings.number_of_segments {
        return false;
    }
    if ptr.offset() / sample_size >= settings.number_of_samples {
        return false;
    }
    true
}

/// Whether an offset may be sent on a channel.
pub(crate) fn may_send(
    sender: &SharedSender,
    ptr: PointerOffset,
    sample_size: usize,
    channel: usize,
) -> bool
    ensures sendable { result ≡ true → IsSendable sender.now channel ptr sample_size }
{
    may_name(sender, ptr, sample_size, channel)
        && !sender.is_in_use(ptr, sample_size, ChannelId::new(channel))
}

/// Whether the sample of an offset, of 8 bytes, is in use on a channel.
pub(crate) fn is_in_use(
    rt: &impl Abort,
    sender: &SharedSender,
    ptr: PointerOffset,
    channel: usize,
) -> bool {
    assert!(rt; may_name(sender, ptr, 8, channel));
    sender.is_in_use(ptr, 8, ChannelId::new(channel))
}

/// Sends an offset of a sample of 8 bytes on a channel.
pub(crate) fn send(
    rt: &impl Abort,
    sender: &mut SharedSender,
    ptr: PointerOffset,
    channel: usize,
) -> Result<Option<PointerOffset>, ZeroCopySendError>
    ensures pair { pair_of_sender sender.new ≡ pair_of_sender sender.old }
{
    assert!(rt; may_send(sender, ptr, 8, channel));
    sender.try_send(ptr, 8, ChannelId::new(channel))
}

/// Takes back what the receiver released on a channel.
pub(crate) fn reclaim(
    rt: &impl Abort,
    sender: &mut SharedSender,
    channel: usize,
) -> Result<Option<PointerOffset>, ZeroCopyReclaimError>
    ensures pair { pair_of_sender sender.new ≡ pair_of_sender sender.old }
{
    assert!(rt; channel < sender.number_of_channels());
    sender.reclaim(ChannelId::new(channel))
}

/// Receives on a channel.
pub(crate) fn receive<R: Abort + Wait>(
    rt: &R,
    receiver: &mut SharedReceiver,
    channel: usize,
) -> Result<Option<PointerOffset>, ZeroCopyReceiveError>
    ensures pair { pair_of_receiver receiver.new ≡ pair_of_receiver receiver.old }
{
    assert!(rt; channel < receiver.number_of_channels());
    receiver.receive(rt, ChannelId::new(channel))
}

/// Releases an offset on a channel.
pub(crate) fn release(
    rt: &impl Abort,
    receiver: &mut SharedReceiver,
    ptr: PointerOffset,
    channel: usize,
) -> Result<(), ZeroCopyReleaseError>
    ensures pair { pair_of_receiver receiver.new ≡ pair_of_receiver receiver.old }
{
    let channel_id = ChannelId::new(channel);
    assert!(rt; channel < receiver.number_of_channels());
    assert!(rt; receiver.borrow_count(channel_id) > 0);
    receiver.release(ptr, channel_id)
}

/// How many offsets are borrowed from a channel.
pub(crate) fn borrow_count(rt: &impl Abort, receiver: &SharedReceiver, channel: usize) -> usize {
    assert!(rt; channel < receiver.number_of_channels());
    receiver.borrow_count(ChannelId::new(channel))
}
