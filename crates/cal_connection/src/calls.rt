//! Calls of both ports of one connection, one after the other, with whatever the caller hands to them.
ghost use Rattle.std.specs.Prelude.{◌≡◌, ℕ, ◌+◌, ◌≤◌, true, length, IfOk, OnOk, OnErr};
ghost use Rattle.cal_storage.specs.Contents.{Has};
ghost use Rattle.cal_storage.specs.Holding.{KeepsHandles};
ghost use Rattle.cal_connection.specs.Calls.{AreJoined, MakesCall, ends_of, side_at, with_counts, replies_to, after_calls, calls_on, replies_on};
ghost use Rattle.cal_connection.specs.Port.{ReceiverEnd, IsSendable, channel_of, settings_at, with_port};
ghost use Rattle.cal_connection.specs.UsedPairs.{times_used, times_sent, times_back};

use crate::channel_id::ChannelId;
use crate::port_call::PortCall;
use crate::port_details::ZeroCopyPortDetails;
use crate::port_reply::PortReply;
use crate::receiver::{Receiver, ZeroCopyReceiver};
use crate::sender::{Sender, ZeroCopySender};
use crate::shared_management_data::SharedManagementData;
use cal_alloc::PointerOffset;
use cal_storage::{DynamicStorage, Registry};
use std::alloc::{AllocError, Global};

/// Makes calls of both ports of one connection, one after the other, and gives the reply to each. The calls are
/// whatever the caller likes: so this is what a receiver does that returns anything. It can harm no channel by what it
/// returns, and the other channels not at all: each answers as it would to its own calls alone, and nothing comes back
/// more often than it was sent, or was in use before. All memory is taken before the first call; the error says that it
/// ran out, and nothing has changed then.
#[tactic(auto, using(crate::proofs::Written::keeps_handles))]
pub fn run_calls<S: DynamicStorage<SharedManagementData>>(
    alloc: Global,
    sender: &mut Sender<S>,
    receiver: &mut Receiver<S>,
    reg: &mut Registry<SharedManagementData>,
    calls: &[PortCall],
) -> Result<Vec<PortReply>, AllocError>
    requires joined { AreJoined reg.old sender.old receiver.old }

    // The replies are those of the steps, one a call, and so is what is left of the entry and the borrow counts.
    ensures replies { IfOk result (λ replies.
        replies.items ≡ replies_to (ends_of reg.old receiver.old) calls.now) }
    ensures entry { OnOk result (reg.new ≡ with_port reg.old receiver.old.handle
        (after_calls (ends_of reg.old receiver.old) calls.now).port) }
    ensures counts { OnOk result (receiver.new ≡ with_counts receiver.old
        (after_calls (ends_of reg.old receiver.old) calls.now).borrow_counts) }

    // Each channel replies as to its own calls alone, and is left as by these.
    ensures own_replies { IfOk result (λ replies. (channel : ℕ) →
        replies_on channel calls.now replies.items
        ≡ replies_to (ends_of reg.old receiver.old) (calls_on channel calls.now)) }
    ensures own_channel { OnOk result ((channel : ℕ) →
        side_at (ends_of reg.new receiver.new) channel
        ≡ side_at (after_calls (ends_of reg.old receiver.old) (calls_on channel calls.now)) channel) }

    // On each channel the pairs in use afterwards, with each that came back, are those before with each that was sent.
    ensures pairs { IfOk result (λ replies. (channel segment index : ℕ) →
        times_used (channel_of reg.new receiver.old.handle channel).segments segment index
        + times_back channel segment index (ends_of reg.old receiver.old) calls.now replies.items
        ≡ times_used (channel_of reg.old receiver.old.handle channel).segments segment index
        + times_sent channel segment index (ends_of reg.old receiver.old) calls.now replies.items) }
    ensures sent_before { IfOk result (λ replies. (channel segment index : ℕ) →
        times_back channel segment index (ends_of reg.old receiver.old) calls.now replies.items
        ≤ times_used (channel_of reg.old receiver.old.handle channel).segments segment index
        + times_sent channel segment index (ends_of reg.old receiver.old) calls.now replies.items) }

    ensures joined { AreJoined reg.new sender.new receiver.new }
    ensures keeps { KeepsHandles reg.old reg.new }
    ensures port { sender.new ≡ sender.old }
    ensures unchanged { OnErr result (reg.new ≡ reg.old) }
    ensures counts_unchanged { OnErr result (receiver.new ≡ receiver.old) }
{
    // What the ports share is sound: none of its settings is zero.
    let channels = receiver.management_data(reg).settings().number_of_channels;
    prove!(channels > 0);
    let mut replies = Vec::with_capacity(alloc, calls.len())?;
    for call in calls {
        replies.push_reserved(run_call(sender, receiver, reg, *call));
    }
    Ok(replies)
}

/// Makes one call, where its condition holds.
fn run_call<S: DynamicStorage<SharedManagementData>>(
    sender: &mut Sender<S>,
    receiver: &mut Receiver<S>,
    reg: &mut Registry<SharedManagementData>,
    call: PortCall,
) -> PortReply
    requires joined { AreJoined reg.old sender.old receiver.old }
    ensures made { MakesCall reg.old receiver.old call result reg.new receiver.new }
    ensures joined { AreJoined reg.new sender.new receiver.new }
    ensures port { sender.new ≡ sender.old }
{
    match call {
        PortCall::Send { channel, ptr, size } => {
            send(sender, reg, channel, PointerOffset::from_value(ptr), size)
        }
        PortCall::Receive { channel } => receive(receiver, reg, channel),
        PortCall::Release { channel, ptr } => {
            release(receiver, reg, channel, PointerOffset::from_value(ptr))
        }
        PortCall::Reclaim { channel } => reclaim(sender, reg, channel),
    }
}

/// Whether an offset may be sent on a channel, as a sample of that size in bytes.
pub(crate) fn may_send(
    entry: &SharedManagementData,
    ptr: PointerOffset,
    sample_size: usize,
    channel: usize,
) -> bool
    ensures sendable { result ≡ true → IsSendable entry.now channel ptr sample_size }
    ensures all { IsSendable entry.now channel ptr sample_size → result ≡ true }
{
    let settings = entry.settings();
    channel < settings.number_of_channels
        && sample_size > 0
        && ptr.offset() % sample_size == 0
        && ptr.segment_id().value() < settings.number_of_segments
        && ptr.offset() / sample_size < settings.number_of_samples
        && !entry.is_in_use(ptr, sample_size, channel)
}

/// Sends an offset, where it may be sent.
fn send<S: DynamicStorage<SharedManagementData>>(
    sender: &mut Sender<S>,
    reg: &mut Registry<SharedManagementData>,
    channel: usize,
    ptr: PointerOffset,
    sample_size: usize,
) -> PortReply
    requires there { Has reg.old sender.old.handle }
    ensures made { (receiver : ReceiverEnd) → Has reg.old receiver.handle →
        sender.old.handle.id ≡ receiver.handle.id →
        MakesCall reg.old receiver (PortCall.Send channel ptr sample_size) result reg.new receiver }
    ensures port { sender.new ≡ sender.old }
{
    if !may_send(sender.management_data(reg), ptr, sample_size, channel) {
        return PortReply::Unsuited;
    }
    PortReply::of_send(sender.try_send(reg, ptr, sample_size, ChannelId::new(channel)))
}

/// Receives, where the channel is there.
fn receive<S: DynamicStorage<SharedManagementData>>(
    receiver: &mut Receiver<S>,
    reg: &mut Registry<SharedManagementData>,
    channel: usize,
) -> PortReply
    requires there { Has reg.old receiver.old.handle }
    requires counts { length receiver.old.borrow_counts
        ≡ (settings_at reg.old receiver.old.handle).number_of_channels }
    ensures made { MakesCall reg.old receiver.old (PortCall.Receive channel) result reg.new receiver.new }
{
    if channel >= receiver.number_of_channels(reg) {
        return PortReply::Unsuited;
    }
    PortReply::of_receive(receiver.receive(reg, ChannelId::new(channel)))
}

/// Releases an offset, where the channel is there and something is borrowed from it.
fn release<S: DynamicStorage<SharedManagementData>>(
    receiver: &mut Receiver<S>,
    reg: &mut Registry<SharedManagementData>,
    channel: usize,
    ptr: PointerOffset,
) -> PortReply
    requires there { Has reg.old receiver.old.handle }
    requires counts { length receiver.old.borrow_counts
        ≡ (settings_at reg.old receiver.old.handle).number_of_channels }
    ensures made { MakesCall reg.old receiver.old (PortCall.Release channel ptr) result reg.new receiver.new }
{
    if channel >= receiver.number_of_channels(reg) {
        return PortReply::Unsuited;
    }
    let channel_id = ChannelId::new(channel);
    if receiver.borrow_count(channel_id) == 0 {
        return PortReply::Unsuited;
    }
    PortReply::of_release(receiver.release(reg, ptr, channel_id))
}

/// Reclaims, where the channel is there.
fn reclaim<S: DynamicStorage<SharedManagementData>>(
    sender: &mut Sender<S>,
    reg: &mut Registry<SharedManagementData>,
    channel: usize,
) -> PortReply
    requires there { Has reg.old sender.old.handle }
    ensures made { (receiver : ReceiverEnd) → Has reg.old receiver.handle →
        sender.old.handle.id ≡ receiver.handle.id →
        MakesCall reg.old receiver (PortCall.Reclaim channel) result reg.new receiver }
    ensures port { sender.new ≡ sender.old }
{
    if channel >= sender.number_of_channels(reg) {
        return PortReply::Unsuited;
    }
    PortReply::of_reclaim(sender.reclaim(reg, ChannelId::new(channel)))
}
