//! Samples sent from one thread to another over a pair of ports, and given back.
ghost use Rattle.std.specs.Prelude.{◌≡◌, ◌+◌, ◌<◌, IfOk};
ghost use Rattle.cal_shared.specs.Port.{pair_of_receiver, pair_of_sender};

use cal_alloc::PointerOffset;
use cal_connection::{CHANNEL_STATE_OPEN, ChannelId, ZeroCopyCreationError};
use cal_shared::{PortRest, PortSettings, SharedReceiver, SharedSender, rest, shared_pair};
use std::alloc::Global;
use std::sync::Wait;
use std::thread::{Threads, join};

// How many offsets wait in the queue at most.
const BUFFER: usize = 1024;

// How many samples there are: more than can be on their way.
const SAMPLES: usize = 4096;

/// Sends the offset of a sample, where that isn't in use and the queue has room, and answers whether it did.
fn send_one(sender: &mut SharedSender, index: usize) -> bool
    requires channel { 0 < sender.old.settings.number_of_channels }
    requires segment { 0 < sender.old.settings.number_of_segments }
    requires sample { index < sender.old.settings.number_of_samples }
    requires few { index < 4096 }
    ensures pair { pair_of_sender sender.new ≡ pair_of_sender sender.old }
{
    let channel_id = ChannelId::new(0);
    let ptr = PointerOffset::new(index);
    if sender.is_in_use(ptr, 1, channel_id) {
        return false;
    }
    sender.try_send(ptr, 1, channel_id).is_ok()
}

/// Sends that many offsets, each once its sample is back, and waits until all are.
fn send_all<R: Wait>(rt: &R, mut sender: SharedSender, count: u64) -> SharedSender
    requires channel { 0 < sender.settings.number_of_channels }
    requires segment { 0 < sender.settings.number_of_segments }
    requires samples { sender.settings.number_of_samples ≡ 4096 }
    ensures pair { pair_of_sender result ≡ pair_of_sender sender }
{
    let mut sent = 0u64;
    let mut reclaimed = 0u64;
    let mut index = 0;
    for _ in rt.forever() {
        if reclaimed >= count {
            break;
        }
        if let Ok(Some(_)) = sender.reclaim(ChannelId::new(0)) {
            reclaimed = reclaimed.saturating_add(1);
        }
        if sent < count && send_one(&mut sender, index) {
            sent += 1;
            index = if index + 1 == SAMPLES { 0 } else { index + 1 };
        }
    }
    sender
}

/// Gives an offset back, and tries again where there is no room for it.
fn give_back<R: Wait>(rt: &R, receiver: &mut SharedReceiver, ptr: PointerOffset)
    requires channel { 0 < receiver.old.settings.number_of_channels }
    ensures pair { pair_of_receiver receiver.new ≡ pair_of_receiver receiver.old }
{
    for _ in rt.forever() {
        if receiver.borrow_count(ChannelId::new(0)) == 0 {
            break;
        }
        if receiver.release(ptr, ChannelId::new(0)).is_ok() {
            break;
        }
    }
}

/// Receives that many offsets, and gives each back.
fn receive_all<R: Wait>(rt: &R, mut receiver: SharedReceiver, count: u64) -> SharedReceiver
    requires channel { 0 < receiver.settings.number_of_channels }
    ensures pair { pair_of_receiver result ≡ pair_of_receiver receiver }
{
    let mut released = 0u64;
    for _ in rt.forever() {
        if released >= count {
            break;
        }
        if let Ok(Some(ptr)) = receiver.receive(rt, ChannelId::new(0)) {
            give_back(rt, &mut receiver, ptr);
            released = released.saturating_add(1);
        }
    }
    receiver
}

/// One thread sends that many samples, and another receives them and gives them back, until all are. The answer is what
/// went over the channel.
pub fn send_to_reclaim<R: Threads + Wait + Sync>(
    rt: &R,
    alloc: Global,
    count: u64,
) -> Result<PortRest, ZeroCopyCreationError>
    ensures adds_up { IfOk result (λ all. all.sent ≡ all.received + all.returned + all.left) }
{
    let settings = PortSettings {
        buffer: BUFFER,
        borrow: 1,
        samples: SAMPLES,
        channels: 1,
        overflow: false,
        segments: 1,
        initial: CHANNEL_STATE_OPEN,
    };
    let (sender, receiver) = shared_pair(alloc, &settings)?;
    let (sender, receiver) = join(
        rt,
        || -> SharedSender
            requires channel { 0 < sender.settings.number_of_channels }
            requires segment { 0 < sender.settings.number_of_segments }
            requires samples { sender.settings.number_of_samples ≡ 4096 }
            ensures pair { pair_of_sender result ≡ pair_of_sender sender }
        { send_all(rt, sender, count) },
        || -> SharedReceiver
            requires channel { 0 < receiver.settings.number_of_channels }
            ensures pair { pair_of_receiver result ≡ pair_of_receiver receiver }
        { receive_all(rt, receiver, count) },
    );
    Ok(rest(sender, receiver))
}
