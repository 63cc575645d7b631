//! The two workers of a relay: one sends offsets over a channel and takes them back, and the other receives them and
//! gives them back. Each has its own port, and may work in a thread of its own.
ghost use Rattle.std.specs.Prelude.{ℕ, ◌≡◌, ◌<◌, ◌+◌, ◌^◌, ◌∷◌, ◌++◌, [], IsTrue};
ghost use Rattle.cal_shared.specs.Port.{pair_of_receiver, pair_of_sender};
ghost use Rattle.cal_shared.specs.Receiving.{borrow_count_at};
ghost use Rattle.cal_shared.specs.Rest.{received_at, released_at};
ghost use Rattle.cal_program.specs.Relay.{relay_settings};
ghost use Rattle.cal_program.specs.Workers.{ClosesRelay, HasEnded, HasGivenBackAll, HasReclaimedAll, HasSeenEnd, HasSent};

use crate::gate::{Gate, Side};
use crate::relay_form::RelayForm;
use cal_alloc::PointerOffset;
use cal_connection::{CHANNEL_STATE_OPEN, ChannelId};
use cal_shared::{SharedReceiver, SharedSender};
use std::sync::Wait;
use std::thread;

/// Takes back the oldest offset that the receiver gave back, and answers whether there was none.
fn reclaim_next(sender: &mut SharedSender) -> bool
    requires channel { 0 < sender.old.settings.number_of_channels }
    ensures none { IsTrue result → HasReclaimedAll sender.new }
    ensures sent { (count : ℕ) → HasSent count sender.old → HasSent count sender.new }
    ensures states { sender.new.states ≡ sender.old.states }
    ensures pair { pair_of_sender sender.new ≡ pair_of_sender sender.old }
{
    sender.reclaim(ChannelId::new(0)) == Ok(None)
}

/// Takes back what the receiver gave back so far.
fn reclaim_all<R: Wait>(rt: &R, sender: &mut SharedSender)
    requires channel { 0 < sender.old.settings.number_of_channels }
    ensures none { HasReclaimedAll sender.new }
    ensures sent { (count : ℕ) → HasSent count sender.old → HasSent count sender.new }
    ensures states { sender.new.states ≡ sender.old.states }
    ensures pair { pair_of_sender sender.new ≡ pair_of_sender sender.old }
{
    for _ in rt.forever() {
        if reclaim_next(sender) {
            break;
        }
    }
}

/// Sends the offset of this number, which follows those that were sent.
fn send_next(sender: &mut SharedSender, form: RelayForm, index: usize)
    requires settings { sender.old.settings ≡ relay_settings form }
    requires within { index < form.count }
    requires few { form.count < 2 ^ 32 }
    requires sent { HasSent index sender.old }
    ensures sent { HasSent (index + 1) sender.new }
    ensures states { sender.new.states ≡ sender.old.states }
    ensures pair { pair_of_sender sender.new ≡ pair_of_sender sender.old }
{
    let _ = sender.try_send(PointerOffset::new(index), 1, ChannelId::new(0));
}

/// Sends as many offsets as the form says, the lowest first, and closes the channel. Before each it passes the gate,
/// and takes back what the receiver gave back so far.
pub fn send_all<R: Wait, G: Gate>(
    rt: &R,
    mut sender: SharedSender,
    form: RelayForm,
    gate: &G,
) -> SharedSender
    requires settings { sender.settings ≡ relay_settings form }
    requires few { form.count < 2 ^ 32 }
    requires none_sent { HasSent 0 sender }
    ensures ended { HasEnded form.count result }
    ensures closed { ClosesRelay sender result }
    ensures pair { pair_of_sender result ≡ pair_of_sender sender }
{
    for index in 0..form.count {
        gate.before(Side::Sender, index);
        reclaim_all(rt, &mut sender);
        send_next(&mut sender, form, index);
    }
    sender.close_channel(ChannelId::new(0), CHANNEL_STATE_OPEN);
    sender
}

/// Gives a received offset back, and tries again where there is no room for it.
fn give_back<R: Wait>(rt: &R, receiver: &mut SharedReceiver, ptr: PointerOffset)
    requires channel { 0 < receiver.old.settings.number_of_channels }
    requires borrowed { 0 < borrow_count_at receiver.old 0 }
    ensures released { released_at receiver.new 0 ≡ released_at receiver.old 0 ++ ptr ∷ [] }
    ensures received { received_at receiver.new 0 ≡ received_at receiver.old 0 }
    ensures pair { pair_of_receiver receiver.new ≡ pair_of_receiver receiver.old }
{
    for _ in rt.forever() {
        match receiver.release(ptr, ChannelId::new(0)) {
            Ok(()) => break,
            Err(_) => thread::yield_now(),
        }
    }
}

/// A turn of the receiver: it looks whether the channel is closed, receives, and gives back what it received. The
/// answer is whether it saw the channel closed and received nothing then.
fn take_turn<R: Wait>(rt: &R, receiver: &mut SharedReceiver) -> bool
    requires channel { 0 < receiver.old.settings.number_of_channels }
    requires borrow { receiver.old.settings.max_borrowed_samples ≡ 1 }
    requires given_back { HasGivenBackAll receiver.old }
    ensures given_back { HasGivenBackAll receiver.new }
    ensures end { IsTrue result → HasSeenEnd receiver.new }
    ensures pair { pair_of_receiver receiver.new ≡ pair_of_receiver receiver.old }
{
    let is_closed = receiver.is_channel_closed(ChannelId::new(0));
    match receiver.receive(rt, ChannelId::new(0)) {
        Ok(Some(ptr)) => {
            give_back(rt, receiver, ptr);
            false
        }
        Ok(None) => is_closed,
        Err(_) => false,
    }
}

/// Receives, and gives back what it received, until a turn that saw the channel closed receives nothing. Before each
/// turn it passes the gate.
pub fn receive_all<R: Wait, G: Gate>(
    rt: &R,
    mut receiver: SharedReceiver,
    gate: &G,
) -> SharedReceiver
    requires channel { 0 < receiver.settings.number_of_channels }
    requires borrow { receiver.settings.max_borrowed_samples ≡ 1 }
    requires given_back { HasGivenBackAll receiver }
    ensures given_back { HasGivenBackAll result }
    ensures end { HasSeenEnd result }
    ensures pair { pair_of_receiver result ≡ pair_of_receiver receiver }
{
    let mut turn = 0usize;
    for _ in rt.forever() {
        gate.before(Side::Receiver, turn);
        if take_turn(rt, &mut receiver) {
            break;
        }
        turn = turn.saturating_add(1);
        thread::yield_now();
    }
    receiver
}
