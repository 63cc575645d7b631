//! The words that both ports share, on one thread.
use crate::tests::calls::{pair, settings};
use crate::{PortEnd, SharedPort};
use cal_connection::{CHANNEL_STATE_CLOSED, CHANNEL_STATE_OPEN, ChannelId, ChannelState};
use std::process::Abort;
use std::test::Fail;

/// Channel 0, which every connection has.
const FIRST: usize = 0;

/// Closes channel 0, where it is in this state.
fn close<E: PortEnd>(rt: &impl Abort, port: &mut SharedPort<E>, state: ChannelState) {
    assert!(rt; FIRST < port.number_of_channels());
    port.close_channel(ChannelId::new(FIRST), state);
}

/// Asks the other side to disconnect on channel 0, where it is in this state.
fn ask_to_disconnect<E: PortEnd>(rt: &impl Abort, port: &mut SharedPort<E>, state: ChannelState) {
    assert!(rt; FIRST < port.number_of_channels());
    port.set_disconnect_hint(ChannelId::new(FIRST), state);
}

/// Puts channel 0 into this state, and answers whether it was closed.
fn set_state<E: PortEnd>(rt: &impl Abort, port: &mut SharedPort<E>, state: ChannelState) -> bool {
    assert!(rt; FIRST < port.number_of_channels());
    port.set_channel_state(ChannelId::new(FIRST), state)
}

/// Whether channel 0 is closed.
fn is_closed<E: PortEnd>(rt: &impl Abort, port: &mut SharedPort<E>) -> bool {
    assert!(rt; FIRST < port.number_of_channels());
    port.is_channel_closed(ChannelId::new(FIRST))
}

/// Whether channel 0 is in this state.
fn has_state<E: PortEnd>(rt: &impl Abort, port: &mut SharedPort<E>, state: ChannelState) -> bool {
    assert!(rt; FIRST < port.number_of_channels());
    port.has_channel_state(ChannelId::new(FIRST), state)
}

/// Whether channel 0 is in this state and the other side is asked to disconnect.
fn has_hint<E: PortEnd>(rt: &impl Abort, port: &mut SharedPort<E>, state: ChannelState) -> bool {
    assert!(rt; FIRST < port.number_of_channels());
    port.has_disconnect_hint(ChannelId::new(FIRST), state)
}

/// The word of channel 0.
fn word<E: PortEnd>(rt: &impl Abort, port: &mut SharedPort<E>) -> u64 {
    assert!(rt; FIRST < port.number_of_channels());
    port.channel_state(ChannelId::new(FIRST))
}

#[test]
fn both_ports_are_there_until_one_leaves(rt: HostRuntime) -> Result<(), Fail> {
    let (mut sender, mut receiver) = pair(rt.alloc(), &settings(1, 1, 1, false))?;
    assert!(rt; sender.is_connected());
    assert!(rt; !receiver.leave(&rt));
    assert!(rt; !sender.is_connected());
    assert!(rt; !receiver.leave(&rt));
    assert!(rt; sender.leave(&rt));
    Ok(())
}

#[test]
fn a_channel_is_closed_from_its_state(rt: HostRuntime) -> Result<(), Fail> {
    let (mut sender, mut receiver) = pair(rt.alloc(), &settings(1, 1, 1, false))?;
    close(&rt, &mut sender, ChannelState::new(5)?);
    assert!(rt; !is_closed(&rt, &mut receiver));
    close(&rt, &mut sender, CHANNEL_STATE_OPEN);
    assert!(rt; is_closed(&rt, &mut receiver));
    assert!(rt; !has_state(&rt, &mut receiver, CHANNEL_STATE_CLOSED));
    Ok(())
}

#[test]
fn a_channel_is_closed_with_the_hint(rt: HostRuntime) -> Result<(), Fail> {
    let (mut sender, mut receiver) = pair(rt.alloc(), &settings(1, 1, 1, false))?;
    ask_to_disconnect(&rt, &mut receiver, CHANNEL_STATE_OPEN);
    assert!(rt; has_hint(&rt, &mut sender, CHANNEL_STATE_OPEN));
    assert!(rt; has_state(&rt, &mut sender, CHANNEL_STATE_OPEN));
    close(&rt, &mut sender, CHANNEL_STATE_OPEN);
    assert!(rt; is_closed(&rt, &mut receiver));
    Ok(())
}

#[test]
fn only_a_closed_channel_gets_another_state(rt: HostRuntime) -> Result<(), Fail> {
    let (mut sender, mut receiver) = pair(rt.alloc(), &settings(1, 1, 1, false))?;
    let other = ChannelState::new(5)?;
    assert!(rt; !set_state(&rt, &mut sender, other));
    close(&rt, &mut sender, CHANNEL_STATE_OPEN);
    assert!(rt; set_state(&rt, &mut sender, other));
    assert!(rt; word(&rt, &mut receiver) == 5);
    Ok(())
}
