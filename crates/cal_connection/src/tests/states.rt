//! The states of channels.
ghost use Rattle.cal_storage.specs.Holding.{Holds};

use crate::tests::ends::open_sender;
use crate::{
    CHANNEL_STATE_CLOSED, CHANNEL_STATE_OPEN, ChannelId, ChannelState, ChannelStateNewError,
    Sender, SharedManagementData, ZeroCopyPortDetails,
};
use cal_storage::Registry;
use cal_storage::dynamic_storage::process_local;
use std::process::Abort;
use std::test::Fail;

type InProcess = process_local::Storage<SharedManagementData>;

/// Whether channel 0 is in a state.
fn has_state(
    rt: &impl Abort,
    reg: &Registry<SharedManagementData>,
    sender: &Sender<InProcess>,
    state: ChannelState,
) -> bool
    requires { Holds reg.now 1 sender.now.handle }
{
    assert!(rt; sender.number_of_channels(reg) > 0);
    sender.has_channel_state(reg, ChannelId::new(0), state)
}

/// Puts channel 0 into a state, and answers whether it was closed.
fn set_state(
    rt: &impl Abort,
    reg: &mut Registry<SharedManagementData>,
    sender: &Sender<InProcess>,
    state: ChannelState,
) -> bool
    requires { Holds reg.old 1 sender.now.handle }
    ensures open { Holds reg.new 1 sender.now.handle }
{
    assert!(rt; sender.number_of_channels(reg) > 0);
    sender.set_channel_state(reg, ChannelId::new(0), state)
}

/// Closes channel 0, where it is in a state.
fn close_channel(
    rt: &impl Abort,
    reg: &mut Registry<SharedManagementData>,
    sender: &Sender<InProcess>,
    state: ChannelState,
)
    requires { Holds reg.old 1 sender.now.handle }
    ensures open { Holds reg.new 1 sender.now.handle }
{
    assert!(rt; sender.number_of_channels(reg) > 0);
    sender.close_channel(reg, ChannelId::new(0), state);
}

/// A closed channel doesn't even have the closed state, since the state is compared without the bit of the hint.
#[test]
fn a_closed_channel_has_no_state(rt: HostRuntime) -> Result<(), Fail> {
    let mut reg = Registry::new(rt.alloc());
    let sender = open_sender(rt.alloc(), &mut reg)?;
    assert!(rt; has_state(&rt, &reg, &sender, CHANNEL_STATE_OPEN));
    close_channel(&rt, &mut reg, &sender, CHANNEL_STATE_OPEN);
    assert!(rt; !has_state(&rt, &reg, &sender, CHANNEL_STATE_OPEN));
    assert!(rt; !has_state(&rt, &reg, &sender, CHANNEL_STATE_CLOSED));
    Ok(())
}

/// A state is set on a closed channel alone.
#[test]
fn a_closed_channel_gets_a_state(rt: HostRuntime) -> Result<(), Fail> {
    let state = ChannelState::new(5)?;
    let mut reg = Registry::new(rt.alloc());
    let sender = open_sender(rt.alloc(), &mut reg)?;
    assert!(rt; !set_state(&rt, &mut reg, &sender, state));
    close_channel(&rt, &mut reg, &sender, CHANNEL_STATE_OPEN);
    assert!(rt; set_state(&rt, &mut reg, &sender, state));
    assert!(rt; has_state(&rt, &reg, &sender, state));
    Ok(())
}

/// A channel keeps its state where the other side is asked to disconnect.
#[test]
fn a_hint_leaves_the_state(rt: HostRuntime) -> Result<(), Fail> {
    let channel = ChannelId::new(0);
    let mut reg = Registry::new(rt.alloc());
    let sender = open_sender(rt.alloc(), &mut reg)?;
    assert!(rt; sender.number_of_channels(&reg) > 0);
    sender.set_disconnect_hint(&mut reg, channel, CHANNEL_STATE_OPEN);
    assert!(rt; has_state(&rt, &reg, &sender, CHANNEL_STATE_OPEN));
    assert!(rt; sender.number_of_channels(&reg) > 0);
    assert!(rt; sender.has_disconnect_hint(&reg, channel, CHANNEL_STATE_OPEN));
    Ok(())
}

#[test]
fn states_go_up_to_a_greatest_number(rt: HostRuntime) -> Result<(), Fail> {
    let greatest = ChannelState::new(4611686018427387904)?;
    assert!(rt; greatest.value() == 4611686018427387904);
    assert!(rt; ChannelState::max_value() == 4611686018427387904);
    assert!(rt;
        matches!(
            ChannelState::new(4611686018427387905),
            Err(ChannelStateNewError::ValueOutOfBounds)
        )
    );
    assert!(rt; CHANNEL_STATE_CLOSED.value() == 18446744073709551615);
    Ok(())
}
