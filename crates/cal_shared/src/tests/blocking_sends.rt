//! Blocking sends on one thread: on a full channel, each end of the turns and each answer of a handler.
ghost use Rattle.std.specs.Prelude.{ℕ, ◌<◌, ◌^◌};

use crate::tests::calls::{may_send, pair, send, settings};
use crate::{SharedReceiver, SharedSender};
use cal_alloc::PointerOffset;
use cal_connection::{
    BackpressureToReceiverAction, CHANNEL_STATE_OPEN, ChannelId, Clock, FixedClock,
    ZeroCopySendError,
};
use std::alloc::Global;
use std::process::Abort;
use std::sync::Wait;
use std::test::Fail;

/// A clock that shows one number first and another from then on.
#[derive(Debug, Drop)]
struct TwoTicks {
    first: u64,
    later: u64,
    has_shown: bool,
}

impl Clock for TwoTicks {
    fn ticks(&mut self) -> u64 {
        if self.has_shown {
            return self.later;
        }
        self.has_shown = true;
        self.first
    }
}

/// A pair whose queue holds one offset, which is sent.
fn full_pair<R: Abort>(rt: &R, alloc: Global) -> Result<(SharedSender, SharedReceiver), Fail> {
    let (mut sender, receiver) = pair(alloc, &settings(1, 1, 2, false))?;
    assert!(rt; send(rt, &mut sender, PointerOffset::new(0), 0) == Ok(None));
    Ok((sender, receiver))
}

/// What the blocking send of the second sample answers where the handler and the clock are these.
fn send_blocking<R: Abort + Wait, F: Fn(u64, u64) -> BackpressureToReceiverAction + Drop, C: Clock>(
    rt: &R,
    sender: &mut SharedSender,
    handler: F,
    action: BackpressureToReceiverAction,
    clock: &mut C,
) -> Result<Option<PointerOffset>, ZeroCopySendError>
    requires { (retry ticks : ℕ) → retry < 2 ^ 64 → ticks < 2 ^ 64 → F.pre handler retry ticks }
{
    let ptr = PointerOffset::new(8);
    assert!(rt; may_send(sender, ptr, 8, 0));
    sender.blocking_send(rt, ptr, 8, ChannelId::new(0), handler, action, clock)
}

#[test]
fn a_queue_with_room_is_sent_to_at_once(rt: HostRuntime) -> Result<(), Fail> {
    let (mut sender, _receiver) = pair(rt.alloc(), &settings(2, 1, 2, false))?;
    let answer = send_blocking(
        &rt,
        &mut sender,
        |_, _| BackpressureToReceiverAction::DiscardPointerOffsetAndFail,
        BackpressureToReceiverAction::Retry,
        &mut FixedClock,
    );
    assert!(rt; answer == Ok(None));
    Ok(())
}

#[test]
fn a_handler_can_let_the_send_fail(rt: HostRuntime) -> Result<(), Fail> {
    let (mut sender, _receiver) = full_pair(&rt, rt.alloc())?;
    let answer = send_blocking(
        &rt,
        &mut sender,
        |_, _| BackpressureToReceiverAction::DiscardPointerOffsetAndFail,
        BackpressureToReceiverAction::Retry,
        &mut FixedClock,
    );
    assert!(rt; answer == Err(ZeroCopySendError::UnableToDeliver));
    Ok(())
}

#[test]
fn a_closed_channel_ends_the_turns(rt: HostRuntime) -> Result<(), Fail> {
    let (mut sender, mut receiver) = full_pair(&rt, rt.alloc())?;
    assert!(rt; receiver.number_of_channels() == 1);
    receiver.close_channel(ChannelId::new(0), CHANNEL_STATE_OPEN);
    let answer = send_blocking(
        &rt,
        &mut sender,
        |_, _| BackpressureToReceiverAction::DiscardPointerOffsetAndFail,
        BackpressureToReceiverAction::Retry,
        &mut FixedClock,
    );
    assert!(rt; answer == Err(ZeroCopySendError::ChannelIsClosed));
    Ok(())
}

#[test]
fn a_receiver_that_left_ends_the_turns(rt: HostRuntime) -> Result<(), Fail> {
    let (mut sender, mut receiver) = full_pair(&rt, rt.alloc())?;
    assert!(rt; !receiver.leave(&rt));
    let answer = send_blocking(
        &rt,
        &mut sender,
        |_, _| BackpressureToReceiverAction::DiscardPointerOffsetAndFail,
        BackpressureToReceiverAction::Retry,
        &mut FixedClock,
    );
    assert!(rt; answer == Err(ZeroCopySendError::NoConnectedReceiverAndBufferIsFull));
    Ok(())
}

#[test]
fn the_action_for_the_strategy_can_end_the_turns(rt: HostRuntime) -> Result<(), Fail> {
    for action in [
        BackpressureToReceiverAction::FollowBackpressureyStrategy,
        BackpressureToReceiverAction::DiscardPointerOffset,
        BackpressureToReceiverAction::DiscardPointerOffsetAndFail,
    ] {
        let (mut sender, _receiver) = full_pair(&rt, rt.alloc())?;
        let answer = send_blocking(
            &rt,
            &mut sender,
            |_, _| BackpressureToReceiverAction::FollowBackpressureyStrategy,
            action,
            &mut FixedClock,
        );
        assert!(rt; answer == Err(ZeroCopySendError::ReceiveBufferFull));
    }
    Ok(())
}

#[test]
fn a_handler_can_retry_twice_and_give_up(rt: HostRuntime) -> Result<(), Fail> {
    let (mut sender, _receiver) = full_pair(&rt, rt.alloc())?;
    let answer = send_blocking(
        &rt,
        &mut sender,
        |retry, _| {
            if retry < 2 {
                BackpressureToReceiverAction::Retry
            } else {
                BackpressureToReceiverAction::DiscardPointerOffset
            }
        },
        BackpressureToReceiverAction::DiscardPointerOffsetAndFail,
        &mut FixedClock,
    );
    assert!(rt; answer == Err(ZeroCopySendError::ReceiveBufferFull));
    Ok(())
}

/// What a handler answers that expects these ticks.
fn answer_at(expected: u64, ticks: u64) -> BackpressureToReceiverAction {
    if ticks == expected {
        BackpressureToReceiverAction::DiscardPointerOffset
    } else {
        BackpressureToReceiverAction::DiscardPointerOffsetAndFail
    }
}

#[test]
fn a_handler_sees_the_elapsed_ticks(rt: HostRuntime) -> Result<(), Fail> {
    for (later, elapsed) in [(14, 4), (3, 0)] {
        let mut clock = TwoTicks {
            first: 10,
            later,
            has_shown: false,
        };
        let (mut sender, _receiver) = full_pair(&rt, rt.alloc())?;
        let answer = send_blocking(
            &rt,
            &mut sender,
            |_, ticks| answer_at(elapsed, ticks),
            BackpressureToReceiverAction::Retry,
            &mut clock,
        );
        assert!(rt; answer == Err(ZeroCopySendError::ReceiveBufferFull));
    }
    Ok(())
}
