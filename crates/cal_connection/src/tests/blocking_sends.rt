//! Blocking sends on a full, connected and open channel, each answer of a handler and both kinds of clock.
ghost use Rattle.std.specs.Prelude.{ℕ, ◌<◌, ◌^◌};
ghost use Rattle.cal_connection.specs.Ends.{AreOpen};

use crate::tests::ends::{connect, send};
use crate::{
    BackpressureToReceiverAction, Builder, ChannelId, Clock, FixedClock, Receiver, Sender,
    SharedManagementData, ZeroCopyConnectionBuilder, ZeroCopyPortDetails, ZeroCopySendError,
    ZeroCopySender,
};
use cal_alloc::PointerOffset;
use cal_names::{FileName, NamedConceptBuilder};
use cal_storage::Registry;
use cal_storage::dynamic_storage::process_local;
use std::alloc::Global;
use std::process::Abort;
use std::sync::Wait;
use std::test::Fail;

type Storage = process_local::Storage<SharedManagementData>;

/// A clock that shows one number first and another from then on.
#[derive(Debug, Drop)]
struct TwoTicks {
    first: u64,
    later: u64,
    has_shown: bool,
}

impl Clock for TwoTicks {
    fn ticks(&mut self) -> u64 {
        if self.has_shown {
            return self.later;
        }
        self.has_shown = true;
        self.first
    }
}

/// What a blocking send of a second offset answers where the queue holds one, and the handler and the clock are these.
fn blocked<R: Abort + Wait, F: Fn(u64, u64) -> BackpressureToReceiverAction + Drop, C: Clock>(
    rt: &R,
    alloc: Global,
    handler: F,
    action: BackpressureToReceiverAction,
    clock: &mut C,
) -> Result<Result<Option<PointerOffset>, ZeroCopySendError>, Fail>
    requires { (retry ticks : ℕ) → retry < 2 ^ 64 → ticks < 2 ^ 64 → F.pre handler retry ticks }
{
    let name = FileName::new(b"connection").ok_or("a file name")?;
    let mut reg = Registry::new(alloc);
    let mut ends = connect::<Storage>(
        alloc,
        &mut reg,
        Builder::new(&name).buffer_size(1),
        Builder::new(&name).buffer_size(1),
    )?;
    assert!(rt;
        matches!(
            send(rt, &mut reg, &mut ends, PointerOffset::new(0), 8, 0),
            Ok(None)
        )
    );
    Ok(send_blocking(rt, &mut reg, &mut ends, handler, action, clock))
}

/// The blocking send of the second sample.
fn send_blocking<R: Abort + Wait, F: Fn(u64, u64) -> BackpressureToReceiverAction + Drop, C: Clock>(
    rt: &R,
    reg: &mut Registry<SharedManagementData>,
    ends: &mut (Sender<Storage>, Receiver<Storage>),
    handler: F,
    action: BackpressureToReceiverAction,
    clock: &mut C,
) -> Result<Option<PointerOffset>, ZeroCopySendError>
    requires open { AreOpen reg.old ends.old.0.handle ends.old.1.handle }
    requires callable { (retry ticks : ℕ) → retry < 2 ^ 64 → ticks < 2 ^ 64 → F.pre handler retry ticks }
{
    let ptr = PointerOffset::new(8);
    let channel = ChannelId::new(0);
    let settings = *ends.0.management_data(reg).settings();
    assert!(rt; 0 < settings.number_of_channels);
    assert!(rt; ptr.offset() % 8 == 0);
    assert!(rt; ptr.segment_id().value() < settings.number_of_segments);
    assert!(rt; ptr.offset() / 8 < settings.number_of_samples);
    assert!(rt; !ends.0.is_in_use(reg, ptr, 8, channel));
    ends.0
        .blocking_send(rt, reg, ptr, 8, channel, handler, action, clock)
}

#[test]
fn a_handler_can_let_the_send_fail(rt: HostRuntime) -> Result<(), Fail> {
    let answer = blocked(
        &rt,
        rt.alloc(),
        |_, _| BackpressureToReceiverAction::DiscardPointerOffsetAndFail,
        BackpressureToReceiverAction::Retry,
        &mut FixedClock,
    )?;
    assert!(rt; matches!(answer, Err(ZeroCopySendError::UnableToDeliver)));
    Ok(())
}

#[test]
fn the_action_for_the_strategy_can_end_the_turns(rt: HostRuntime) -> Result<(), Fail> {
    for action in [
        BackpressureToReceiverAction::FollowBackpressureyStrategy,
        BackpressureToReceiverAction::DiscardPointerOffset,
        BackpressureToReceiverAction::DiscardPointerOffsetAndFail,
    ] {
        let answer = blocked(
            &rt,
            rt.alloc(),
            |_, _| BackpressureToReceiverAction::FollowBackpressureyStrategy,
            action,
            &mut FixedClock,
        )?;
        assert!(rt; matches!(answer, Err(ZeroCopySendError::ReceiveBufferFull)));
    }
    Ok(())
}

#[test]
fn a_handler_can_retry_twice_and_give_up(rt: HostRuntime) -> Result<(), Fail> {
    let answer = blocked(
        &rt,
        rt.alloc(),
        |retry, _| {
            if retry < 2 {
                BackpressureToReceiverAction::Retry
            } else {
                BackpressureToReceiverAction::DiscardPointerOffset
            }
        },
        BackpressureToReceiverAction::DiscardPointerOffsetAndFail,
        &mut FixedClock,
    )?;
    assert!(rt; matches!(answer, Err(ZeroCopySendError::ReceiveBufferFull)));
    Ok(())
}

/// What a handler answers that expects these ticks.
fn answer_at(expected: u64, ticks: u64) -> BackpressureToReceiverAction {
    if ticks == expected {
        BackpressureToReceiverAction::DiscardPointerOffset
    } else {
        BackpressureToReceiverAction::DiscardPointerOffsetAndFail
    }
}

#[test]
fn a_handler_sees_the_elapsed_ticks(rt: HostRuntime) -> Result<(), Fail> {
    for (later, elapsed) in [(14, 4), (3, 0)] {
        let mut clock = TwoTicks {
            first: 10,
            later,
            has_shown: false,
        };
        let answer = blocked(
            &rt,
            rt.alloc(),
            |_, ticks| answer_at(elapsed, ticks),
            BackpressureToReceiverAction::Retry,
            &mut clock,
        )?;
        assert!(rt; matches!(answer, Err(ZeroCopySendError::ReceiveBufferFull)));
    }
    Ok(())
}
