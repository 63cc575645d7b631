//! The turns of a blocking send. Ported from `zero_copy_connection/common.rs` of iceoryx2-cal 0.9.3.
ghost use Rattle.std.specs.Prelude.{◌≡◌, ℕ, ◌<◌, ◌^◌};
ghost use Rattle.cal_connection.specs.Backpressure.{SomeAnswersEnd, AnswersObstacle, passes, ends_turns, asks_again, sets_fail_mark};

use crate::backpressure::{BackpressureToReceiverAction, Clock, Obstacle};
use crate::errors::ZeroCopySendError;
use std::sync::Wait;

/// Whether an answer ends the turns under the strategy's action.
fn ends_turns(strategy: BackpressureToReceiverAction, answer: BackpressureToReceiverAction) -> bool
    ensures value { result ≡ ends_turns strategy answer }
{
    match answer {
        BackpressureToReceiverAction::Retry => false,
        BackpressureToReceiverAction::FollowBackpressureyStrategy => {
            !matches!(strategy, BackpressureToReceiverAction::Retry)
        }
        BackpressureToReceiverAction::DiscardPointerOffset
        | BackpressureToReceiverAction::DiscardPointerOffsetAndFail => true,
    }
}

/// Whether the sender asks again after an answer.
fn asks_again(answer: BackpressureToReceiverAction) -> bool
    ensures value { result ≡ asks_again answer }
{
    matches!(answer, BackpressureToReceiverAction::Retry)
}

/// Whether the send fails by an answer.
fn sets_fail_mark(answer: BackpressureToReceiverAction) -> bool
    ensures value { result ≡ sets_fail_mark answer }
{
    matches!(
        answer,
        BackpressureToReceiverAction::DiscardPointerOffsetAndFail
    )
}

/// Calls the handler in the turn of this number.
fn ask<F: Fn(u64, u64) -> BackpressureToReceiverAction>(
    handler: &F,
    retry: u64,
    ticks: u64,
) -> BackpressureToReceiverAction
    requires { (retry ticks : ℕ) → retry < 2 ^ 64 → ticks < 2 ^ 64 → F.pre handler.now retry ticks }
    ensures allowed { F.post handler.now retry ticks result }
{
    handler(retry, ticks)
}

/// Asks the handler turn by turn until one of its answers ends the turns, and tells whether the send fails by it.
/// Nobody else acts on the registry while it is lent, so the queue stays full and nothing else ends them.
pub(crate) fn ask_until_end<R: Wait, F: Fn(u64, u64) -> BackpressureToReceiverAction, C: Clock>(
    rt: &R,
    handler: &F,
    strategy: BackpressureToReceiverAction,
    clock: &mut C,
) -> bool
    requires { (retry ticks : ℕ) → retry < 2 ^ 64 → ticks < 2 ^ 64 → F.pre handler.now retry ticks }
    ensures ended { SomeAnswersEnd (λ retry answer.
        (ticks : ℕ) × (ticks < 2 ^ 64) × F.post handler.now retry ticks answer) strategy result }
{
    let start = clock.ticks();
    let mut retry = 0u64;
    let mut retries_until_delivered = false;
    for _ in rt.forever() {
        if retries_until_delivered {
            continue;
        }
        let ticks = clock.ticks().saturating_sub(start);
        let answer = ask(handler, retry, ticks);
        if ends_turns(strategy, answer) {
            return sets_fail_mark(answer);
        }
        retries_until_delivered = !asks_again(answer);
        retry = retry.saturating_add(1);
    }
    unreachable!()
}

/// Does what a blocking send does before it sends, where this stands in its way: refuses, or asks the handler.
pub(crate) fn face<R: Wait, F: Fn(u64, u64) -> BackpressureToReceiverAction, C: Clock>(
    rt: &R,
    obstacle: Obstacle,
    handler: &F,
    strategy: BackpressureToReceiverAction,
    clock: &mut C,
) -> Result<(), ZeroCopySendError>
    requires { (retry ticks : ℕ) → retry < 2 ^ 64 → ticks < 2 ^ 64 → F.pre handler.now retry ticks }
    ensures answer { AnswersObstacle (λ retry answer.
        (ticks : ℕ) × (ticks < 2 ^ 64) × F.post handler.now retry ticks answer) strategy obstacle passes result }
{
    match obstacle {
        Obstacle::Nothing => Ok(()),
        Obstacle::NoReceiver => Err(ZeroCopySendError::NoConnectedReceiverAndBufferIsFull),
        Obstacle::ClosedChannel => Err(ZeroCopySendError::ChannelIsClosed),
        Obstacle::FullQueue => {
            if ask_until_end(rt, handler, strategy, clock) {
                return Err(ZeroCopySendError::UnableToDeliver);
            }
            Ok(())
        }
    }
}
