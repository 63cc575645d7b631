//! What the answers of a handler lead to that is asked while a queue is full.
ghost use Rattle.std.specs.Prelude.{◌≡◌, ℕ, ◌<◌, ◌^◌};
ghost use Rattle.cal_connection.specs.Backpressure.{asks_again, ends_turns};
ghost use Rattle.cal_shared.specs.Turns.{outcome_of};

use cal_connection::{BackpressureToReceiverAction, ZeroCopySendError};

/// Whether an answer ends the turns under the strategy's action.
pub(crate) fn ends_turns(
    strategy: BackpressureToReceiverAction,
    answer: BackpressureToReceiverAction,
) -> bool
    ensures value { result ≡ ends_turns strategy answer }
{
    match answer {
        BackpressureToReceiverAction::Retry => false,
        BackpressureToReceiverAction::FollowBackpressureyStrategy => {
            !matches!(strategy, BackpressureToReceiverAction::Retry)
        }
        BackpressureToReceiverAction::DiscardPointerOffset
        | BackpressureToReceiverAction::DiscardPointerOffsetAndFail => true,
    }
}

/// Whether the handler is asked again after an answer that doesn't end the turns.
pub(crate) fn asks_again(answer: BackpressureToReceiverAction) -> bool
    ensures value { result ≡ asks_again answer }
{
    matches!(answer, BackpressureToReceiverAction::Retry)
}

/// What an answer leads to that ends the turns: a last try to send, or a refusal.
pub(crate) fn outcome_of(answer: BackpressureToReceiverAction) -> Result<(), ZeroCopySendError>
    ensures value { result ≡ outcome_of answer }
{
    match answer {
        BackpressureToReceiverAction::DiscardPointerOffsetAndFail => {
            Err(ZeroCopySendError::UnableToDeliver)
        }
        _ => Ok(()),
    }
}

/// Calls the handler in the turn of this number.
pub(crate) fn ask<F: Fn(u64, u64) -> BackpressureToReceiverAction>(
    handler: &F,
    retry: u64,
    ticks: u64,
) -> BackpressureToReceiverAction
    requires { (retry ticks : ℕ) → retry < 2 ^ 64 → ticks < 2 ^ 64 → F.pre handler.now retry ticks }
    ensures allowed { F.post handler.now retry ticks result }
{
    handler(retry, ticks)
}
