//! The blocking send, turn by turn.
ghost use Rattle.std.specs.Prelude.{◌≡◌, ℕ, ◌<◌, ◌^◌};
ghost use Rattle.cal_shared.specs.Port.{pair_of_sender};
ghost use Rattle.cal_shared.specs.Sending.{IsSendable, used_samples};
ghost use Rattle.cal_shared.specs.Turns.{AwaitsRoom, SeesObstacle, SendsBlocking, SomeTurns};

use crate::backpressure::{ask, asks_again, ends_turns, outcome_of};
use crate::sending_end::SendingEnd;
use crate::shared_port::SharedPort;
use cal_alloc::PointerOffset;
use cal_connection::{BackpressureToReceiverAction, ChannelId, Clock, Obstacle, ZeroCopySendError};
use std::sync::Wait;

impl SharedPort<SendingEnd> {
    // What stands in the way of a send on a channel that doesn't overflow, by one look at each word, and one at the
    // queue where both ports are there and the channel is open.
    fn look(&mut self, channel_id: ChannelId) -> Obstacle
        requires channel { channel_id < self.old.settings.number_of_channels }
        ensures seen { SeesObstacle channel_id result self.old self.new }
        ensures pair { pair_of_sender self.new ≡ pair_of_sender self.old }
        ensures samples { used_samples self.new ≡ used_samples self.old }
    {
        let is_connected = self.is_connected();
        let is_closed = self.is_channel_closed(channel_id);
        if !is_connected {
            return Obstacle::NoReceiver;
        }
        if is_closed {
            return Obstacle::ClosedChannel;
        }
        if self.has_room(channel_id) {
            return Obstacle::Nothing;
        }
        Obstacle::FullQueue
    }

    // Looks turn by turn, and asks the handler in each turn that finds the queue full, until a look or an answer ends
    // the turns. The error is why no send follows.
    fn take_turns<R: Wait, F: Fn(u64, u64) -> BackpressureToReceiverAction, C: Clock>(
        &mut self,
        rt: &R,
        channel_id: ChannelId,
        handler: &F,
        strategy: BackpressureToReceiverAction,
        clock: &mut C,
    ) -> Result<(), ZeroCopySendError>
        requires channel { channel_id < self.old.settings.number_of_channels }
        requires callable { (retry ticks : ℕ) → retry < 2 ^ 64 → ticks < 2 ^ 64 → F.pre handler.now retry ticks }
        ensures turns { SomeTurns (λ retry answer.
            (ticks : ℕ) × (ticks < 2 ^ 64) × F.post handler.now retry ticks answer)
            strategy channel_id result self.old self.new }
        ensures pair { pair_of_sender self.new ≡ pair_of_sender self.old }
        ensures samples { used_samples self.new ≡ used_samples self.old }
    {
        let start = clock.ticks();
        let mut retry = 0u64;
        let mut retries_until_delivered = false;
        for _ in rt.forever() {
            match self.look(channel_id) {
                Obstacle::Nothing => return Ok(()),
                Obstacle::NoReceiver => {
                    return Err(ZeroCopySendError::NoConnectedReceiverAndBufferIsFull);
                }
                Obstacle::ClosedChannel => return Err(ZeroCopySendError::ChannelIsClosed),
                Obstacle::FullQueue => {}
            }
            if retries_until_delivered {
                continue;
            }
            let ticks = clock.ticks().saturating_sub(start);
            let answer = ask(handler, retry, ticks);
            if ends_turns(strategy, answer) {
                return outcome_of(answer);
            }
            retries_until_delivered = !asks_again(answer);
            retry = retry.saturating_add(1);
        }
        unreachable!()
    }

    // Looks at the queue, and takes turns where it is full. The error is why no send follows.
    fn await_room<R: Wait, F: Fn(u64, u64) -> BackpressureToReceiverAction, C: Clock>(
        &mut self,
        rt: &R,
        channel_id: ChannelId,
        handler: &F,
        strategy: BackpressureToReceiverAction,
        clock: &mut C,
    ) -> Result<(), ZeroCopySendError>
        requires channel { channel_id < self.old.settings.number_of_channels }
        requires callable { (retry ticks : ℕ) → retry < 2 ^ 64 → ticks < 2 ^ 64 → F.pre handler.now retry ticks }
        ensures awaited { AwaitsRoom (λ retry answer.
            (ticks : ℕ) × (ticks < 2 ^ 64) × F.post handler.now retry ticks answer)
            strategy channel_id result self.old self.new }
        ensures pair { pair_of_sender self.new ≡ pair_of_sender self.old }
        ensures samples { used_samples self.new ≡ used_samples self.old }
    {
        if self.has_room(channel_id) {
            return Ok(());
        }
        self.take_turns(rt, channel_id, handler, strategy, clock)
    }

    /// Sends an offset as `try_send` does, and asks the handler what to do while the queue is full and the connection
    /// doesn't overflow, where both ports are there and the channel isn't closed. The handler is told the number of its
    /// earlier calls and the ticks that have passed since the first look; `action` is what
    /// `FollowBackpressureyStrategy` stands for. The call waits for the receiver for as long as the answers are to
    /// retry. A refused call sends nothing, save after `ConnectionCorrupted`, as in `try_send`.
    pub fn blocking_send<R: Wait, F: Fn(u64, u64) -> BackpressureToReceiverAction + Drop, C: Clock>(
        &mut self,
        rt: &R,
        ptr: PointerOffset,
        sample_size: usize,
        channel_id: ChannelId,
        handler: F,
        action: BackpressureToReceiverAction,
        clock: &mut C,
    ) -> Result<Option<PointerOffset>, ZeroCopySendError>
        requires sendable { IsSendable self.old channel_id ptr sample_size }
        requires callable { (retry ticks : ℕ) → retry < 2 ^ 64 → ticks < 2 ^ 64 → F.pre handler retry ticks }
        ensures sent { SendsBlocking (λ retry answer.
            (ticks : ℕ) × (ticks < 2 ^ 64) × F.post handler retry ticks answer)
            action channel_id self.old.settings.enable_safe_overflow ptr sample_size result self.old self.new }
        ensures pair { pair_of_sender self.new ≡ pair_of_sender self.old }
    {
        if self.has_enabled_safe_overflow() {
            return self.try_send(ptr, sample_size, channel_id);
        }
        self.await_room(rt, channel_id, &handler, action, clock)?;
        self.try_send(ptr, sample_size, channel_id)
    }
}
