//! What is done where a queue is full, and for how long. Ported from `zero_copy_connection/mod.rs` of iceoryx2-cal
//! 0.9.3.

/// What a handler answers that is asked while the queue of a channel is full.
#[derive(Debug, Clone, Copy, PartialEq, Eq)]
pub enum BackpressureToReceiverAction {
    /// The action for the strategy decides.
    FollowBackpressureyStrategy,
    /// The sender looks again, and asks again where the queue is still full.
    Retry,
    /// The sender gives up.
    DiscardPointerOffset,
    /// The sender gives up, and the send fails.
    DiscardPointerOffsetAndFail,
}

/// What tells how much time has passed. No contract says what a clock shows.
pub trait Clock {
    /// The ticks that it shows.
    fn ticks(&mut self) -> u64;
}

/// A clock that stands still at 0.
#[derive(Debug, Clone, Copy, Drop)]
pub struct FixedClock;

impl Clock for FixedClock {
    fn ticks(&mut self) -> u64 {
        0
    }
}

/// What stands in the way of a send on a channel.
#[derive(Debug, Clone, Copy, PartialEq, Eq)]
pub enum Obstacle {
    /// There is room, or the connection overflows.
    Nothing,
    /// The queue is full, and one of the ports isn't there.
    NoReceiver,
    /// The queue is full, and the channel is closed.
    ClosedChannel,
    /// The queue is full.
    FullQueue,
}
