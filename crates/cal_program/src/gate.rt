//! What the two workers of a relay pass before each of their turns. It lets a test see that both are at work at once.

/// A worker of a relay.
#[derive(Debug, Clone, Copy, PartialEq, Eq)]
pub enum Side {
    /// The worker that sends.
    Sender,
    /// The worker that receives.
    Receiver,
}

/// What each worker passes before each of its turns. No contract speaks of it.
pub trait Gate {
    /// Called by a worker before its turn of this number, counted from 0.
    fn before(&self, side: Side, call: usize);
}

/// A gate that lets everybody pass at once.
#[derive(Debug, Clone, Copy)]
pub struct OpenGate;

impl Gate for OpenGate {
    fn before(&self, _side: Side, _call: usize) {}
}
