//! Calls of both ports of a connection, as values.

/// A call of one of the ports. Channel, pointer and size are whatever the caller likes: a call whose condition doesn't
/// hold is answered as such.
#[derive(Debug, Clone, Copy, PartialEq, Eq)]
pub enum PortCall {
    /// The sender sends an offset on a channel, as a sample of that size in bytes.
    Send {
        channel: usize,
        ptr: u64,
        size: usize,
    },
    /// The receiver takes the oldest offset that is queued on a channel.
    Receive {
        channel: usize,
    },
    /// The receiver gives an offset back on a channel, whether or not it is one that was received.
    Release {
        channel: usize,
        ptr: u64,
    },
    /// The sender takes the oldest offset that was given back on a channel.
    Reclaim {
        channel: usize,
    },
}
