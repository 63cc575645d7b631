//! What a transport can be told to do.

use crate::bytes::Bytes;

/// A command to a transport. A chunk is named by the place of the loan that made it in the list of commands, from one.
#[derive(Debug, PartialEq, Eq, Drop)]
pub enum Command {
    /// The sender loans a chunk of at least this size and alignment, both in bytes.
    Loan {
        size: usize,
        alignment: usize,
    },
    /// The sender writes bytes into a loaned chunk that it hasn't sent yet, `at` bytes from its start.
    Write {
        chunk: usize,
        at: usize,
        bytes: Bytes,
    },
    /// The sender sends a loaned chunk on a channel.
    Send {
        channel: usize,
        chunk: usize,
    },
    /// The receiver borrows the oldest chunk that is queued on a channel.
    Receive {
        channel: usize,
    },
    /// The receiver reads `length` bytes of a chunk that it has borrowed, `at` bytes from its start.
    Read {
        channel: usize,
        chunk: usize,
        at: usize,
        length: usize,
    },
    /// The receiver gives a borrowed chunk back.
    Release {
        channel: usize,
        chunk: usize,
    },
    /// The sender takes back the oldest chunk that the receiver gave back on a channel.
    Reclaim {
        channel: usize,
    },
    /// The sender ends its loan of a chunk.
    Discard {
        chunk: usize,
    },
    /// Both sides tell what memory they have.
    Count,
}
