//! What a transport answers.

use crate::bytes::Bytes;

/// Where a chunk lies.
#[derive(Clone, Copy, Debug, PartialEq, Eq)]
pub struct Slot {
    /// The chunk's name.
    pub chunk: usize,
    /// The number of its segment.
    pub segment: u8,
    /// The place of its bucket, in bytes from the segment's start.
    pub place: usize,
}

/// The memory that both sides have.
#[derive(Clone, Copy, Debug, PartialEq, Eq)]
pub struct Count {
    /// How many segments the sender's memory has.
    pub active: usize,
    /// How many segments the receiver's view has mapped.
    pub mapped: usize,
    /// The number of the segment that loans are served from.
    pub current: u8,
    /// The bucket size of that segment, in bytes.
    pub size: usize,
    /// How many buckets that segment has.
    pub buckets: u32,
}

/// Why a command was refused. A refused command changes nothing.
#[derive(Clone, Copy, Debug, PartialEq, Eq)]
pub enum Refusal {
    /// The alignment is no power of two.
    BadLayout,
    /// The alignment exceeds that of the static memory's buckets.
    ExceedsMaxSupportedAlignment,
    /// The size exceeds that of the static memory's buckets.
    SizeTooLarge,
    /// No bucket of the static memory is free.
    OutOfMemory,
    /// A further segment is needed, and the last number is in use.
    MaxReallocationsReached,
    /// A further segment is needed, and it would be too large.
    SizeOutOfRange,
    /// A further segment is needed, whose memory doesn't support its alignment.
    InternalError,
    /// The sender has no loan of that name.
    NotLoaned,
    /// The chunk was sent, so its bytes may be read already.
    WriteAfterSend,
    /// The bytes would pass the end of the chunk's bucket.
    OutsideChunk,
    /// The connection has no such channel, or it can't name the chunk's bucket.
    OutsideConnection,
    /// The chunk was sent on that channel and hasn't come back.
    AlreadyInTransit,
    /// As many chunks as the buffer has are queued on the channel, and they don't overflow.
    ReceiveBufferFull,
    /// The receiver has borrowed as many chunks from the channel as it may.
    ReceiveWouldExceedMaxBorrowValue,
    /// The receiver hasn't borrowed that chunk from the channel.
    NotBorrowed,
    /// The completion queue of the channel is full.
    RetrieveBufferFull,
}

/// What a command was answered with, or a chunk that is still in transit after the last command.
#[derive(Debug, PartialEq, Eq, Drop)]
pub enum Reply {
    /// The new chunk.
    Loaned(Slot),
    Written,
    /// The chunk that came back by overflow, if one did.
    Sent(Option<Slot>),
    /// The borrowed chunk, or none where no chunk was queued.
    Received(Option<Slot>),
    /// The bytes read.
    Shown(Bytes),
    Released,
    /// The chunk that came back, or none where no chunk was given back.
    Reclaimed(Option<Slot>),
    Discarded,
    Counted(Count),
    Refused(Refusal),
    /// A chunk in transit on a channel.
    Transit { channel: usize, slot: Slot },
}
