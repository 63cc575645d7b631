//! Why a call of a connection is refused. Ported from `zero_copy_connection/mod.rs` of iceoryx2-cal 0.9.3.
use thiserror::Error;

/// Why a port wasn't removed by force. The registry is as before.
#[derive(Debug, Clone, Copy, PartialEq, Eq, Hash, Error)]
pub enum ZeroCopyPortRemoveError {
    /// Kept by name, and never answered.
    #[error("ZeroCopyPortRemoveError::InternalError")]
    InternalError,
    /// The connection was made by another version of this crate.
    #[error("ZeroCopyPortRemoveError::VersionMismatch")]
    VersionMismatch,
    /// Kept by name, and never answered.
    #[error("ZeroCopyPortRemoveError::InsufficientPermissions")]
    InsufficientPermissions,
    /// There is no connection of this name, or the file name of its path would have more than 255 bytes.
    #[error("ZeroCopyPortRemoveError::DoesNotExist")]
    DoesNotExist,
}

/// Why a port wasn't created. The registry is as before.
#[derive(Debug, Clone, Copy, PartialEq, Eq, Hash, Error)]
pub enum ZeroCopyCreationError {
    /// Kept by name, and never answered.
    #[error("ZeroCopyCreationError::InternalError")]
    InternalError,
    /// The last port of the connection has left, and marked it.
    #[error("ZeroCopyCreationError::IsBeingCleanedUp")]
    IsBeingCleanedUp,
    /// The connection has a port of this side already.
    #[error("ZeroCopyCreationError::AnotherInstanceIsAlreadyConnected")]
    AnotherInstanceIsAlreadyConnected,
    /// Kept by name, and never answered.
    #[error("ZeroCopyCreationError::InsufficientPermissions")]
    InsufficientPermissions,
    /// The connection was made by another version of this crate.
    #[error("ZeroCopyCreationError::VersionMismatch")]
    VersionMismatch,
    /// Kept by name, and never answered.
    #[error("ZeroCopyCreationError::ConnectionMaybeCorrupted")]
    ConnectionMaybeCorrupted,
    /// Kept by name, and never answered.
    #[error("ZeroCopyCreationError::InvalidSampleSize")]
    InvalidSampleSize,
    /// The connection is still being made.
    #[error("ZeroCopyCreationError::InitializationNotYetFinalized")]
    InitializationNotYetFinalized,
    /// The connection was made with another buffer size.
    #[error("ZeroCopyCreationError::IncompatibleBufferSize")]
    IncompatibleBufferSize,
    /// The connection was made with another size of the completion queues.
    #[error("ZeroCopyCreationError::IncompatibleMaxBorrowedSamplesPerChannelSetting")]
    IncompatibleMaxBorrowedSamplesPerChannelSetting,
    /// One of the connection and the builder overflows safely, and the other doesn't.
    #[error("ZeroCopyCreationError::IncompatibleOverflowSetting")]
    IncompatibleOverflowSetting,
    /// The connection was made with another number of samples per segment.
    #[error("ZeroCopyCreationError::IncompatibleNumberOfSamples")]
    IncompatibleNumberOfSamples,
    /// The connection was made with another number of segments.
    #[error("ZeroCopyCreationError::IncompatibleNumberOfSegments")]
    IncompatibleNumberOfSegments,
    /// The connection was made with another number of channels.
    #[error("ZeroCopyCreationError::IncompatibleNumberOfChannels")]
    IncompatibleNumberOfChannels,
    /// The completion queue, or the lists of used entries together, would have 2^63 places or more.
    #[error("ZeroCopyCreationError::SizeOutOfRange")]
    SizeOutOfRange,
    /// The file name of the path would have more than 255 bytes.
    #[error("ZeroCopyCreationError::PathTooLong")]
    PathTooLong,
    /// There was no memory for the connection or the port.
    #[error("ZeroCopyCreationError::NoMemory")]
    NoMemory,
}

/// Why an offset wasn't sent. Nothing has changed, but after `ConnectionCorrupted`.
#[derive(Debug, Clone, Copy, PartialEq, Eq, Error)]
pub enum ZeroCopySendError {
    /// The oldest offset, which left the full queue, names no used entry. It is gone, and the new offset is queued and
    /// used.
    #[error("ZeroCopySendError::ConnectionCorrupted")]
    ConnectionCorrupted,
    /// The channel's queue is full, and the connection doesn't overflow.
    #[error("ZeroCopySendError::ReceiveBufferFull")]
    ReceiveBufferFull,
    /// The handler of a blocking send answered that the send fails.
    #[error("ZeroCopySendError::UnableToDeliver")]
    UnableToDeliver,
    /// Kept by name, and never answered.
    #[error("ZeroCopySendError::UsedChunkListFull")]
    UsedChunkListFull,
    /// The queue is full, and one of the ports isn't there.
    #[error("ZeroCopySendError::NoConnectedReceiverAndBufferIsFull")]
    NoConnectedReceiverAndBufferIsFull,
    /// The queue is full, and the channel is closed.
    #[error("ZeroCopySendError::ChannelIsClosed")]
    ChannelIsClosed,
    /// Kept by name, and never answered.
    #[error("ZeroCopySendError::InternalError")]
    InternalError,
    /// All positions of a ring of two threads are used up. No port of one thread answers it.
    #[error("ZeroCopySendError::PositionsUsedUp")]
    PositionsUsedUp,
}

/// Why no offset was received. Nothing has changed.
#[derive(Debug, Clone, Copy, PartialEq, Eq, Error)]
pub enum ZeroCopyReceiveError {
    /// As many offsets are borrowed from the channel as may be.
    #[error("ZeroCopyReceiveError::ReceiveWouldExceedMaxBorrowValue")]
    ReceiveWouldExceedMaxBorrowValue,
}

/// Why no offset was reclaimed.
#[derive(Debug, Clone, Copy, PartialEq, Eq, Error)]
pub enum ZeroCopyReclaimError {
    /// What the receiver returned names no used entry. It has left the completion queue, and nothing else has changed.
    #[error("ZeroCopyReclaimError::ReceiverReturnedCorruptedPointerOffset")]
    ReceiverReturnedCorruptedPointerOffset,
}

/// Why an offset wasn't released. Nothing has changed.
#[derive(Debug, Clone, Copy, PartialEq, Eq, Error)]
pub enum ZeroCopyReleaseError {
    /// The completion queue is full.
    #[error("ZeroCopyReleaseError::RetrieveBufferFull")]
    RetrieveBufferFull,
    /// All positions of a ring of two threads are used up. No port of one thread answers it.
    #[error("ZeroCopyReleaseError::PositionsUsedUp")]
    PositionsUsedUp,
}
