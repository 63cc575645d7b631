//! The replies to calls of both ports of a connection.
ghost use Rattle.std.specs.Prelude.{◌≡◌};
ghost use Rattle.cal_connection.specs.Calls.{sent_reply, received_reply, released_reply, reclaimed_reply};

use crate::errors::{
    ZeroCopyReceiveError, ZeroCopyReclaimError, ZeroCopyReleaseError, ZeroCopySendError,
};
use cal_alloc::PointerOffset;

/// The reply to a call of one of the ports. An offset is told as its number.
#[derive(Debug, Clone, Copy, PartialEq, Eq)]
pub enum PortReply {
    /// The offset was sent. What left the full queue for it came back.
    Sent(Option<u64>),
    /// `ReceiveBufferFull`: nothing was sent.
    Full,
    /// `ConnectionCorrupted`: the offset was sent, and what left the full queue for it names no sample in use.
    Broken,
    /// The oldest offset that was queued, if there was one; it is borrowed.
    Received(Option<u64>),
    /// `ReceiveWouldExceedMaxBorrowValue`: as many are borrowed as may be.
    OverLimit,
    /// The offset was given back.
    Released,
    /// `RetrieveBufferFull`: nothing was given back.
    CompletionFull,
    /// The oldest offset that was given back, if there was one; its sample isn't in use any more.
    Reclaimed(Option<u64>),
    /// `ReceiverReturnedCorruptedPointerOffset`: what was given back names no sample in use, and is gone.
    Corrupted,
    /// The condition of the call doesn't hold, and nothing has changed.
    Unsuited,
}

impl PortReply {
    /// The reply that stands for the answer to a send.
    pub(crate) fn of_send(answer: Result<Option<PointerOffset>, ZeroCopySendError>) -> Self
        ensures value { result ≡ sent_reply answer }
    {
        match answer {
            Ok(back) => PortReply::Sent(value_of(back)),
            Err(ZeroCopySendError::ReceiveBufferFull) => PortReply::Full,
            Err(_) => PortReply::Broken,
        }
    }

    /// The reply that stands for the answer to a receive.
    pub(crate) fn of_receive(answer: Result<Option<PointerOffset>, ZeroCopyReceiveError>) -> Self
        ensures value { result ≡ received_reply answer }
    {
        match answer {
            Ok(taken) => PortReply::Received(value_of(taken)),
            Err(_) => PortReply::OverLimit,
        }
    }

    /// The reply that stands for the answer to a release.
    pub(crate) fn of_release(answer: Result<(), ZeroCopyReleaseError>) -> Self
        ensures value { result ≡ released_reply answer }
    {
        match answer {
            Ok(()) => PortReply::Released,
            Err(_) => PortReply::CompletionFull,
        }
    }

    /// The reply that stands for the answer to a reclaim.
    pub(crate) fn of_reclaim(answer: Result<Option<PointerOffset>, ZeroCopyReclaimError>) -> Self
        ensures value { result ≡ reclaimed_reply answer }
    {
        match answer {
            Ok(back) => PortReply::Reclaimed(value_of(back)),
            Err(_) => PortReply::Corrupted,
        }
    }
}

/// The number of an offset, if there is one.
fn value_of(offset: Option<PointerOffset>) -> Option<u64>
    ensures value { result ≡ offset }
{
    Some(offset?.as_value())
}
