//! What a receiver has of one channel: its ends of the two rings, and how many offsets it borrows.
ghost use Rattle.std.specs.Prelude.{◌≡◌, ◌<◌, ◌≤◌};
ghost use Rattle.cal_connection.specs.Words.{receiver_bit};
ghost use Rattle.cal_connection.specs.declared.settings.ConnectionSettings.{ConnectionSettings};
ghost use Rattle.cal_shared.specs.Channels.{FitsReceiver, borrow_count};
ghost use Rattle.cal_shared.specs.Receiving.{LooksForData, Receives, Releases, release_error};

use crate::shared_port::PortEnd;
use crate::words::RECEIVER_BIT;
use cal_alloc::PointerOffset;
use cal_connection::{ZeroCopyReceiveError, ZeroCopyReleaseError};
use cal_queue::completion_ring::PutSeat;
use cal_queue::push_refusal::PushRefusal;
use cal_queue::submission_ring::TakeSeat;
use std::marker::Model;
use std::sync::Wait;

/// What a receiver has of one channel.
#[derive(Drop)]
pub struct ReceivingEnd {
    /// The end of the ring of offsets that are on their way from the sender.
    pub(crate) submission: TakeSeat,
    /// The end of the ring of offsets that go back to it.
    pub(crate) completion: PutSeat,
    /// How many offsets were received and not released.
    pub(crate) borrow_count: usize,
}

impl Model for ReceivingEnd {
    ghost use Rattle.std.specs.Prelude.{◌≡◌, ◌+◌, length};
    ghost use Rattle.cal_queue.specs.CompletionCalls.{put_pass};
    ghost use Rattle.cal_queue.specs.SubmissionCalls.{take_pass};
    ghost use Rattle.cal_shared.specs.Channels.{ReceivingChannel};

    ghost Value = { ReceivingChannel };

    ghost view = { λ e. record {
      rings = record {
        submission = e.submission.seat.table_id;
        completion = e.completion.seat.table_id;
      };
      submission = take_pass e.submission;
      completion = put_pass e.completion;
    } };

    ghost invariant = { λ e.
        e.borrow_count + length (put_pass e.completion).put ≡ length (take_pass e.submission).received };
}

impl PortEnd for ReceivingEnd {
    ghost Fits = { FitsReceiver };

    ghost bit = { receiver_bit };

    ghost rings = { λ e. e.rings };

    fn port_bit() -> u8 {
        RECEIVER_BIT
    }
}

/// Why nothing is released, by the completion ring's refusal.
fn release_error(refusal: PushRefusal) -> ZeroCopyReleaseError
    ensures value { result ≡ release_error refusal }
{
    match refusal {
        PushRefusal::Full => ZeroCopyReleaseError::RetrieveBufferFull,
        PushRefusal::PositionsUsedUp => ZeroCopyReleaseError::PositionsUsedUp,
    }
}

impl ReceivingEnd {
    /// Takes the oldest queued offset, where fewer than `limit` are borrowed.
    pub(crate) fn receive<R: Wait>(
        &mut self,
        rt: &R,
        limit: usize,
    ) -> Result<Option<PointerOffset>, ZeroCopyReceiveError>
        requires within { borrow_count self.old ≤ limit }
        ensures received { Receives limit result self.old self.new }
        ensures kept { (settings : ConnectionSettings) → settings.max_borrowed_samples ≡ limit
            → FitsReceiver settings self.old → FitsReceiver settings self.new }
        ensures rings { self.new.rings ≡ self.old.rings }
    {
        if self.borrow_count >= limit {
            return Err(ZeroCopyReceiveError::ReceiveWouldExceedMaxBorrowValue);
        }
        let Some(value) = self.submission.pop(rt) else {
            return Ok(None);
        };
        self.borrow_count += 1;
        Ok(Some(PointerOffset::from_value(value)))
    }

    /// Gives an offset back to the sender, where at least one is borrowed.
    pub(crate) fn release(&mut self, ptr: PointerOffset) -> Result<(), ZeroCopyReleaseError>
        requires borrowed { 0 < borrow_count self.old }
        ensures released { Releases ptr result self.old self.new }
        ensures kept { (settings : ConnectionSettings) → FitsReceiver settings self.old
            → FitsReceiver settings self.new }
        ensures rings { self.new.rings ≡ self.old.rings }
    {
        if let Err(refusal) = self.completion.push(ptr.as_value()) {
            return Err(release_error(refusal));
        }
        self.borrow_count -= 1;
        Ok(())
    }

    /// Whether an offset is queued, by one look.
    pub(crate) fn has_data(&mut self) -> bool
        ensures looked { LooksForData result self.old self.new }
        ensures kept { (settings : ConnectionSettings) → FitsReceiver settings self.old
            → FitsReceiver settings self.new }
        ensures rings { self.new.rings ≡ self.old.rings }
    {
        self.submission.has_value()
    }

    /// How many offsets are borrowed.
    pub(crate) fn borrow_count(&self) -> usize
        ensures value { result ≡ borrow_count self.now }
    {
        self.borrow_count
    }
}
