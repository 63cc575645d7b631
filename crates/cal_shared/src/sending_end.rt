//! What a sender has of one channel: its ends of the two rings, and the samples that are in use.
ghost use Rattle.std.specs.Prelude.{◌≡◌, ◌<◌, ◌≤◌, ◌/◌, ◌^◌, length, map, replicate, IfOk, MatchBool};
ghost use Rattle.cal_alloc.specs.PointerOffset.{offset_of, segment_of};
ghost use Rattle.cal_queue.specs.UsedChunks.{capacity_of};
ghost use Rattle.cal_queue.specs.Callback.{LeadsTo, MayRunOver};
ghost use Rattle.cal_connection.specs.Acquisition.{FitsSegments, used_in_segments};
ghost use Rattle.cal_connection.specs.Channel.{is_used, new_segment, segment_at};
ghost use Rattle.cal_connection.specs.Words.{sender_bit};
ghost use Rattle.cal_connection.specs.declared.settings.ConnectionSettings.{ConnectionSettings};
ghost use Rattle.cal_shared.specs.Acquiring.{after_acquire};
ghost use Rattle.cal_shared.specs.Channels.{FitsSender};
ghost use Rattle.cal_shared.specs.Sending.{Reclaims, SeesFull, SeesRoom, TriesToSend, send_error};

use crate::acquisition::{call_on_segments, empty_segments};
use crate::shared_port::PortEnd;
use crate::used_samples::{enter, is_used, judge};
use crate::words::SENDER_BIT;
use cal_alloc::PointerOffset;
use cal_connection::{SegmentDetails, ZeroCopyReclaimError, ZeroCopySendError};
use cal_queue::completion_ring::GetSeat;
use cal_queue::push_refusal::PushRefusal;
use cal_queue::submission_ring::SendSeat;
use std::marker::Model;

/// What a sender has of one channel.
#[derive(Drop)]
pub struct SendingEnd {
    /// The end of the ring of offsets that are on their way to the receiver.
    pub(crate) submission: SendSeat,
    /// The end of the ring of offsets that come back from it.
    pub(crate) completion: GetSeat,
    /// The samples that are in use, by the numbers of their segments.
    pub(crate) segments: Vec<SegmentDetails>,
}

impl Model for SendingEnd {
    ghost use Rattle.cal_queue.specs.CompletionCalls.{get_pass};
    ghost use Rattle.cal_queue.specs.SubmissionCalls.{send_pass};
    ghost use Rattle.cal_shared.specs.Channels.{SendingChannel};

    ghost Value = { SendingChannel };

    ghost view = { λ e. record {
      rings = record {
        submission = e.submission.seat.table_id;
        completion = e.completion.seat.table_id;
      };
      submission = send_pass e.submission;
      completion = get_pass e.completion;
      segments = e.segments.items;
    } };
}

impl PortEnd for SendingEnd {
    ghost Fits = { FitsSender };

    ghost bit = { sender_bit };

    ghost rings = { λ e. e.rings };

    fn port_bit() -> u8 {
        SENDER_BIT
    }
}

/// Why nothing is sent, by the submission ring's refusal.
fn send_error(refusal: PushRefusal) -> ZeroCopySendError
    ensures value { result ≡ send_error refusal }
{
    match refusal {
        PushRefusal::Full => ZeroCopySendError::ReceiveBufferFull,
        PushRefusal::PositionsUsedUp => ZeroCopySendError::PositionsUsedUp,
    }
}

impl SendingEnd {
    /// Sends an offset, whose sample has that size in bytes. What overflows for it is given back.
    pub(crate) fn try_send(
        &mut self,
        overflow: bool,
        ptr: PointerOffset,
        sample_size: usize,
    ) -> Result<Option<PointerOffset>, ZeroCopySendError>
        requires size { 0 < sample_size }
        requires segment { segment_of ptr < length self.old.segments }
        requires index { offset_of ptr / sample_size
            < capacity_of (segment_at self.old.segments (segment_of ptr)).used }
        ensures sent { TriesToSend overflow ptr sample_size result self.old self.new }
        ensures kept { (settings : ConnectionSettings) → FitsSender settings self.old → FitsSender settings self.new }
        ensures rings { self.new.rings ≡ self.old.rings }
    {
        let back = match self.submission.push(ptr.as_value(), overflow) {
            Ok(back) => back,
            Err(refusal) => return Err(send_error(refusal)),
        };
        enter(&mut self.segments, ptr, sample_size);
        judge(
            &mut self.segments,
            back,
            ZeroCopySendError::ConnectionCorrupted,
        )
    }

    /// Whether fewer offsets are queued than may be, by one look.
    pub(crate) fn has_room(&mut self) -> bool
        ensures looked { MatchBool result (SeesRoom self.old self.new) (SeesFull self.old self.new) }
        ensures kept { (settings : ConnectionSettings) → FitsSender settings self.old → FitsSender settings self.new }
        ensures rings { self.new.rings ≡ self.old.rings }
        ensures samples { self.new.segments ≡ self.old.segments }
    {
        self.submission.has_room()
    }

    /// Whether the sample of an offset is in use.
    pub(crate) fn is_used(&self, ptr: PointerOffset, sample_size: usize) -> bool
        requires size { 0 < sample_size }
        requires segment { segment_of ptr < length self.now.segments }
        requires index { offset_of ptr / sample_size
            < capacity_of (segment_at self.now.segments (segment_of ptr)).used }
        ensures value { result ≡ is_used self.now.segments (segment_of ptr) (offset_of ptr / sample_size) }
    {
        is_used(&self.segments, ptr, sample_size)
    }

    /// Takes the oldest offset that the receiver released. Its sample isn't in use any more; one that names none is an
    /// error, and is gone.
    pub(crate) fn reclaim(&mut self) -> Result<Option<PointerOffset>, ZeroCopyReclaimError>
        ensures reclaimed { Reclaims result self.old self.new }
        ensures kept { (settings : ConnectionSettings) → FitsSender settings self.old → FitsSender settings self.new }
        ensures rings { self.new.rings ≡ self.old.rings }
    {
        let returned = self.completion.pop();
        judge(
            &mut self.segments,
            returned,
            ZeroCopyReclaimError::ReceiverReturnedCorruptedPointerOffset,
        )
    }

    /// Calls a callback on the offset of each sample that is in use, and hands it back.
    pub(crate) fn call_on_used<F: FnMut(PointerOffset)>(&self, callback: F) -> F
        requires numbered { length self.now.segments ≤ 256 }
        requires fits { FitsSegments self.now.segments }
        requires callable { MayRunOver F.FnMut callback (used_in_segments 0 self.now.segments) }
        ensures called { LeadsTo F.FnMut callback (used_in_segments 0 self.now.segments) result }
    {
        call_on_segments(&self.segments, callback)
    }

    /// Takes all samples out of use.
    pub(crate) fn empty_used(&mut self)
        ensures emptied { self.new ≡ after_acquire self.old }
    {
        empty_segments(&mut self.segments);
    }
}
