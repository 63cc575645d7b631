//! A channel of a connection. Ported from `zero_copy_connection/common.rs` of iceoryx2-cal 0.9.3.
ghost use Rattle.std.specs.Prelude.{◌≡◌, ◌<◌, ◌≤◌, ◌/◌, ◌^◌, not, length, IfOk, if◌then◌else◌};
ghost use Rattle.cal_alloc.specs.PointerOffset.{offset_of, segment_of};
ghost use Rattle.cal_queue.specs.FirstFrom.{IsFirstFrom};
ghost use Rattle.cal_queue.specs.UsedChunks.{capacity_of};
ghost use Rattle.cal_connection.specs.Channel.{after_acquire, segment_at, send_answer, after_send, receive_answer, after_receive, release_answer, after_release, reclaim_answer, after_reclaim, is_empty, is_full, is_used, with_word, new_channel};
ghost use Rattle.cal_connection.specs.Settings.{completion_size, IsClamped};

use crate::acquisition::empty_segments;
use crate::errors::{
    ZeroCopyReceiveError, ZeroCopyReclaimError, ZeroCopyReleaseError, ZeroCopySendError,
};
use crate::segment_details::{SegmentDetails, enter, take_back};
use crate::settings::ConnectionSettings;
use cal_alloc::PointerOffset;
use cal_queue::index_queue::IndexQueue;
use cal_queue::safely_overflowing_index_queue::SafelyOverflowingIndexQueue;
use std::alloc::{AllocError, Global};
use std::marker::Model;

/// The queues, the used entries and the word of a channel.
#[derive(Debug, Drop)]
pub struct Channel {
    /// The offsets that were sent and not yet received.
    submission: SafelyOverflowingIndexQueue,
    /// The offsets that were released and not yet reclaimed.
    completion: IndexQueue,
    /// The used entries by their segments' numbers.
    segments: Vec<SegmentDetails>,
    /// What state the channel is in.
    word: u64,
}

impl Model for Channel {
    ghost use Rattle.cal_connection.specs.Channel.{ChannelEntry};

    ghost Value = { ChannelEntry };

    ghost view = { λ c. record {
      submission = c.submission;
      completion = c.completion;
      segments = c.segments.items;
      word = c.word;
    } };
}

impl Channel {
    /// A channel with these settings, with empty queues and no used entry. The error says that memory ran out.
    pub(crate) fn new(
        alloc: Global,
        settings: &ConnectionSettings,
        word: u64,
    ) -> Result<Self, AllocError>
        requires clamped { IsClamped settings.now }
        requires fits { completion_size settings.now < 2 ^ 63 }
        ensures new { IfOk result (λ channel. channel ≡ new_channel settings.now word) }
    {
        let mut segments = Vec::with_capacity(alloc, settings.number_of_segments as usize)?;
        for _ in 0..settings.number_of_segments {
            segments.push(SegmentDetails::new(alloc, settings.number_of_samples)?)?;
        }
        Ok(Channel {
            submission: SafelyOverflowingIndexQueue::new(alloc, settings.buffer_size)?,
            completion: IndexQueue::new(alloc, settings.completion_size())?,
            segments,
            word,
        })
    }

    /// The used entries by their segments' numbers.
    pub(crate) fn segments(&self) -> &[SegmentDetails]
        ensures value { result.now ≡ self.now.segments }
    {
        &self.segments
    }

    /// Takes all samples out of use.
    pub(crate) fn empty_used(&mut self)
        ensures emptied { self.new ≡ after_acquire self.old }
    {
        empty_segments(&mut self.segments);
    }

    /// The word.
    pub(crate) fn word(&self) -> u64
        ensures value { result ≡ self.now.word }
    {
        self.word
    }

    /// Gives the channel another word.
    pub(crate) fn set_word(&mut self, word: u64)
        ensures set { self.new ≡ with_word self.old word }
    {
        self.word = word;
    }

    /// Whether the sample of an index below the segment's is in use.
    pub(crate) fn is_used(&self, segment: usize, index: usize) -> bool
        requires segment { segment < length self.now.segments }
        requires index { index < capacity_of (segment_at self.now.segments segment).used }
        ensures value { result ≡ is_used self.now.segments segment index }
    {
        self.segments[segment].used.contains(index)
    }

    /// The first sample of a segment, from this index on, that is in use.
    pub(crate) fn next_used(&self, segment: usize, from: usize) -> Option<usize>
        requires { segment < length self.now.segments }
        ensures first { IsFirstFrom (is_used self.now.segments segment) from result }
    {
        self.segments[segment].used.next(from)
    }

    /// Whether no offset is queued.
    pub(crate) fn is_empty(&self) -> bool
        ensures value { result ≡ is_empty self.now.submission }
    {
        self.submission.is_empty()
    }

    /// Whether as many offsets are queued as may be.
    pub(crate) fn is_full(&self) -> bool
        ensures value { result ≡ is_full self.now.submission }
    {
        self.submission.is_full()
    }

    /// Sends an offset, whose sample has that size in bytes. What leaves a full queue for it is given back.
    pub(crate) fn try_send(
        &mut self,
        overflow: bool,
        ptr: PointerOffset,
        sample_size: usize,
    ) -> Result<Option<PointerOffset>, ZeroCopySendError>
        requires size { 0 < sample_size }
        requires segment { segment_of ptr < length self.old.segments }
        requires index { offset_of ptr / sample_size
            < capacity_of (segment_at self.old.segments (segment_of ptr)).used }
        ensures answer { result ≡ send_answer overflow self.old ptr sample_size }
        ensures sent { self.new ≡ after_send overflow self.old ptr sample_size }
    {
        if !overflow && self.submission.is_full() {
            return Err(ZeroCopySendError::ReceiveBufferFull);
        }
        enter(&mut self.segments, ptr, sample_size);
        let Some(oldest) = self.submission.push(ptr.as_value()) else {
            return Ok(None);
        };
        let oldest = PointerOffset::from_value(oldest);
        if !take_back(&mut self.segments, oldest) {
            return Err(ZeroCopySendError::ConnectionCorrupted);
        }
        Ok(Some(oldest))
    }

    /// Takes the oldest queued offset, where fewer than `limit` are borrowed.
    pub(crate) fn receive(
        &mut self,
        limit: usize,
        count: usize,
    ) -> Result<Option<PointerOffset>, ZeroCopyReceiveError>
        ensures answer { result ≡ receive_answer limit count self.old }
        ensures received { self.new ≡ after_receive limit count self.old }
        ensures below { IfOk result (λ _. count < limit) }
    {
        if count >= limit {
            return Err(ZeroCopyReceiveError::ReceiveWouldExceedMaxBorrowValue);
        }
        Ok(self.submission.pop().map(PointerOffset::from_value))
    }

    /// Gives an offset back to the sender.
    pub(crate) fn release(&mut self, ptr: PointerOffset) -> Result<(), ZeroCopyReleaseError>
        ensures answer { result ≡ release_answer self.old }
        ensures released { self.new ≡ after_release self.old ptr }
    {
        if !self.completion.push(ptr.as_value()) {
            return Err(ZeroCopyReleaseError::RetrieveBufferFull);
        }
        Ok(())
    }

    /// Takes the oldest offset that the receiver gave back.
    pub(crate) fn reclaim(&mut self) -> Result<Option<PointerOffset>, ZeroCopyReclaimError>
        ensures answer { result ≡ reclaim_answer self.old }
        ensures reclaimed { self.new ≡ after_reclaim self.old }
    {
        let Some(returned) = self.completion.pop() else {
            return Ok(None);
        };
        let returned = PointerOffset::from_value(returned);
        if !take_back(&mut self.segments, returned) {
            return Err(ZeroCopyReclaimError::ReceiverReturnedCorruptedPointerOffset);
        }
        Ok(Some(returned))
    }
}
