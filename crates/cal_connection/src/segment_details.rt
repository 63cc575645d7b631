//! What a channel keeps of a segment. Ported from `zero_copy_connection/common.rs` of iceoryx2-cal 0.9.3.
ghost use Rattle.std.specs.Prelude.{◌≡◌, ◌<◌, ◌/◌, length, IfOk, if◌then◌else◌};
ghost use Rattle.std.specs.Borrow.{sem};
ghost use Rattle.cal_alloc.specs.PointerOffset.{offset_of, segment_of};
ghost use Rattle.cal_queue.specs.UsedChunks.{capacity_of, contains, none_used};
ghost use Rattle.cal_connection.specs.Channel.{emptied, names_used, names_used_entry, with_used, with_entry, without_used, after_return, segment_at};

use cal_alloc::PointerOffset;
use cal_queue::used_chunk_list::UsedChunkList;
use std::alloc::{AllocError, Global};

/// Which samples of a segment are in use on a channel, and how large they are.
#[derive(Debug, Drop)]
pub struct SegmentDetails {
    /// The indices of the samples that are in use.
    pub used: UsedChunkList,
    /// The size in bytes of the segment's samples, as the last send told it; 0 before the first.
    pub sample_size: usize,
}

impl SegmentDetails {
    /// A segment of that many samples, none of which is in use.
    pub(crate) fn new(alloc: Global, number_of_samples: usize) -> Result<Self, AllocError>
        ensures new { IfOk result (λ details.
            details ≡ record { used = none_used number_of_samples; sample_size = 0 }) }
    {
        Ok(SegmentDetails {
            used: UsedChunkList::new(alloc, number_of_samples)?,
            sample_size: 0,
        })
    }

    /// The sample of this index, of that size in bytes, is in use from now on.
    fn enter(&mut self, sample_size: usize, index: usize)
        requires { index < capacity_of self.old.used }
        ensures entered { self.new ≡ with_used self.old sample_size index }
    {
        self.sample_size = sample_size;
        self.used.insert(index);
    }

    /// Takes the sample at an offset in bytes out of use, and answers whether there was such a sample in use.
    fn take_back(&mut self, offset: usize) -> bool
        ensures named { result ≡ names_used self.old offset }
        ensures taken { self.new ≡ (if names_used self.old offset then without_used self.old offset else self.old) }
    {
        if self.sample_size == 0 || offset % self.sample_size != 0 {
            return false;
        }
        let index = offset / self.sample_size;
        if index >= self.used.capacity() || !self.used.contains(index) {
            return false;
        }
        self.used.remove(index)
    }

    /// Takes all samples out of use; their size stays.
    pub(crate) fn empty(&mut self)
        ensures emptied { self.new ≡ emptied self.old }
    {
        self.used.remove_all(|_| {});
    }
}

/// The sample at an offset, of that size in bytes, is in use from now on.
pub(crate) fn enter(segments: &mut [SegmentDetails], ptr: PointerOffset, sample_size: usize)
    requires size { 0 < sample_size }
    requires segment { segment_of ptr < length segments.old }
    requires index { offset_of ptr / sample_size < capacity_of (segment_at segments.old (segment_of ptr)).used }
    ensures entered { segments.new ≡ with_entry segments.old ptr sample_size }
{
    segments[ptr.segment_id().value() as usize].enter(sample_size, ptr.offset() / sample_size);
}

/// Takes the entry that an offset names out of use, and answers whether it names one.
pub(crate) fn take_back(segments: &mut [SegmentDetails], ptr: PointerOffset) -> bool
    ensures named { result ≡ names_used_entry segments.old ptr }
    ensures taken { segments.new ≡ after_return segments.old (Some ptr) }
{
    let segment = ptr.segment_id().value() as usize;
    if segment >= segments.len() {
        return false;
    }
    segments[segment].take_back(ptr.offset())
}
