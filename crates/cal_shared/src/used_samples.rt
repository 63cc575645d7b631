//! The samples that are in use on a channel, by the numbers of their segments.
ghost use Rattle.std.specs.Prelude.{◌≡◌, ◌<◌, ◌/◌, Some, length, replicate, IfOk, if◌then◌else◌};
ghost use Rattle.cal_alloc.specs.PointerOffset.{offset_of, segment_of};
ghost use Rattle.cal_queue.specs.UsedChunks.{capacity_of};
ghost use Rattle.cal_connection.specs.Channel.{after_return, is_used, names_used, names_used_entry, new_segment, return_answer, segment_at, with_entry, with_used, without_used};

use cal_alloc::PointerOffset;
use cal_connection::{ConnectionSettings, SegmentDetails};
use cal_queue::used_chunk_list::UsedChunkList;
use std::alloc::{AllocError, Global};

/// The segments of a new channel, of which no sample is in use. The error says that memory ran out.
pub(crate) fn new_segments(
    alloc: Global,
    settings: &ConnectionSettings,
) -> Result<Vec<SegmentDetails>, AllocError>
    ensures new { IfOk result (λ segments.
        segments.items ≡ replicate settings.now.number_of_segments (new_segment settings.now)) }
{
    let mut segments = Vec::with_capacity(alloc, settings.number_of_segments as usize)?;
    for _ in 0..settings.number_of_segments {
        segments.push(SegmentDetails {
            used: UsedChunkList::new(alloc, settings.number_of_samples)?,
            sample_size: 0,
        })?;
    }
    Ok(segments)
}

/// Whether the sample at an offset, of that size in bytes, is in use.
pub(crate) fn is_used(segments: &[SegmentDetails], ptr: PointerOffset, sample_size: usize) -> bool
    requires size { 0 < sample_size }
    requires segment { segment_of ptr < length segments.now }
    requires index { offset_of ptr / sample_size < capacity_of (segment_at segments.now (segment_of ptr)).used }
    ensures value { result ≡ is_used segments.now (segment_of ptr) (offset_of ptr / sample_size) }
{
    let details = &segments[ptr.segment_id().value() as usize];
    details.used.contains(ptr.offset() / sample_size)
}

/// The sample of this index, of that size in bytes, is in use from now on.
fn enter_sample(details: &mut SegmentDetails, sample_size: usize, index: usize)
    requires { index < capacity_of details.old.used }
    ensures entered { details.new ≡ with_used details.old sample_size index }
{
    details.sample_size = sample_size;
    details.used.insert(index);
}

/// The sample at an offset, of that size in bytes, is in use from now on.
pub(crate) fn enter(segments: &mut [SegmentDetails], ptr: PointerOffset, sample_size: usize)
    requires size { 0 < sample_size }
    requires segment { segment_of ptr < length segments.old }
    requires index { offset_of ptr / sample_size < capacity_of (segment_at segments.old (segment_of ptr)).used }
    ensures entered { segments.new ≡ with_entry segments.old ptr sample_size }
{
    enter_sample(
        &mut segments[ptr.segment_id().value() as usize],
        sample_size,
        ptr.offset() / sample_size,
    );
}

/// Takes the sample at an offset in bytes out of use, and answers whether there was such a sample in use.
fn take_sample_back(details: &mut SegmentDetails, offset: usize) -> bool
    ensures named { result ≡ names_used details.old offset }
    ensures taken { details.new
        ≡ (if names_used details.old offset then without_used details.old offset else details.old) }
{
    if details.sample_size == 0 || offset % details.sample_size != 0 {
        return false;
    }
    let index = offset / details.sample_size;
    if index >= details.used.capacity() || !details.used.contains(index) {
        return false;
    }
    details.used.remove(index)
}

/// Takes the sample that an offset names out of use, and answers whether it names one.
fn take_back(segments: &mut [SegmentDetails], ptr: PointerOffset) -> bool
    ensures named { result ≡ names_used_entry segments.old ptr }
    ensures taken { segments.new ≡ after_return segments.old (Some ptr) }
{
    let segment = ptr.segment_id().value() as usize;
    if segment >= segments.len() {
        return false;
    }
    take_sample_back(&mut segments[segment], ptr.offset())
}

/// Judges what came back, if anything did: its sample isn't in use any more, or it names none and is an error.
pub(crate) fn judge<E: Copy>(
    segments: &mut [SegmentDetails],
    returned: Option<u64>,
    error: E,
) -> Result<Option<PointerOffset>, E>
    ensures answer { result ≡ return_answer error segments.old returned }
    ensures used { segments.new ≡ after_return segments.old returned }
{
    let Some(returned) = returned else {
        return Ok(None);
    };
    let returned = PointerOffset::from_value(returned);
    if !take_back(segments, returned) {
        return Err(error);
    }
    Ok(Some(returned))
}
