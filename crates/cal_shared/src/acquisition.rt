//! How the samples that are in use are told, and taken out of use.
ghost use Rattle.std.specs.Prelude.{◌≡◌, ℕ, ◌≤◌, length, map, slice_index_or};
ghost use Rattle.cal_queue.specs.Callback.{LeadsTo, MayRunOver};
ghost use Rattle.cal_connection.specs.Acquisition.{FitsSegment, FitsSegments, used_in_segment, used_in_segments};
ghost use Rattle.cal_connection.specs.Channel.{emptied};
ghost use Rattle.cal_shared.specs.Acquiring.{FitsChannels, after_acquire, used_on_channels};

use crate::sending_end::SendingEnd;
use cal_alloc::{PointerOffset, SegmentId};
use cal_connection::SegmentDetails;

/// Calls a callback on the offset of each sample of a segment that is in use, the lowest first, and hands it back. It
/// costs the words of the used list and the samples in use.
fn call_on_segment<F: FnMut(PointerOffset)>(
    details: &SegmentDetails,
    segment_id: SegmentId,
    mut callback: F,
) -> F
    requires fits { FitsSegment details.now }
    requires callable { MayRunOver F.FnMut callback (used_in_segment segment_id details.now) }
    ensures called { LeadsTo F.FnMut callback (used_in_segment segment_id details.now) result }
{
    let capacity = details.used.capacity();
    let mut from = 0;
    'used: while let Some(index) = details.used.next(from) {
        prove!(index < capacity);
        let offset = index * details.sample_size;
        callback(PointerOffset::from_offset_and_segment_id(offset, segment_id));
        from = index + 1;
    }
    callback
}

/// Calls a callback on the offset of each sample of some segments that is in use, one segment after the other.
pub(crate) fn call_on_segments<F: FnMut(PointerOffset)>(
    segments: &[SegmentDetails],
    mut callback: F,
) -> F
    requires numbered { length segments.now ≤ 256 }
    requires fits { FitsSegments segments.now }
    requires callable { MayRunOver F.FnMut callback (used_in_segments 0 segments.now) }
    ensures called { LeadsTo F.FnMut callback (used_in_segments 0 segments.now) result }
{
    for segment in 0..segments.len() {
        let segment_id = SegmentId::new(segment as u8);
        callback = call_on_segment(&segments[segment], segment_id, callback);
    }
    callback
}

/// Takes all samples of a segment out of use; their size stays.
fn empty_segment(details: &mut SegmentDetails)
    ensures emptied { details.new ≡ emptied details.old }
{
    details.used.remove_all(|_| {});
}

/// Takes all samples of some segments out of use.
pub(crate) fn empty_segments(segments: &mut Vec<SegmentDetails>)
    ensures emptied { segments.new.items ≡ map emptied segments.old.items }
{
    for index in 0..segments.len() {
        empty_segment(&mut segments[index]);
    }
}

/// Calls a callback on the offset of each sample that is in use on some channels, one channel after the other.
pub(crate) fn call_on_channels<F: FnMut(PointerOffset)>(
    channels: &[SendingEnd],
    mut callback: F,
) -> F
    requires fits { FitsChannels channels.now }
    requires callable { MayRunOver F.FnMut callback (used_on_channels channels.now) }
    ensures called { LeadsTo F.FnMut callback (used_on_channels channels.now) result }
{
    for channel in 0..channels.len() {
        callback = channels[channel].call_on_used(callback);
    }
    callback
}

/// Takes all samples of some channels out of use.
pub(crate) fn empty_channels(channels: &mut Vec<SendingEnd>)
    ensures emptied { channels.new.items ≡ map after_acquire channels.old.items }
{
    for index in 0..channels.len() {
        channels[index].empty_used();
    }
}
