//! The chunk to which a pointer leads, and the marks of lent buckets.
ghost use Rattle.std.specs.Prelude.{◌≡◌, ◌<◌, ◌≤◌, ◌+◌, ◌*◌, ◌^◌, ◌&&◌, nat_lt, length, vec_len, slice_index_or, slice_set};
ghost use Rattle.cal_alloc.specs.PointerOffset.{segment_of, pointer_offset};
ghost use Rattle.cal_queue.specs.UsedChunks.{capacity_of, contains, none_used, after_insertion, after_removal};
ghost use Rattle.cal_resizable.specs.Memory.{HasAll};
ghost use Rattle.cal_transport.specs.ChunkEntry.{owners_of};
ghost use Rattle.cal_transport.specs.Pointed.{PointsTo, HasPlace};

use crate::transport::chunk_entry::{ChunkEntry, Found, Owners, entry_at};
use crate::transport::parts::{MemoryRegistry, TransportMemory};
use cal_alloc::{PointerOffset, SegmentId};
use cal_queue::used_chunk_list::UsedChunkList;

/// The entry of the chunk at a pointer.
pub(crate) fn pointed_entry(
    entries: &[ChunkEntry],
    owners: &[Owners],
    memory: &TransportMemory,
    reg: &MemoryRegistry,
    pointer: PointerOffset,
) -> Found
    requires has { HasAll reg.now memory.now }
    requires points { PointsTo reg.now memory.now entries.now (owners_of owners.now (segment_of pointer)) pointer }
    ensures found { (p : PointsTo reg.now memory.now entries.now (owners_of owners.now (segment_of pointer)) pointer) →
        (result.index ≡ p.index) × (result.entry ≡ p.entry) }
{
    let segment = pointer.segment_id();
    let bucket = pointer.offset() / memory.bucket_size(reg, segment);
    entry_at(entries, owners, segment.value(), bucket)
}

/// The pointer to a bucket of a segment that the memory has.
pub(crate) fn pointer_at(
    memory: &TransportMemory,
    reg: &MemoryRegistry,
    segment: u8,
    bucket: usize,
) -> PointerOffset
    requires has { HasAll reg.now memory.now }
    requires place { HasPlace reg.now memory.now segment bucket }
    ensures pointer { (p : HasPlace reg.now memory.now segment bucket) →
        result ≡ pointer_offset (bucket * p.segment.allocator.buckets.size) segment }
{
    let segment_id = SegmentId::new(segment);
    let size = memory.bucket_size(reg, segment_id);
    PointerOffset::from_offset_and_segment_id(bucket * size, segment_id)
}

/// The number by which a bucket of a segment stands in the lists of lent buckets.
pub(crate) fn mark_of(segment: u8, samples: usize, bucket: usize) -> usize
    requires small { segment * samples + bucket < 2 ^ 63 }
    ensures mark { result ≡ segment * samples + bucket }
{
    segment as usize * samples + bucket
}

/// A bucket is lent out on a channel.
pub(crate) fn lend(lent: &mut Vec<UsedChunkList>, channel: usize, mark: usize)
    requires channel { channel < vec_len lent.old }
    requires mark { mark < capacity_of (slice_index_or lent.old.items channel (none_used 0)) }
    ensures lent { lent.new.items ≡ slice_set lent.old.items channel
        (after_insertion (slice_index_or lent.old.items channel (none_used 0)) mark) }
{
    lent[channel].insert(mark);
}

/// A bucket isn't lent out on a channel any more.
pub(crate) fn unlend(lent: &mut Vec<UsedChunkList>, channel: usize, mark: usize)
    requires channel { channel < vec_len lent.old }
    requires mark { mark < capacity_of (slice_index_or lent.old.items channel (none_used 0)) }
    ensures lent { lent.new.items ≡ slice_set lent.old.items channel
        (after_removal (slice_index_or lent.old.items channel (none_used 0)) mark) }
{
    lent[channel].remove(mark);
}

/// Whether the chunk of an entry is lent out on a channel. The connection can name each chunk that is in transit; the
/// others aren't looked up.
pub(crate) fn is_lent(
    lent: &[UsedChunkList],
    channel: usize,
    entry: ChunkEntry,
    samples: usize,
) -> bool
    requires channel { channel < length lent.now }
    requires mark { 0 < entry.transits →
        entry.segment * samples + entry.bucket < capacity_of (slice_index_or lent.now channel (none_used 0)) }
    requires small { capacity_of (slice_index_or lent.now channel (none_used 0)) ≤ 2 ^ 63 }
    ensures lent { result ≡ (nat_lt 0 entry.transits
        && contains (slice_index_or lent.now channel (none_used 0)) (entry.segment * samples + entry.bucket)) }
{
    entry.transits > 0 && lent[channel].contains(mark_of(entry.segment, samples, entry.bucket))
}
