//! What changes in a transport's tables where a chunk is sent, comes back to the sender or is discarded. All of it is
//! over the tables alone, since they don't agree with the ports and the memory in between.

ghost use Rattle.std.specs.Prelude.{◌≡◌, ◌<◌, ◌+◌, ◌-◌, ◌^◌, ◌||◌, true, false, nat_lt, vec_len, vec_capacity, slice_index_or, slice_set};
ghost use Rattle.cal_alloc.specs.PointerOffset.{segment_of, offset_of};

use crate::reply::Slot;
use crate::transport::chunk_entry::{ChunkEntry, Found};
use cal_alloc::PointerOffset;

/// The chunk of an entry was sent, and is in transit on one channel more.
pub(crate) fn enter_channel(entries: &mut Vec<ChunkEntry>, found: Found)
    requires index { found.index < vec_len entries.old }
    requires small { found.entry.transits < 2 ^ 63 }
    ensures written { entries.new.items ≡ slice_set entries.old.items found.index
        (record found.entry { sent = true; transits = found.entry.transits + 1 }) }
    ensures room { vec_capacity entries.new ≡ vec_capacity entries.old }
{
    entries[found.index] = ChunkEntry {
        sent: true,
        transits: found.entry.transits + 1,
        ..found.entry
    };
}

/// The chunk of an entry isn't in transit any more on one channel where it was. Whether its bucket is kept: the chunk
/// is loaned, or another channel has it.
pub(crate) fn leave_channel(entries: &mut Vec<ChunkEntry>, found: Found) -> bool
    requires index { found.index < vec_len entries.old }
    requires transit { 0 < found.entry.transits }
    ensures written { entries.new.items ≡ slice_set entries.old.items found.index
        (record found.entry { transits = found.entry.transits - 1 }) }
    ensures room { vec_capacity entries.new ≡ vec_capacity entries.old }
    ensures kept { result ≡ (found.entry.loaned || nat_lt 0 (found.entry.transits - 1)) }
{
    let transits = found.entry.transits - 1;
    entries[found.index] = ChunkEntry {
        transits,
        ..found.entry
    };
    found.entry.loaned || transits > 0
}

/// A chunk is sent on a channel in the place of another, which isn't in transit there any more. Whether the bucket of
/// the other is kept.
pub(crate) fn take_place(entries: &mut Vec<ChunkEntry>, joining: Found, leaving: Found) -> bool
    requires joining { joining.index < vec_len entries.old }
    requires small { joining.entry.transits < 2 ^ 63 }
    requires leaving { leaving.index < vec_len entries.old }
    requires transit { 0 < leaving.entry.transits }
    ensures written { entries.new.items ≡ slice_set (slice_set entries.old.items joining.index
        (record joining.entry { sent = true; transits = joining.entry.transits + 1 })) leaving.index
        (record leaving.entry { transits = leaving.entry.transits - 1 }) }
    ensures room { vec_capacity entries.new ≡ vec_capacity entries.old }
    ensures kept { result ≡ (leaving.entry.loaned || nat_lt 0 (leaving.entry.transits - 1)) }
{
    enter_channel(entries, joining);
    leave_channel(entries, leaving)
}

/// The loan of the chunk of an entry ends.
pub(crate) fn end_loan(entries: &mut Vec<ChunkEntry>, found: Found)
    requires index { found.index < vec_len entries.old }
    ensures written { entries.new.items ≡ slice_set entries.old.items found.index
        (record found.entry { loaned = false }) }
    ensures room { vec_capacity entries.new ≡ vec_capacity entries.old }
{
    entries[found.index] = ChunkEntry {
        loaned: false,
        ..found.entry
    };
}

/// One more chunk is in transit on a channel.
pub(crate) fn count_more(transits: &mut Vec<usize>, channel: usize)
    requires channel { channel < vec_len transits.old }
    requires small { slice_index_or transits.old.items channel 0 < 2 ^ 63 }
    ensures counted { transits.new.items
        ≡ slice_set transits.old.items channel (slice_index_or transits.old.items channel 0 + 1) }
{
    transits[channel] += 1;
}

/// One chunk less is in transit on a channel.
pub(crate) fn count_less(transits: &mut Vec<usize>, channel: usize)
    requires channel { channel < vec_len transits.old }
    requires some { 0 < slice_index_or transits.old.items channel 0 }
    ensures counted { transits.new.items
        ≡ slice_set transits.old.items channel (slice_index_or transits.old.items channel 0 - 1) }
{
    transits[channel] -= 1;
}

/// Where the chunk of an entry lies, by its pointer.
pub(crate) fn slot_at(entry: ChunkEntry, pointer: PointerOffset) -> Slot
    ensures slot { result ≡ record {
      chunk = entry.name;
      segment = segment_of pointer;
      place = offset_of pointer;
    } }
{
    Slot {
        chunk: entry.name,
        segment: pointer.segment_id().value(),
        place: pointer.offset(),
    }
}
