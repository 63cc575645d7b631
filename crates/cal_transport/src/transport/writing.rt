//! What the sender writes into a chunk that it has loaned, and how bytes are put into a segment.

ghost use Rattle.std.specs.Prelude.{◌≡◌, ◌+◌, nat_lt, length, replicate, Some, IsSome};
ghost use Rattle.cal_alloc.specs.Pool.{Pool};
ghost use Rattle.cal_alloc.specs.PointerOffset.{segment_of, offset_of};
ghost use Rattle.cal_shm.specs.Calls.{IsInPayload, with_written};
ghost use Rattle.cal_shm.specs.Segment.{Segment, with_bytes};
ghost use Rattle.cal_resizable.specs.Chunks.{segment_value};
ghost use Rattle.cal_resizable.specs.Growth.{OfSegment};
ghost use Rattle.cal_resizable.specs.Memory.{HasAll};
ghost use Rattle.cal_resizable.specs.Slots.{segment_at, id_at_slot};
ghost use Rattle.cal_resizable.specs.Together.{AreTogether};
ghost use Rattle.cal_transport.specs.CommandsDo.{WriteDoes};
ghost use Rattle.cal_transport.specs.Putting.{PutsBytes};
ghost use Rattle.cal_transport.specs.Room.{TakesRoomOfOne};

use crate::reply::Refusal;
use crate::transport::Transport;
use crate::transport::chunk_entry::find_entry;
use crate::transport::parts::{MemoryRegistry, TransportMemory, TransportView};
use cal_alloc::{PointerOffset, PoolAllocator, SegmentId, ShmAllocator};
use cal_resizable::together_laws::a_memory_stays_with_its_view;
use cal_resizable::{DynamicMemory, SegmentsHolder};
use cal_shm::{AllocatorDetails, SharedMemory};
use cal_storage::Registry;

impl Transport {
    /// Writes bytes into a loaned chunk that wasn't sent yet, from a place in the chunk on. A refused write changes
    /// nothing; the refusals are `NotLoaned`, then `WriteAfterSend`, then `OutsideChunk`.
    pub fn write(&mut self, chunk: usize, at: usize, bytes: &[u8]) -> Result<(), Refusal>
        ensures step { WriteDoes self.old chunk at bytes.now result self.new }
        ensures room { TakesRoomOfOne self.old self.new }
    {
        let found = match find_entry(&self.entries, chunk) {
            Some(found) => found,
            None => return Err(Refusal::NotLoaned),
        };
        if !found.entry.loaned {
            return Err(Refusal::NotLoaned);
        }
        if found.entry.sent {
            return Err(Refusal::WriteAfterSend);
        }
        let segment = found.entry.segment;
        let size = size_at(&self.memory, &self.memory_registry, segment);
        if exceeds_bucket(size, at, bytes.len()) {
            return Err(Refusal::OutsideChunk);
        }
        if bytes.is_empty() {
            return Ok(());
        }
        let place = found.entry.bucket * size + at;
        let pointer = PointerOffset::from_offset_and_segment_id(place, SegmentId::new(segment));
        put_bytes(
            &mut self.memory_registry,
            &self.memory,
            &self.view,
            pointer,
            bytes,
        );
        Ok(())
    }
}

/// The size in bytes of the buckets of a segment that the memory has.
pub(crate) fn size_at(memory: &TransportMemory, reg: &MemoryRegistry, segment: u8) -> usize
    requires has { HasAll reg.now memory.now }
    requires active { IsSome (segment_at memory.now.slots segment) }
    ensures size { (s : Segment Pool) → segment_value reg.now memory.now.slots segment ≡ Some s →
        result ≡ s.allocator.buckets.size }
{
    memory.bucket_size(reg, SegmentId::new(segment))
}

/// Whether bytes at a place pass the end of a bucket of this size.
pub(crate) fn exceeds_bucket(size: usize, at: usize, length: usize) -> bool
    ensures passes { result ≡ nat_lt size (at + length) }
{
    at > size || length > size - at
}

/// Puts bytes into a segment of the memory, from a pointer on.
fn put_bytes(
    reg: &mut MemoryRegistry,
    memory: &TransportMemory,
    view: &TransportView,
    pointer: PointerOffset,
    bytes: &[u8],
)
    requires together { AreTogether reg.old memory.now view.now }
    requires within { OfSegment reg.old memory.now.slots (segment_of pointer)
        (λ segment. IsInPayload segment.payload (offset_of pointer) (length bytes.now)) }
    ensures put { PutsBytes memory.now view.now reg.old (segment_of pointer) (offset_of pointer) bytes.now reg.new }
{
    a_memory_stays_with_its_view::<PoolAllocator>();
    write_bytes(reg, memory, pointer, bytes);
}

/// Puts so many zeros into a segment of the memory, from a pointer on.
pub(crate) fn put_zeros(
    reg: &mut MemoryRegistry,
    memory: &TransportMemory,
    view: &TransportView,
    pointer: PointerOffset,
    count: usize,
)
    requires together { AreTogether reg.old memory.now view.now }
    requires within { OfSegment reg.old memory.now.slots (segment_of pointer)
        (λ segment. IsInPayload segment.payload (offset_of pointer) count) }
    ensures put { PutsBytes memory.now view.now reg.old (segment_of pointer) (offset_of pointer)
        (replicate count 0) reg.new }
{
    a_memory_stays_with_its_view::<PoolAllocator>();
    write_zeros(reg, memory, pointer, count);
}

/// Writes bytes in the segment that a pointer lies in, from the pointer on, and changes nothing else.
fn write_bytes<A: ShmAllocator, Shm: SharedMemory<A>>(
    reg: &mut Registry<AllocatorDetails<A>>,
    memory: &DynamicMemory<A, Shm>,
    pointer: PointerOffset,
    bytes: &[u8],
)
    requires has { HasAll reg.old memory.now }
    requires within { OfSegment reg.old memory.now.slots (segment_of pointer)
        (λ segment. IsInPayload segment.payload (offset_of pointer) (length bytes.now)) }
    ensures written { reg.new ≡ with_written with_bytes reg.old (id_at_slot memory.now.slots (segment_of pointer))
        (offset_of pointer) bytes.now }
{
    DynamicMemory::<A, Shm>::bytes_mut(reg, memory, pointer, bytes.len()).copy_from_slice(bytes);
}

/// Writes so many zeros there.
fn write_zeros<A: ShmAllocator, Shm: SharedMemory<A>>(
    reg: &mut Registry<AllocatorDetails<A>>,
    memory: &DynamicMemory<A, Shm>,
    pointer: PointerOffset,
    count: usize,
)
    requires has { HasAll reg.old memory.now }
    requires within { OfSegment reg.old memory.now.slots (segment_of pointer)
        (λ segment. IsInPayload segment.payload (offset_of pointer) count) }
    ensures written { reg.new ≡ with_written with_bytes reg.old (id_at_slot memory.now.slots (segment_of pointer))
        (offset_of pointer) (replicate count 0) }
{
    DynamicMemory::<A, Shm>::bytes_mut(reg, memory, pointer, count).fill(0);
}
