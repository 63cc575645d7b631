//! The steps of a chunk, from its loan to its return, over any allocator and storage. Each is a public call, said by
//! what the next step asks: that a chunk which is out stays out, that a memory and its view stay together, how often
//! the view has an offset registered, and which bytes it shows.
ghost use Rattle.std.specs.Prelude.{◌≡◌, ◌≢◌, ℕ, ◌<◌, ◌≤◌, ◌+◌, ◌-◌, ◌^◌, Some, IsSomeAnd, IfOk, OnOk, OnErr, List, length, slice_range};
ghost use Rattle.cal_alloc.specs.PointerOffset.{pointer_offset, offset_of, segment_of};
ghost use Rattle.cal_shm.specs.Calls.{IsInPayload, with_written};
ghost use Rattle.cal_shm.specs.Segment.{with_bytes};
ghost use Rattle.cal_resizable.specs.Chunks.{Chunk, AreOut, AddsChunk, RemovesChunk, segment_value};
ghost use Rattle.cal_resizable.specs.Growth.{OfSegment};
ghost use Rattle.cal_resizable.specs.Memory.{HasAll};
ghost use Rattle.cal_resizable.specs.Slots.{count_at, id_at_slot};
ghost use Rattle.cal_resizable.specs.Together.{AreTogether};
ghost use Rattle.cal_resizable.specs.View.{HasView, mapped_bytes};

use crate::chunk_laws::a_chunk_stays_out_elsewhere;
use crate::memory_laws::active_are_the_current_one_and_those_with_a_chunk;
use crate::together_laws::{
    a_memory_stays_with_its_view, a_view_keeps_its_bytes, a_view_leaves_the_segments,
    a_view_stays_with_its_memory, an_arrival_of_what_is_out_is_not_refused,
};
use crate::view_laws::arrivals_and_returns_are_counted;
use crate::{DynamicMemory, DynamicView, Place, ResizableShmAllocationError, SegmentsHolder};
use cal_alloc::{Layout, PointerOffset, ShmAllocator};
use cal_shm::{AllocatorDetails, SharedMemory};
use cal_storage::Registry;
use std::alloc::Global;

/// The memory hands out a chunk. With the chunks that were out it is out then. The view shows what it showed. After an
/// error all is as before.
pub(super) fn loan<A: ShmAllocator, Shm: SharedMemory<A>>(
    alloc: Global,
    reg: &mut Registry<AllocatorDetails<A>>,
    memory: &mut DynamicMemory<A, Shm>,
    view: &DynamicView<A, Shm>,
    layout: Layout,
) -> Result<PointerOffset, ResizableShmAllocationError>
    requires together { AreTogether reg.old memory.old view.now }
    requires room { count_at memory.old.slots memory.old.current < 2 ^ 64 - 1 }
    ensures out { IfOk result (λ pointer. AddsChunk A.properties A.IsByteUsed A.IsAllocated reg.old memory.old.slots
        layout pointer reg.new memory.new.slots) }
    ensures counted { OnOk result
        (count_at memory.new.slots memory.new.current ≤ count_at memory.old.slots memory.old.current + 1) }
    ensures together { AreTogether reg.new memory.new view.now }
    ensures shown { (pointer count : ℕ) →
        mapped_bytes reg.new view.now pointer count ≡ mapped_bytes reg.old view.now pointer count }
    ensures unchanged { OnErr result (reg.new ≡ reg.old) }
    ensures same { OnErr result (memory.new ≡ memory.old) }
{
    a_memory_stays_with_its_view::<A>();
    a_view_keeps_its_bytes::<A>();
    match memory.allocate(alloc, reg, layout) {
        Ok(pointer) => Ok(pointer.offset),
        Err(error) => Err(error),
    }
}

/// Writes bytes in the segment that an offset lies in, from the offset on. Each chunk that is out is out still.
pub(super) fn put<A: ShmAllocator, Shm: SharedMemory<A>>(
    reg: &mut Registry<AllocatorDetails<A>>,
    memory: &DynamicMemory<A, Shm>,
    view: &DynamicView<A, Shm>,
    offset: PointerOffset,
    bytes: &[u8],
)
    requires together { AreTogether reg.old memory.now view.now }
    requires within { OfSegment reg.old memory.now.slots (segment_of offset)
        (λ segment. IsInPayload segment.payload (offset_of offset) (length bytes.now)) }
    ensures written { OfSegment reg.new memory.now.slots (segment_of offset)
        (λ segment. slice_range segment.payload (offset_of offset) (offset_of offset + length bytes.now) ≡ bytes.now) }
    ensures together { AreTogether reg.new memory.now view.now }
    ensures out { (chunks : List Chunk) →
        AreOut A.properties A.IsByteUsed A.IsAllocated reg.old memory.now.slots chunks →
        AreOut A.properties A.IsByteUsed A.IsAllocated reg.new memory.now.slots chunks }
{
    a_memory_stays_with_its_view::<A>();
    a_chunk_stays_out_elsewhere::<A>();
    write(reg, memory, offset, bytes);
}

/// Writes bytes in the segment that an offset lies in, from the offset on, and changes nothing else.
fn write<A: ShmAllocator, Shm: SharedMemory<A>>(
    reg: &mut Registry<AllocatorDetails<A>>,
    memory: &DynamicMemory<A, Shm>,
    offset: PointerOffset,
    bytes: &[u8],
)
    requires has { HasAll reg.old memory.now }
    requires within { OfSegment reg.old memory.now.slots (segment_of offset)
        (λ segment. IsInPayload segment.payload (offset_of offset) (length bytes.now)) }
    ensures written { reg.new ≡ with_written with_bytes reg.old (id_at_slot memory.now.slots (segment_of offset))
        (offset_of offset) bytes.now }
{
    DynamicMemory::<A, Shm>::bytes_mut(reg, memory, offset, bytes.len()).copy_from_slice(bytes);
}

/// The offset of a chunk arrives at the view, which is never refused, since its segment is active. It is registered
/// once more, and each other as often as before. The view has mapped the memory's segment then.
pub(super) fn arrive<A: ShmAllocator, Shm: SharedMemory<A>>(
    reg: &mut Registry<AllocatorDetails<A>>,
    memory: &DynamicMemory<A, Shm>,
    view: &mut DynamicView<A, Shm>,
    offset: PointerOffset,
) -> Place
    requires together { AreTogether reg.old memory.now view.old }
    requires chunks { 0 < count_at memory.now.slots (segment_of offset) }
    requires room { count_at view.old.slots (segment_of offset) < 2 ^ 64 - 1 }
    ensures place { result ≡ record { segment = segment_of offset; position = offset_of offset } }
    ensures counted { count_at view.new.slots (segment_of offset) ≡ count_at view.old.slots (segment_of offset) + 1 }
    ensures elsewhere { (number : ℕ) → number ≢ segment_of offset →
        count_at view.new.slots number ≡ count_at view.old.slots number }
    ensures together { AreTogether reg.new memory.now view.new }
    ensures values { (number : ℕ) →
        segment_value reg.new memory.now.slots number ≡ segment_value reg.old memory.now.slots number }
    ensures mapped { segment_value reg.new view.new.slots (segment_of offset)
        ≡ segment_value reg.new memory.now.slots (segment_of offset) }
    ensures out { (chunks : List Chunk) →
        AreOut A.properties A.IsByteUsed A.IsAllocated reg.old memory.now.slots chunks →
        AreOut A.properties A.IsByteUsed A.IsAllocated reg.new memory.now.slots chunks }
{
    active_are_the_current_one_and_those_with_a_chunk();
    an_arrival_of_what_is_out_is_not_refused::<A>();
    arrivals_and_returns_are_counted::<A>();
    a_view_stays_with_its_memory::<A>();
    a_view_leaves_the_segments::<A>();
    a_chunk_stays_out_elsewhere::<A>();
    match view.register_and_translate_offset(reg, offset) {
        Ok(place) => place,
        Err(_) => unreachable!(),
    }
}

/// The bytes that the view shows from an offset on, whether or not the memory has their segment still.
pub(super) fn read<'r, A: ShmAllocator, Shm: SharedMemory<A>>(
    reg: &'r Registry<AllocatorDetails<A>>,
    view: &DynamicView<A, Shm>,
    offset: PointerOffset,
    count: usize,
) -> &'r [u8]
    requires there { HasView reg.now view.now }
    requires some { 0 < count }
    requires shown { IsSomeAnd (mapped_bytes reg.now view.now offset count) (λ bytes. length bytes ≡ count) }
    ensures bytes { mapped_bytes reg.now view.now offset count ≡ Some result.now }
{
    view.bytes(reg, offset, count)
}

/// An offset that was registered leaves the view. It is registered once less, and each other as often as before.
pub(super) fn leave<A: ShmAllocator, Shm: SharedMemory<A>>(
    reg: &mut Registry<AllocatorDetails<A>>,
    memory: &DynamicMemory<A, Shm>,
    view: &mut DynamicView<A, Shm>,
    offset: PointerOffset,
)
    requires together { AreTogether reg.old memory.now view.old }
    requires registered { 0 < count_at view.old.slots (segment_of offset) }
    ensures counted { count_at view.new.slots (segment_of offset) + 1 ≡ count_at view.old.slots (segment_of offset) }
    ensures elsewhere { (number : ℕ) → number ≢ segment_of offset →
        count_at view.new.slots number ≡ count_at view.old.slots number }
    ensures together { AreTogether reg.new memory.now view.new }
    ensures out { (chunks : List Chunk) →
        AreOut A.properties A.IsByteUsed A.IsAllocated reg.old memory.now.slots chunks →
        AreOut A.properties A.IsByteUsed A.IsAllocated reg.new memory.now.slots chunks }
{
    arrivals_and_returns_are_counted::<A>();
    a_view_stays_with_its_memory::<A>();
    a_view_leaves_the_segments::<A>();
    a_chunk_stays_out_elsewhere::<A>();
    view.unregister_offset(offset, reg);
}

/// The memory takes a chunk back that was out. It is out no more, and each other is out still. The view shows what it
/// showed, also of this chunk.
pub(super) fn give_back<A: ShmAllocator, Shm: SharedMemory<A>>(
    reg: &mut Registry<AllocatorDetails<A>>,
    memory: &mut DynamicMemory<A, Shm>,
    view: &DynamicView<A, Shm>,
    offset: PointerOffset,
    layout: Layout,
)
    requires together { AreTogether reg.old memory.old view.now }
    requires chunks { 0 < count_at memory.old.slots (segment_of offset) }
    requires allocated { OfSegment reg.old memory.old.slots (segment_of offset)
        (λ segment. A.IsAllocated segment.allocator (pointer_offset (offset_of offset) 0)) }
    ensures out { RemovesChunk A.properties A.IsByteUsed A.IsAllocated reg.old memory.old.slots offset reg.new
        memory.new.slots }
    ensures together { AreTogether reg.new memory.new view.now }
    ensures shown { (pointer count : ℕ) →
        mapped_bytes reg.new view.now pointer count ≡ mapped_bytes reg.old view.now pointer count }
{
    a_memory_stays_with_its_view::<A>();
    a_view_keeps_its_bytes::<A>();
    memory.deallocate(reg, offset, layout);
}
