//! Laws of the chunks of a growing memory. Each is a theorem about the definitions that the contracts of the calls
//! cite, and its function does nothing.
ghost use Rattle.std.specs.Prelude.{◌≡◌, ℕ, ◌<◌, ◌≤◌, Some, List};
ghost use Rattle.std.specs.List.{slice_get};
ghost use Rattle.cal_alloc.specs.PointerOffset.{pointer_offset, offset_of, segment_of};
ghost use Rattle.cal_alloc.specs.SizeAndAlignment.{SizeAndAlignment};
ghost use Rattle.cal_alloc.specs.declared.shm_allocator.SharedMemorySetupHint.{SharedMemorySetupHint};
ghost use Rattle.cal_storage.specs.Contents.{Contents};
ghost use Rattle.cal_shm.specs.Calls.{IsInPayload, IsChunkWithin, with_written};
ghost use Rattle.cal_shm.specs.Segment.{Segment, with_bytes};
ghost use Rattle.cal_resizable.specs.Chunks.{Chunk, segment_value, GrowsTo, GivesChunk, ReturnsChunk, AreOut, AddsSized, RemovesChunk};
ghost use Rattle.cal_resizable.specs.Growth.{OfSegment, AllocatesHere, TakesBack, made_segment, grown_contents, grown_memory};
ghost use Rattle.cal_resizable.specs.Memory.{MemoryState, IsSoundMemory, HasAll};
ghost use Rattle.cal_resizable.specs.Slots.{Slots, count_at};

use cal_alloc::ShmAllocator;

/// An allocation without growth, growth, and a return each change one segment, and leave every other as it is.
pub fn a_call_changes_one_segment<A: ShmAllocator>()
    ensures given { (old new : Contents (Segment A)) (before after : MemoryState) (layout : SizeAndAlignment)
        (pointer : ℕ) → IsSoundMemory before → HasAll old before →
        AllocatesHere A.ShmAllocator.own old before layout pointer new after →
        OfSegment new after.slots (segment_of pointer) (λ segment. IsChunkWithin A.properties segment layout pointer) →
        GivesChunk A.ShmAllocator.own old before.slots before.current layout pointer new after.slots }
    ensures grown { (old : Contents (Segment A)) (before : MemoryState)
        (hint : SharedMemorySetupHint A.Configuration) → IsSoundMemory before → HasAll old before →
        before.current < 255 →
        GrowsTo old before (made_segment A.ShmAllocator.own hint) (grown_contents A.ShmAllocator.own old before hint)
        (grown_memory old before) }
    ensures returned { (old new : Contents (Segment A)) (before after : MemoryState) (pointer : ℕ) →
        IsSoundMemory before → HasAll old before → 0 < count_at before.slots (segment_of pointer) →
        TakesBack (λ was is. A.Deallocates was (pointer_offset (offset_of pointer) 0) is) old before
        (segment_of pointer) new after →
        ReturnsChunk (λ was is. A.Deallocates was (pointer_offset (offset_of pointer) 0) is) old before.slots
        (segment_of pointer) new after.slots }
{}

/// A chunk that is out stays out, and overlaps no other, over each call but its own return.
pub fn a_chunk_stays_out<A: ShmAllocator>()
    ensures given { (old new : Contents (Segment A)) (before after : Slots) (number : ℕ) (layout : SizeAndAlignment)
        (pointer : ℕ) → GivesChunk A.ShmAllocator.own old before number layout pointer new after →
        AddsSized A.properties A.IsByteUsed A.IsAllocated old before layout pointer new after }
    ensures grown { (old new : Contents (Segment A)) (before after : MemoryState) (made : Segment A)
        (chunks : List Chunk) → GrowsTo old before made new after →
        AreOut A.properties A.IsByteUsed A.IsAllocated old before.slots chunks → AreOut A.properties A.IsByteUsed
        A.IsAllocated new after.slots chunks }
    ensures returned { (old new : Contents (Segment A)) (before after : Slots) (pointer : ℕ) →
        ReturnsChunk (λ was is. A.Deallocates was (pointer_offset (offset_of pointer) 0) is) old before
        (segment_of pointer) new after →
        RemovesChunk A.properties A.IsByteUsed A.IsAllocated old before pointer new after }
{}

/// A chunk that is out stays out while bytes are written, and whatever else changes in the registry, as long as the
/// memory's own segments have the values that they had.
pub fn a_chunk_stays_out_elsewhere<A: ShmAllocator>()
    ensures written { (contents : Contents (Segment A)) (slots : Slots) (id offset : ℕ) (written : List ℕ)
        (chunks : List Chunk) → AreOut A.properties A.IsByteUsed A.IsAllocated contents slots chunks →
        AreOut A.properties A.IsByteUsed A.IsAllocated (with_written with_bytes contents id offset written) slots
        chunks }
    ensures elsewhere { (old new : Contents (Segment A)) (slots : Slots) (chunks : List Chunk) →
        ((number : ℕ) → segment_value new slots number ≡ segment_value old slots number) →
        AreOut A.properties A.IsByteUsed A.IsAllocated old slots chunks → AreOut A.properties A.IsByteUsed A.IsAllocated
        new slots chunks }
{}

/// A chunk that is out can be read and written, as many bytes as were asked for, and can be given back.
pub fn a_chunk_that_is_out_can_be_used<A: ShmAllocator>()
    ensures within { (contents : Contents (Segment A)) (slots : Slots) (chunks : List Chunk) (index : ℕ)
        (chunk : Chunk) (count : ℕ) → slice_get chunks index ≡ Some chunk →
        AreOut A.properties A.IsByteUsed A.IsAllocated contents slots chunks → count ≤ chunk.layout.size →
        OfSegment contents slots (segment_of chunk.pointer)
        (λ segment. IsInPayload segment.payload (offset_of chunk.pointer) count) }
    ensures counted { (contents : Contents (Segment A)) (slots : Slots) (chunks : List Chunk) (index : ℕ)
        (chunk : Chunk) → slice_get chunks index ≡ Some chunk → AreOut A.properties A.IsByteUsed A.IsAllocated contents
        slots chunks →
        0 < count_at slots (segment_of chunk.pointer) }
    ensures allocated { (contents : Contents (Segment A)) (slots : Slots) (chunks : List Chunk) (index : ℕ)
        (chunk : Chunk) → slice_get chunks index ≡ Some chunk → AreOut A.properties A.IsByteUsed A.IsAllocated contents
        slots chunks →
        OfSegment contents slots (segment_of chunk.pointer)
        (λ segment. A.IsAllocated segment.allocator (pointer_offset (offset_of chunk.pointer) 0)) }
{}
