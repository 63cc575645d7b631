//! Laws of growing memory. Each is a theorem about the definitions that the contracts of the calls cite, and its
//! function does nothing.
ghost use Rattle.std.specs.Prelude.{◌≡◌, ◌↔◌, ◌⊎◌, ℕ, ◌+◌, ◌<◌, IsSome};
ghost use Rattle.cal_alloc.specs.PointerOffset.{pointer_offset, offset_of, segment_of};
ghost use Rattle.cal_alloc.specs.SizeAndAlignment.{SizeAndAlignment};
ghost use Rattle.cal_storage.specs.Contents.{Contents};
ghost use Rattle.cal_shm.specs.Segment.{Segment};
ghost use Rattle.cal_resizable.specs.Growth.{Allocates, TakesBack};
ghost use Rattle.cal_resizable.specs.Memory.{MemoryState, IsSoundMemory};
ghost use Rattle.cal_resizable.specs.Slots.{segment_at, count_at};

use cal_alloc::ShmAllocator;

/// The active segments are the current one and those with a chunk.
pub fn active_are_the_current_one_and_those_with_a_chunk()
    ensures active { (memory : MemoryState) (number : ℕ) → IsSoundMemory memory →
        IsSome (segment_at memory.slots number) ↔ ((number ≡ memory.current) ⊎ (0 < count_at memory.slots number)) }
{}

/// The number of the current segment only grows, by one at most in an allocation.
pub fn numbers_only_grow<A: ShmAllocator>()
    ensures allocated { (old new : Contents (Segment A)) (before after : MemoryState) (layout : SizeAndAlignment)
        (pointer : ℕ) → Allocates A.ShmAllocator.own old before layout pointer new after →
        (after.current ≡ before.current) ⊎ (after.current ≡ before.current + 1) }
    ensures returned { (old new : Contents (Segment A)) (before after : MemoryState) (pointer : ℕ) →
        TakesBack (λ was is. A.Deallocates was (pointer_offset (offset_of pointer) 0) is) old before
        (segment_of pointer) new after → after.current ≡ before.current }
{}
