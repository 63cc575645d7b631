//! Laws of a growing memory and a view of it over one registry. Each is a theorem about the definitions that the
//! contracts of the calls cite, and its function does nothing.
ghost use Rattle.std.specs.Prelude.{◌≡◌, ℕ, ◌<◌, Bool, Some, None, IsSome, IsSomeAnd, List};
ghost use Rattle.cal_alloc.specs.PointerOffset.{pointer_offset, offset_of, segment_of};
ghost use Rattle.cal_alloc.specs.SizeAndAlignment.{SizeAndAlignment};
ghost use Rattle.cal_storage.specs.Contents.{Contents, id_at, nothing_registered, after_opening};
ghost use Rattle.cal_shm.specs.Calls.{with_written};
ghost use Rattle.cal_names.specs.FileName.{IsFileName};
ghost use Rattle.cal_shm.specs.Plan.{path_of};
ghost use Rattle.cal_shm.specs.Segment.{Segment, with_bytes};
ghost use Rattle.cal_resizable.specs.Chunks.{segment_value};
ghost use Rattle.cal_resizable.specs.Creation.{MemoryPlan, CreatesMemory};
ghost use Rattle.cal_resizable.specs.Growth.{Allocates, TakesBack};
ghost use Rattle.cal_resizable.specs.Memory.{MemoryState, KeepsOwn};
ghost use Rattle.cal_resizable.specs.Slots.{SparesHandles, segment_at, count_at};
ghost use Rattle.cal_resizable.specs.Together.{AllFinished, NoneLater, IsAlone, AreTogether};
ghost use Rattle.cal_resizable.specs.View.{View, ViewPlan, management_plan, new_view, opening_refusal, segment_path, view_after_arrival, registry_after_arrival, unregistering, registry_after_return, arrival_refusal, mapped_bytes};

use cal_alloc::ShmAllocator;

/// What a creation over a new registry leaves: everything is finished there, and no path of a later segment stands for
/// anything.
pub fn a_new_memory_stands_alone<A: ShmAllocator>()
    ensures finished { (plan : MemoryPlan) (new : Contents (Segment A)) (memory : MemoryState) →
        CreatesMemory A.ShmAllocator.own nothing_registered plan new memory → AllFinished new }
    ensures later { (plan : MemoryPlan) (new : Contents (Segment A)) (memory : MemoryState) → IsFileName plan.name →
        CreatesMemory A.ShmAllocator.own nothing_registered plan new memory → NoneLater new memory }
{}

/// A view of a memory that stands alone is opened, where there is room for its segments, and is together with the
/// memory then.
pub fn a_view_opens_what_was_created<A>()
    ensures opens { (checks_version : Bool) (contents : Contents (Segment A)) (memory : MemoryState) (plan : ViewPlan) →
        IsAlone contents memory → plan.name ≡ memory.name → plan.settings ≡ memory.settings →
        opening_refusal checks_version contents plan ≡ None }
    ensures together { (contents : Contents (Segment A)) (memory : MemoryState) (plan : ViewPlan) (id : ℕ) →
        IsAlone contents memory → IsFileName plan.name → plan.name ≡ memory.name → plan.settings ≡ memory.settings →
        id_at contents (path_of (management_plan plan)) ≡ Some id →
        AreTogether (after_opening contents id) memory (new_view plan id) }
{}

/// An offset of an active segment of a memory is never refused by a view of it: the segment is mapped, or its path
/// stands for it. A segment that both have is the same.
pub fn an_arrival_of_what_is_out_is_not_refused<A>()
    ensures not_refused { (checks_version : Bool) (contents : Contents (Segment A)) (memory : MemoryState) (view : View)
        (number : ℕ) → AreTogether contents memory view → IsSome (segment_at memory.slots number) →
        arrival_refusal checks_version contents view number ≡ None }
    ensures found { (contents : Contents (Segment A)) (memory : MemoryState) (view : View) (number : ℕ) →
        AreTogether contents memory view → IsSome (segment_at memory.slots number) →
        IsSome (id_at contents (segment_path view number)) }
    ensures same { (contents : Contents (Segment A)) (memory : MemoryState) (view : View) (number : ℕ) →
        AreTogether contents memory view → IsSome (segment_at memory.slots number) →
        IsSome (segment_at view.slots number) →
        segment_value contents view.slots number ≡ segment_value contents memory.slots number }
{}

/// A view's calls leave the allocator and the bytes of each segment of the memory.
pub fn a_view_leaves_the_segments<A>()
    ensures arrived { (contents : Contents (Segment A)) (memory : MemoryState) (view : View) (number other : ℕ) →
        AreTogether contents memory view → IsSome (segment_at memory.slots number) →
        segment_value (registry_after_arrival contents view number) memory.slots other
        ≡ segment_value contents memory.slots other }
    ensures given_back { (contents : Contents (Segment A)) (memory : MemoryState) (view : View) (number other : ℕ) →
        AreTogether contents memory view →
        IsSomeAnd (segment_at view.slots number) (λ held. 0 < held.count) →
        segment_value (registry_after_return contents view number) memory.slots other
        ≡ segment_value contents memory.slots other }
{}

/// A memory and a view of it stay together over the view's calls: the arrival of an offset of an active segment, and
/// the return of one that is registered.
pub fn a_view_stays_with_its_memory<A>()
    ensures arrived { (contents : Contents (Segment A)) (memory : MemoryState) (view : View) (number : ℕ) →
        AreTogether contents memory view → IsSome (segment_at memory.slots number) →
        AreTogether (registry_after_arrival contents view number) memory (view_after_arrival contents view number) }
    ensures given_back { (contents : Contents (Segment A)) (memory : MemoryState) (view : View) (number : ℕ) →
        AreTogether contents memory view →
        IsSomeAnd (segment_at view.slots number) (λ held. 0 < held.count) →
        AreTogether (registry_after_return contents view number) memory (unregistering view number) }
{}

/// A memory and a view of it stay together over the memory's calls, and over a write into any segment.
pub fn a_memory_stays_with_its_view<A: ShmAllocator>()
    ensures allocated { (old new : Contents (Segment A)) (before after : MemoryState) (view : View)
        (layout : SizeAndAlignment) (pointer : ℕ) →
        Allocates A.ShmAllocator.own old before layout pointer new after → KeepsOwn old before new after →
        SparesHandles old new before.slots after.slots → AreTogether old before view → AreTogether new after view }
    ensures returned { (old new : Contents (Segment A)) (before after : MemoryState) (view : View) (pointer : ℕ) →
        0 < count_at before.slots (segment_of pointer) →
        TakesBack (λ was is. A.Deallocates was (pointer_offset (offset_of pointer) 0) is) old before
        (segment_of pointer) new after → KeepsOwn old before new after →
        SparesHandles old new before.slots after.slots → AreTogether old before view → AreTogether new after view }
    ensures written { (contents : Contents (Segment A)) (memory : MemoryState) (view : View) (id offset : ℕ)
        (written : List ℕ) → AreTogether contents memory view →
        AreTogether (with_written with_bytes contents id offset written) memory view }
{}

/// A view reads the same bytes after each of the memory's calls, in every segment that it has mapped: an allocation and
/// a return change no byte, and a segment that the memory gives up meanwhile stays while the view holds it.
pub fn a_view_keeps_its_bytes<A: ShmAllocator>()
    ensures allocated { (old new : Contents (Segment A)) (before after : MemoryState) (view : View)
        (layout : SizeAndAlignment) (pointer read count : ℕ) →
        Allocates A.ShmAllocator.own old before layout pointer new after → AreTogether old before view →
        mapped_bytes new view read count ≡ mapped_bytes old view read count }
    ensures returned { (old new : Contents (Segment A)) (before after : MemoryState) (view : View)
        (pointer read count : ℕ) →
        TakesBack (λ was is. A.Deallocates was (pointer_offset (offset_of pointer) 0) is) old before
        (segment_of pointer) new after → AreTogether old before view →
        mapped_bytes new view read count ≡ mapped_bytes old view read count }
{}
