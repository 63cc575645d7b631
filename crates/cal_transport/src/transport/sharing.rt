//! The calls on the memory and the view of a transport, over the registry that both have.
ghost use Rattle.std.specs.Prelude.{◌≡◌, ◌<◌, ◌-◌, ◌/◌, ◌^◌, Some, IsSome, IsSomeAnd};
ghost use Rattle.cal_alloc.specs.Pool.{Pool, IsUsedBucket};
ghost use Rattle.cal_alloc.specs.PointerOffset.{segment_of, offset_of, pointer_offset};
ghost use Rattle.cal_shm.specs.Segment.{Segment};
ghost use Rattle.cal_resizable.specs.Chunks.{segment_value};
ghost use Rattle.cal_resizable.specs.Growth.{OfSegment};
ghost use Rattle.cal_resizable.specs.Slots.{HeldSegment, segment_at, count_at};
ghost use Rattle.cal_resizable.specs.Together.{AreTogether};
ghost use Rattle.cal_transport.specs.Sharing.{Arrives, GoesBack, FreesUnless};

use crate::transport::parts::{MemoryRegistry, TransportMemory, TransportView};
use cal_alloc::{PointerOffset, PoolAllocator};
use cal_resizable::chunk_laws::a_call_changes_one_segment;
use cal_resizable::together_laws::{
    a_memory_stays_with_its_view, a_view_leaves_the_segments, a_view_stays_with_its_memory,
    an_arrival_of_what_is_out_is_not_refused,
};

/// An offset of an active segment of the memory arrives at the view.
pub(crate) fn arrive(
    memory: &TransportMemory,
    view: &mut TransportView,
    reg: &mut MemoryRegistry,
    pointer: PointerOffset,
)
    requires together { AreTogether reg.old memory.now view.old }
    requires active { IsSome (segment_at memory.now.slots (segment_of pointer)) }
    requires room { (held : HeldSegment) → segment_at view.old.slots (segment_of pointer) ≡ Some held →
        held.count < 2 ^ 64 - 1 }
    ensures arrived { Arrives memory.now reg.old view.old (segment_of pointer) reg.new view.new }
{
    an_arrival_of_what_is_out_is_not_refused::<PoolAllocator>();
    a_view_leaves_the_segments::<PoolAllocator>();
    a_view_stays_with_its_memory::<PoolAllocator>();
    match view.register_and_translate_offset(reg, pointer) {
        Ok(_) => {}
        Err(_) => unreachable!(),
    }
}

/// An offset that is registered in the view is given back to it.
pub(crate) fn go_back(
    memory: &TransportMemory,
    view: &mut TransportView,
    reg: &mut MemoryRegistry,
    pointer: PointerOffset,
)
    requires together { AreTogether reg.old memory.now view.old }
    requires registered { IsSomeAnd (segment_at view.old.slots (segment_of pointer)) (λ held. 0 < held.count) }
    ensures gone { GoesBack memory.now reg.old view.old (segment_of pointer) reg.new view.new }
{
    a_view_leaves_the_segments::<PoolAllocator>();
    a_view_stays_with_its_memory::<PoolAllocator>();
    view.unregister_offset(pointer, reg);
}

/// The bucket at a pointer is given back to the memory, unless its chunk is kept.
pub(crate) fn free_unless(
    kept: bool,
    memory: &mut TransportMemory,
    view: &TransportView,
    reg: &mut MemoryRegistry,
    pointer: PointerOffset,
)
    requires together { AreTogether reg.old memory.old view.now }
    requires out { 0 < count_at memory.old.slots (segment_of pointer) }
    requires used { OfSegment reg.old memory.old.slots (segment_of pointer)
        (λ segment. IsUsedBucket segment.allocator (pointer_offset (offset_of pointer) 0)) }
    ensures freed { (segment : Segment Pool) →
        segment_value reg.old memory.old.slots (segment_of pointer) ≡ Some segment →
        FreesUnless kept view.now reg.old memory.old (segment_of pointer)
        (offset_of pointer / segment.allocator.buckets.size) reg.new memory.new }
{
    a_call_changes_one_segment::<PoolAllocator>();
    a_memory_stays_with_its_view::<PoolAllocator>();
    if !kept {
        memory.deallocate_bucket(reg, pointer);
    }
}
