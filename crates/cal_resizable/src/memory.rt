//! Growing memory. Ported from `resizable_shared_memory/dynamic.rs` of iceoryx2-cal 0.9.3.
ghost use Rattle.std.specs.Prelude.{◌≡◌, ◌≢◌, ◌==◌, if◌then◌else◌, ◌<◌, ◌^◌, ◌+◌, ◌-◌, ◌++◌, ◌⊎◌, ◌≤◌, ◌∷◌, ℕ, Some, None, IsSome, IsSomeAnd, IfSome, IfOk, IfErr, OnOk, OnErr, slice_range};
ghost use Rattle.std.specs.Result.{result_err};
ghost use Rattle.cal_alloc.specs.PointerOffset.{pointer_offset, offset_of, segment_of};
ghost use Rattle.cal_alloc.specs.Pool.{IsUsedBucket, IsInUsedBucket, FreesBucket, pool_properties};
ghost use Rattle.cal_storage.specs.Contents.{Has};
ghost use Rattle.cal_storage.specs.declared.handle.Handle.{Handle};
ghost use Rattle.cal_shm.specs.Calls.{IsInPayload, IsChunkWithin};
ghost use Rattle.cal_resizable.specs.Chunks.{AddsChunk, RemovesChunk};
ghost use Rattle.cal_resizable.specs.Closing.{held_handles, AreElsewhere, after_closing, LeavesAllSharers};
ghost use Rattle.cal_resizable.specs.Creation.{first_memory};
ghost use Rattle.cal_resizable.specs.Growth.{OfSegment, AllocatesHere, Allocates, TakesBack, growth_plan, allocation_refusal, segment_plan, segment_refusal, made_segment, grown_contents, grown_memory, next_number_of_buckets};
ghost use Rattle.cal_resizable.specs.Memory.{IsSoundMemory, HasAll, KeepsOwn};
ghost use Rattle.cal_resizable.specs.SegmentNames.{number_end};
ghost use Rattle.cal_resizable.specs.Slots.{segment_at, count_at, number_held, with_less, without_unused, after_retiring, AreApart, IsSpared, LeavesHandle, SparesHandles};

use crate::closing::close_all;
use crate::errors::ResizableShmAllocationError;
use crate::growth::{make_segment, next_number_of_buckets, plan_growth};
use crate::lending::SegmentsHolder;
use crate::names::segment_name;
use crate::slots::{NUMBER_OF_SLOTS, SegmentSlots};
use cal_alloc::{
    AllocationStrategy, Layout, PointerOffset, PoolAllocator, SegmentId, SharedMemorySetupHint,
    ShmAllocationError, ShmAllocator,
};
use cal_names::{FileName, NamedConcept};
use cal_shm::{
    AllocatorDetails, SharedMemory, SharedMemoryCreateError, SharedMemoryForPoolAllocator,
    ShmPointer,
};
use cal_storage::Registry;
use std::alloc::Global;
use std::marker::Model;

/// Growing memory: segments under one name, of which the current one hands out chunks. Contracts see a record of the
/// name, what makes the paths, the strategy, and the segments with their numbers of chunks.
#[derive(Debug, Drop)]
pub struct DynamicMemory<A: ShmAllocator, Shm: SharedMemory<A>> {
    /// The name of the memory; the name of each segment begins with it.
    name: FileName,
    /// What makes the paths of the segments.
    config: Shm::Configuration,
    /// How the memory grows.
    strategy: AllocationStrategy,
    /// The management segment, by which the memory is found. The memory owns it.
    management: Shm,
    /// The active segments, each counted once for each of its chunks: the current one and those with a chunk.
    slots: SegmentSlots<A, Shm>,
    /// The number of the current segment, the greatest of all that are active.
    current: u8,
}

impl<A: ShmAllocator, Shm: SharedMemory<A>> Model for DynamicMemory<A, Shm> {
    ghost use Rattle.cal_resizable.specs.Memory.{MemoryState, IsSoundMemory};

    ghost Value = { MemoryState };

    ghost view = { λ m. record {
      name = m.name;
      settings = Shm.Configuration.settings m.config;
      strategy = m.strategy;
      management = Shm.handle m.management;
      current = m.current;
      slots = m.slots;
    } };

    ghost invariant = { λ m. IsSoundMemory (record {
      name = m.name;
      settings = Shm.Configuration.settings m.config;
      strategy = m.strategy;
      management = Shm.handle m.management;
      current = m.current;
      slots = m.slots;
    }) };
}

impl<A: ShmAllocator, Shm: SharedMemory<A>> NamedConcept for DynamicMemory<A, Shm> {
    ghost concept_name = { λ m. m.name };

    fn name(&self) -> &FileName {
        &self.name
    }
}

impl<A: ShmAllocator, Shm: SharedMemory<A>> DynamicMemory<A, Shm> {
    /// A new memory over its management segment and its slots, of which the first holds segment 0.
    pub(crate) fn new(
        name: FileName,
        config: Shm::Configuration,
        strategy: AllocationStrategy,
        management: Shm,
        slots: SegmentSlots<A, Shm>,
    ) -> Self
        requires sound { IsSoundMemory (first_memory name (Shm.Configuration.settings config) strategy
            (Shm.handle management) slots) }
        ensures memory { result ≡ first_memory name (Shm.Configuration.settings config) strategy
            (Shm.handle management) slots }
    {
        DynamicMemory {
            name,
            config,
            strategy,
            management,
            slots,
            current: 0,
        }
    }

    /// Closes the management segment and then each active segment, in the order of their numbers, as their owner: the
    /// names go, and a segment is dropped where no view holds it. Every handle on another entry is left, and of the
    /// holders of a segment one is lost.
    pub fn close(self, reg: &mut Registry<AllocatorDetails<A>>)
        requires has { HasAll reg.old self }
        ensures closed { reg.new ≡ after_closing reg.old (self.management ∷ held_handles self.slots) }
        ensures leaves { (handle : Handle) → AreElsewhere handle (self.management ∷ held_handles self.slots) →
            LeavesHandle reg.old reg.new handle }
        ensures sharers { LeavesAllSharers reg.old reg.new }
    {
        let DynamicMemory {
            name: _,
            config: _,
            strategy: _,
            management,
            slots,
            current: _,
        } = self;
        management.close(reg);
        close_all(slots, reg);
    }

    /// The number of segments that are active: the current one, and those with a chunk.
    pub fn number_of_active_segments(&self) -> usize
        ensures active { result ≡ number_held self.now.slots }
        ensures sound { IsSoundMemory self.now }
    {
        let _current = self.current;
        self.slots.len()
    }

    /// The number of the current segment, which is active.
    pub fn current_segment(&self) -> SegmentId
        ensures current { result ≡ self.now.current }
        ensures active { IsSome (segment_at self.now.slots result) }
    {
        SegmentId::new(self.current)
    }

    /// How many segments a memory can have in turn.
    pub fn max_number_of_reallocations() -> usize
        ensures number { result ≡ 256 }
    {
        NUMBER_OF_SLOTS
    }

    /// That many bytes of the segment that an offset lies in, from the offset on.
    pub fn bytes<'r>(
        &self,
        reg: &'r Registry<AllocatorDetails<A>>,
        offset: PointerOffset,
        count: usize,
    ) -> &'r [u8]
        requires has { HasAll reg.now self.now }
        requires within { OfSegment reg.now self.now.slots (segment_of offset)
            (λ segment. IsInPayload segment.payload (offset_of offset) count) }
        ensures bytes { OfSegment reg.now self.now.slots (segment_of offset) (λ segment.
            result.now ≡ slice_range segment.payload (offset_of offset) (offset_of offset + count)) }
    {
        let number = offset.segment_id().value();
        self.slots.segment(number).bytes(reg, offset, count)
    }

    /// Hands out a chunk of the current segment.
    fn allocate_here(
        &mut self,
        reg: &mut Registry<AllocatorDetails<A>>,
        layout: Layout,
    ) -> Result<ShmPointer, ShmAllocationError>
        requires has { HasAll reg.old self.old }
        requires room { count_at self.old.slots self.old.current < 2 ^ 64 - 1 }
        ensures refused { OfSegment reg.old self.old.slots self.old.current
            (λ segment. result_err result ≡ A.refusal segment.allocator layout) }
        ensures given { IfOk result (λ pointer.
            AllocatesHere A.ShmAllocator.own reg.old self.old layout pointer.offset reg.new self.new) }
        ensures out { IfOk result (λ pointer. OfSegment reg.new self.new.slots (segment_of pointer.offset)
            (λ segment. A.IsAllocated segment.allocator (pointer_offset (offset_of pointer.offset) 0))) }
        ensures within { IfOk result (λ pointer. OfSegment reg.new self.new.slots (segment_of pointer.offset)
            (λ segment. IsChunkWithin A.properties segment layout pointer.offset)) }
        ensures counted { OnOk result
            (count_at self.new.slots self.new.current ≤ count_at self.old.slots self.old.current + 1) }
        ensures own { KeepsOwn reg.old self.old reg.new self.new }
        ensures leaves { (handle : Handle) → LeavesHandle reg.old reg.new handle }
        ensures sound { IsSoundMemory self.old }
        ensures unchanged { OnErr result (reg.new ≡ reg.old) }
        ensures same { OnErr result (self.new ≡ self.old) }
    {
        let current = self.current;
        match self.slots.segment(current).allocate(reg, layout) {
            Ok(pointer) => {
                self.slots.count_more(current);
                let mut offset = pointer.offset;
                offset.set_segment_id(SegmentId::new(current));
                Ok(ShmPointer { offset })
            }
            Err(refusal) => Err(refusal),
        }
    }

    /// The name of the next segment.
    fn next_name(&self) -> FileName
        requires { self.now.current < 255 }
        ensures { result ≡ self.now.name ++ number_end (self.now.current + 1) }
    {
        let _bytes = self.name.as_bytes();
        segment_name(&self.name, SegmentId::new(self.current + 1)).unwrap()
    }

    /// Makes the next segment from a hint, and then retires the current one if it has no chunk. The new one is the
    /// current one from then on.
    fn grow_by(
        &mut self,
        alloc: Global,
        reg: &mut Registry<AllocatorDetails<A>>,
        hint: &SharedMemorySetupHint<A::Configuration>,
    ) -> Result<(), SharedMemoryCreateError>
        requires has { HasAll reg.old self.old }
        requires below { self.old.current < 255 }
        ensures refused { IfSome (segment_refusal A.ShmAllocator.own reg.old (segment_plan A.ShmAllocator.own
            self.old.settings (self.old.name ++ number_end (self.old.current + 1)) hint.now) hint.now)
            (λ error. result ≡ Err error) }
        ensures error { IfErr result (λ error. (segment_refusal A.ShmAllocator.own reg.old
            (segment_plan A.ShmAllocator.own self.old.settings
            (self.old.name ++ number_end (self.old.current + 1)) hint.now) hint.now ≡ Some error)
            ⊎ (error ≡ SharedMemoryCreateError.NoMemory)) }
        ensures contents { OnOk result (reg.new ≡ grown_contents A.ShmAllocator.own reg.old self.old hint.now) }
        ensures memory { OnOk result (self.new ≡ grown_memory reg.old self.old) }
        ensures made { OnOk result (OfSegment reg.new self.new.slots self.new.current
            (λ segment. segment ≡ made_segment A.ShmAllocator.own hint.now)) }
        ensures empty { OnOk result (count_at self.new.slots self.new.current ≡ 0) }
        ensures own { KeepsOwn reg.old self.old reg.new self.new }
        ensures spares { SparesHandles reg.old reg.new self.old.slots self.new.slots }
        ensures unchanged { OnErr result (reg.new ≡ reg.old) }
        ensures same { OnErr result (self.new ≡ self.old) }
    {
        let name = self.next_name();
        let current = self.current;
        match make_segment(alloc, reg, &name, &self.config, hint) {
            Ok(segment) => {
                self.slots.retire_unused(reg, current);
                self.slots.insert(current + 1, segment);
                self.current = current + 1;
                Ok(())
            }
            Err(error) => Err(error),
        }
    }

    /// What the next segment is made from, where the current one refuses a layout, or why there is none.
    fn plan(
        &self,
        reg: &Registry<AllocatorDetails<A>>,
        layout: Layout,
        refusal: ShmAllocationError,
    ) -> Result<SharedMemorySetupHint<A::Configuration>, ResizableShmAllocationError>
        requires { HasAll reg.now self.now }
        ensures plan { OfSegment reg.now self.now.slots self.now.current (λ segment. result
            ≡ growth_plan A.ShmAllocator.own self.now.strategy self.now.current layout segment.allocator refusal) }
        ensures below { OnOk result (self.now.current < 255) }
        ensures serves { OfSegment reg.now self.now.slots self.now.current (λ segment.
            A.refusal segment.allocator layout ≡ Some refusal → IfOk result (λ hint. (alignment : ℕ) →
            A.refusal (A.after_init (A.new_uninit alignment hint.payload_size hint.config)) layout ≡ None)) }
    {
        let allocator = self.slots.segment(self.current).allocator(reg);
        plan_growth(allocator, self.strategy, self.current, layout, refusal)
    }

    /// Hands out a chunk of that layout: of the current segment, or where that can't serve it and growth may help, of
    /// the next one, which is made then. The offset carries the number of the segment, and the chunk lies within that
    /// segment's payload. It overlaps no chunk that is out, and each chunk that is out is out still. After an error the
    /// memory and the registry are as before. Memory is taken by growth alone, and only where the current segment can't
    /// serve the layout.
    pub fn allocate(
        &mut self,
        alloc: Global,
        reg: &mut Registry<AllocatorDetails<A>>,
        layout: Layout,
    ) -> Result<ShmPointer, ResizableShmAllocationError>
        requires has { HasAll reg.old self.old }
        requires room { count_at self.old.slots self.old.current < 2 ^ 64 - 1 }
        ensures refused { OfSegment reg.old self.old.slots self.old.current (λ segment.
            IfSome (allocation_refusal A.ShmAllocator.own reg.old self.old layout segment)
            (λ error. result ≡ Err error)) }
        ensures error { IfErr result (λ error. OfSegment reg.old self.old.slots self.old.current (λ segment.
            (allocation_refusal A.ShmAllocator.own reg.old self.old layout segment ≡ Some error)
            ⊎ (error ≡ ResizableShmAllocationError.SharedMemoryCreateError SharedMemoryCreateError.NoMemory))) }
        ensures allocated { IfOk result (λ pointer.
            Allocates A.ShmAllocator.own reg.old self.old layout pointer.offset reg.new self.new) }
        ensures out { IfOk result (λ pointer. OfSegment reg.new self.new.slots (segment_of pointer.offset)
            (λ segment. A.IsAllocated segment.allocator (pointer_offset (offset_of pointer.offset) 0))) }
        ensures within { IfOk result (λ pointer. OfSegment reg.new self.new.slots (segment_of pointer.offset)
            (λ segment. IsChunkWithin A.properties segment layout pointer.offset)) }
        ensures counted { OnOk result
            (count_at self.new.slots self.new.current ≤ count_at self.old.slots self.old.current + 1) }
        ensures stays_out { IfOk result (λ pointer.
            AddsChunk A.properties A.IsByteUsed A.IsAllocated reg.old self.old.slots layout pointer.offset reg.new
            self.new.slots) }
        ensures serves { OnErr result (OfSegment reg.old self.old.slots self.old.current
            (λ segment. IsSome (A.refusal segment.allocator layout))) }
        ensures own { OnOk result (KeepsOwn reg.old self.old reg.new self.new) }
        ensures spares { OnOk result (SparesHandles reg.old reg.new self.old.slots self.new.slots) }
        ensures unchanged { OnErr result (reg.new ≡ reg.old) }
        ensures same { OnErr result (self.new ≡ self.old) }
    {
        let refusal = match self.allocate_here(reg, layout) {
            Ok(pointer) => return Ok(pointer),
            Err(refusal) => refusal,
        };
        let hint = match self.plan(reg, layout, refusal) {
            Ok(hint) => hint,
            Err(error) => return Err(error),
        };
        if let Err(error) = self.grow_by(alloc, reg, &hint) {
            return Err(ResizableShmAllocationError::SharedMemoryCreateError(error));
        }
        match self.allocate_here(reg, layout) {
            Ok(pointer) => Ok(pointer),
            Err(_) => unreachable!(),
        }
    }

    /// Takes back the chunk at that offset, which was handed out and not taken back yet. Each other chunk that is out
    /// is out still. A segment that isn't the current one goes with its last chunk.
    pub fn deallocate(
        &mut self,
        reg: &mut Registry<AllocatorDetails<A>>,
        offset: PointerOffset,
        layout: Layout,
    )
        requires has { HasAll reg.old self.old }
        requires chunks { 0 < count_at self.old.slots (segment_of offset) }
        requires allocated { OfSegment reg.old self.old.slots (segment_of offset)
            (λ segment. A.IsAllocated segment.allocator (pointer_offset (offset_of offset) 0)) }
        ensures freed { TakesBack (λ was is. A.Deallocates was (pointer_offset (offset_of offset) 0) is)
            reg.old self.old (segment_of offset) reg.new self.new }
        ensures stays_out { RemovesChunk A.properties A.IsByteUsed A.IsAllocated reg.old self.old.slots offset reg.new
            self.new.slots }
        ensures own { KeepsOwn reg.old self.old reg.new self.new }
        ensures spares { SparesHandles reg.old reg.new self.old.slots self.new.slots }
    {
        let number = offset.segment_id().value();
        let in_segment = within_segment(offset);
        self.slots
            .segment(number)
            .deallocate(reg, in_segment, layout);
        take_back(&mut self.slots, reg, self.current, number);
    }
}

impl<A: ShmAllocator, Shm: SharedMemory<A>> SegmentsHolder<AllocatorDetails<A>>
    for DynamicMemory<A, Shm> {
    ghost management = { λ m. m.management };

    ghost slots = { λ m. m.slots };

    fn bytes_mut<'r>(
        reg: &'r mut Registry<AllocatorDetails<A>>,
        memory: &Self,
        offset: PointerOffset,
        count: usize,
    ) -> &'r mut [u8] {
        let number = offset.segment_id().value();
        Shm::bytes_mut(reg, memory.slots.segment(number), offset, count)
    }
}

impl<Shm: SharedMemoryForPoolAllocator> DynamicMemory<PoolAllocator, Shm> {
    /// Takes back the bucket at that offset, which was handed out and not taken back yet. Each other bucket that is out
    /// is out still. A segment that isn't the current one goes with its last bucket.
    pub fn deallocate_bucket(
        &mut self,
        reg: &mut Registry<AllocatorDetails<PoolAllocator>>,
        offset: PointerOffset,
    )
        requires has { HasAll reg.old self.old }
        requires chunks { 0 < count_at self.old.slots (segment_of offset) }
        requires allocated { OfSegment reg.old self.old.slots (segment_of offset)
            (λ segment. IsUsedBucket segment.allocator (pointer_offset (offset_of offset) 0)) }
        ensures freed { TakesBack (λ was is. FreesBucket was (pointer_offset (offset_of offset) 0) is)
            reg.old self.old (segment_of offset) reg.new self.new }
        ensures stays_out { RemovesChunk pool_properties IsInUsedBucket IsUsedBucket reg.old self.old.slots offset
            reg.new self.new.slots }
        ensures own { KeepsOwn reg.old self.old reg.new self.new }
        ensures spares { SparesHandles reg.old reg.new self.old.slots self.new.slots }
    {
        let number = offset.segment_id().value();
        let in_segment = within_segment(offset);
        self.slots
            .segment(number)
            .deallocate_bucket(reg, in_segment);
        take_back(&mut self.slots, reg, self.current, number);
    }

    /// The size of each bucket of a segment in bytes.
    pub fn bucket_size(
        &self,
        reg: &Registry<AllocatorDetails<PoolAllocator>>,
        segment_id: SegmentId,
    ) -> usize
        requires has { HasAll reg.now self.now }
        requires active { IsSome (segment_at self.now.slots segment_id) }
        ensures size { OfSegment reg.now self.now.slots segment_id
            (λ segment. result ≡ segment.allocator.buckets.size) }
    {
        self.slots.segment(segment_id.value()).bucket_size(reg)
    }

    /// The number of buckets of a segment.
    pub fn number_of_buckets(
        &self,
        reg: &Registry<AllocatorDetails<PoolAllocator>>,
        segment_id: SegmentId,
    ) -> u32
        requires has { HasAll reg.now self.now }
        requires active { IsSome (segment_at self.now.slots segment_id) }
        ensures number { OfSegment reg.now self.now.slots segment_id
            (λ segment. result ≡ segment.allocator.buckets.count) }
    {
        self.slots
            .segment(segment_id.value())
            .allocator(reg)
            .number_of_buckets()
    }

    /// The number of buckets of the segment that an allocation of this layout would make; none where the current
    /// segment serves the layout, or where the memory doesn't grow for it.
    pub fn next_number_of_buckets(
        &self,
        reg: &Registry<AllocatorDetails<PoolAllocator>>,
        layout: Layout,
    ) -> Option<usize>
        requires has { HasAll reg.now self.now }
        ensures number { OfSegment reg.now self.now.slots self.now.current (λ segment. result
            ≡ next_number_of_buckets self.now.strategy self.now.current layout segment.allocator) }
    {
        let pool = self.slots.segment(self.current).allocator(reg);
        next_number_of_buckets(pool, self.strategy, self.current, layout)
    }
}

/// The same offset, as the allocator of its segment knows it: in segment 0.
fn within_segment(offset: PointerOffset) -> PointerOffset
    ensures { result ≡ pointer_offset (offset_of offset) 0 }
{
    let mut in_segment = offset;
    in_segment.set_segment_id(SegmentId::new(0));
    in_segment
}

/// Counts a segment once less, and retires one that isn't the current one where it was counted for the last time.
fn take_back<A: ShmAllocator, Shm: SharedMemory<A>>(
    slots: &mut SegmentSlots<A, Shm>,
    reg: &mut Registry<AllocatorDetails<A>>,
    current: u8,
    number: u8,
)
    requires held { IsSomeAnd (segment_at slots.old number) (λ held. 0 < held.count) }
    requires has { IsSomeAnd (segment_at slots.old number) (λ held. Has reg.old held.handle) }
    ensures slots { slots.new ≡ (if number == current then with_less slots.old number
        else without_unused (with_less slots.old number) number) }
    ensures registry { reg.new ≡ (if number == current then reg.old
        else after_retiring reg.old (segment_at (with_less slots.old number) number)) }
    ensures leaves { (handle : Handle) →
        (number ≢ current → IsSpared (segment_at (with_less slots.old number) number) handle) →
        LeavesHandle reg.old reg.new handle }
    ensures spares { AreApart slots.old → SparesHandles reg.old reg.new slots.old slots.new }
{
    slots.count_less(number);
    if number != current {
        slots.retire_unused(reg, number);
    }
}
