//! What is written in a chunk is read through a view, and the chunk comes back, for any allocator and any storage.
ghost use Rattle.std.specs.Prelude.{◌≡◌, ℕ, ◌<◌, ◌≤◌, ◌+◌, ◌-◌, ◌^◌, Some, IsSomeAnd, IfOk, OnOk, OnErr, List, ◌∷◌, length};
ghost use Rattle.cal_alloc.specs.PointerOffset.{segment_of};
ghost use Rattle.cal_resizable.specs.Chunks.{Chunk, AreOut, AddsChunk};
ghost use Rattle.cal_resizable.specs.Slots.{count_at};
ghost use Rattle.cal_resizable.specs.Together.{AreTogether};
ghost use Rattle.cal_resizable.specs.View.{mapped_bytes};

use super::fixtures::{bytes, lone_memory, view_of};
use super::steps::{arrive, give_back, leave, loan, put, read};
use crate::chunk_laws::a_chunk_that_is_out_can_be_used;
use crate::{DynamicMemory, DynamicView, ResizableShmAllocationError};
use cal_alloc::{
    AllocationStrategy, BumpAllocator, Layout, PointerOffset, PoolAllocator, ShmAllocator,
};
use cal_shm::{AllocatorDetails, SharedMemory, file, process_local};
use cal_storage::Registry;
use std::alloc::{AllocError, Global};
use std::process::Abort;
use std::test::Fail;

/// Hands out a chunk of this layout, writes bytes at its front, and lets it arrive at the view, which shows them then.
/// After an error all is as before.
pub(super) fn send<A: ShmAllocator, Shm: SharedMemory<A>>(
    alloc: Global,
    reg: &mut Registry<AllocatorDetails<A>>,
    memory: &mut DynamicMemory<A, Shm>,
    view: &mut DynamicView<A, Shm>,
    layout: Layout,
    bytes: &[u8],
) -> Result<PointerOffset, ResizableShmAllocationError>
    requires together { AreTogether reg.old memory.old view.old }
    requires out { (chunks : List Chunk) ×
        AreOut A.properties A.IsByteUsed A.IsAllocated reg.old memory.old.slots chunks }
    requires room { count_at memory.old.slots memory.old.current < 2 ^ 64 - 1 }
    requires view_room { (number : ℕ) → count_at view.old.slots number < 2 ^ 64 - 1 }
    requires some { 0 < length bytes.now }
    requires fits { length bytes.now ≤ layout.size }
    ensures out { IfOk result (λ pointer. AddsChunk A.properties A.IsByteUsed A.IsAllocated reg.old memory.old.slots
        layout pointer reg.new memory.new.slots) }
    ensures counted { OnOk result
        (count_at memory.new.slots memory.new.current ≤ count_at memory.old.slots memory.old.current + 1) }
    ensures shown { IfOk result (λ pointer.
        mapped_bytes reg.new view.new pointer (length bytes.now) ≡ Some bytes.now) }
    ensures registered { IfOk result (λ pointer. 0 < count_at view.new.slots (segment_of pointer)) }
    ensures few { (number : ℕ) → count_at view.new.slots number ≤ count_at view.old.slots number + 1 }
    ensures together { AreTogether reg.new memory.new view.new }
    ensures unchanged { OnErr result (reg.new ≡ reg.old) }
    ensures same { OnErr result (memory.new ≡ memory.old) }
{
    a_chunk_that_is_out_can_be_used::<A>();
    let offset = match loan(alloc, reg, memory, view, layout) {
        Ok(offset) => offset,
        Err(error) => return Err(error),
    };
    put(reg, memory, view, offset, bytes);
    arrive(reg, memory, view, offset);
    Ok(offset)
}

/// Reads the bytes of a chunk through the view, lets it leave there, and takes it back. It is out no more, and each
/// other is out still.
fn take_back<A: ShmAllocator, Shm: SharedMemory<A>>(
    alloc: Global,
    reg: &mut Registry<AllocatorDetails<A>>,
    memory: &mut DynamicMemory<A, Shm>,
    view: &mut DynamicView<A, Shm>,
    offset: PointerOffset,
    layout: Layout,
    count: usize,
) -> Result<Vec<u8>, AllocError>
    requires together { AreTogether reg.old memory.old view.old }
    requires out { (size : ℕ) × (chunks : List Chunk) ×
        AreOut A.properties A.IsByteUsed A.IsAllocated reg.old memory.old.slots
        (record { pointer = offset; layout = layout; size = size } ∷ chunks) }
    requires registered { 0 < count_at view.old.slots (segment_of offset) }
    requires some { 0 < count }
    requires shown { IsSomeAnd (mapped_bytes reg.old view.old offset count) (λ bytes. length bytes ≡ count) }
    ensures read { IfOk result (λ read. mapped_bytes reg.old view.old offset count ≡ Some read.items) }
    ensures out { (size : ℕ) (chunks : List Chunk) →
        AreOut A.properties A.IsByteUsed A.IsAllocated reg.old memory.old.slots
        (record { pointer = offset; layout = layout; size = size } ∷ chunks) →
        AreOut A.properties A.IsByteUsed A.IsAllocated reg.new memory.new.slots chunks }
    ensures together { AreTogether reg.new memory.new view.new }
{
    a_chunk_that_is_out_can_be_used::<A>();
    let copy = Vec::from_slice(alloc, read(reg, view, offset, count));
    leave(reg, memory, view, offset);
    give_back(reg, memory, view, offset, layout);
    copy
}

/// Hands out a chunk of this layout, writes bytes at its front, reads them through the view, and takes the chunk back.
/// The chunks that are out then are those that were.
pub(super) fn goes_there_and_back<A: ShmAllocator, Shm: SharedMemory<A>>(
    alloc: Global,
    reg: &mut Registry<AllocatorDetails<A>>,
    memory: &mut DynamicMemory<A, Shm>,
    view: &mut DynamicView<A, Shm>,
    layout: Layout,
    bytes: &[u8],
) -> Result<Vec<u8>, Fail>
    requires together { AreTogether reg.old memory.old view.old }
    requires out { (chunks : List Chunk) ×
        AreOut A.properties A.IsByteUsed A.IsAllocated reg.old memory.old.slots chunks }
    requires room { count_at memory.old.slots memory.old.current < 2 ^ 64 - 1 }
    requires view_room { (number : ℕ) → count_at view.old.slots number < 2 ^ 64 - 1 }
    requires some { 0 < length bytes.now }
    requires fits { length bytes.now ≤ layout.size }
    ensures read { IfOk result (λ read. read.items ≡ bytes.now) }
    ensures out { (chunks : List Chunk) →
        AreOut A.properties A.IsByteUsed A.IsAllocated reg.old memory.old.slots chunks →
        AreOut A.properties A.IsByteUsed A.IsAllocated reg.new memory.new.slots chunks }
    ensures together { AreTogether reg.new memory.new view.new }
{
    let offset = send(alloc, reg, memory, view, layout, bytes)?;
    let read = take_back(alloc, reg, memory, view, offset, layout, bytes.len());
    Ok(read?)
}

/// In a new memory of one chunk of 8 bytes a chunk of this size comes back with its bytes. It was one of this segment,
/// which is the only one then, of the memory and of the view.
fn comes_back<A: ShmAllocator, Shm: SharedMemory<A>>(
    rt: &impl Abort,
    alloc: Global,
    size: usize,
    current: u8,
) -> Result<(), Fail>
    requires some { 3 ≤ size }
{
    let mut reg = Registry::new(alloc);
    let mut memory = lone_memory::<A, Shm>(alloc, &mut reg, 1, AllocationStrategy::BestFit)?;
    let mut view = view_of(alloc, &mut reg, &memory)?;
    let layout = bytes(size)?;
    let read = goes_there_and_back(alloc, &mut reg, &mut memory, &mut view, layout, &[1, 2, 3])?;
    assert!(rt; read.as_slice() == [1, 2, 3].as_slice());
    assert!(rt; memory.current_segment().value() == current);
    assert!(rt; memory.number_of_active_segments() == 1);
    assert!(rt; view.number_of_active_segments() == 1);
    Ok(())
}

/// A chunk of 8 bytes is one of segment 0; for a chunk of 16 bytes the memory grows, and gives up segment 0.
#[test]
fn a_chunk_goes_there_and_back(rt: HostRuntime) -> Result<(), Fail> {
    let alloc = rt.alloc();
    comes_back::<PoolAllocator, process_local::Memory<PoolAllocator>>(&rt, alloc, 8, 0)?;
    comes_back::<BumpAllocator, file::Memory<BumpAllocator>>(&rt, alloc, 16, 1)
}
