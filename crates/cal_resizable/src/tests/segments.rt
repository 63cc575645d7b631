//! How many segments there can be, and when one goes.
ghost use Rattle.std.specs.Prelude.{◌≤◌, ◌<◌, ◌+◌, OnOk};
ghost use Rattle.cal_resizable.specs.Memory.{HasAll};
ghost use Rattle.cal_resizable.specs.Slots.{count_at};

use super::fixtures::{bytes, memory};
use crate::{DynamicMemory, ResizableShmAllocationError};
use cal_alloc::{AllocationStrategy, BumpAllocator, PoolAllocator, ShmAllocator};
use cal_shm::{AllocatorDetails, SharedMemory, file, process_local};
use cal_storage::Registry;
use std::alloc::Global;
use std::process::Abort;
use std::test::Fail;

/// Lets the memory grow so often: each chunk is larger than all buckets that there are, and stays out.
fn grow<A: ShmAllocator, Shm: SharedMemory<A>>(
    alloc: Global,
    reg: &mut Registry<AllocatorDetails<A>>,
    memory: &mut DynamicMemory<A, Shm>,
    times: usize,
) -> Result<(), Fail>
    requires has { HasAll reg.old memory.old }
    requires few { count_at memory.old.slots memory.old.current ≤ 1 }
    requires small { times < 1000 }
    ensures has { OnOk result (HasAll reg.new memory.new) }
    ensures few { OnOk result (count_at memory.new.slots memory.new.current ≤ 1 + times) }
{
    for step in 0..times {
        memory.allocate(alloc, reg, bytes(8 * step + 16)?)?;
    }
    Ok(())
}

/// There are 256 segments at most, each with a chunk here; then the memory refuses to grow.
fn grows_to_256_segments<A: ShmAllocator, Shm: SharedMemory<A>>(
    rt: &impl Abort,
    alloc: Global,
) -> Result<(), Fail> {
    let mut reg = Registry::new(alloc);
    let mut memory = memory::<A, Shm>(alloc, &mut reg, 1, AllocationStrategy::BestFit)?;
    memory.allocate(alloc, &mut reg, bytes(8)?)?;
    grow(alloc, &mut reg, &mut memory, 255)?;
    assert!(rt; memory.number_of_active_segments() == 256);
    let refused = memory.allocate(alloc, &mut reg, bytes(4096)?);
    assert!(rt;
        matches!(
            refused.err(),
            Some(ResizableShmAllocationError::MaxReallocationsReached)
        )
    );
    Ok(())
}

/// A segment that isn't the current one goes with its last chunk.
fn goes_with_its_last_chunk<A: ShmAllocator, Shm: SharedMemory<A>>(
    rt: &impl Abort,
    alloc: Global,
) -> Result<(), Fail> {
    let mut reg = Registry::new(alloc);
    let mut memory = memory::<A, Shm>(alloc, &mut reg, 1, AllocationStrategy::BestFit)?;
    let small = bytes(8)?;
    let large = bytes(16)?;
    let first = memory.allocate(alloc, &mut reg, small)?;
    let second = memory.allocate(alloc, &mut reg, large)?;
    assert!(rt; second.offset.segment_id().value() == 1);
    assert!(rt; memory.number_of_active_segments() == 2);
    memory.deallocate(&mut reg, first.offset, small);
    assert!(rt; memory.number_of_active_segments() == 1);
    Ok(())
}

#[test]
fn a_segment_goes_with_its_last_chunk(rt: HostRuntime) -> Result<(), Fail> {
    goes_with_its_last_chunk::<PoolAllocator, process_local::Memory<PoolAllocator>>(
        &rt,
        rt.alloc(),
    )?;
    goes_with_its_last_chunk::<BumpAllocator, file::Memory<BumpAllocator>>(&rt, rt.alloc())
}

#[test]
fn memory_grows_to_256_segments(rt: HostRuntime) -> Result<(), Fail> {
    grows_to_256_segments::<PoolAllocator, process_local::Memory<PoolAllocator>>(&rt, rt.alloc())?;
    grows_to_256_segments::<PoolAllocator, file::Memory<PoolAllocator>>(&rt, rt.alloc())
}
