//! A segment that the memory has given up stays as long as a view reads it.
use super::fixtures::{bytes, lone_memory, view_of};
use super::round_trip::send;
use super::steps::{arrive, give_back, leave, loan, read};
use crate::DynamicMemory;
use crate::chunk_laws::a_chunk_that_is_out_can_be_used;
use cal_alloc::{AllocationStrategy, BumpAllocator, PoolAllocator, ShmAllocator};
use cal_names::FileName;
use cal_shm::{AllocatorDetails, SharedMemory, file, process_local};
use cal_storage::Registry;
use std::alloc::Global;
use std::process::Abort;
use std::test::Fail;

/// Segment 0 is gone: no segment has its name, and the memory has segment 1 alone.
fn segment_0_is_gone<A: ShmAllocator, Shm: SharedMemory<A>>(
    rt: &impl Abort,
    reg: &Registry<AllocatorDetails<A>>,
    memory: &DynamicMemory<A, Shm>,
) -> Result<(), Fail> {
    let name = FileName::new(b"myMem__0").ok_or("a file name")?;
    assert!(rt; matches!(Shm::does_exist(reg, &name), Ok(false)));
    assert!(rt; memory.number_of_active_segments() == 1);
    assert!(rt; memory.current_segment().value() == 1);
    Ok(())
}

/// The memory has grown, and segment 0 goes with its last chunk, which the view reads still. Its segment is unmapped
/// there when the chunk leaves.
fn goes_with_its_last_chunk<A: ShmAllocator, Shm: SharedMemory<A>>(
    rt: &impl Abort,
    alloc: Global,
) -> Result<(), Fail> {
    a_chunk_that_is_out_can_be_used::<A>();
    let mut reg = Registry::new(alloc);
    let mut memory = lone_memory::<A, Shm>(alloc, &mut reg, 1, AllocationStrategy::BestFit)?;
    let mut view = view_of(alloc, &mut reg, &memory)?;
    let small = bytes(8)?;
    let large = bytes(16)?;
    let first = send(alloc, &mut reg, &mut memory, &mut view, small, &[1, 2, 3])?;
    let second = loan(alloc, &mut reg, &mut memory, &view, large)?;
    give_back(&mut reg, &mut memory, &view, first, small);
    segment_0_is_gone::<A, Shm>(rt, &reg, &memory)?;
    assert!(rt; read(&reg, &view, first, 3) == [1, 2, 3].as_slice());
    arrive(&mut reg, &memory, &mut view, second);
    assert!(rt; view.number_of_active_segments() == 2);
    leave(&mut reg, &memory, &mut view, first);
    assert!(rt; view.number_of_active_segments() == 1);
    Ok(())
}

/// Segment 0 has no chunk, and goes when the memory grows, while the view maps it. It is unmapped there when another
/// segment becomes the current one.
fn goes_where_it_is_empty<A: ShmAllocator, Shm: SharedMemory<A>>(
    rt: &impl Abort,
    alloc: Global,
) -> Result<(), Fail> {
    a_chunk_that_is_out_can_be_used::<A>();
    let mut reg = Registry::new(alloc);
    let mut memory = lone_memory::<A, Shm>(alloc, &mut reg, 1, AllocationStrategy::BestFit)?;
    let mut view = view_of(alloc, &mut reg, &memory)?;
    let small = bytes(8)?;
    let large = bytes(16)?;
    let first = send(alloc, &mut reg, &mut memory, &mut view, small, &[1, 2, 3])?;
    give_back(&mut reg, &mut memory, &view, first, small);
    let second = loan(alloc, &mut reg, &mut memory, &view, large)?;
    segment_0_is_gone::<A, Shm>(rt, &reg, &memory)?;
    assert!(rt; read(&reg, &view, first, 3) == [1, 2, 3].as_slice());
    leave(&mut reg, &memory, &mut view, first);
    assert!(rt; view.number_of_active_segments() == 1);
    arrive(&mut reg, &memory, &mut view, second);
    assert!(rt; view.number_of_active_segments() == 1);
    Ok(())
}

#[test]
fn a_segment_goes_with_its_last_chunk(rt: HostRuntime) -> Result<(), Fail> {
    let alloc = rt.alloc();
    goes_with_its_last_chunk::<PoolAllocator, process_local::Memory<PoolAllocator>>(&rt, alloc)?;
    goes_with_its_last_chunk::<BumpAllocator, file::Memory<BumpAllocator>>(&rt, alloc)
}

#[test]
fn an_empty_segment_goes_at_growth(rt: HostRuntime) -> Result<(), Fail> {
    let alloc = rt.alloc();
    goes_where_it_is_empty::<PoolAllocator, file::Memory<PoolAllocator>>(&rt, alloc)?;
    goes_where_it_is_empty::<BumpAllocator, process_local::Memory<BumpAllocator>>(&rt, alloc)
}
