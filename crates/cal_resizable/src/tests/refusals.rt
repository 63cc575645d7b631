//! Why growing memory hands nothing out.
use super::fixtures::memory;
use crate::ResizableShmAllocationError;
use cal_alloc::{AllocationStrategy, BumpAllocator, Layout, ShmAllocationError, ShmAllocator};
use cal_shm::{SharedMemory, file, process_local};
use cal_storage::Registry;
use std::alloc::Global;
use std::process::Abort;
use std::test::Fail;

/// Memory whose alignment doesn't grow refuses a chunk at multiples of 16 at once.
fn refuses_an_alignment<A: ShmAllocator, Shm: SharedMemory<A>>(
    rt: &impl Abort,
    alloc: Global,
) -> Result<(), Fail> {
    let mut reg = Registry::new(alloc);
    let mut memory = memory::<A, Shm>(alloc, &mut reg, 1, AllocationStrategy::BestFit)?;
    let layout = Layout::new(1, 16).ok_or("a layout")?;
    let refused = memory.allocate(alloc, &mut reg, layout);
    let error = ShmAllocationError::ExceedsMaxSupportedAlignment;
    assert!(rt; refused.err() == Some(ResizableShmAllocationError::ShmAllocationError(error)));
    assert!(rt; memory.number_of_active_segments() == 1);
    Ok(())
}

#[test]
fn a_bump_allocator_refuses_a_greater_alignment(rt: HostRuntime) -> Result<(), Fail> {
    refuses_an_alignment::<BumpAllocator, process_local::Memory<BumpAllocator>>(&rt, rt.alloc())?;
    refuses_an_alignment::<BumpAllocator, file::Memory<BumpAllocator>>(&rt, rt.alloc())
}
