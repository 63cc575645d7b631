//! Segments that a bump allocator hands out.
use super::fixtures::{create, layout, my_name};
use crate::{SharedMemory, process_local};
use cal_alloc::bump_allocator::Config;
use cal_alloc::{BumpAllocator, ShmAllocationError};
use cal_storage::Registry;
use std::alloc::Global;
use std::process::Abort;
use std::test::Fail;

/// Chunks are handed out from the front on, each at its alignment.
fn chunks_come_from_the_front<M: SharedMemory<BumpAllocator>>(
    rt: &impl Abort,
    alloc: Global,
) -> Result<(), Fail> {
    let mut reg = Registry::new(alloc);
    let memory = create::<BumpAllocator, M>(alloc, &mut reg, &my_name()?, 64, &Config {})?;
    let first = memory.allocate(&mut reg, layout(3, 1)?)?;
    let second = memory.allocate(&mut reg, layout(8, 8)?)?;
    assert!(rt; first.offset.offset() == 0);
    assert!(rt; second.offset.offset() == 8);
    assert!(rt; memory.allocator(&reg).total_space() == 64);
    Ok(())
}

/// The refusals are the allocator's.
fn chunks_are_refused<M: SharedMemory<BumpAllocator>>(
    rt: &impl Abort,
    alloc: Global,
) -> Result<(), Fail> {
    let mut reg = Registry::new(alloc);
    let memory = create::<BumpAllocator, M>(alloc, &mut reg, &my_name()?, 64, &Config {})?;
    let too_many = memory.allocate(&mut reg, layout(65, 1)?);
    assert!(rt; matches!(too_many.err(), Some(ShmAllocationError::OutOfMemory)));
    let none = memory.allocate(&mut reg, layout(0, 1)?);
    assert!(rt; matches!(none.err(), Some(ShmAllocationError::SizeIsZero)));
    let aligned = memory.allocate(&mut reg, layout(1, 16)?);
    assert!(rt;
        matches!(
            aligned.err(),
            Some(ShmAllocationError::ExceedsMaxSupportedAlignment)
        )
    );
    Ok(())
}

#[test]
fn bump_segments_hand_out_from_the_front(rt: HostRuntime) -> Result<(), Fail> {
    chunks_come_from_the_front::<process_local::Memory<BumpAllocator>>(&rt, rt.alloc())?;
    chunks_are_refused::<process_local::Memory<BumpAllocator>>(&rt, rt.alloc())
}
