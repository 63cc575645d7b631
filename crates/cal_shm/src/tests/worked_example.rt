//! The worked example of a segment: what is created and opened, and the refusals in their order.
use super::fixtures::{create, layout, my_name, open, pool_of};
use crate::{
    AllocatorDetails, SharedMemory, SharedMemoryBuilder, SharedMemoryCreateError,
    SharedMemoryForPoolAllocator, SharedMemoryOpenError, file,
};
use cal_alloc::{PoolAllocator, ShmAllocationError};
use cal_names::{FileName, NamedConcept, NamedConceptBuilder};
use cal_storage::Registry;
use std::alloc::Global;
use std::process::Abort;
use std::test::Fail;

/// A segment of 1024 bytes and buckets of 8 has 128 of them.
fn a_segment_is_created<M: SharedMemory<PoolAllocator>>(
    rt: &impl Abort,
    alloc: Global,
) -> Result<(), Fail> {
    let mut reg = Registry::new(alloc);
    let first = create::<PoolAllocator, M>(alloc, &mut reg, &my_name()?, 1024, &pool_of(8, 8)?)?;
    assert!(rt; first.size(&reg) == 1024);
    assert!(rt; first.max_alignment(&reg) == 8);
    assert!(rt; first.allocator(&reg).number_of_buckets() == 128);
    Ok(())
}

/// It owns its name, and its payload begins at 0.
fn a_new_segment_owns_its_name<M: SharedMemory<PoolAllocator>>(
    rt: &impl Abort,
    alloc: Global,
) -> Result<(), Fail> {
    let name = my_name()?;
    let mut reg = Registry::new(alloc);
    let first = create::<PoolAllocator, M>(alloc, &mut reg, &name, 1024, &pool_of(8, 8)?)?;
    assert!(rt; *first.name() == name);
    assert!(rt; first.has_ownership());
    assert!(rt; first.payload_start_address() == 0);
    assert!(rt; M::does_support_persistency());
    Ok(())
}

/// A segment isn't opened by who asks for more than there is. Who opens it doesn't own its name.
fn a_segment_is_opened<M: SharedMemory<PoolAllocator>>(
    rt: &impl Abort,
    alloc: Global,
) -> Result<(), Fail> {
    let name = my_name()?;
    let mut reg = Registry::new(alloc);
    let _first = create::<PoolAllocator, M>(alloc, &mut reg, &name, 1024, &pool_of(8, 8)?)?;
    let refused = open::<PoolAllocator, M>(&mut reg, &name, 2048);
    assert!(rt; matches!(refused.err(), Some(SharedMemoryOpenError::SizeDoesNotFit)));
    let second = open::<PoolAllocator, M>(&mut reg, &name, 1024)?;
    assert!(rt; !second.has_ownership());
    let third = open::<PoolAllocator, M>(&mut reg, &name, 0)?;
    assert!(rt; third.size(&reg) == 1024);
    Ok(())
}

/// Why a segment of this size, with buckets of 8 bytes of this alignment, isn't created.
fn refusal_of<M: SharedMemory<PoolAllocator>>(
    alloc: Global,
    reg: &mut Registry<AllocatorDetails<PoolAllocator>>,
    name: &[u8],
    size: usize,
    alignment: usize,
) -> Result<Option<SharedMemoryCreateError>, Fail> {
    let name = FileName::new(name).ok_or("a file name")?;
    let config = pool_of(8, alignment)?;
    let created = M::Builder::new(&name)
        .has_ownership(false)
        .size(size)
        .create(alloc, reg, &config);
    match created {
        Ok(memory) => {
            memory.close(reg);
            Ok(None)
        }
        Err(error) => Ok(Some(error)),
    }
}

/// Each refusal comes before the next one, though its cause holds too.
fn refusals_come_in_order<M: SharedMemory<PoolAllocator>>(
    rt: &impl Abort,
    alloc: Global,
) -> Result<(), Fail> {
    let mut reg = Registry::new(alloc);
    let long = [b'a'; 255];
    let too_large = (1 << 56) + 1;
    assert!(rt; matches!(refusal_of::<M>(alloc, &mut reg, b"mem", 64, 8)?, None));
    assert!(rt;
        matches!(
            refusal_of::<M>(alloc, &mut reg, &long, 0, 8192)?,
            Some(SharedMemoryCreateError::SizeIsZero)
        )
    );
    assert!(rt;
        matches!(
            refusal_of::<M>(alloc, &mut reg, &long, too_large, 8192)?,
            Some(SharedMemoryCreateError::SizeOutOfRange)
        )
    );
    assert!(rt;
        matches!(
            refusal_of::<M>(alloc, &mut reg, &long, 64, 8192)?,
            Some(SharedMemoryCreateError::PathTooLong)
        )
    );
    assert!(rt;
        matches!(
            refusal_of::<M>(alloc, &mut reg, b"mem", 64, 8192)?,
            Some(SharedMemoryCreateError::AlreadyExists)
        )
    );
    assert!(rt;
        matches!(
            refusal_of::<M>(alloc, &mut reg, b"other", 64, 8192)?,
            Some(SharedMemoryCreateError::InternalError)
        )
    );
    assert!(rt;
        matches!(
            refusal_of::<M>(alloc, &mut reg, b"other", 8192, 4096)?,
            None
        )
    );
    assert!(rt; reg.len() == 2);
    Ok(())
}

/// What a pool refuses.
fn buckets_are_refused<M: SharedMemoryForPoolAllocator>(
    rt: &impl Abort,
    alloc: Global,
) -> Result<(), Fail> {
    let mut reg = Registry::new(alloc);
    let memory = create::<PoolAllocator, M>(alloc, &mut reg, &my_name()?, 8, &pool_of(8, 8)?)?;
    assert!(rt; memory.bucket_size(&reg) == 8);
    let refused = memory.allocate(&mut reg, layout(9, 1)?);
    assert!(rt; matches!(refused.err(), Some(ShmAllocationError::SizeTooLarge)));
    let refused = memory.allocate(&mut reg, layout(1, 16)?);
    assert!(rt;
        matches!(
            refused.err(),
            Some(ShmAllocationError::ExceedsMaxSupportedAlignment)
        )
    );
    Ok(())
}

/// The one bucket is handed out once, and again where it was given back, by its offset alone.
fn a_bucket_is_given_back<M: SharedMemoryForPoolAllocator>(
    rt: &impl Abort,
    alloc: Global,
) -> Result<(), Fail> {
    let small = layout(3, 1)?;
    let mut reg = Registry::new(alloc);
    let memory = create::<PoolAllocator, M>(alloc, &mut reg, &my_name()?, 8, &pool_of(8, 8)?)?;
    let pointer = memory.allocate(&mut reg, small)?;
    assert!(rt; pointer.offset.as_value() == 0);
    memory.deallocate_bucket(&mut reg, pointer.offset);
    let again = memory.allocate(&mut reg, small)?;
    assert!(rt; again.offset.as_value() == 0);
    let refused = memory.allocate(&mut reg, small);
    assert!(rt; matches!(refused.err(), Some(ShmAllocationError::OutOfMemory)));
    Ok(())
}

/// All of these for one kind of segment.
fn each_step<M: SharedMemoryForPoolAllocator>(rt: &impl Abort, alloc: Global) -> Result<(), Fail> {
    a_segment_is_created::<M>(rt, alloc)?;
    a_new_segment_owns_its_name::<M>(rt, alloc)?;
    a_segment_is_opened::<M>(rt, alloc)?;
    refusals_come_in_order::<M>(rt, alloc)?;
    buckets_are_refused::<M>(rt, alloc)?;
    a_bucket_is_given_back::<M>(rt, alloc)
}

#[test]
fn each_step_of_the_example(rt: HostRuntime) -> Result<(), Fail> {
    each_step::<file::Memory<PoolAllocator>>(&rt, rt.alloc())
}
