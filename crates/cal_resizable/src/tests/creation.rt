//! Why growing memory isn't made, why it isn't opened, and what is there after each.

use crate::{DynamicMemory, DynamicMemoryBuilder, DynamicView, DynamicViewBuilder};
use cal_alloc::{BumpAllocator, PoolAllocator, ShmAllocator};
use cal_names::FileName;
use cal_shm::{
    AllocatorDetails, SharedMemory, SharedMemoryCreateError, SharedMemoryOpenError, file,
    process_local,
};
use cal_storage::{AccessMode, Registry};
use std::alloc::Global;
use std::process::Abort;
use std::test::Fail;

/// Creates memory of this name, for one byte, with the default configuration.
fn create<A: ShmAllocator, Shm: SharedMemory<A>>(
    alloc: Global,
    reg: &mut Registry<AllocatorDetails<A>>,
    name: &FileName,
) -> Result<DynamicMemory<A, Shm>, SharedMemoryCreateError> {
    let config = Shm::Configuration::default();
    DynamicMemoryBuilder::new(name)
        .config(&config)
        .create(alloc, reg)
}

/// Opens a view of the memory of this name, with the default configuration.
fn open<A: ShmAllocator, Shm: SharedMemory<A>>(
    alloc: Global,
    reg: &mut Registry<AllocatorDetails<A>>,
    name: &FileName,
) -> Result<DynamicView<A, Shm>, SharedMemoryOpenError> {
    let config = Shm::Configuration::default();
    DynamicViewBuilder::new(name)
        .config(&config)
        .open(alloc, reg, AccessMode::Read)
}

/// A name is taken by one memory, whose two segments stay.
fn a_taken_name_is_refused<A: ShmAllocator, Shm: SharedMemory<A>>(
    rt: &impl Abort,
    alloc: Global,
) -> Result<(), Fail> {
    let name = FileName::new(b"myMem").ok_or("a file name")?;
    let mut reg = Registry::new(alloc);
    let first = create::<A, Shm>(alloc, &mut reg, &name)?;
    assert!(rt; reg.len() == 2);
    let second = create::<A, Shm>(alloc, &mut reg, &name);
    assert!(rt; matches!(second.err(), Some(SharedMemoryCreateError::AlreadyExists)));
    assert!(rt; reg.len() == 2);
    Ok(())
}

/// How many names there are where memory is created whose name is this long, in bytes, and what refused it.
fn refusal_of<A: ShmAllocator, Shm: SharedMemory<A>>(
    alloc: Global,
    name: &[u8],
) -> Result<(usize, Option<SharedMemoryCreateError>), Fail> {
    let name = FileName::new(name).ok_or("a file name")?;
    let mut reg = Registry::new(alloc);
    let created = create::<A, Shm>(alloc, &mut reg, &name);
    Ok((reg.len(), created.err()))
}

/// A file has a name of 255 bytes at most, of which `iox2_`, the 27 bytes of the hash, `_` and `.shm` leave 218 to the
/// name of a segment, and `__mgmt` leaves 212 of these to the memory's. From 250 bytes on the management segment's name
/// is no file name. A name that is refused leaves nothing.
fn a_long_name_is_refused<A: ShmAllocator, Shm: SharedMemory<A>>(
    rt: &impl Abort,
    alloc: Global,
) -> Result<(), Fail> {
    let (names, refused) = refusal_of::<A, Shm>(alloc, &[b'a'; 212])?;
    assert!(rt; refused.is_none() && names == 2);
    let (names, refused) = refusal_of::<A, Shm>(alloc, &[b'a'; 213])?;
    assert!(rt; matches!(refused, Some(SharedMemoryCreateError::PathTooLong)) && names == 0);
    let (names, refused) = refusal_of::<A, Shm>(alloc, &[b'a'; 250])?;
    assert!(rt; matches!(refused, Some(SharedMemoryCreateError::PathTooLong)) && names == 0);
    Ok(())
}

/// A view opens what was created, and maps nothing yet. What is there stays.
fn a_view_opens_a_memory<A: ShmAllocator, Shm: SharedMemory<A>>(
    rt: &impl Abort,
    alloc: Global,
) -> Result<(), Fail> {
    let name = FileName::new(b"myMem").ok_or("a file name")?;
    let mut reg = Registry::new(alloc);
    let memory = create::<A, Shm>(alloc, &mut reg, &name)?;
    let view = open::<A, Shm>(alloc, &mut reg, &name)?;
    assert!(rt; memory.number_of_active_segments() == 1);
    assert!(rt; view.number_of_active_segments() == 0);
    assert!(rt; reg.len() == 2);
    Ok(())
}

/// A memory that isn't there isn't opened, and neither is one whose name is too long.
fn an_absent_memory_is_not_opened<A: ShmAllocator, Shm: SharedMemory<A>>(
    rt: &impl Abort,
    alloc: Global,
) -> Result<(), Fail> {
    let name = FileName::new(b"myMem").ok_or("a file name")?;
    let long_name = FileName::new(&[b'a'; 250]).ok_or("a file name")?;
    let mut reg = Registry::new(alloc);
    let absent = open::<A, Shm>(alloc, &mut reg, &name);
    assert!(rt; matches!(absent.err(), Some(SharedMemoryOpenError::DoesNotExist)));
    let too_long = open::<A, Shm>(alloc, &mut reg, &long_name);
    assert!(rt; matches!(too_long.err(), Some(SharedMemoryOpenError::PathTooLong)));
    Ok(())
}

/// All of these for one kind of memory.
fn each_rule<A: ShmAllocator, Shm: SharedMemory<A>>(
    rt: &impl Abort,
    alloc: Global,
) -> Result<(), Fail> {
    a_taken_name_is_refused::<A, Shm>(rt, alloc)?;
    a_long_name_is_refused::<A, Shm>(rt, alloc)?;
    a_view_opens_a_memory::<A, Shm>(rt, alloc)?;
    an_absent_memory_is_not_opened::<A, Shm>(rt, alloc)
}

#[test]
fn each_rule_of_creation(rt: HostRuntime) -> Result<(), Fail> {
    each_rule::<PoolAllocator, process_local::Memory<PoolAllocator>>(&rt, rt.alloc())?;
    each_rule::<BumpAllocator, file::Memory<BumpAllocator>>(&rt, rt.alloc())
}
