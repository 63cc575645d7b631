//! The names and paths of segments.
use super::fixtures::{create, my_name, open};
use crate::{SharedMemory, SharedMemoryOpenError, file, process_local};
use cal_alloc::{PoolAllocator, ShmAllocator};
use cal_names::{FileName, NamedConceptConfiguration};
use cal_storage::Registry;
use std::alloc::Global;
use std::process::Abort;
use std::test::Fail;

/// A segment is listed by its name.
fn a_segment_is_listed<A: ShmAllocator, M: SharedMemory<A>>(
    rt: &impl Abort,
    alloc: Global,
) -> Result<(), Fail> {
    let name = my_name()?;
    let mut reg = Registry::new(alloc);
    let _memory = create::<A, M>(alloc, &mut reg, &name, 2048, &A::Configuration::default())?;
    let names = M::list(alloc, &reg)?;
    assert!(rt; names.as_slice() == [name].as_slice());
    assert!(rt; matches!(M::does_exist(&reg, &name), Ok(true)));
    Ok(())
}

/// It is not found any more once it is removed.
fn a_segment_is_removed<A: ShmAllocator, M: SharedMemory<A>>(
    rt: &impl Abort,
    alloc: Global,
) -> Result<(), Fail> {
    let name = my_name()?;
    let mut reg = Registry::new(alloc);
    let _memory = create::<A, M>(alloc, &mut reg, &name, 2048, &A::Configuration::default())?;
    assert!(rt; matches!(M::remove(alloc, &mut reg, &name), Ok(true)));
    assert!(rt; matches!(M::does_exist(&reg, &name), Ok(false)));
    assert!(rt; !M::remove_name(&mut reg, &name, &M::Configuration::default()));
    let refused = open::<A, M>(&mut reg, &name, 0);
    assert!(rt; matches!(refused.err(), Some(SharedMemoryOpenError::DoesNotExist)));
    Ok(())
}

/// A segment stays under a name that nobody owns, also once its handle has closed.
fn a_segment_outlives_its_handles<A: ShmAllocator, M: SharedMemory<A>>(
    rt: &impl Abort,
    alloc: Global,
) -> Result<(), Fail> {
    let name = my_name()?;
    let mut reg = Registry::new(alloc);
    let mut memory = create::<A, M>(alloc, &mut reg, &name, 2048, &A::Configuration::default())?;
    memory.release_ownership();
    memory.close(&mut reg);
    let mut memory = open::<A, M>(&mut reg, &name, 2048)?;
    memory.acquire_ownership();
    memory.close(&mut reg);
    assert!(rt; reg.len() == 0);
    Ok(())
}

/// All of these for one kind of segment.
fn each_rule<A: ShmAllocator, M: SharedMemory<A>>(
    rt: &impl Abort,
    alloc: Global,
) -> Result<(), Fail> {
    a_segment_is_listed::<A, M>(rt, alloc)?;
    a_segment_is_removed::<A, M>(rt, alloc)?;
    a_segment_outlives_its_handles::<A, M>(rt, alloc)
}

#[test]
fn each_rule_of_names(rt: HostRuntime) -> Result<(), Fail> {
    each_rule::<PoolAllocator, file::Memory<PoolAllocator>>(&rt, rt.alloc())
}

#[test]
fn paths_have_the_suffix_of_segments(rt: HostRuntime) -> Result<(), Fail> {
    let config = process_local::Configuration::<PoolAllocator>::default();
    assert!(rt; config.zero_memory);
    let name = FileName::new(b"mem").ok_or("a file name")?;
    let path = config.path_for(&name)?;
    let suffix = process_local::Memory::<PoolAllocator>::default_suffix();
    assert!(rt; suffix.as_bytes() == b".shm".as_slice());
    assert!(rt; config.extract_name_from_path(&path) == Some(name));
    Ok(())
}
