//! The names of segments, and how growing memories are found, listed and removed by them.
use crate::{
    DynamicMemory, DynamicMemoryBuilder, extract_name_and_segment_id,
    extract_name_from_management_segment, management_segment_name, segment_name,
};
use cal_alloc::{BumpAllocator, PoolAllocator, SegmentId, ShmAllocator};
use cal_names::{FileName, NamedConceptBuilder, NamedConceptMgmt};
use cal_shm::{AllocatorDetails, SharedMemory, SharedMemoryBuilder, file, process_local};
use cal_storage::Registry;
use std::alloc::Global;
use std::process::Abort;
use std::test::Fail;

/// The file name of these bytes.
fn file_name(bytes: &[u8]) -> Result<FileName, Fail> {
    Ok(FileName::new(bytes).ok_or("a file name")?)
}

/// The segment of a number has this name, from which memory and number are extracted again.
fn is_named(rt: &impl Abort, number: u8, expected: &[u8]) -> Result<(), Fail> {
    let memory = file_name(b"mem")?;
    let name = segment_name(&memory, SegmentId::new(number)).ok_or("a segment's name")?;
    assert!(rt; name.as_bytes() == expected);
    let (of, id) = extract_name_and_segment_id(&name).ok_or("a memory's name")?;
    assert!(rt; of == memory && id.value() == number);
    Ok(())
}

#[test]
fn segments_are_named_by_their_numbers(rt: HostRuntime) -> Result<(), Fail> {
    is_named(&rt, 0, b"mem__0")?;
    is_named(&rt, 9, b"mem__9")?;
    is_named(&rt, 10, b"mem__10")?;
    is_named(&rt, 105, b"mem__105")?;
    is_named(&rt, 255, b"mem__255")?;
    let managing = management_segment_name(&file_name(b"mem")?).ok_or("a segment's name")?;
    assert!(rt; managing.as_bytes() == b"mem__mgmt".as_slice());
    let managed = extract_name_from_management_segment(&managing);
    assert!(rt; managed == Some(file_name(b"mem")?));
    Ok(())
}

/// Names that look like those of a memory's segments, and aren't.
#[test]
fn odd_names_are_no_segments(rt: HostRuntime) -> Result<(), Fail> {
    assert!(rt; extract_name_from_management_segment(&file_name(b"__mgmt")?).is_none());
    assert!(rt; extract_name_from_management_segment(&file_name(b"mem__0")?).is_none());
    for name in [
        b"mem__999".as_slice(),
        b"mem__256",
        b"mem__0x",
        b"mem__",
        b"mem__mgmt",
        b"__5",
    ] {
        assert!(rt; extract_name_and_segment_id(&file_name(name)?).is_none());
    }
    Ok(())
}

/// Makes a segment of this name.
fn make<A: ShmAllocator, Shm: SharedMemory<A>>(
    alloc: Global,
    reg: &mut Registry<AllocatorDetails<A>>,
    name: &[u8],
) -> Result<(), Fail> {
    let name = file_name(name)?;
    let builder = Shm::Builder::new(&name).size(2048);
    let _segment = builder.create(alloc, reg, &A::Configuration::default())?;
    Ok(())
}

/// A registry with the management segment of a memory `mem`, and four segments whose names are no memory's.
fn odd_names<A: ShmAllocator, Shm: SharedMemory<A>>(
    alloc: Global,
) -> Result<Registry<AllocatorDetails<A>>, Fail> {
    let mut reg = Registry::new(alloc);
    make::<A, Shm>(alloc, &mut reg, b"mem__mgmt")?;
    make::<A, Shm>(alloc, &mut reg, b"__mgmt")?;
    make::<A, Shm>(alloc, &mut reg, b"mem__")?;
    make::<A, Shm>(alloc, &mut reg, b"mem__999")?;
    make::<A, Shm>(alloc, &mut reg, b"mem__0x")?;
    Ok(reg)
}

/// The memory `mem` is there, and no other is listed.
fn mem_alone_is_listed<A: ShmAllocator, Shm: SharedMemory<A>>(
    rt: &impl Abort,
    alloc: Global,
    reg: &Registry<AllocatorDetails<A>>,
) -> Result<(), Fail> {
    let name = file_name(b"mem")?;
    let names = DynamicMemory::<A, Shm>::list(alloc, reg)?;
    assert!(rt; names.as_slice() == [name].as_slice());
    assert!(rt; matches!(DynamicMemory::<A, Shm>::does_exist(reg, &name), Ok(true)));
    Ok(())
}

/// The memory `mem` is removed, and isn't there any more.
fn mem_is_removed<A: ShmAllocator, Shm: SharedMemory<A>>(
    rt: &impl Abort,
    alloc: Global,
    reg: &mut Registry<AllocatorDetails<A>>,
) -> Result<(), Fail> {
    let name = file_name(b"mem")?;
    assert!(rt; matches!(DynamicMemory::<A, Shm>::remove(alloc, reg, &name), Ok(true)));
    assert!(rt; matches!(DynamicMemory::<A, Shm>::does_exist(reg, &name), Ok(false)));
    assert!(rt;
        matches!(
            DynamicMemory::<A, Shm>::remove(alloc, reg, &name),
            Ok(false)
        )
    );
    Ok(())
}

/// A removal leaves segments whose names only look like those of a memory. They are listed in the order of their paths.
fn odd_names_stay<A: ShmAllocator, Shm: SharedMemory<A>>(
    rt: &impl Abort,
    alloc: Global,
) -> Result<(), Fail> {
    let mut reg = odd_names::<A, Shm>(alloc)?;
    mem_alone_is_listed::<A, Shm>(rt, alloc, &reg)?;
    mem_is_removed::<A, Shm>(rt, alloc, &mut reg)?;
    let left = Shm::list(alloc, &reg)?;
    let (first, second) = (file_name(b"__mgmt")?, file_name(b"mem__")?);
    let (third, fourth) = (file_name(b"mem__0x")?, file_name(b"mem__999")?);
    assert!(rt; left.as_slice() == [first, second, third, fourth].as_slice());
    Ok(())
}

/// A segment whose management segment isn't there makes no memory, and goes with one all the same.
fn a_lone_segment_goes<A: ShmAllocator, Shm: SharedMemory<A>>(
    rt: &impl Abort,
    alloc: Global,
) -> Result<(), Fail> {
    let mut reg = Registry::new(alloc);
    make::<A, Shm>(alloc, &mut reg, b"mem__12")?;
    let name = file_name(b"mem")?;
    assert!(rt; matches!(DynamicMemory::<A, Shm>::does_exist(&reg, &name), Ok(false)));
    mem_is_removed::<A, Shm>(rt, alloc, &mut reg)?;
    assert!(rt; reg.len() == 0);
    Ok(())
}

/// Creates memory of this name.
fn create<A: ShmAllocator, Shm: SharedMemory<A>>(
    alloc: Global,
    reg: &mut Registry<AllocatorDetails<A>>,
    name: &FileName,
) -> Result<(), Fail> {
    let _memory: DynamicMemory<A, Shm> = DynamicMemoryBuilder::new(name).create(alloc, reg)?;
    Ok(())
}

/// A removal takes the two segments of its memory, and leaves those of another, although that memory has the name of a
/// segment of the first.
fn another_memory_stays<A: ShmAllocator, Shm: SharedMemory<A>>(
    rt: &impl Abort,
    alloc: Global,
) -> Result<(), Fail> {
    let (name, other) = (file_name(b"mem")?, file_name(b"mem__1")?);
    let mut reg = Registry::new(alloc);
    create::<A, Shm>(alloc, &mut reg, &name)?;
    create::<A, Shm>(alloc, &mut reg, &other)?;
    let names = DynamicMemory::<A, Shm>::list(alloc, &reg)?;
    assert!(rt; names.as_slice() == [other, name].as_slice());
    mem_is_removed::<A, Shm>(rt, alloc, &mut reg)?;
    let left = Shm::list(alloc, &reg)?;
    let (first, second) = (file_name(b"mem__1__0")?, file_name(b"mem__1__mgmt")?);
    assert!(rt; left.as_slice() == [first, second].as_slice());
    Ok(())
}

/// All of these for one kind of memory.
fn each_rule<A: ShmAllocator, Shm: SharedMemory<A>>(
    rt: &impl Abort,
    alloc: Global,
) -> Result<(), Fail> {
    odd_names_stay::<A, Shm>(rt, alloc)?;
    a_lone_segment_goes::<A, Shm>(rt, alloc)?;
    another_memory_stays::<A, Shm>(rt, alloc)
}

#[test]
fn memories_are_managed_by_the_names_of_segments(rt: HostRuntime) -> Result<(), Fail> {
    each_rule::<PoolAllocator, process_local::Memory<PoolAllocator>>(&rt, rt.alloc())?;
    each_rule::<BumpAllocator, file::Memory<BumpAllocator>>(&rt, rt.alloc())
}
