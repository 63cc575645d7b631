//! Bytes that are written through one handle and read through another.
use crate::{PayloadHolder, SharedMemory, SharedMemoryBuilder, process_local};
use cal_alloc::pool_allocator::Config;
use cal_alloc::{Layout, PointerOffset, PoolAllocator};
use cal_names::{FileName, NamedConceptBuilder};
use cal_storage::{AccessMode, Registry};
use std::alloc::Global;
use std::process::Abort;
use std::test::Fail;

/// A new segment is zero, and what is written in it is seen by both, in its place and nowhere else.
fn both_see_the_bytes<M: SharedMemory<PoolAllocator>>(
    rt: &impl Abort,
    alloc: Global,
) -> Result<(), Fail> {
    let name = FileName::new(b"myShmName").ok_or("a file name")?;
    let bucket_layout = Layout::new(4, 4).ok_or("a layout")?;
    let mut reg = Registry::new(alloc);
    let first = M::Builder::new(&name)
        .size(8)
        .create(alloc, &mut reg, &Config { bucket_layout })?;
    let second = M::Builder::new(&name).open(&mut reg, AccessMode::ReadWrite)?;
    assert!(rt; first.size(&reg) == 8);
    assert!(rt; first.bytes(&reg, PointerOffset::new(0), 8) == [0; 8].as_slice());
    let written = M::bytes_mut(&mut reg, &first, PointerOffset::new(2), 3);
    assert!(rt; written.len() == 3);
    written.copy_from_slice(&[1, 2, 3]);
    assert!(rt; second.size(&reg) == 8);
    assert!(rt;
        second.bytes(&reg, PointerOffset::new(0), 8) == [0, 0, 1, 2, 3, 0, 0, 0].as_slice()
    );
    Ok(())
}

#[test]
fn both_handles_see_the_bytes(rt: HostRuntime) -> Result<(), Fail> {
    both_see_the_bytes::<process_local::Memory<PoolAllocator>>(&rt, rt.alloc())
}
