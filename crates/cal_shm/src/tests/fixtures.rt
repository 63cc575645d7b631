//! What the tests share: a name, layouts, and segments of it, said by what the tests need alone.
ghost use Rattle.std.specs.Prelude.{IfOk};
ghost use Rattle.cal_storage.specs.Holding.{Holds, KeepsHandles};

use crate::{
    AllocatorDetails, SharedMemory, SharedMemoryBuilder, SharedMemoryCreateError,
    SharedMemoryOpenError,
};
use cal_alloc::pool_allocator::Config;
use cal_alloc::{Layout, ShmAllocator};
use cal_names::{FileName, NamedConceptBuilder};
use cal_storage::{AccessMode, Registry};
use std::alloc::Global;
use std::test::Fail;

/// The name of the segments of the tests.
pub(super) fn my_name() -> Result<FileName, Fail> {
    Ok(FileName::new(b"myShmName").ok_or("a file name")?)
}

/// The layout of a size and an alignment, both in bytes.
pub(super) fn layout(size: usize, alignment: usize) -> Result<Layout, Fail> {
    Ok(Layout::new(size, alignment).ok_or("a layout")?)
}

/// A pool of buckets of a size and an alignment, both in bytes.
pub(super) fn pool_of(size: usize, alignment: usize) -> Result<Config, Fail> {
    let bucket_layout = layout(size, alignment)?;
    Ok(Config { bucket_layout })
}

/// Creates a segment that owns its name.
pub(super) fn create<A: ShmAllocator, M: SharedMemory<A>>(
    alloc: Global,
    reg: &mut Registry<AllocatorDetails<A>>,
    name: &FileName,
    size: usize,
    config: &A::Configuration,
) -> Result<M, SharedMemoryCreateError>
    ensures holds { IfOk result (λ memory. Holds reg.new 1 (M.handle memory)) }
    ensures keeps { KeepsHandles reg.old reg.new }
{
    M::Builder::new(name).size(size).create(alloc, reg, config)
}

/// Opens a segment of that size at least.
pub(super) fn open<A: ShmAllocator, M: SharedMemory<A>>(
    reg: &mut Registry<AllocatorDetails<A>>,
    name: &FileName,
    size: usize,
) -> Result<M, SharedMemoryOpenError>
    ensures holds { IfOk result (λ memory. Holds reg.new 1 (M.handle memory)) }
    ensures keeps { KeepsHandles reg.old reg.new }
{
    M::Builder::new(name)
        .timeout(1)
        .size(size)
        .open(reg, AccessMode::ReadWrite)
}
