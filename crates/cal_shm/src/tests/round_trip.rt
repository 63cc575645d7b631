//! What is written in a chunk is read back, for any allocator and any storage, through the bounds alone.
ghost use Rattle.std.specs.Prelude.{◌≡◌, ◌≤◌, IfOk, length};
ghost use Rattle.cal_alloc.specs.PointerOffset.{offset_of};
ghost use Rattle.cal_storage.specs.Contents.{Has};
ghost use Rattle.cal_storage.specs.Holding.{KeepsHandles};
ghost use Rattle.cal_shm.specs.Calls.{OfValue, IsInPayload, with_written};
ghost use Rattle.cal_shm.specs.Segment.{with_bytes};

use crate::{
    AllocatorDetails, PayloadHolder, SharedMemory, SharedMemoryBuilder, file, process_local,
};
use cal_alloc::{BumpAllocator, Layout, PointerOffset, PoolAllocator, ShmAllocator};
use cal_names::{FileName, NamedConceptBuilder};
use cal_storage::Registry;
use std::alloc::Global;
use std::test::Fail;

/// Writes bytes in a segment, from an offset on.
fn write<A: ShmAllocator, M: SharedMemory<A>>(
    reg: &mut Registry<AllocatorDetails<A>>,
    memory: &M,
    offset: PointerOffset,
    bytes: &[u8],
)
    requires there { Has reg.old (M.handle memory.now) }
    requires within { OfValue reg.old (M.handle memory.now).id
        (λ segment. IsInPayload segment.payload (offset_of offset) (length bytes.now)) }
    ensures written { reg.new ≡ with_written with_bytes reg.old (M.handle memory.now).id (offset_of offset) bytes.now }
{
    M::bytes_mut(reg, memory, offset, bytes.len()).copy_from_slice(bytes);
}

/// Hands out a chunk of this layout, writes bytes at its front, reads them back, and gives the chunk back.
fn write_and_read<A: ShmAllocator, M: SharedMemory<A>>(
    alloc: Global,
    reg: &mut Registry<AllocatorDetails<A>>,
    memory: &M,
    layout: Layout,
    bytes: &[u8],
) -> Result<Vec<u8>, Fail>
    requires there { Has reg.old (M.handle memory.now) }
    requires fits { length bytes.now ≤ layout.size }
    ensures read { IfOk result (λ read. read.items ≡ bytes.now) }
    ensures keeps { KeepsHandles reg.old reg.new }
{
    let pointer = memory.allocate(reg, layout)?;
    write(reg, memory, pointer.offset, bytes);
    let read = Vec::from_slice(alloc, memory.bytes(reg, pointer.offset, bytes.len()));
    memory.deallocate(reg, pointer.offset, layout);
    Ok(read?)
}

/// Does so in a new segment of 2048 bytes, and closes it.
fn store<A: ShmAllocator, M: SharedMemory<A>>(
    alloc: Global,
    layout: Layout,
    bytes: &[u8],
) -> Result<Vec<u8>, Fail>
    requires fits { length bytes.now ≤ layout.size }
    ensures read { IfOk result (λ read. read.items ≡ bytes.now) }
{
    let name = FileName::new(b"mem").ok_or("a file name")?;
    let mut reg = Registry::new(alloc);
    let config = A::Configuration::default();
    let memory = M::Builder::new(&name)
        .size(2048)
        .create(alloc, &mut reg, &config)?;
    let read = write_and_read(alloc, &mut reg, &memory, layout, bytes)?;
    memory.close(&mut reg);
    Ok(read)
}

#[test]
fn what_is_written_in_a_pool_is_read(rt: HostRuntime) -> Result<(), Fail> {
    let alloc = rt.alloc();
    let layout = Layout::new(4, 1).ok_or("a layout")?;
    let read = store::<PoolAllocator, file::Memory<PoolAllocator>>(alloc, layout, &[1, 2, 3])?;
    assert!(rt; read.as_slice() == [1, 2, 3].as_slice());
    Ok(())
}

#[test]
fn what_is_written_behind_a_bump_is_read(rt: HostRuntime) -> Result<(), Fail> {
    let alloc = rt.alloc();
    let layout = Layout::new(4, 1).ok_or("a layout")?;
    let read = store::<BumpAllocator, process_local::Memory<BumpAllocator>>(
        alloc,
        layout,
        &[1, 2],
    )?;
    assert!(rt; read.as_slice() == [1, 2].as_slice());
    Ok(())
}
