//! What a segment is like that growth makes.
ghost use Rattle.std.specs.Prelude.{◌≤◌, IfOk};
ghost use Rattle.cal_resizable.specs.Memory.{HasAll};
ghost use Rattle.cal_resizable.specs.Slots.{count_at};

use crate::{DynamicMemory, DynamicMemoryBuilder};
use cal_alloc::{AllocationStrategy, Layout, PoolAllocator};
use cal_names::FileName;
use cal_shm::{AllocatorDetails, SharedMemoryForPoolAllocator, file, process_local};
use cal_storage::Registry;
use std::alloc::Global;
use std::process::Abort;
use std::test::Fail;

/// Memory of four buckets of 1024 bytes, all of which are out.
fn used_up<Shm: SharedMemoryForPoolAllocator>(
    alloc: Global,
    reg: &mut Registry<AllocatorDetails<PoolAllocator>>,
    strategy: AllocationStrategy,
) -> Result<DynamicMemory<PoolAllocator, Shm>, Fail>
    ensures has { IfOk result (HasAll reg.new) }
    ensures few { IfOk result (λ memory. count_at memory.slots memory.current ≤ 4) }
{
    let name = FileName::new(b"myMem").ok_or("a file name")?;
    let bucket = Layout::new(1024, 8).ok_or("a layout")?;
    let builder = DynamicMemoryBuilder::new(&name)
        .max_chunk_layout_hint(bucket)
        .max_number_of_chunks_hint(4)
        .allocation_strategy(strategy);
    let mut memory: DynamicMemory<PoolAllocator, Shm> = builder.create(alloc, reg)?;
    memory.allocate(alloc, reg, bucket)?;
    memory.allocate(alloc, reg, bucket)?;
    memory.allocate(alloc, reg, bucket)?;
    memory.allocate(alloc, reg, bucket)?;
    Ok(memory)
}

/// Memory that is used up so, and is asked for a chunk of 1500 bytes at multiples of 16, makes a segment of so many
/// buckets of this size, and foretells their number. The payload is their product. Both segments are there then.
fn grows_by<Shm: SharedMemoryForPoolAllocator>(
    rt: &impl Abort,
    alloc: Global,
    strategy: AllocationStrategy,
    size: usize,
    number: u32,
) -> Result<(), Fail> {
    let mut reg = Registry::new(alloc);
    let mut memory = used_up::<Shm>(alloc, &mut reg, strategy)?;
    let layout = Layout::new(1500, 16).ok_or("a layout")?;
    assert!(rt; memory.next_number_of_buckets(&reg, layout) == Some(number as usize));
    memory.allocate(alloc, &mut reg, layout)?;
    let current = memory.current_segment();
    assert!(rt; memory.bucket_size(&reg, current) == size);
    assert!(rt; memory.number_of_buckets(&reg, current) == number);
    assert!(rt; memory.number_of_active_segments() == 2);
    Ok(())
}

/// The new segment has a bucket more than the old one, and as many again under a power of two: 5 * 1504 are 7520 bytes
/// and 8 * 2048 are 16384. A bucket is the size rounded up to the alignment, else a power of two.
#[test]
fn buckets_take_the_chunk(rt: HostRuntime) -> Result<(), Fail> {
    let alloc = rt.alloc();
    let (best_fit, power) = (AllocationStrategy::BestFit, AllocationStrategy::PowerOfTwo);
    grows_by::<process_local::Memory<PoolAllocator>>(&rt, alloc, best_fit, 1504, 5)?;
    grows_by::<file::Memory<PoolAllocator>>(&rt, alloc, power, 2048, 8)
}
