//! What the tests share: layouts, and memories and views over any allocator and storage, said by what the tests need
//! alone.
ghost use Rattle.std.specs.Prelude.{◌≡◌, ℕ, IfOk, List, []};
ghost use Rattle.cal_storage.specs.Contents.{nothing_registered};
ghost use Rattle.cal_resizable.specs.Chunks.{Chunk, AreOut};
ghost use Rattle.cal_resizable.specs.Memory.{HasAll};
ghost use Rattle.cal_resizable.specs.Slots.{count_at};
ghost use Rattle.cal_resizable.specs.Together.{IsAlone, AreTogether};

use crate::chunk_laws::a_chunk_stays_out_elsewhere;
use crate::together_laws::{a_new_memory_stands_alone, a_view_opens_what_was_created};
use crate::{DynamicMemory, DynamicMemoryBuilder, DynamicView, DynamicViewBuilder};
use cal_alloc::{AllocationStrategy, Layout, ShmAllocator};
use cal_names::{FileName, NamedConcept};
use cal_shm::{AllocatorDetails, SharedMemory};
use cal_storage::{AccessMode, Registry};
use std::alloc::Global;
use std::test::Fail;

/// The layout of a size at multiples of 8, in bytes.
pub(super) fn bytes(size: usize) -> Result<Layout, Fail>
    ensures size { IfOk result (λ layout. layout.size ≡ size) }
{
    Ok(Layout::new(size, 8).ok_or("a layout")?)
}

/// Memory for so many chunks of 8 bytes, which grows by a strategy.
pub(super) fn memory<A: ShmAllocator, Shm: SharedMemory<A>>(
    alloc: Global,
    reg: &mut Registry<AllocatorDetails<A>>,
    number: usize,
    strategy: AllocationStrategy,
) -> Result<DynamicMemory<A, Shm>, Fail>
    ensures has { IfOk result (HasAll reg.new) }
    ensures empty { IfOk result (λ memory. count_at memory.slots memory.current ≡ 0) }
    ensures none_out { IfOk result
        (λ memory. AreOut A.properties A.IsByteUsed A.IsAllocated reg.new memory.slots []) }
{
    lone_memory(alloc, reg, number, strategy)
}

/// The same memory, and that a view can open it: it has the settings that a view expects, and in an empty registry it is
/// the only thing.
pub(super) fn lone_memory<A: ShmAllocator, Shm: SharedMemory<A>>(
    alloc: Global,
    reg: &mut Registry<AllocatorDetails<A>>,
    number: usize,
    strategy: AllocationStrategy,
) -> Result<DynamicMemory<A, Shm>, Fail>
    ensures has { IfOk result (HasAll reg.new) }
    ensures empty { IfOk result (λ memory. count_at memory.slots memory.current ≡ 0) }
    ensures none_out { IfOk result
        (λ memory. AreOut A.properties A.IsByteUsed A.IsAllocated reg.new memory.slots []) }
    ensures settings { IfOk result (λ memory. memory.settings ≡ Shm.Configuration.initial) }
    ensures alone { reg.old ≡ nothing_registered → IfOk result (IsAlone reg.new) }
{
    a_new_memory_stands_alone::<A>();
    let name = FileName::new(b"myMem").ok_or("a file name")?;
    let _bytes = name.as_bytes();
    let builder = DynamicMemoryBuilder::new(&name)
        .max_chunk_layout_hint(bytes(8)?)
        .max_number_of_chunks_hint(number)
        .allocation_strategy(strategy);
    let memory: DynamicMemory<A, Shm> = builder.create(alloc, reg)?;
    let _segments = memory.number_of_active_segments();
    Ok(memory)
}

/// A view of a memory that no other view has opened yet. It maps no segment, and what is out of the memory is out still.
pub(super) fn view_of<A: ShmAllocator, Shm: SharedMemory<A>>(
    alloc: Global,
    reg: &mut Registry<AllocatorDetails<A>>,
    memory: &DynamicMemory<A, Shm>,
) -> Result<DynamicView<A, Shm>, Fail>
    requires alone { IsAlone reg.old memory.now }
    requires settings { memory.now.settings ≡ Shm.Configuration.initial }
    ensures together { IfOk result (AreTogether reg.new memory.now) }
    ensures none_registered { IfOk result (λ view. (number : ℕ) → count_at view.slots number ≡ 0) }
    ensures out { (chunks : List Chunk) →
        AreOut A.properties A.IsByteUsed A.IsAllocated reg.old memory.now.slots chunks →
        AreOut A.properties A.IsByteUsed A.IsAllocated reg.new memory.now.slots chunks }
{
    a_view_opens_what_was_created::<A>();
    a_chunk_stays_out_elsewhere::<A>();
    let builder = DynamicViewBuilder::new(memory.name()).timeout(1);
    Ok(builder.open(alloc, reg, AccessMode::ReadWrite)?)
}
