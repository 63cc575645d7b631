//! How a growing memory plans its next segment, and makes it. Ported from `resizable_shared_memory/dynamic.rs` of
//! iceoryx2-cal 0.9.3.
ghost use Rattle.std.specs.Prelude.{◌≡◌, ◌<◌, ◌⊎◌, ℕ, true, Some, None, is_some, IfSome, IfOk, IfErr, OnOk, OnErr};
ghost use Rattle.cal_alloc.specs.Pool.{pool_refusal};
ghost use Rattle.cal_names.specs.ConceptSettings.{file_path_for};
ghost use Rattle.cal_storage.specs.Contents.{id_at, after_creation, new_handle};
ghost use Rattle.cal_storage.specs.Holding.{Holds, IsNamed};
ghost use Rattle.cal_storage.specs.Refusals.{finished_version};
ghost use Rattle.cal_resizable.specs.Growth.{may_help, grows, growth_plan, next_number_of_buckets, segment_plan, segment_refusal, made_segment};

use crate::errors::ResizableShmAllocationError;
use cal_alloc::{
    AllocationStrategy, Layout, PoolAllocator, SharedMemorySetupHint, ShmAllocationError,
    ShmAllocator,
};
use cal_names::{FileName, NamedConceptBuilder};
use cal_shm::{AllocatorDetails, SharedMemory, SharedMemoryBuilder, SharedMemoryCreateError};
use cal_storage::Registry;
use std::alloc::Global;

/// The number of the last segment that there can be.
const LAST_NUMBER: u8 = 255;

/// Whether another segment may serve what one refuses so.
fn may_help(refusal: ShmAllocationError) -> bool
    ensures { result ≡ may_help refusal }
{
    match refusal {
        ShmAllocationError::ExceedsMaxSupportedAlignment => true,
        ShmAllocationError::SizeTooLarge => true,
        ShmAllocationError::OutOfMemory => true,
        ShmAllocationError::SizeIsZero => false,
    }
}

/// Whether memory of a strategy grows.
fn grows(strategy: AllocationStrategy) -> bool
    ensures { result ≡ grows strategy }
{
    match strategy {
        AllocationStrategy::BestFit => true,
        AllocationStrategy::PowerOfTwo => true,
        AllocationStrategy::Static => false,
    }
}

/// What the next segment is made from, where the allocator of the current one refuses a layout: `ShmAllocationError`
/// with that refusal where growth doesn't help or isn't allowed, then `MaxReallocationsReached`, then
/// `SizeOutOfRange`.
pub(crate) fn plan_growth<A: ShmAllocator>(
    allocator: &A,
    strategy: AllocationStrategy,
    current: u8,
    layout: Layout,
    refusal: ShmAllocationError,
) -> Result<SharedMemorySetupHint<A::Configuration>, ResizableShmAllocationError>
    ensures plan { result ≡ growth_plan A.ShmAllocator.own strategy current layout allocator.now refusal }
    ensures below { OnOk result (current < 255) }
    ensures serves { A.refusal allocator.now layout ≡ Some refusal → IfOk result (λ hint. (alignment : ℕ) →
        A.refusal (A.after_init (A.new_uninit alignment hint.payload_size hint.config)) layout ≡ None) }
{
    if !may_help(refusal)
        || !grows(strategy)
        || !(A::growth_raises_alignment() || layout.align() <= allocator.max_alignment())
    {
        return Err(ResizableShmAllocationError::ShmAllocationError(refusal));
    }
    if current == LAST_NUMBER {
        return Err(ResizableShmAllocationError::MaxReallocationsReached);
    }
    match allocator.resize_hint(layout, strategy) {
        Ok(hint) => Ok(hint),
        Err(_) => Err(ResizableShmAllocationError::SizeOutOfRange),
    }
}

/// Whether a pool refuses a layout.
fn is_refused(pool: &PoolAllocator, layout: Layout) -> bool
    ensures { result ≡ is_some (pool_refusal pool.now layout) }
{
    if pool.max_alignment() < layout.align() {
        return true;
    }
    if pool.bucket_size() < layout.size() {
        return true;
    }
    pool.number_of_used_buckets() == pool.number_of_buckets()
}

/// How many buckets the next segment would have, where the pool of the current one doesn't serve a layout and memory of
/// this strategy would grow for it.
pub(crate) fn next_number_of_buckets(
    pool: &PoolAllocator,
    strategy: AllocationStrategy,
    current: u8,
    layout: Layout,
) -> Option<usize>
    ensures number { result ≡ next_number_of_buckets strategy current layout pool.now }
{
    if !is_refused(pool, layout) || !grows(strategy) || current == LAST_NUMBER {
        return None;
    }
    match pool.resize_hint(layout, strategy) {
        Ok(hint) => Some(PoolAllocator::management_size(hint.payload_size, &hint.config)),
        Err(_) => None,
    }
}

/// Makes the segment of this name, which it owns.
pub(crate) fn make_segment<A: ShmAllocator, Shm: SharedMemory<A>>(
    alloc: Global,
    reg: &mut Registry<AllocatorDetails<A>>,
    name: &FileName,
    config: &Shm::Configuration,
    hint: &SharedMemorySetupHint<A::Configuration>,
) -> Result<Shm, SharedMemoryCreateError>
    ensures refused { IfSome (segment_refusal A.ShmAllocator.own reg.old
        (segment_plan A.ShmAllocator.own (Shm.Configuration.settings config.now) name.now hint.now) hint.now)
        (λ error. result ≡ Err error) }
    ensures error { IfErr result (λ error. (segment_refusal A.ShmAllocator.own reg.old
        (segment_plan A.ShmAllocator.own (Shm.Configuration.settings config.now) name.now hint.now) hint.now
        ≡ Some error) ⊎ (error ≡ SharedMemoryCreateError.NoMemory)) }
    ensures created { OnOk result (reg.new ≡ after_creation reg.old
        (file_path_for (Shm.Configuration.settings config.now) name.now)
        (made_segment A.ShmAllocator.own hint.now) finished_version) }
    ensures free { OnOk result (id_at reg.old (file_path_for (Shm.Configuration.settings config.now) name.now) ≡ None) }
    ensures handle { IfOk result (λ segment. Shm.handle segment
        ≡ new_handle reg.old (file_path_for (Shm.Configuration.settings config.now) name.now) true) }
    ensures holds { IfOk result (λ segment. Holds reg.new 1 (Shm.handle segment)) }
    ensures named { IfOk result (λ segment. IsNamed reg.new (Shm.handle segment)) }
    ensures unchanged { OnErr result (reg.new ≡ reg.old) }
{
    Shm::Builder::new(name)
        .config(config)
        .size(hint.payload_size)
        .create(alloc, reg, &hint.config)
}
