//! The pool cuts its memory into equal buckets and hands each out whole.
//!
//! Ported from `shm_allocator/pool_allocator.rs` of iceoryx2-cal 0.9.3.

ghost use Rattle.std.specs.Prelude.{◌≡◌, ◌<◌, ◌^◌, true, IsTrue, IsFalse, SomeIff, refl, if◌then◌else◌};
ghost use Rattle.cal_alloc.specs.Growth.{bucket_size_of, grown_buckets, raised_count};
ghost use Rattle.cal_alloc.specs.Hints.{pool_setup_hint, pool_resize_hint, buckets_after};
ghost use Rattle.cal_alloc.specs.Pool.{IsSoundPool, pool_fits, buckets_within, new_pool, is_full, number_of_used, bucket_of, offset_of_bucket, pool_properties, pool_refusal, GivesFreeBucket, IsUsedBucket, IsInUsedBucket, after_deallocation, FreesBucket};
ghost use Rattle.cal_alloc.specs.PointerOffset.{pointer_offset};
ghost use Rattle.cal_alloc.specs.PoolLaws.{new_pool-IsNew, initialized_pool-IsInitialized, GivesFreeBucket-IsAllocation, FreesBucket-IsDeallocation, pool_used_below_total, pool_served, pool_aligned, pool_fits_limit, pool_refused_empty};

use crate::allocation_strategy::AllocationStrategy;
use crate::free_buckets::FreeBuckets;
use crate::growth::{raised_count, raised_size};
use crate::layout::Layout;
use crate::limits::{MAX_MEMORY_SIZE, MAX_NUMBER_OF_BUCKETS};
use crate::pointer_offset::PointerOffset;
use crate::shm_allocator::{
    SharedMemorySetupHint, ShmAllocationError, ShmAllocator, ShmAllocatorConfig,
    ShmAllocatorInitError, SizeOutOfRange,
};
use std::alloc::Global;
use std::marker::Model;

/// The size of a bucket for that layout: at least one byte, rounded up to the alignment; `None` from 2^64 on.
fn bucket_size(layout: Layout) -> Option<usize>
    ensures value { let size = bucket_size_of layout.size layout.alignment in
        SomeIff result (size < 2 ^ 64) size }
{
    layout
        .size()
        .max(1)
        .checked_next_multiple_of(layout.align())
}

/// What a pool is made from: the layout that each bucket holds.
#[derive(Clone, Copy, Debug)]
pub struct Config {
    /// The size and the alignment that each bucket has room for.
    pub bucket_layout: Layout,
}

impl Default for Config {
    ghost is_default = { λ config.
        config ≡ record { bucket_layout = record { size = 1024; alignment = 8 } } };

    fn default() -> Config {
        Config {
            bucket_layout: Layout::new(1024, 8).unwrap(),
        }
    }
}

impl ShmAllocatorConfig for Config {}

/// Hands out equal buckets, in any order. A bucket's size is its layout's size, at least one byte, rounded up to the
/// alignment; the bytes that are left at the memory's end are in no bucket.
#[derive(Debug, Drop)]
pub struct PoolAllocator {
    /// The size of each bucket in bytes: at least 1, and a multiple of the alignment. All buckets have at most 2^56
    /// bytes.
    bucket_size: usize,
    /// The alignment of each bucket's first byte, a power of two.
    alignment: usize,
    /// The greatest alignment that the memory gives.
    memory_alignment: usize,
    /// Which buckets are free; one can be taken once `init` has answered Ok.
    buckets: FreeBuckets,
}

impl Model for PoolAllocator {
    ghost use Rattle.cal_alloc.specs.Pool.{Pool};

    ghost Value = { Pool };

    ghost use Rattle.cal_alloc.specs.PoolFields.{pool_of, IsKept};

    ghost view = { pool_of };

    ghost invariant = { IsKept };
}

impl PoolAllocator {
    /// The size of each bucket in bytes, a multiple of its alignment.
    pub fn bucket_size(&self) -> usize
        ensures value { result ≡ self.now.buckets.size }
        ensures positive { 0 < result }
    {
        self.bucket_size
    }

    /// The number of buckets.
    pub fn number_of_buckets(&self) -> u32
        ensures value { result ≡ self.now.buckets.count }
    {
        self.buckets.number_of_buckets()
    }

    /// The number of buckets that are handed out and not given back.
    pub fn number_of_used_buckets(&self) -> u32
        ensures value { result ≡ number_of_used self.now }
    {
        self.buckets.number_of_used()
    }

    /// The index of the bucket that an offset lies in, from 0.
    pub fn bucket_of(&self, offset: PointerOffset) -> usize
        ensures value { result ≡ bucket_of self.now offset }
    {
        offset.offset() / self.bucket_size
    }

    /// The offset of a bucket's first byte, in segment 0.
    pub fn offset_of_bucket(&self, bucket: usize) -> PointerOffset
        requires exists { bucket < self.now.buckets.count }
        ensures value { result ≡ pointer_offset (offset_of_bucket self.now bucket) 0 }
        ensures bucket_back { bucket_of self.now result ≡ bucket }
    {
        PointerOffset::new(bucket * self.bucket_size)
    }

    /// Takes a free bucket, and gives the offset of its first byte.
    fn take_bucket(&mut self) -> PointerOffset
        requires ready { IsTrue self.old.is_ready }
        requires free { IsFalse (is_full self.old) }
        ensures given { GivesFreeBucket self.old result self.new }
    {
        let bucket = self.buckets.take();
        self.offset_of_bucket(bucket as usize)
    }

    /// The layout of the buckets that the strategy takes next; `None` where their size would be 2^64 or more.
    fn raised_layout(&self, layout: Layout, strategy: AllocationStrategy) -> Option<Layout>
        ensures sound { IsSoundPool self.now }
        ensures value { let grown = buckets_after strategy self.now layout in
            SomeIff result (grown.size < 2 ^ 64) (record { size = grown.size; alignment = grown.alignment }) }
    {
        if strategy == AllocationStrategy::Static {
            return Layout::new(self.bucket_size, self.alignment);
        }
        let alignment = self.alignment.max(layout.align());
        if layout.size() <= self.bucket_size && layout.align() <= self.alignment {
            return Layout::new(self.bucket_size, alignment);
        }
        let size = raised_size(strategy, self.bucket_size.max(layout.size()), alignment)?;
        Layout::new(size, alignment)
    }

    /// The number of buckets that the strategy takes next.
    fn raised_count(&self, strategy: AllocationStrategy) -> usize
        ensures value { let count = self.now.buckets.count in
            result ≡ (if is_full self.now then raised_count strategy count else count) }
    {
        let count = self.buckets.number_of_buckets();
        if self.buckets.is_full() {
            raised_count(strategy, count)
        } else {
            count as usize
        }
    }

    /// Takes back the bucket that starts at the offset.
    pub fn deallocate_bucket(&mut self, offset: PointerOffset)
        requires used { IsUsedBucket self.old offset }
        ensures freed { FreesBucket self.old offset self.new }
    {
        let bucket = self.bucket_of(offset);
        self.buckets.give_back(bucket as u32);
    }
}

impl ShmAllocator for PoolAllocator {
    type Configuration = Config;

    ghost unique_id = { 0 };

    ghost growth_raises_alignment = { true };

    ghost fits = { λ memory_size config. pool_fits memory_size config.bucket_layout };

    ghost management_size = { λ memory_size config. (buckets_within memory_size config.bucket_layout).count };

    ghost new_uninit = { λ alignment memory_size config. new_pool alignment memory_size config.bucket_layout };

    ghost initial_setup_hint = { pool_setup_hint };

    ghost IsSound = { IsSoundPool };

    ghost properties = { pool_properties };

    ghost IsByteUsed = { IsInUsedBucket };

    ghost IsAllocated = { IsUsedBucket };

    ghost refusal = { pool_refusal };

    ghost resize_hint = { pool_resize_hint };

    ghost after_init = { λ pool. record pool { is_ready = true } };

    ghost Allocates = { λ old _ pointer new. GivesFreeBucket old pointer new };

    ghost IsPadding = { λ _ _ _. ⊥ };

    ghost Deallocates = { FreesBucket };

    ghost new_allocator = { λ alignment size config. new_pool-IsNew alignment size config.bucket_layout };

    ghost initialization = { initialized_pool-IsInitialized };

    ghost allocation = { GivesFreeBucket-IsAllocation };

    ghost deallocation = { FreesBucket-IsDeallocation };

    ghost allocated_is_used = { λ _ _ out. out.is_used };

    ghost used_below_total = { pool_used_below_total };

    ghost served = { pool_served };

    ghost aligned = { pool_aligned };

    ghost fits_limit = { λ size config. pool_fits_limit size config.bucket_layout };

    ghost hint_of_one_byte = { refl };

    ghost refused_empty = { pool_refused_empty };

    fn resize_hint(
        &self,
        layout: Layout,
        strategy: AllocationStrategy,
    ) -> Result<SharedMemorySetupHint<Config>, SizeOutOfRange> {
        let grown = self.raised_layout(layout, strategy).ok_or(SizeOutOfRange)?;
        Self::initial_setup_hint(grown, self.raised_count(strategy))
    }

    fn initial_setup_hint(
        max_chunk_layout: Layout,
        max_number_of_chunks: usize,
    ) -> Result<SharedMemorySetupHint<Config>, SizeOutOfRange> {
        let alignment = max_chunk_layout.align();
        let padded = max_chunk_layout.size().checked_next_multiple_of(alignment);
        let size = padded.ok_or(SizeOutOfRange)?;
        let payload_size = size
            .checked_mul(max_number_of_chunks)
            .ok_or(SizeOutOfRange)?;
        if MAX_MEMORY_SIZE < payload_size || MAX_NUMBER_OF_BUCKETS < max_number_of_chunks {
            return Err(SizeOutOfRange);
        }
        let bucket_layout = Layout::new(size, alignment).unwrap();
        Ok(SharedMemorySetupHint {
            payload_size,
            config: Config { bucket_layout },
        })
    }

    fn fits(memory_size: usize, config: &Config) -> bool {
        let Some(size) = bucket_size(config.bucket_layout) else {
            return false;
        };
        memory_size <= MAX_MEMORY_SIZE && memory_size / size <= MAX_NUMBER_OF_BUCKETS
    }

    fn management_size(memory_size: usize, config: &Config) -> usize {
        memory_size / bucket_size(config.bucket_layout).unwrap()
    }

    fn new_uninit(
        max_supported_alignment_by_memory: usize,
        memory_size: usize,
        config: &Config,
    ) -> Self {
        let bucket_size = bucket_size(config.bucket_layout).unwrap();
        PoolAllocator {
            bucket_size,
            alignment: config.bucket_layout.align(),
            memory_alignment: max_supported_alignment_by_memory,
            buckets: FreeBuckets::new((memory_size / bucket_size) as u32),
        }
    }

    fn init(&mut self, alloc: Global) -> Result<(), ShmAllocatorInitError> {
        if self.memory_alignment < self.alignment {
            return Err(ShmAllocatorInitError::MaxSupportedMemoryAlignmentInsufficient);
        }
        self.buckets
            .reserve(alloc)
            .map_err(|_| ShmAllocatorInitError::AllocationFailed)
    }

    fn unique_id() -> u8
        ensures value { result ≡ 0 }
    {
        0
    }

    fn growth_raises_alignment() -> bool {
        true
    }

    fn max_alignment(&self) -> usize {
        self.alignment
    }

    fn relative_start_address(&self) -> usize {
        0
    }

    fn allocate(&mut self, layout: Layout) -> Result<PointerOffset, ShmAllocationError> {
        if self.alignment < layout.align() {
            return Err(ShmAllocationError::ExceedsMaxSupportedAlignment);
        }
        if self.bucket_size < layout.size() {
            return Err(ShmAllocationError::SizeTooLarge);
        }
        if self.buckets.is_full() {
            return Err(ShmAllocationError::OutOfMemory);
        }
        Ok(self.take_bucket())
    }

    fn deallocate(&mut self, distance: PointerOffset, _layout: Layout) {
        self.deallocate_bucket(distance);
    }
}
