//! The bump allocator hands its memory out from the front on, and takes nothing back.
//!
//! Ported from `shm_allocator/bump_allocator.rs` of iceoryx2-cal 0.9.3.

ghost use Rattle.std.specs.Prelude.{◌≡◌, ◌≢◌, ◌<◌, ◌^◌, ◌*◌, ◌+◌, true, false, nat_le, IsErrOf, OnOk, OnErr, SomeIff, ◌↔◌, refl};
ghost use Rattle.std.specs.Result.{result_ok};
ghost use Rattle.cal_alloc.specs.Bump.{IsSoundBump, new_bump, bump_refusal, GivesNextOffset, IsBelowUsed, IsAllocatedBelowUsed, IsPaddingBefore, bump_properties};
ghost use Rattle.cal_alloc.specs.BumpLaws.{new_bump-IsNew, initialized_bump-IsInitialized, GivesNextOffset-IsAllocation, same-IsDeallocation, bump_used_below_total, bump_served, bump_aligned, bump_fits_limit, bump_refused_empty};
ghost use Rattle.cal_alloc.specs.Hints.{bump_hint, bump_resize_hint, raised_payload};
ghost use Rattle.cal_alloc.specs.Limits.{max_memory_size};

use crate::allocation_strategy::AllocationStrategy;
use crate::growth::least_power_of_two;
use crate::layout::Layout;
use crate::limits::MAX_MEMORY_SIZE;
use crate::pointer_offset::PointerOffset;
use crate::shm_allocator::{
    SharedMemorySetupHint, ShmAllocationError, ShmAllocator, ShmAllocatorConfig,
    ShmAllocatorInitError, SizeOutOfRange,
};
use std::alloc::Global;
use std::marker::Model;

/// The greatest alignment that a chunk can have.
const MAX_ALIGNMENT: usize = 8;

/// The hint for a payload of that size; `SizeOutOfRange` where no memory can be so large.
fn hint(payload_size: usize) -> Result<SharedMemorySetupHint<Config>, SizeOutOfRange>
    ensures value { result_ok result ≡ bump_hint payload_size }
{
    if MAX_MEMORY_SIZE < payload_size {
        return Err(SizeOutOfRange);
    }
    Ok(SharedMemorySetupHint {
        payload_size,
        config: Config {},
    })
}

/// The payload size that a strategy takes next; `None` from 2^64 on.
fn raised_payload(strategy: AllocationStrategy, payload_size: usize, size: usize) -> Option<usize>
    ensures value { let raised = raised_payload strategy payload_size size in
        SomeIff result (raised < 2 ^ 64) raised }
{
    match strategy {
        AllocationStrategy::BestFit => payload_size.checked_add(size),
        AllocationStrategy::PowerOfTwo => least_power_of_two(payload_size.checked_add(size)?),
        AllocationStrategy::Static => Some(payload_size),
    }
}

/// A bump allocator has nothing to choose.
#[derive(Clone, Copy, Default, Debug)]
pub struct Config {}

impl ShmAllocatorConfig for Config {}

/// Hands out chunks one after the other, each rounded up to its alignment. What is given back isn't used again.
#[derive(Debug, Drop)]
pub struct BumpAllocator {
    /// The bytes of its memory, at most 2^56.
    total: usize,
    /// How many of them, from the first on, are handed out or skipped; at most the total.
    used: usize,
    /// The greatest alignment that the memory gives, in bytes.
    memory_alignment: usize,
    /// Whether `init` has answered Ok.
    is_ready: bool,
}

impl Model for BumpAllocator {
    ghost use Rattle.cal_alloc.specs.Bump.{Bump, IsSoundBump};

    ghost Value = { Bump };

    ghost view = { λ a.
        record { total = a.total; used = a.used; memory_alignment = a.memory_alignment; is_ready = a.is_ready } };

    ghost invariant = { λ a.
        IsSoundBump (record {
          total = a.total;
          used = a.used;
          memory_alignment = a.memory_alignment;
          is_ready = a.is_ready;
        }) };
}

impl BumpAllocator {
    /// The bytes of its memory, handed out or not.
    pub fn total_space(&self) -> usize
        ensures value { result ≡ self.now.total }
    {
        self.total
    }
}

impl ShmAllocator for BumpAllocator {
    type Configuration = Config;

    ghost unique_id = { 1 };

    ghost growth_raises_alignment = { false };

    ghost fits = { λ memory_size _. nat_le memory_size max_memory_size };

    ghost management_size = { λ _ _. 0 };

    ghost new_uninit = { λ alignment memory_size _. new_bump alignment memory_size };

    ghost initial_setup_hint = { λ layout count. bump_hint (layout.size * count) };

    ghost IsSound = { IsSoundBump };

    ghost properties = { bump_properties };

    ghost IsByteUsed = { IsBelowUsed };

    ghost IsAllocated = { IsAllocatedBelowUsed };

    ghost refusal = { bump_refusal };

    ghost resize_hint = { bump_resize_hint };

    ghost after_init = { λ bump. record bump { is_ready = true } };

    ghost Allocates = { GivesNextOffset };

    ghost IsPadding = { IsPaddingBefore };

    ghost Deallocates = { λ old _ new. new ≡ old };

    ghost new_allocator = { λ alignment size _. new_bump-IsNew alignment size };

    ghost initialization = { initialized_bump-IsInitialized };

    ghost allocation = { GivesNextOffset-IsAllocation };

    ghost deallocation = { same-IsDeallocation };

    ghost allocated_is_used = { λ _ _ out. out };

    ghost used_below_total = { bump_used_below_total };

    ghost served = { bump_served };

    ghost aligned = { bump_aligned };

    ghost fits_limit = { λ size _. bump_fits_limit size };

    ghost hint_of_one_byte = { refl };

    ghost refused_empty = { bump_refused_empty };

    fn resize_hint(
        &self,
        layout: Layout,
        strategy: AllocationStrategy,
    ) -> Result<SharedMemorySetupHint<Config>, SizeOutOfRange> {
        if layout.size() < self.total - self.used {
            return hint(self.total);
        }
        hint(raised_payload(strategy, self.total, layout.size()).ok_or(SizeOutOfRange)?)
    }

    fn initial_setup_hint(
        max_chunk_layout: Layout,
        max_number_of_chunks: usize,
    ) -> Result<SharedMemorySetupHint<Config>, SizeOutOfRange> {
        hint(
            max_chunk_layout
                .size()
                .checked_mul(max_number_of_chunks)
                .ok_or(SizeOutOfRange)?,
        )
    }

    fn fits(memory_size: usize, _config: &Config) -> bool {
        memory_size <= MAX_MEMORY_SIZE
    }

    fn management_size(_memory_size: usize, _config: &Config) -> usize {
        0
    }

    fn new_uninit(
        max_supported_alignment_by_memory: usize,
        memory_size: usize,
        _config: &Config,
    ) -> Self {
        BumpAllocator {
            total: memory_size,
            used: 0,
            memory_alignment: max_supported_alignment_by_memory,
            is_ready: false,
        }
    }

    fn init(&mut self, _alloc: Global) -> Result<(), ShmAllocatorInitError>
        ensures insufficient { IsErrOf result ShmAllocatorInitError.MaxSupportedMemoryAlignmentInsufficient ↔
            (self.old.memory_alignment < 8) }
        ensures never_failed { result ≢ Err ShmAllocatorInitError.AllocationFailed }
        ensures ok { OnOk result (self.new ≡ record self.old { is_ready = true }) }
        ensures err { OnErr result (self.new ≡ self.old) }
    {
        if self.memory_alignment < MAX_ALIGNMENT {
            return Err(ShmAllocatorInitError::MaxSupportedMemoryAlignmentInsufficient);
        }
        self.is_ready = true;
        Ok(())
    }

    fn unique_id() -> u8
        ensures value { result ≡ 1 }
    {
        1
    }

    fn growth_raises_alignment() -> bool {
        false
    }

    fn max_alignment(&self) -> usize {
        // A look at a field, so that the check knows what every allocator keeps.
        let _ = &self.used;
        MAX_ALIGNMENT
    }

    fn relative_start_address(&self) -> usize {
        0
    }

    fn allocate(&mut self, layout: Layout) -> Result<PointerOffset, ShmAllocationError> {
        let alignment = layout.align();
        if MAX_ALIGNMENT < alignment {
            return Err(ShmAllocationError::ExceedsMaxSupportedAlignment);
        }
        if layout.size() == 0 {
            return Err(ShmAllocationError::SizeIsZero);
        }
        let offset = self.used.checked_next_multiple_of(alignment).unwrap();
        if self.total.saturating_sub(offset) < layout.size() {
            return Err(ShmAllocationError::OutOfMemory);
        }
        self.used = offset + layout.size();
        Ok(PointerOffset::new(offset))
    }

    fn deallocate(&mut self, _distance: PointerOffset, _layout: Layout) {}
}
