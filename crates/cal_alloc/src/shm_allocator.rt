//! An allocator hands out chunks of a segment's memory by their offsets from its start, and keeps nothing in that
//! memory. The layer above may rely on this: what is given out and not given back doesn't overlap, a refusal has its
//! cause and changes nothing, giving a chunk back frees at most that chunk's own bytes, and memory that is set up as
//! `resize_hint` proposes serves the layout that was asked for.
//!
//! Ported from `shm_allocator/mod.rs` of iceoryx2-cal 0.9.3.

ghost use Rattle.std.specs.Prelude.{◌≡◌, ◌≢◌, ◌<◌, ◌≤◌, ◌%◌, ◌^◌, ℕ, true, Bool, Option, Some, None, IsTrue, IsFalse, OnOk, OnErr, IfOk, IsErrOf, IsSomeAnd, ◌↔◌};
ghost use Rattle.std.specs.Int.{is_power_of_two};
ghost use Rattle.std.specs.Result.{result_ok, result_err};
ghost use Rattle.cal_alloc.specs.Chunks.{Properties, chunk_size, IsNew, IsInitialized, IsAllocation, IsDeallocation};
ghost use Rattle.cal_alloc.specs.Limits.{max_memory_size};
ghost use Rattle.cal_alloc.specs.PointerOffset.{offset_of};
ghost use Rattle.cal_alloc.specs.SizeAndAlignment.{SizeAndAlignment};
ghost use Rattle.cal_alloc.specs.declared.allocation_strategy.AllocationStrategy.{AllocationStrategy};
ghost use Rattle.cal_alloc.specs.declared.shm_allocator.SharedMemorySetupHint.{SharedMemorySetupHint};
ghost use Rattle.cal_alloc.specs.declared.shm_allocator.ShmAllocationError.{ShmAllocationError};

use crate::allocation_strategy::AllocationStrategy;
use crate::layout::Layout;
use crate::pointer_offset::PointerOffset;
use std::alloc::Global;
use std::fmt::Debug;
use thiserror::Error;

/// Why an allocator refuses to hand out a chunk. The allocator is as before.
#[derive(Clone, Copy, PartialEq, Eq, Debug, Error)]
pub enum ShmAllocationError {
    /// The alignment asked for is above the allocator's.
    #[error("ShmAllocationError::ExceedsMaxSupportedAlignment")]
    ExceedsMaxSupportedAlignment,
    /// The size asked for is above a bucket's.
    #[error("ShmAllocationError::SizeTooLarge")]
    SizeTooLarge,
    /// Nothing is free that is large enough.
    #[error("ShmAllocationError::OutOfMemory")]
    OutOfMemory,
    /// No byte was asked for, and the allocator hands out no empty chunk.
    #[error("ShmAllocationError::SizeIsZero")]
    SizeIsZero,
}

/// Why an allocator can't begin its service. The allocator is as before.
#[derive(Clone, Copy, PartialEq, Eq, Debug, Error)]
pub enum ShmAllocatorInitError {
    /// The allocator's alignment is above what its memory gives.
    #[error("ShmAllocatorInitError::MaxSupportedMemoryAlignmentInsufficient")]
    MaxSupportedMemoryAlignmentInsufficient,
    /// There was no memory for what the allocator keeps of its chunks.
    #[error("ShmAllocatorInitError::AllocationFailed")]
    AllocationFailed,
}

/// A payload would be larger than memory can be, or have more chunks than an allocator can have.
#[derive(Clone, Copy, PartialEq, Eq, Debug, Error)]
#[error("SizeOutOfRange")]
pub struct SizeOutOfRange;

/// What an allocator is made from beside its memory.
pub trait ShmAllocatorConfig: Copy + Default + Debug {}

/// A proposal for a segment of memory: its payload size in bytes, and the configuration of the allocator that is made
/// for that much memory.
#[derive(Drop)]
pub struct SharedMemorySetupHint<C: ShmAllocatorConfig> {
    /// The memory's size in bytes, at most 2^56.
    pub payload_size: usize,
    /// What the allocator for that memory is made from.
    pub config: C,
}

/// Hands out chunks of memory by the offset of their first byte; offsets begin at 0. An implementation defines these
/// ghosts:
///
/// - of its kind: `unique_id`; `growth_raises_alignment`; `fits`, the memory sizes and configurations that there can be
/// an allocator for; `management_size`, the number of chunks that it keeps account of; `new_uninit`, the new allocator;
/// `initial_setup_hint`, the memory that it proposes for so many chunks of a layout, None where none can be so large;
/// - of an allocator: `IsSound`, what every allocator keeps; `properties`, what it has beside its chunks; `IsByteUsed`;
///   `IsAllocated`, at which pointers a chunk is out; `refusal`, why it refuses a layout, None where it serves it;
///   `resize_hint`, the memory that it proposes in its own place;
/// - of what calls do to it: `after_init`; `Allocates`, a chunk of a layout was given out at a pointer; `IsPadding`,
/// the bytes before that pointer that are skipped; `Deallocates`, the chunk at a pointer was given back.
///
/// It proves these laws:
///
/// - `new_allocator`, `initialization`, `allocation`, `deallocation`: what each of these changes does to the bytes;
/// - `allocated_is_used`, `used_below_total`: the bytes of a chunk that is out, and where used bytes lie;
/// - `served`, `aligned`: a chunk that is given out is as large and as aligned as was asked for;
/// - `fits_limit`, `hint_of_one_byte`, `refused_empty`: of memory sizes, hints and refusals.
///
/// From these laws it follows, of every allocator, that chunks which are out don't overlap:
/// `chunks_that_are_out_are_apart`.
pub trait ShmAllocator: Debug + Drop {
    type Configuration: ShmAllocatorConfig;

    ghost unique_id: { ℕ };

    ghost growth_raises_alignment: { Bool };

    ghost fits: { ℕ → Self.Configuration → Bool };

    ghost management_size: { ℕ → Self.Configuration → ℕ };

    ghost new_uninit: { ℕ → ℕ → Self.Configuration → Self };

    ghost initial_setup_hint: { SizeAndAlignment → ℕ → Option (SharedMemorySetupHint Self.Configuration) };

    ghost IsSound: { Self → Type 0 };

    ghost properties: { Self → Properties };

    ghost IsByteUsed: { Self → ℕ → Type 0 };

    ghost IsAllocated: { Self → ℕ → Type 0 };

    ghost refusal: { Self → SizeAndAlignment → Option ShmAllocationError };

    ghost resize_hint: { Self → SizeAndAlignment → AllocationStrategy →
        Option (SharedMemorySetupHint Self.Configuration) };

    ghost after_init: { Self → Self };

    ghost Allocates: { Self → SizeAndAlignment → ℕ → Self → Type 0 };

    ghost IsPadding: { Self → ℕ → ℕ → Type 0 };

    ghost Deallocates: { Self → ℕ → Self → Type 0 };

    /// The memory to set up in place of this allocator's, so that a chunk of that layout can be handed out there.
    /// `SizeOutOfRange` where no memory can be so large, or no allocator can have so many chunks.
    fn resize_hint(
        &self,
        layout: Layout,
        strategy: AllocationStrategy,
    ) -> Result<SharedMemorySetupHint<Self::Configuration>, SizeOutOfRange>
        ensures value { result_ok result ≡ resize_hint self.now layout strategy }
        ensures fits { IfOk result (λ hint. IsTrue (fits hint.payload_size hint.config)) }

        // A new allocator that is made by the hint, for memory of any alignment, serves the layout; but a static
        // strategy proposes what is there, an empty chunk may be refused everywhere, and not each allocator can raise
        // its alignment.
        ensures serves { strategy ≢ AllocationStrategy.Static →
            refusal self.now layout ≢ Some ShmAllocationError.SizeIsZero →
            (IsFalse growth_raises_alignment → layout.alignment ≤ (properties self.now).max_alignment) →
            IfOk result (λ hint. (alignment : ℕ) →
            refusal (after_init (new_uninit alignment hint.payload_size hint.config)) layout ≡ None) };

    /// The memory to set up for that many chunks of that layout. `SizeOutOfRange` where no memory can be so large, or
    /// no allocator can have so many chunks.
    fn initial_setup_hint(
        max_chunk_layout: Layout,
        max_number_of_chunks: usize,
    ) -> Result<SharedMemorySetupHint<Self::Configuration>, SizeOutOfRange>
        ensures value { result_ok result ≡ initial_setup_hint max_chunk_layout max_number_of_chunks }
        ensures fits { IfOk result (λ hint. IsTrue (fits hint.payload_size hint.config)) };

    /// Whether an allocator can be made for that many bytes of memory.
    fn fits(memory_size: usize, config: &Self::Configuration) -> bool
        ensures value { result ≡ fits memory_size config.now };

    /// The number of chunks that `init` takes memory for.
    fn management_size(memory_size: usize, config: &Self::Configuration) -> usize
        requires fits { IsTrue (fits memory_size config.now) }
        ensures value { result ≡ management_size memory_size config.now };

    /// An allocator for that many bytes of memory, of which nothing is handed out. It serves once `init` has answered
    /// Ok.
    fn new_uninit(
        max_supported_alignment_by_memory: usize,
        memory_size: usize,
        config: &Self::Configuration,
    ) -> Self
        requires fits { IsTrue (fits memory_size config.now) }
        ensures value { result ≡ new_uninit max_supported_alignment_by_memory memory_size config.now };

    /// Takes the memory for what the allocator keeps of its chunks; to be called until it has answered Ok once. After
    /// an error the allocator is as before.
    fn init(&mut self, alloc: Global) -> Result<(), ShmAllocatorInitError>
        requires once { IsFalse (properties self.old).is_ready }
        ensures insufficient { IsErrOf result ShmAllocatorInitError.MaxSupportedMemoryAlignmentInsufficient ↔
            ((properties self.old).memory_alignment < (properties self.old).max_alignment) }
        ensures ok { OnOk result (self.new ≡ after_init self.old) }
        ensures err { OnErr result (self.new ≡ self.old) };

    /// A number that no other kind of allocator has.
    fn unique_id() -> u8
        ensures value { result ≡ unique_id };

    /// Whether the memory that `resize_hint` proposes can have a greater alignment than this.
    fn growth_raises_alignment() -> bool
        ensures value { result ≡ growth_raises_alignment };

    /// The greatest alignment that a chunk can have, in bytes. That every allocator is sound is told here too.
    fn max_alignment(&self) -> usize
        ensures value { result ≡ (properties self.now).max_alignment }
        ensures sound { IsSound self.now };

    /// The offset of the first byte that can be handed out.
    fn relative_start_address(&self) -> usize
        ensures value { result ≡ 0 };

    /// Hands out a chunk of that layout, and gives the offset of its first byte, in segment 0. After an error the
    /// allocator is as before.
    fn allocate(&mut self, layout: Layout) -> Result<PointerOffset, ShmAllocationError>
        requires ready { IsTrue (properties self.old).is_ready }
        ensures refused { result_err result ≡ refusal self.old layout }
        ensures given { IfOk result (λ pointer. Allocates self.old layout pointer self.new) }
        ensures err { OnErr result (self.new ≡ self.old) };

    /// Takes back the chunk at that offset, which was handed out and not taken back yet.
    fn deallocate(&mut self, distance: PointerOffset, layout: Layout)
        requires allocated { IsAllocated self.old distance }
        ensures freed { Deallocates self.old distance self.new };

    ghost new_allocator: { (alignment size : ℕ) (config : Self.Configuration) →
        IsNew (properties (new_uninit alignment size config)) (IsByteUsed (new_uninit alignment size config))
        alignment size };

    ghost initialization: { (old : Self) →
        IsInitialized (properties old) (properties (after_init old)) (IsByteUsed old) (IsByteUsed (after_init old)) };

    ghost allocation: { (old : Self) (layout : SizeAndAlignment) (pointer : ℕ) (new : Self) →
        Allocates old layout pointer new →
        IsAllocation (properties old) (properties new) (IsByteUsed old) (IsByteUsed new)
        (IsAllocated old) (IsAllocated new) (IsPadding old pointer) layout pointer };

    ghost deallocation: { (old : Self) (pointer : ℕ) (new : Self) → Deallocates old pointer new →
        IsDeallocation (properties old) (properties new) (IsByteUsed old) (IsByteUsed new)
        (IsAllocated old) (IsAllocated new) pointer };

    // The first byte of a chunk that is out is used.
    ghost allocated_is_used: { (old : Self) (pointer : ℕ) → IsAllocated old pointer →
        IsByteUsed old (offset_of pointer) };

    // Each used byte is one of the allocator's.
    ghost used_below_total: { (old : Self) (byte : ℕ) →
        IsSound old → IsByteUsed old byte → byte < (properties old).total };

    // A chunk that is given out for a layout is large enough.
    ghost served: { (old : Self) (layout : SizeAndAlignment) →
        refusal old layout ≡ None → layout.size ≤ chunk_size (properties old) layout };

    // The offset of a chunk that is given out for a layout is a multiple of the layout's alignment.
    ghost aligned: { (old : Self) (layout : SizeAndAlignment) (pointer : ℕ) (new : Self) →
        refusal old layout ≡ None → IsTrue (is_power_of_two layout.alignment) → Allocates old layout pointer new →
        offset_of pointer % layout.alignment ≡ 0 };

    // What fits is within the limit of memory.
    ghost fits_limit: { (size : ℕ) (config : Self.Configuration) →
        IsTrue (fits size config) → size ≤ max_memory_size };

    // The memory for one chunk of one byte is one byte.
    ghost hint_of_one_byte: { IsSomeAnd (initial_setup_hint (record { size = 1; alignment = 1 }) 1)
        (λ hint. hint.payload_size ≡ 1) };

    // Only an empty chunk is refused for its size.
    ghost refused_empty: { (old : Self) (layout : SizeAndAlignment) →
        refusal old layout ≡ Some ShmAllocationError.SizeIsZero → layout.size ≡ 0 };
}
