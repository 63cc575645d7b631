//! Offsets, chunk layouts and the allocators that hand out chunks of a segment. The layer above rests on the trait
//! `ShmAllocator`: on the exact answers of its calls, and on its laws, which hold at every allocator. The pool and the
//! bump allocator are the two that there are.
//!
//! A pool of two buckets, as a test sets it up and uses it:
//!
//! ```
//! let layout = Layout::new(24, 8).ok_or("the alignment is a power of two")?;
//! let config = pool_allocator::Config { bucket_layout: layout };
//! assert!(rt; PoolAllocator::fits(48, &config));
//! let mut pool = PoolAllocator::new_uninit(4096, 48, &config);
//! pool.init(rt.alloc())?;
//! let first = pool.allocate(layout)?;
//! let second = pool.allocate(layout)?;
//! assert!(rt; (first.offset(), second.offset()) == (0, 24));
//! assert!(rt; pool.allocate(layout) == Err(ShmAllocationError::OutOfMemory));
//! pool.deallocate(first, layout);
//! assert!(rt; pool.allocate(layout) == Ok(first));
//! ```
#![tactic(auto)]

mod allocation_strategy;
pub mod bump_allocator;
mod free_buckets;
mod growth;
pub mod laws;
mod layout;
mod limits;
mod pointer_offset;
pub mod pool_allocator;
mod shm_allocator;

pub use allocation_strategy::AllocationStrategy;
pub use bump_allocator::BumpAllocator;
pub use layout::Layout;
pub use limits::{MAX_MEMORY_ALIGNMENT, MAX_MEMORY_SIZE, MAX_NUMBER_OF_BUCKETS};
pub use pointer_offset::{PointerOffset, SegmentId, SegmentIdUnderlyingType};
pub use pool_allocator::PoolAllocator;
pub use shm_allocator::{
    SharedMemorySetupHint, ShmAllocationError, ShmAllocator, ShmAllocatorConfig,
    ShmAllocatorInitError, SizeOutOfRange,
};

#[cfg(test)]
mod tests;
