//! Why growing memory hands nothing out. Ported from `resizable_shared_memory/mod.rs` of iceoryx2-cal 0.9.3.
use cal_alloc::ShmAllocationError;
use cal_shm::SharedMemoryCreateError;
use thiserror::Error;

/// Why growing memory didn't hand out a chunk. The memory and the registry are as before.
#[derive(Debug, Clone, Copy, PartialEq, Eq, Error)]
pub enum ResizableShmAllocationError {
    /// The current segment has the greatest number that there is.
    #[error("ResizableShmAllocationError::MaxReallocationsReached")]
    MaxReallocationsReached,
    /// The current segment refuses the chunk, and growth wouldn't help or isn't allowed.
    #[error("ResizableShmAllocationError::ShmAllocationError")]
    ShmAllocationError(#[from] ShmAllocationError),
    /// The next segment couldn't be made.
    #[error("ResizableShmAllocationError::SharedMemoryCreateError")]
    SharedMemoryCreateError(#[from] SharedMemoryCreateError),
    /// The next segment would be larger than memory can be, or have more chunks than an allocator can have.
    #[error("ResizableShmAllocationError::SizeOutOfRange")]
    SizeOutOfRange,
}
