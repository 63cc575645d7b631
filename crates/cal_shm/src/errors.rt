//! Why a memory segment isn't created or opened. Ported from `shared_memory/mod.rs` of iceoryx2-cal 0.9.3.
ghost use Rattle.std.specs.Prelude.{◌≡◌};
ghost use Rattle.cal_shm.specs.Refusals.{opening_error};

use cal_storage::DynamicStorageOpenError;
use thiserror::Error;

/// Why a memory segment wasn't created. The registry is as before.
#[derive(Debug, Clone, Copy, PartialEq, Eq, Hash, Error)]
pub enum SharedMemoryCreateError {
    /// The path of the name stands for an entry already.
    #[error("SharedMemoryCreateError::AlreadyExists")]
    AlreadyExists,
    /// No byte was asked for.
    #[error("SharedMemoryCreateError::SizeIsZero")]
    SizeIsZero,
    /// Kept by name, and never answered.
    #[error("SharedMemoryCreateError::InsufficientPermissions")]
    InsufficientPermissions,
    /// The allocator needs a greater alignment than memory gives, which is `MAX_MEMORY_ALIGNMENT`.
    #[error("SharedMemoryCreateError::InternalError")]
    InternalError,
    /// There can be no allocator for that many bytes; none is for more than 2^56.
    #[error("SharedMemoryCreateError::SizeOutOfRange")]
    SizeOutOfRange,
    /// The file name of the path would have more than 255 bytes.
    #[error("SharedMemoryCreateError::PathTooLong")]
    PathTooLong,
    /// There was no memory for the payload, for what the allocator keeps of it, or for the entry.
    #[error("SharedMemoryCreateError::NoMemory")]
    NoMemory,
}

/// Why a memory segment wasn't opened. The registry is as before.
#[derive(Debug, Clone, Copy, PartialEq, Eq, Hash, Error)]
pub enum SharedMemoryOpenError {
    /// The path of the name stands for no entry.
    #[error("SharedMemoryOpenError::DoesNotExist")]
    DoesNotExist,
    /// Kept by name, and never answered.
    #[error("SharedMemoryOpenError::InsufficientPermissions")]
    InsufficientPermissions,
    /// Kept by name, and never answered.
    #[error("SharedMemoryOpenError::SizeIsZero")]
    SizeIsZero,
    /// The payload is smaller than what was asked for.
    #[error("SharedMemoryOpenError::SizeDoesNotFit")]
    SizeDoesNotFit,
    /// Kept by name, and never answered: the stored type names the allocator.
    #[error("SharedMemoryOpenError::WrongAllocatorSelected")]
    WrongAllocatorSelected,
    /// The entry is still being made.
    #[error("SharedMemoryOpenError::InitializationNotYetFinalized")]
    InitializationNotYetFinalized,
    /// The entry was made by another version of this crate.
    #[error("SharedMemoryOpenError::VersionMismatch")]
    VersionMismatch,
    /// Kept by name, and never answered.
    #[error("SharedMemoryOpenError::InternalError")]
    InternalError,
    /// The file name of the path would have more than 255 bytes.
    #[error("SharedMemoryOpenError::PathTooLong")]
    PathTooLong,
    /// There was no memory. Answered by the opening of a view of growing memory alone.
    #[error("SharedMemoryOpenError::NoMemory")]
    NoMemory,
}

/// The refusal of a storage's opening, by the same name.
pub(crate) fn opening_error(error: DynamicStorageOpenError) -> SharedMemoryOpenError
    ensures { result ≡ opening_error error }
{
    match error {
        DynamicStorageOpenError::DoesNotExist => SharedMemoryOpenError::DoesNotExist,
        DynamicStorageOpenError::InitializationNotYetFinalized => {
            SharedMemoryOpenError::InitializationNotYetFinalized
        }
        DynamicStorageOpenError::VersionMismatch => SharedMemoryOpenError::VersionMismatch,
        DynamicStorageOpenError::InternalError => SharedMemoryOpenError::InternalError,
        DynamicStorageOpenError::PathTooLong => SharedMemoryOpenError::PathTooLong,
    }
}
