//! Why a storage isn't created or opened. The registry below the storages answers these too.
use thiserror::Error;

/// Why a storage wasn't created. The registry is as before.
#[derive(Debug, Clone, Copy, PartialEq, Eq, Hash, Error)]
pub enum DynamicStorageCreateError {
    /// The path of the name stands for an entry already.
    #[error("DynamicStorageCreateError::AlreadyExists")]
    AlreadyExists,
    /// Kept by name, and never answered.
    #[error("DynamicStorageCreateError::InsufficientPermissions")]
    InsufficientPermissions,
    /// The initializer answered false. The value was dropped.
    #[error("DynamicStorageCreateError::InitializationFailed")]
    InitializationFailed,
    /// Kept by name, and never answered.
    #[error("DynamicStorageCreateError::InternalError")]
    InternalError,
    /// The file name of the path would have more than 255 bytes.
    #[error("DynamicStorageCreateError::PathTooLong")]
    PathTooLong,
    /// There was no memory for the name or the entry.
    #[error("DynamicStorageCreateError::NoMemory")]
    NoMemory,
}

/// Why a storage wasn't opened. The registry is as before.
#[derive(Debug, Clone, Copy, PartialEq, Eq, Hash, Error)]
pub enum DynamicStorageOpenError {
    /// The path of the name stands for no entry.
    #[error("DynamicStorageOpenError::DoesNotExist")]
    DoesNotExist,
    /// The entry is still being made.
    #[error("DynamicStorageOpenError::InitializationNotYetFinalized")]
    InitializationNotYetFinalized,
    /// The entry was made by another version of this crate.
    #[error("DynamicStorageOpenError::VersionMismatch")]
    VersionMismatch,
    /// Kept by name, and never answered.
    #[error("DynamicStorageOpenError::InternalError")]
    InternalError,
    /// The file name of the path would have more than 255 bytes.
    #[error("DynamicStorageOpenError::PathTooLong")]
    PathTooLong,
}

/// Why a storage was neither opened nor created. The registry is as before.
#[derive(Debug, Clone, Copy, PartialEq, Eq, Hash, Error)]
pub enum DynamicStorageOpenOrCreateError {
    /// There is one, and it wasn't opened. Never `DoesNotExist`.
    #[error("DynamicStorageOpenOrCreateError::DynamicStorageOpenError")]
    DynamicStorageOpenError(#[from] DynamicStorageOpenError),
    /// There was none, and none was created. Never `AlreadyExists` nor `PathTooLong`.
    #[error("DynamicStorageOpenOrCreateError::DynamicStorageCreateError")]
    DynamicStorageCreateError(#[from] DynamicStorageCreateError),
}
