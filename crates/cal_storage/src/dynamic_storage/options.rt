//! What a builder of storages is told beside the name and the configuration.

/// The options of a builder of storages.
#[derive(Debug, Clone, Copy, PartialEq, Eq)]
pub struct StorageOptions {
    /// Whether the storage that is created owns its name.
    pub is_owner: bool,
    /// How many bytes the initializer's allocator has beside the value, at most 2^56.
    pub room: usize,
}
