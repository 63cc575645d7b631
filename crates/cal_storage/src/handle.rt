//! What a storage knows of its entry in the registry.
use cal_names::FilePath;

/// The entry of a storage, and whether its end takes the name away.
#[derive(Debug, Clone, Copy, Drop)]
pub struct Handle {
    /// The id of the entry.
    pub id: usize,
    /// The path under which the entry was made.
    pub path: FilePath,
    /// Whether the storage owns the name.
    pub is_owner: bool,
}
