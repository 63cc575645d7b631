//! What a builder of memory segments is told beside the name and the configuration.

/// The options of a builder of memory segments.
#[derive(Debug, Clone, Copy, PartialEq, Eq)]
pub struct SharedMemoryOptions {
    /// Whether the segment that is created owns its name.
    pub is_owner: bool,
    /// The bytes of the payload: of a new segment, or at least, of one that is opened.
    pub size: usize,
}
