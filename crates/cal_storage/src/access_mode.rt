//! How an opened storage is to be used.

/// How an opened storage is to be used. It has no effect: what may be written is decided by how the registry is
/// borrowed.
#[derive(Debug, Clone, Copy, PartialEq, Eq)]
pub enum AccessMode {
    /// To be read.
    Read,
    /// To be written.
    Write,
    /// To be read and written.
    ReadWrite,
}
