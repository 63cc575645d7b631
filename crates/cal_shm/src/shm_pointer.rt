//! Where a chunk begins. Ported from `shared_memory/mod.rs` of iceoryx2-cal 0.9.3.
use cal_alloc::PointerOffset;

/// A chunk that was handed out. Its bytes are lent by the segment's `bytes` and `bytes_mut`.
#[derive(Debug, Clone, Copy, PartialEq, Eq)]
pub struct ShmPointer {
    /// The offset in bytes of the chunk's first byte, and the segment that the chunk lies in.
    pub offset: PointerOffset,
}
