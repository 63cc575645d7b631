//! Where the bytes of an offset are.

/// Where the bytes of an offset begin, in what a view has mapped.
#[derive(Debug, Clone, Copy, PartialEq, Eq)]
pub struct Place {
    /// The number of the segment.
    pub segment: u8,
    /// How many bytes of the segment's payload stand before.
    pub position: usize,
}
