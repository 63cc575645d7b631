//! The limits of memory. They are choices of this project: each number that is computed from them fits a machine word.

/// The memory of an allocator has at most so many bytes, so that each offset in it takes 56 of a pointer's 64 bits.
pub const MAX_MEMORY_SIZE: usize = 1 << 56;

/// A pool has at most so many buckets, so that a bucket's number takes 32 bits.
pub const MAX_NUMBER_OF_BUCKETS: usize = (1 << 32) - 1;

/// The greatest alignment in bytes that memory gives.
pub const MAX_MEMORY_ALIGNMENT: usize = 4096;
