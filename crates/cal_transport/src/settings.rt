//! What a transport is made with, and why it may not be made.

ghost use Rattle.std.specs.Prelude.{◌≡◌, ◌<◌, ◌^◌, ◌||◌, ◌==◌};
ghost use Rattle.cal_transport.specs.Settings.{clamped_settings, create_cause, first_layout, payload, completion_size, CanMake, is_too_large, has_too_large_connection};

use cal_alloc::{AllocationStrategy, MAX_MEMORY_ALIGNMENT, MAX_MEMORY_SIZE, MAX_NUMBER_OF_BUCKETS};

/// The settings of a transport. A zero buffer, borrow limit, number of samples, of segments or of channels counts as
/// one.
#[derive(Clone, Copy, Debug, PartialEq, Eq)]
pub struct Settings {
    /// The size in bytes of the largest chunk that is expected.
    pub size: usize,
    /// The alignment in bytes of the largest chunk that is expected.
    pub alignment: usize,
    /// How many chunks of that layout the first segment has room for.
    pub count: usize,
    /// How the memory grows.
    pub strategy: AllocationStrategy,
    /// How many chunks may be queued on a channel.
    pub buffer: usize,
    /// How many chunks the receiver may borrow from a channel at a time.
    pub borrow: usize,
    /// Whether a send on a full channel takes the oldest queued chunk back.
    pub overflow: bool,
    /// How many buckets of each segment the connection can name.
    pub samples: usize,
    /// How many segments the connection can name.
    pub segments: u8,
    /// How many channels the connection has.
    pub channels: usize,
}

/// Why a transport can't be made with its settings. Nothing is made, and no memory was taken.
#[derive(Clone, Copy, Debug, PartialEq, Eq)]
pub enum CreateCause {
    /// The alignment is no power of two.
    BadLayout,
    /// The first segment, the completion queue or the lists of used chunks would be too large.
    SizeOutOfRange,
    /// The first segment would have no byte.
    SizeIsZero,
    /// The alignment exceeds what a segment's memory gives, `MAX_MEMORY_ALIGNMENT`.
    InternalError,
}

impl Settings {
    /// The settings with each zero that counts as one put right.
    pub(crate) fn clamped(&self) -> Settings
        ensures value { result ≡ clamped_settings self.now }
    {
        Settings {
            size: self.size,
            alignment: self.alignment,
            count: self.count,
            strategy: self.strategy,
            buffer: self.buffer.max(1),
            borrow: self.borrow.max(1),
            overflow: self.overflow,
            samples: self.samples.max(1),
            segments: self.segments.max(1),
            channels: self.channels.max(1),
        }
    }

    /// The first reason why no transport can be made with the settings, if there is one.
    pub(crate) fn create_cause(&self) -> Option<CreateCause>
        ensures value { result ≡ create_cause self.now }
    {
        if !self.alignment.is_power_of_two() {
            Some(CreateCause::BadLayout)
        } else if self.is_too_large() {
            Some(CreateCause::SizeOutOfRange)
        } else if self.is_empty() {
            Some(CreateCause::SizeIsZero)
        } else if self.alignment > MAX_MEMORY_ALIGNMENT {
            Some(CreateCause::InternalError)
        } else {
            None
        }
    }

    /// The bytes of the first segment.
    pub(crate) fn payload(&self) -> usize
        requires made { CanMake self.now }
        ensures value { result ≡ payload (first_layout self.now) }
    {
        self.bucket_size() as usize * self.count
    }

    /// How many chunks the completion queue of a channel holds.
    pub(crate) fn completion_size(&self) -> usize
        requires fits { completion_size self.now < 2 ^ 63 }
        ensures value { result ≡ completion_size self.now }
    {
        self.buffer + self.borrow + 1
    }

    fn is_too_large(&self) -> bool
        requires aligned { 0 < self.now.alignment }
        ensures value { result ≡
            is_too_large (first_layout self.now) || has_too_large_connection (clamped_settings self.now) }
    {
        if self.has_too_large_segment() {
            return true;
        }
        self.clamped().has_too_large_connection()
    }

    fn has_too_large_segment(&self) -> bool
        requires aligned { 0 < self.now.alignment }
        ensures value { result ≡ is_too_large (first_layout self.now) }
    {
        if self.count > MAX_NUMBER_OF_BUCKETS {
            return true;
        }
        self.bucket_size() * self.count as u128 > MAX_MEMORY_SIZE as u128
    }

    /// Whether the first segment has no byte.
    fn is_empty(&self) -> bool
        requires aligned { 0 < self.now.alignment }
        ensures value { result ≡ (payload (first_layout self.now) == 0) }
    {
        if self.count == 0 {
            return true;
        }
        self.bucket_size() == 0
    }

    /// The size in bytes of the first segment's buckets.
    fn bucket_size(&self) -> u128
        requires aligned { 0 < self.now.alignment }
        ensures value { result ≡ (first_layout self.now).size }
        ensures bound { result < 2 ^ 65 }
    {
        let alignment = self.alignment as u128;
        let size = self.size as u128;
        size + (alignment - size % alignment) % alignment
    }

    fn has_too_large_connection(&self) -> bool
        requires channels { 0 < self.now.channels }
        ensures value { result ≡ has_too_large_connection self.now }
    {
        if self.buffer as u128 + self.borrow as u128 + 1 >= 1 << 63 {
            return true;
        }
        let indices = self.samples as u128 * self.segments as u128;
        indices >= 1 << 63 || indices * self.channels as u128 >= 1 << 63
    }
}
