//! Offsets and segments as one number. Ported from `shm_allocator/pointer_offset.rs` of iceoryx2-cal 0.9.3.
ghost use Rattle.std.specs.Prelude.{◌≡◌, ◌<◌, ◌^◌, ◌*◌, ◌+◌, ◌/◌};
ghost use Rattle.cal_alloc.specs.Limits.{max_memory_size};
ghost use Rattle.cal_alloc.specs.PointerOffset.{pointer_offset, offset_of, segment_of};

use std::fmt;
use std::marker::Model;

/// The number that names a segment.
pub type SegmentIdUnderlyingType = u8;

/// The number of a segment of memory, from 0 to 255.
#[derive(Clone, Copy, PartialEq, Eq, Debug)]
pub struct SegmentId(SegmentIdUnderlyingType);

impl Model for SegmentId {
    ghost use Rattle.std.specs.Prelude.{ℕ};

    ghost Value = { ℕ };

    ghost view = { λ id. id.0 };

    ghost inverse = { λ n. record { 0 = n } };
}

impl SegmentId {
    /// The segment of this number.
    pub fn new(value: SegmentIdUnderlyingType) -> Self
        ensures value { result ≡ value }
    {
        SegmentId(value)
    }

    /// The segment's number.
    pub fn value(&self) -> SegmentIdUnderlyingType
        ensures value { result ≡ self.now }
    {
        self.0
    }

    /// The greatest number that a segment can have.
    pub fn max_segment_id() -> SegmentIdUnderlyingType
        ensures value { result ≡ 255 }
    {
        SegmentIdUnderlyingType::MAX
    }
}

/// Where a chunk begins: the segment that it lies in, and the bytes before it there. Both are packed into one number,
/// the offset in the upper 56 bits and the segment in the lower 8, and the number is what contracts see.
#[derive(Clone, Copy, PartialEq, Eq)]
pub struct PointerOffset(u64);

impl Model for PointerOffset {
    ghost use Rattle.std.specs.Prelude.{ℕ};

    ghost Value = { ℕ };

    ghost view = { λ p. p.0 };

    ghost inverse = { λ n. record { 0 = n } };
}

impl PointerOffset {
    /// An offset in bytes within segment 0.
    pub fn new(offset: usize) -> Self
        requires below { offset < max_memory_size }
        ensures value { result ≡ pointer_offset offset 0 }
    {
        Self::from_offset_and_segment_id(offset, SegmentId::new(0))
    }

    /// An offset in bytes within a segment.
    pub fn from_offset_and_segment_id(offset: usize, segment_id: SegmentId) -> Self
        requires below { offset < max_memory_size }
        ensures value { result ≡ pointer_offset offset segment_id }
        ensures offset_back { offset_of result ≡ offset }
        ensures segment_back { segment_of result ≡ segment_id }
    {
        PointerOffset(offset as u64 * 256 + segment_id.value() as u64)
    }

    /// The offset and the segment that are packed in this number.
    pub fn from_value(value: u64) -> Self
        ensures value { result ≡ value }
    {
        PointerOffset(value)
    }

    /// The number that offset and segment are packed in.
    pub fn as_value(&self) -> u64
        ensures value { result ≡ self.now }
    {
        self.0
    }

    /// Puts another segment in place of this one; the offset stays.
    pub fn set_segment_id(&mut self, value: SegmentId)
        ensures value { self.new ≡ pointer_offset (offset_of self.old) value }
        ensures offset_stays { offset_of self.new ≡ offset_of self.old }
        ensures segment_set { segment_of self.new ≡ value }
    {
        self.0 = self.0 / 256 * 256 + value.value() as u64;
    }

    /// The offset in bytes within its segment.
    pub fn offset(&self) -> usize
        ensures value { result ≡ offset_of self.now }
    {
        (self.0 / 256) as usize
    }

    /// The segment.
    pub fn segment_id(&self) -> SegmentId
        ensures value { result ≡ segment_of self.now }
    {
        SegmentId::new((self.0 % 256) as u8)
    }
}

impl fmt::Debug for PointerOffset {
    fn fmt<W: fmt::Write>(&self, f: &mut fmt::Formatter<W>) -> fmt::Result {
        write!(
            f,
            "PointerOffset {{ offset: {}, segment_id: {:?} }}",
            self.offset(),
            self.segment_id()
        )
    }
}
