//! What lends the bytes of a growing memory to be written. It stands beside the memory's other calls, over any stored
//! type, since a clause on what is lent names the type that lends by one parameter.
ghost use Rattle.std.specs.Prelude.{◌≡◌, ◌+◌, slice_range};
ghost use Rattle.std.specs.Borrow.{sem};
ghost use Rattle.cal_alloc.specs.PointerOffset.{offset_of, segment_of};
ghost use Rattle.cal_storage.specs.Contents.{Has};
ghost use Rattle.cal_shm.specs.Calls.{IsInPayload};
ghost use Rattle.cal_shm.specs.Lends.{LendsBytesOf};
ghost use Rattle.cal_resizable.specs.Growth.{OfSegment};
ghost use Rattle.cal_resizable.specs.Slots.{Handle, Slots, EachHandle, id_at_slot};

use cal_alloc::PointerOffset;
use cal_shm::Payload;
use cal_storage::Registry;

/// What holds segments of a stored type with a payload, and lends their bytes.
pub trait SegmentsHolder<T: Payload> {
    // The handle of the management segment.
    ghost management: { Self → Handle };

    // The segments that are held, by their numbers.
    ghost slots: { Self → Slots };

    /// That many bytes of the segment that an offset lies in, from the offset on, to be written. The registry comes
    /// first, since it is what lends. What is written stands in that place, and all else is as before.
    fn bytes_mut<'r>(
        reg: &'r mut Registry<T>,
        memory: &Self,
        offset: PointerOffset,
        count: usize,
    ) -> &'r mut [u8]
        requires has { EachHandle (management memory.now) (slots memory.now) (Has reg.old) }
        requires within { OfSegment reg.old (slots memory.now) (segment_of offset)
            (λ segment. IsInPayload (T.payload segment) (offset_of offset) count) }
        ensures* writes_back { sem 𝓛 (LendsBytesOf T.row T.with_bytes reg.entry
            (id_at_slot (slots memory.now) (segment_of offset)) (offset_of offset) result) }
        ensures bytes { OfSegment reg.old (slots memory.now) (segment_of offset) (λ segment.
            result.now ≡ slice_range (T.payload segment) (offset_of offset) (offset_of offset + count)) };
}
