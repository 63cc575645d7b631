//! What lends the bytes of a payload to be written. It stands beside the other calls of a segment, over any stored
//! type, since a clause on what is lent names the type that lends by one parameter.
ghost use Rattle.std.specs.Prelude.{◌+◌, ℕ, List, slice_range, ◌≡◌};
ghost use Rattle.std.specs.Borrow.{sem};
ghost use Rattle.cal_alloc.specs.PointerOffset.{offset_of};
ghost use Rattle.cal_storage.specs.Contents.{Has};
ghost use Rattle.cal_storage.specs.declared.Handle.{Handle};
ghost use Rattle.cal_shm.specs.Calls.{OfValue, IsInPayload};
ghost use Rattle.cal_shm.specs.Lends.{LendsBytesOf};

use cal_alloc::PointerOffset;
use cal_storage::Registry;

/// A stored type with a payload of bytes.
pub trait Payload {
    // The bytes.
    ghost payload: { Self → List ℕ };

    // The value with other bytes from an offset on.
    ghost with_bytes: { Self → ℕ → List ℕ → Self };
}

/// What holds a stored value with a payload, and lends its bytes.
pub trait PayloadHolder<T: Payload> {
    // The entry that is held, and whether its name is owned.
    ghost handle: { Self → Handle };

    /// That many bytes of the payload, from an offset on, to be written. The registry comes first, since it is what
    /// lends.
    fn bytes_mut<'r>(
        reg: &'r mut Registry<T>,
        memory: &Self,
        offset: PointerOffset,
        count: usize,
    ) -> &'r mut [u8]
        requires there { Has reg.old (handle memory.now) }
        requires within { OfValue reg.old (handle memory.now).id (λ segment.
            IsInPayload (T.payload segment) (offset_of offset) count) }
        ensures* writes_back { sem 𝓛 (LendsBytesOf T.row T.with_bytes reg.entry (handle memory.now).id
            (offset_of offset) result) }
        ensures bytes { OfValue reg.old (handle memory.now).id (λ segment.
            result.now ≡ slice_range (T.payload segment) (offset_of offset) (offset_of offset + count)) };
}
