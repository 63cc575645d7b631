//! What a storage holds of a memory segment. Ported from `shared_memory/common.rs` of iceoryx2-cal 0.9.3.
ghost use Rattle.std.specs.Prelude.{◌≡◌, ◌+◌, ◌≤◌, ◌^◌, IsTrue, IsErrOf, IfOk, IfErr, OnErr, length, slice_range};
ghost use Rattle.std.specs.Result.{result_err};
ghost use Rattle.std.specs.Borrow.{sem};
ghost use Rattle.cal_alloc.specs.Limits.{max_memory_size};
ghost use Rattle.cal_alloc.specs.Pool.{IsUsedBucket, FreesBucket};
ghost use Rattle.cal_alloc.specs.PointerOffset.{offset_of};
ghost use Rattle.cal_shm.specs.Calls.{IsInPayload, IsChunkWithin};
ghost use Rattle.cal_shm.specs.Lends.{LendsBytes};
ghost use Rattle.cal_shm.specs.Segment.{with_allocator, with_bytes};
ghost use Rattle.cal_shm.specs.TypeName.{segment_type_name};

use crate::payload::Payload;
use cal_alloc::{Layout, PointerOffset, PoolAllocator, ShmAllocationError, ShmAllocator};
use cal_names::{NamedType, TypeName};
use std::marker::Model;

/// The allocator of a memory segment, and its payload. The allocator serves from the beginning on, and all that it
/// hands out lies within the payload. Contracts see a record of both.
#[derive(Debug, Drop)]
pub struct AllocatorDetails<A: ShmAllocator> {
    /// Hands out the bytes of the payload; `init` has answered Ok.
    allocator: A,
    /// The bytes of the segment, at most 2^56 and no fewer than the allocator manages.
    payload: Vec<u8>,
}

impl<A: ShmAllocator> Model for AllocatorDetails<A> {
    ghost use Rattle.std.specs.Prelude.{length};
    ghost use Rattle.cal_shm.specs.Segment.{Segment, IsServed};

    ghost Value = { Segment A };

    ghost view = { λ d. record { allocator = d.allocator; payload = d.payload.items } };

    ghost invariant = { λ d. IsServed (A.properties d.allocator) (length d.payload.items) };
}

impl<A: ShmAllocator> Payload for AllocatorDetails<A> {
    ghost payload = { λ segment. segment.payload };

    ghost with_bytes = { with_bytes };
}

impl<A: ShmAllocator> NamedType for AllocatorDetails<A> {
    ghost name = { segment_type_name A.unique_id };

    fn type_name() -> TypeName {
        let id = A::unique_id();
        let mut name = *b"AllocatorDetails_000";
        if id < 10 {
            name[17] = b'0' + id;
            return TypeName::new(&name[..18]).unwrap();
        }
        if id < 100 {
            name[17] = b'0' + id / 10;
            name[18] = b'0' + id % 10;
            return TypeName::new(&name[..19]).unwrap();
        }
        name[17] = b'0' + id / 100;
        name[18] = b'0' + id / 10 % 10;
        name[19] = b'0' + id % 10;
        TypeName::new(&name).unwrap()
    }
}

impl<A: ShmAllocator> AllocatorDetails<A> {
    /// A segment of this allocator and this payload.
    pub(crate) fn new(allocator: A, payload: Vec<u8>) -> Self
        requires ready { IsTrue (A.properties allocator).is_ready }
        requires within { (A.properties allocator).total ≤ length payload.items }
        requires limit { length payload.items ≤ max_memory_size }
        ensures { result ≡ record { allocator = allocator; payload = payload.items } }
    {
        AllocatorDetails { allocator, payload }
    }

    /// The size of the payload in bytes.
    pub(crate) fn size(&self) -> usize
        ensures { result ≡ length self.now.payload }
    {
        self.payload.len()
    }

    /// The allocator.
    pub(crate) fn allocator(&self) -> &A
        ensures { result.now ≡ self.now.allocator }
    {
        &self.allocator
    }

    /// Hands out a chunk of that layout.
    pub(crate) fn allocate(&mut self, layout: Layout) -> Result<PointerOffset, ShmAllocationError>
        ensures refused { result_err result ≡ A.refusal self.old.allocator layout }
        ensures given { IfOk result (λ pointer. A.Allocates self.old.allocator layout pointer self.new.allocator) }
        ensures after { self.new ≡ with_allocator self.old self.new.allocator }
        ensures within { IfOk result (λ pointer. IsChunkWithin A.properties self.old layout pointer) }
        ensures unchanged { OnErr result (self.new ≡ self.old) }
    {
        self.allocator.allocate(layout)
    }

    /// Takes back the chunk at that offset.
    pub(crate) fn deallocate(&mut self, distance: PointerOffset, layout: Layout)
        requires { A.IsAllocated self.old.allocator distance }
        ensures freed { A.Deallocates self.old.allocator distance self.new.allocator }
        ensures after { self.new ≡ with_allocator self.old self.new.allocator }
    {
        self.allocator.deallocate(distance, layout);
    }

    /// That many bytes of the payload, from an offset on.
    pub(crate) fn bytes(&self, offset: PointerOffset, count: usize) -> &[u8]
        requires { IsInPayload self.now.payload (offset_of offset) count }
        ensures { result.now ≡ slice_range self.now.payload (offset_of offset) (offset_of offset + count) }
    {
        let first = offset.offset();
        &self.payload[first..first + count]
    }
    /// That many bytes of the payload, from an offset on, to be written.
    pub(crate) fn bytes_mut(&mut self, offset: PointerOffset, count: usize) -> &mut [u8]
        requires { IsInPayload self.old.payload (offset_of offset) count }
        ensures* writes_back { sem 𝓛 (LendsBytes A.row A.Configuration.row A.ShmAllocator.own A.Debug
            A.Configuration.Default A.Configuration.Debug self.entry (offset_of offset) result) }
        ensures value { result.now ≡ slice_range self.old.payload (offset_of offset) (offset_of offset + count) }
    {
        let first = offset.offset();
        self.payload.slice_mut(first..first + count)
    }
}

impl AllocatorDetails<PoolAllocator> {
    /// Takes back the bucket at that offset.
    pub(crate) fn deallocate_bucket(&mut self, offset: PointerOffset)
        requires { IsUsedBucket self.old.allocator offset }
        ensures freed { FreesBucket self.old.allocator offset self.new.allocator }
        ensures after { self.new ≡ with_allocator self.old self.new.allocator }
    {
        self.allocator.deallocate_bucket(offset);
    }
}
