//! A memory segment: an allocator and the bytes that it hands out, in a storage under a name.
//!
//! Ported from `shared_memory/mod.rs` of iceoryx2-cal 0.9.3.
ghost use Rattle.std.specs.Prelude.{◌≡◌, ◌+◌, ◌≤◌, ℕ, Bool, true, false, Option, Some, None, IfSome, IfOk, IfErr, OnOk, OnErr, ◌⊎◌, codes, length, slice_range};
ghost use Rattle.std.specs.Map.{keys_of};
ghost use Rattle.std.specs.Result.{result_err};
ghost use Rattle.cal_alloc.specs.Limits.{max_memory_alignment};
ghost use Rattle.cal_alloc.specs.Pool.{IsUsedBucket, FreesBucket};
ghost use Rattle.cal_alloc.specs.PointerOffset.{offset_of};
ghost use Rattle.cal_names.specs.ConceptSettings.{extracted_name_at};
ghost use Rattle.cal_names.specs.FilePath.{IsFilePath};
ghost use Rattle.cal_storage.specs.Contents.{Contents, Has, id_at, new_handle, found_handle, after_creation, after_opening, after_close};
ghost use Rattle.cal_storage.specs.Holding.{Holds, IsNamed, KeepsHandles, KeepsOtherHandles, LeavesSharers, JoinsHandles};
ghost use Rattle.cal_storage.specs.Managing.{goes_with};
ghost use Rattle.cal_storage.specs.Refusals.{finished_version, has_name, after_name_removal};
ghost use Rattle.cal_storage.specs.Soundness.{IsSound};
ghost use Rattle.cal_shm.specs.Calls.{ChangesAllocator, OfValue, IsInPayload, IsChunkWithin};
ghost use Rattle.cal_shm.specs.Plan.{path_of, default_options};
ghost use Rattle.cal_shm.specs.Refusals.{create_refusal, open_refusal};
ghost use Rattle.cal_shm.specs.Segment.{Segment, new_segment};

use crate::allocator_details::AllocatorDetails;
use crate::errors::{SharedMemoryCreateError, SharedMemoryOpenError};
use crate::options::SharedMemoryOptions;
use crate::payload::PayloadHolder;
use crate::shm_pointer::ShmPointer;
use cal_alloc::{Layout, PointerOffset, PoolAllocator, ShmAllocationError, ShmAllocator};
use cal_names::{FileName, NamedConcept, NamedConceptBuilder, NamedConceptMgmt};
use cal_storage::{AccessMode, Registry};
use std::alloc::Global;
use std::fmt::Debug;

/// A builder of memory segments: their name and configuration, whether a new one owns its name, and its size in bytes.
pub trait SharedMemoryBuilder<A: ShmAllocator, Shm: SharedMemory<A>>: Debug
    + Drop
    + NamedConceptBuilder<Shm, Options = SharedMemoryOptions> {
    /// Whether the segment that is created owns its name; true by default.
    fn has_ownership(self, value: bool) -> Self
        ensures plan { Self.plan result ≡ record (Self.plan self) {
          options = record (Self.plan self).options { is_owner = value };
        } };

    /// The payload's size in bytes: of a new segment, or at least, of one that is opened; 0 by default.
    fn size(self, value: usize) -> Self
        ensures plan { Self.plan result ≡ record (Self.plan self) {
          options = record (Self.plan self).options { size = value };
        } };

    /// Has no effect: an opening looks once, since nobody else acts on the registry while it is lent.
    fn timeout(self, turns: usize) -> Self
        ensures plan { Self.plan result ≡ Self.plan self };

    /// Creates the segment of this name, with a new allocator over it whose `init` has answered Ok. Its bytes are zero.
    fn create(
        self,
        alloc: Global,
        reg: &mut Registry<AllocatorDetails<A>>,
        allocator_config: &A::Configuration,
    ) -> Result<Shm, SharedMemoryCreateError>
        ensures refused { let size = (Self.plan self).options.size in
            let allocator = A.new_uninit max_memory_alignment size allocator_config.now in
            IfSome (create_refusal (A.fits size allocator_config.now) (A.properties allocator).max_alignment
            reg.old (Self.plan self)) (λ error. result ≡ Err error) }
        ensures error { let size = (Self.plan self).options.size in
            let allocator = A.new_uninit max_memory_alignment size allocator_config.now in
            IfErr result (λ error. (create_refusal (A.fits size allocator_config.now)
            (A.properties allocator).max_alignment reg.old (Self.plan self) ≡ Some error)
            ⊎ (error ≡ SharedMemoryCreateError.NoMemory)) }
        ensures created { let size = (Self.plan self).options.size in
            let allocator = A.after_init (A.new_uninit max_memory_alignment size allocator_config.now) in
            OnOk result (reg.new ≡ after_creation reg.old (path_of (Self.plan self)) (new_segment allocator size)
            finished_version) }
        ensures free { OnOk result (id_at reg.old (path_of (Self.plan self)) ≡ None) }
        ensures path { OnOk result (IsFilePath (path_of (Self.plan self))) }
        ensures handle { IfOk result (λ memory. Shm.handle memory
            ≡ new_handle reg.old (path_of (Self.plan self)) (Self.plan self).options.is_owner) }
        ensures name { IfOk result (λ memory. Shm.concept_name memory ≡ (Self.plan self).name) }
        ensures holds { IfOk result (λ memory. Holds reg.new 1 (Shm.handle memory)) }
        ensures named { IfOk result (λ memory. IsNamed reg.new (Shm.handle memory)) }
        ensures keeps { KeepsHandles reg.old reg.new }
        ensures sound { OnOk result (IsSound reg.old) }
        ensures unchanged { OnErr result (reg.new ≡ reg.old) };

    /// Opens the segment of this name, which is held once more then. What is opened doesn't own the name. Takes no
    /// memory.
    fn open(
        self,
        reg: &mut Registry<AllocatorDetails<A>>,
        access_mode: AccessMode,
    ) -> Result<Shm, SharedMemoryOpenError>
        ensures refused { result_err result ≡ open_refusal Shm.checks_version reg.old (Self.plan self) }
        ensures found { IfOk result (λ memory. id_at reg.old (path_of (Self.plan self)) ≡ Some (Shm.handle memory).id) }
        ensures handle { IfOk result (λ memory.
            Shm.handle memory ≡ found_handle (path_of (Self.plan self)) (Shm.handle memory).id) }
        ensures opened { IfOk result (λ memory. reg.new ≡ after_opening reg.old (Shm.handle memory).id) }
        ensures name { IfOk result (λ memory. Shm.concept_name memory ≡ (Self.plan self).name) }
        ensures holds { IfOk result (λ memory. Holds reg.new 1 (Shm.handle memory)) }
        ensures joins { IfOk result (λ memory. JoinsHandles reg.old reg.new (Shm.handle memory)) }
        ensures keeps { KeepsHandles reg.old reg.new }
        ensures sound { OnOk result (IsSound reg.old) }
        ensures unchanged { OnErr result (reg.new ≡ reg.old) };

    // What a new builder has been told.
    ghost defaults: { Self.default_options ≡ default_options };
}

/// A memory segment: it holds the entry of its name.
pub trait SharedMemory<A: ShmAllocator>: Debug
    + Drop
    + NamedConcept
    + NamedConceptMgmt<Names = Registry<AllocatorDetails<A>>>
    + PayloadHolder<AllocatorDetails<A>> {
    type Builder: SharedMemoryBuilder<A, Self>;

    // Whether an opening looks at the version of an entry.
    ghost checks_version: { Bool };

    /// The size of the payload in bytes, at most 2^56.
    fn size(&self, reg: &Registry<AllocatorDetails<A>>) -> usize
        requires { Has reg.now (Self.handle self.now) }
        ensures size { OfValue reg.now (Self.handle self.now).id (λ segment. result ≡ length segment.payload) }
        ensures within { (offset count : ℕ) → offset + count ≤ result →
            OfValue reg.now (Self.handle self.now).id (λ segment. IsInPayload segment.payload offset count) };

    /// The greatest alignment that a chunk can have, in bytes.
    fn max_alignment(&self, reg: &Registry<AllocatorDetails<A>>) -> usize
        requires { Has reg.now (Self.handle self.now) }
        ensures alignment { OfValue reg.now (Self.handle self.now).id (λ segment.
            result ≡ (A.properties segment.allocator).max_alignment) };

    /// The offset of the payload's first byte.
    fn payload_start_address(&self) -> usize
        ensures zero { result ≡ 0 };

    /// The allocator.
    fn allocator<'r>(&self, reg: &'r Registry<AllocatorDetails<A>>) -> &'r A
        requires { Has reg.now (Self.handle self.now) }
        ensures allocator { OfValue reg.now (Self.handle self.now).id (λ segment. result.now ≡ segment.allocator) };

    /// Hands out a chunk of that layout, which lies within the payload. After an error everything is as before. Takes
    /// no memory.
    fn allocate(
        &self,
        reg: &mut Registry<AllocatorDetails<A>>,
        layout: Layout,
    ) -> Result<ShmPointer, ShmAllocationError>
        requires { Has reg.old (Self.handle self.now) }
        ensures refused { OfValue reg.old (Self.handle self.now).id (λ segment.
            result_err result ≡ A.refusal segment.allocator layout) }
        ensures given { IfOk result (λ pointer. ChangesAllocator reg.old (Self.handle self.now).id
            (λ before after. A.Allocates before layout pointer.offset after) reg.new) }
        ensures allocated { IfOk result (λ pointer. OfValue reg.new (Self.handle self.now).id (λ segment.
            A.IsAllocated segment.allocator pointer.offset)) }
        ensures within { IfOk result (λ pointer. OfValue reg.old (Self.handle self.now).id (λ segment.
            IsChunkWithin A.properties segment layout pointer.offset)) }
        ensures keeps { KeepsHandles reg.old reg.new }
        ensures unchanged { OnErr result (reg.new ≡ reg.old) };

    /// Takes back the chunk at that offset, which was handed out and not taken back yet.
    fn deallocate(
        &self,
        reg: &mut Registry<AllocatorDetails<A>>,
        offset: PointerOffset,
        layout: Layout,
    )
        requires there { Has reg.old (Self.handle self.now) }
        requires allocated { OfValue reg.old (Self.handle self.now).id (λ segment.
            A.IsAllocated segment.allocator offset) }
        ensures freed { ChangesAllocator reg.old (Self.handle self.now).id
            (λ before after. A.Deallocates before offset after) reg.new }
        ensures keeps { KeepsHandles reg.old reg.new };

    /// That many bytes of the payload, from an offset on.
    fn bytes<'r>(
        &self,
        reg: &'r Registry<AllocatorDetails<A>>,
        offset: PointerOffset,
        count: usize,
    ) -> &'r [u8]
        requires there { Has reg.now (Self.handle self.now) }
        requires within { OfValue reg.now (Self.handle self.now).id
            (λ segment. IsInPayload segment.payload (offset_of offset) count) }
        ensures bytes { OfValue reg.now (Self.handle self.now).id (λ segment.
            result.now ≡ slice_range segment.payload (offset_of offset) (offset_of offset + count)) };

    /// Whether a segment can stay without a handle on it.
    fn does_support_persistency() -> bool
        ensures always { result ≡ true };

    /// The suffix of a segment's path.
    fn default_suffix() -> FileName
        ensures suffix { result ≡ codes ".shm" }
    {
        FileName::new(b".shm").unwrap()
    }

    /// Whether closing takes the name away.
    fn has_ownership(&self) -> bool
        ensures owner { result ≡ (Self.handle self.now).is_owner };

    /// From now on closing takes the name away.
    fn acquire_ownership(&mut self)
        ensures handle { Self.handle self.new ≡ record (Self.handle self.old) { is_owner = true } }
        ensures name { Self.concept_name self.new ≡ Self.concept_name self.old };

    /// From now on closing leaves the name.
    fn release_ownership(&mut self)
        ensures handle { Self.handle self.new ≡ record (Self.handle self.old) { is_owner = false } }
        ensures name { Self.concept_name self.new ≡ Self.concept_name self.old };

    /// Ends the handle: the entry is held once less, and the name goes where the handle owns it and it still stands for
    /// the entry. The segment is dropped where neither a holder nor a name is left.
    fn close(self, reg: &mut Registry<AllocatorDetails<A>>)
        requires { Has reg.old (Self.handle self) }
        ensures closed { reg.new ≡ after_close reg.old (Self.handle self) }
        ensures keeps_others { KeepsOtherHandles reg.old reg.new (Self.handle self).id }
        ensures leaves_sharers { LeavesSharers reg.old reg.new (Self.handle self).id }
        ensures sound { IsSound reg.old };

    /// Removes the segment of this name, as `remove_cfg` does, and answers whether it was there. Since nothing is
    /// listed first, it takes no memory.
    fn remove_name(
        reg: &mut Registry<AllocatorDetails<A>>,
        name: &FileName,
        cfg: &Self::Configuration,
    ) -> bool
        ensures found { result ≡ has_name (Self.Configuration.settings cfg.now) name.now reg.old }
        ensures removed { reg.new ≡ after_name_removal (Self.Configuration.settings cfg.now) name.now reg.old }
        ensures keeps { KeepsHandles reg.old reg.new }
        ensures sound { IsSound reg.old };

    // How the management of named concepts is meant: the paths are the registry's names, a path stands for the segment
    // whose name is extracted from it, and a removal takes this path alone.
    ghost paths_are_names: { Self.paths ≡ (λ (reg : Contents (Segment A)). keys_of reg.names) };

    ghost shows: { Self.shown_name ≡ extracted_name_at };

    ghost goes: { Self.goes_with ≡ goes_with };

    ghost removes: { Self.removed ≡ after_name_removal };

    ghost keeps_open: { (old new : Contents (Segment A)) → Self.KeepsOpen old new → KeepsHandles old new };

    ghost lists_nothing_first: { Self.lists_first ≡ false };

    // The suffix of the default configuration.
    ghost suffix: { Self.Configuration.initial.suffix ≡ codes ".shm" };
}

/// A memory segment that a pool allocator hands out.
pub trait SharedMemoryForPoolAllocator: SharedMemory<PoolAllocator> {
    /// Takes back the bucket at that offset, which was handed out and not taken back yet.
    fn deallocate_bucket(
        &self,
        reg: &mut Registry<AllocatorDetails<PoolAllocator>>,
        offset: PointerOffset,
    )
        requires there { Has reg.old (Self.handle self.now) }
        requires allocated { OfValue reg.old (Self.handle self.now).id (λ segment.
            IsUsedBucket segment.allocator offset) }
        ensures freed { ChangesAllocator reg.old (Self.handle self.now).id
            (λ before after. FreesBucket before offset after) reg.new }
        ensures keeps { KeepsHandles reg.old reg.new };

    /// The size of each bucket in bytes.
    fn bucket_size(&self, reg: &Registry<AllocatorDetails<PoolAllocator>>) -> usize
        requires { Has reg.now (Self.handle self.now) }
        ensures size { OfValue reg.now (Self.handle self.now).id (λ segment.
            result ≡ segment.allocator.buckets.size) };
}
