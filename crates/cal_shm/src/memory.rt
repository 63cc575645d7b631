//! The handle of a memory segment: one body for every allocator and every storage. Ported from
//! `shared_memory/common.rs` of iceoryx2-cal 0.9.3.
ghost use Rattle.std.specs.Prelude.{◌≡◌, ◌+◌, Some, true, refl};
ghost use Rattle.cal_shm.specs.Segment.{Segment};

use crate::allocator_details::AllocatorDetails;
use crate::builder::Builder;
use crate::configuration::Configuration;
use crate::payload::PayloadHolder;
use crate::shared_memory::{SharedMemory, SharedMemoryForPoolAllocator};
use crate::shm_pointer::ShmPointer;
use cal_alloc::{Layout, PointerOffset, PoolAllocator, ShmAllocationError, ShmAllocator};
use cal_names::{
    FileName, NamedConcept, NamedConceptDoesExistError, NamedConceptListError, NamedConceptMgmt,
    NamedConceptPathHintRemoveError, NamedConceptRemoveError, Path,
};
use cal_storage::{DynamicStorage, Registry};
use std::alloc::Global;
use std::marker::PhantomData;

/// A handle on a memory segment of an allocator in a storage.
#[derive(Debug, Drop)]
pub struct Memory<A, S> {
    /// The storage that holds the segment.
    storage: S,
    /// The allocator.
    of: PhantomData<A>,
}

impl<A: ShmAllocator, S: DynamicStorage<AllocatorDetails<A>>> Memory<A, S> {
    /// The segment that a storage holds.
    pub(crate) fn new(storage: S) -> Self
        ensures { result.storage ≡ storage }
    {
        Memory {
            storage,
            of: PhantomData,
        }
    }
}

impl<A: ShmAllocator, S: DynamicStorage<AllocatorDetails<A>>> NamedConcept for Memory<A, S> {
    ghost concept_name = { λ m. S.concept_name m.storage };

    fn name(&self) -> &FileName {
        self.storage.name()
    }
}

impl<A: ShmAllocator, S: DynamicStorage<AllocatorDetails<A>>> NamedConceptMgmt for Memory<A, S> {
    type Configuration = Configuration<A, S>;

    type Names = Registry<AllocatorDetails<A>>;

    ghost paths = { S.paths };

    ghost shown_name = { S.shown_name };

    ghost goes_with = { S.goes_with };

    ghost removed = { S.removed };

    ghost lists_first = { S.lists_first };

    ghost KeepsOpen = { S.KeepsOpen };

    fn remove_cfg(
        alloc: Global,
        reg: &mut Registry<AllocatorDetails<A>>,
        name: &FileName,
        cfg: &Configuration<A, S>,
    ) -> Result<bool, NamedConceptRemoveError> {
        S::remove_cfg(alloc, reg, name, &cfg.storage_configuration())
    }

    fn does_exist_cfg(
        reg: &Registry<AllocatorDetails<A>>,
        name: &FileName,
        cfg: &Configuration<A, S>,
    ) -> Result<bool, NamedConceptDoesExistError> {
        S::does_exist_cfg(reg, name, &cfg.storage_configuration())
    }

    fn list_cfg(
        alloc: Global,
        reg: &Registry<AllocatorDetails<A>>,
        cfg: &Configuration<A, S>,
    ) -> Result<Vec<FileName>, NamedConceptListError> {
        S::list_cfg(alloc, reg, &cfg.storage_configuration())
    }

    fn remove_path_hint(value: &Path) -> Result<(), NamedConceptPathHintRemoveError> {
        S::remove_path_hint(value)
    }

    ghost shown_goes = { S.shown_goes };
}

impl<A: ShmAllocator, S: DynamicStorage<AllocatorDetails<A>>> PayloadHolder<AllocatorDetails<A>>
    for Memory<A, S> {
    ghost handle = { λ m. S.handle m.storage };

    fn bytes_mut<'r>(
        reg: &'r mut Registry<AllocatorDetails<A>>,
        memory: &Self,
        offset: PointerOffset,
        count: usize,
    ) -> &'r mut [u8] {
        S::get_mut(reg, &memory.storage).bytes_mut(offset, count)
    }
}

impl<A: ShmAllocator, S: DynamicStorage<AllocatorDetails<A>>> SharedMemory<A> for Memory<A, S> {
    type Builder = Builder<A, S>;

    ghost checks_version = { S.checks_version };

    fn size(&self, reg: &Registry<AllocatorDetails<A>>) -> usize {
        self.storage.get(reg).size()
    }

    fn max_alignment(&self, reg: &Registry<AllocatorDetails<A>>) -> usize {
        self.storage.get(reg).allocator().max_alignment()
    }

    fn payload_start_address(&self) -> usize {
        0
    }

    fn allocator<'r>(&self, reg: &'r Registry<AllocatorDetails<A>>) -> &'r A {
        self.storage.get(reg).allocator()
    }

    fn allocate(
        &self,
        reg: &mut Registry<AllocatorDetails<A>>,
        layout: Layout,
    ) -> Result<ShmPointer, ShmAllocationError> {
        let details = S::get_mut(reg, &self.storage);
        match details.allocate(layout) {
            Ok(offset) => Ok(ShmPointer { offset }),
            Err(error) => Err(error),
        }
    }

    fn deallocate(
        &self,
        reg: &mut Registry<AllocatorDetails<A>>,
        offset: PointerOffset,
        layout: Layout,
    ) {
        let details = S::get_mut(reg, &self.storage);
        details.deallocate(offset, layout);
    }

    fn bytes<'r>(
        &self,
        reg: &'r Registry<AllocatorDetails<A>>,
        offset: PointerOffset,
        count: usize,
    ) -> &'r [u8] {
        self.storage.get(reg).bytes(offset, count)
    }

    fn does_support_persistency() -> bool {
        S::does_support_persistency()
    }

    fn has_ownership(&self) -> bool {
        self.storage.has_ownership()
    }

    fn acquire_ownership(&mut self) {
        self.storage.acquire_ownership();
    }

    fn release_ownership(&mut self) {
        self.storage.release_ownership();
    }

    fn close(self, reg: &mut Registry<AllocatorDetails<A>>) {
        let Memory { storage, of: _ } = self;
        storage.close(reg);
    }

    fn remove_name(
        reg: &mut Registry<AllocatorDetails<A>>,
        name: &FileName,
        cfg: &Configuration<A, S>,
    ) -> bool {
        S::remove_name(reg, name, &cfg.storage_configuration())
    }

    ghost paths_are_names = { S.paths_are_names };

    ghost shows = { S.shows };

    ghost goes = { S.goes };

    ghost removes = { S.removes };

    ghost keeps_open = { S.keeps_open };

    ghost lists_nothing_first = { S.lists_nothing_first };

    ghost suffix = { refl };
}

impl<S: DynamicStorage<AllocatorDetails<PoolAllocator>>> SharedMemoryForPoolAllocator
    for Memory<PoolAllocator, S> {
    fn deallocate_bucket(
        &self,
        reg: &mut Registry<AllocatorDetails<PoolAllocator>>,
        offset: PointerOffset,
    ) {
        let details = S::get_mut(reg, &self.storage);
        details.deallocate_bucket(offset);
    }

    fn bucket_size(&self, reg: &Registry<AllocatorDetails<PoolAllocator>>) -> usize {
        self.storage.get(reg).allocator().bucket_size()
    }
}
