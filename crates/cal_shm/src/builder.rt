//! The builder of memory segments. Ported from `shared_memory/common.rs` of iceoryx2-cal 0.9.3.
ghost use Rattle.std.specs.Prelude.{◌≡◌, ◌≤◌, ◌^◌, ◌<◌, ◌⊎◌, IsTrue, IsErrOf, IfOk, IfErr, ◌↔◌, refl};
ghost use Rattle.std.specs.Result.{result_err};
ghost use Rattle.cal_alloc.specs.Limits.{max_memory_alignment};
ghost use Rattle.cal_names.specs.ConceptSettings.{settings_of};
ghost use Rattle.cal_shm.specs.Plan.{default_options, storage_plan};
ghost use Rattle.cal_shm.specs.Refusals.{name_refusal};
ghost use Rattle.cal_shm.specs.Segment.{new_segment};

use crate::allocator_details::AllocatorDetails;
use crate::configuration::Configuration;
use crate::errors::{SharedMemoryCreateError, SharedMemoryOpenError, opening_error};
use crate::memory::Memory;
use crate::options::SharedMemoryOptions;
use crate::shared_memory::SharedMemoryBuilder;
use cal_alloc::{MAX_MEMORY_ALIGNMENT, ShmAllocator, ShmAllocatorInitError};
use cal_names::{FileName, NamedConceptBuilder, NamedConceptConfiguration};
use cal_storage::{AccessMode, DynamicStorage, DynamicStorageBuilder, Registry};
use std::alloc::Global;
use std::marker::PhantomData;

/// A builder of memory segments of an allocator in a storage.
#[derive_where(Debug)]
#[derive(Drop)]
pub struct Builder<A, S> {
    /// The name of the segment.
    name: FileName,
    /// What makes the path of the name.
    config: Configuration<A, S>,
    /// Whether a new segment owns its name, and the size of its payload in bytes.
    options: SharedMemoryOptions,
}

impl<A: ShmAllocator, S: DynamicStorage<AllocatorDetails<A>>> NamedConceptBuilder<Memory<A, S>>
    for Builder<A, S> {
    type Options = SharedMemoryOptions;

    ghost plan = { λ b. record {
      name = b.name;
      settings = settings_of b.config.parts S.Configuration.initial.type_name;
      options = b.options;
    } };

    ghost default_options = { default_options };

    fn new(name: &FileName) -> Self {
        Builder {
            name: *name,
            config: Configuration::default(),
            options: SharedMemoryOptions {
                is_owner: true,
                size: 0,
            },
        }
    }

    fn config(self, config: &Configuration<A, S>) -> Self {
        Builder {
            config: config.clone().unwrap(),
            ..self
        }
    }
}

impl<A: ShmAllocator, S: DynamicStorage<AllocatorDetails<A>>> Builder<A, S> {
    /// A builder of the storage that holds the segment.
    fn storage_builder(&self) -> S::Builder
        ensures plan { S.Builder.plan result ≡ storage_plan (record {
          name = self.now.name;
          settings = settings_of self.now.config.parts S.Configuration.initial.type_name;
          options = self.now.options;
        }) }
    {
        S::Builder::new(&self.name)
            .config(&self.config.storage_configuration())
            .has_ownership(self.options.is_owner)
    }

    /// Whether the path of the name fits and stands for nothing.
    fn check_name(&self, reg: &Registry<AllocatorDetails<A>>) -> Result<(), SharedMemoryCreateError>
        ensures { result_err result ≡ name_refusal reg.now
            (settings_of self.now.config.parts S.Configuration.initial.type_name) self.now.name }
    {
        let Ok(path) = self.config.path_for(&self.name) else {
            return Err(SharedMemoryCreateError::PathTooLong);
        };
        if reg.contains(&path) {
            return Err(SharedMemoryCreateError::AlreadyExists);
        }
        Ok(())
    }
}

/// A segment of that many bytes, all zero, with a new allocator over it.
fn new_details<A: ShmAllocator>(
    alloc: Global,
    size: usize,
    config: &A::Configuration,
) -> Result<AllocatorDetails<A>, SharedMemoryCreateError>
    requires fits { IsTrue (A.fits size config.now) }
    ensures insufficient { IsErrOf result SharedMemoryCreateError.InternalError
        ↔ (max_memory_alignment < (A.properties (A.new_uninit max_memory_alignment size config.now)).max_alignment) }
    ensures error { IfErr result (λ error. (error ≡ SharedMemoryCreateError.InternalError)
        ⊎ (error ≡ SharedMemoryCreateError.NoMemory)) }
    ensures created { IfOk result (λ details. details
        ≡ new_segment (A.after_init (A.new_uninit max_memory_alignment size config.now)) size) }
{
    let mut allocator = A::new_uninit(MAX_MEMORY_ALIGNMENT, size, config);
    match allocator.init(alloc) {
        Ok(()) => {}
        Err(ShmAllocatorInitError::MaxSupportedMemoryAlignmentInsufficient) => {
            return Err(SharedMemoryCreateError::InternalError);
        }
        Err(ShmAllocatorInitError::AllocationFailed) => {
            return Err(SharedMemoryCreateError::NoMemory);
        }
    }
    match vec![in alloc; 0; size] {
        Ok(payload) => Ok(AllocatorDetails::new(allocator, payload)),
        Err(_) => Err(SharedMemoryCreateError::NoMemory),
    }
}

impl<A: ShmAllocator, S: DynamicStorage<AllocatorDetails<A>>> SharedMemoryBuilder<A, Memory<A, S>>
    for Builder<A, S> {
    fn has_ownership(self, value: bool) -> Self {
        let options = SharedMemoryOptions {
            is_owner: value,
            size: self.options.size,
        };
        Builder { options, ..self }
    }

    fn size(self, value: usize) -> Self {
        let options = SharedMemoryOptions {
            is_owner: self.options.is_owner,
            size: value,
        };
        Builder { options, ..self }
    }

    fn timeout(self, _turns: usize) -> Self {
        self
    }

    fn create(
        self,
        alloc: Global,
        reg: &mut Registry<AllocatorDetails<A>>,
        allocator_config: &A::Configuration,
    ) -> Result<Memory<A, S>, SharedMemoryCreateError> {
        let size = self.options.size;
        if size == 0 {
            return Err(SharedMemoryCreateError::SizeIsZero);
        }
        if !A::fits(size, allocator_config) {
            return Err(SharedMemoryCreateError::SizeOutOfRange);
        }
        if let Err(error) = self.check_name(reg) {
            return Err(error);
        }
        let details = match new_details::<A>(alloc, size, allocator_config) {
            Ok(details) => details,
            Err(error) => return Err(error),
        };
        match self.storage_builder().create(reg, details, |_, _| true) {
            Ok(storage) => Ok(Memory::new(storage)),
            Err(_) => Err(SharedMemoryCreateError::NoMemory),
        }
    }

    fn open(
        self,
        reg: &mut Registry<AllocatorDetails<A>>,
        access_mode: AccessMode,
    ) -> Result<Memory<A, S>, SharedMemoryOpenError> {
        let builder = self.storage_builder();
        let found = match builder.peek(reg) {
            Ok(details) => details.size(),
            Err(error) => return Err(opening_error(error)),
        };
        if found < self.options.size {
            return Err(SharedMemoryOpenError::SizeDoesNotFit);
        }
        match builder.open(reg, access_mode) {
            Ok(storage) => Ok(Memory::new(storage)),
            Err(error) => Err(opening_error(error)),
        }
    }

    ghost defaults = { refl };
}
