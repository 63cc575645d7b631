//! The configuration of a memory segment: what stands around a name in the path of its file. Ported from
//! `shared_memory/common.rs` of iceoryx2-cal 0.9.3.
ghost use Rattle.std.specs.Prelude.{◌≡◌, true, refl};
ghost use Rattle.cal_names.specs.ConceptSettings.{settings_of};
ghost use Rattle.cal_shm.specs.Configuration.{default_parts};

use crate::allocator_details::AllocatorDetails;
use cal_alloc::ShmAllocator;
use cal_names::{FileName, NamedConceptConfiguration, Path, PathParts, TypeName};
use cal_storage::DynamicStorage;
use std::marker::PhantomData;

/// The configuration of a memory segment of an allocator in a storage. Its paths are those of the storage, so the hash
/// of the stored type's name stands in them.
#[derive_where(Clone, Copy, Debug)]
pub struct Configuration<A, S> {
    /// What stands around a name in its path.
    pub(crate) parts: PathParts,
    /// Has no effect: the bytes of a new segment are zero. True by default.
    pub zero_memory: bool,
    /// The allocator and the storage.
    of: PhantomData<(A, S)>,
}

impl<A: ShmAllocator, S: DynamicStorage<AllocatorDetails<A>>> Configuration<A, S> {
    /// The configuration of the storage.
    pub(crate) fn storage_configuration(&self) -> S::Configuration
        ensures settings { S.Configuration.settings result
            ≡ settings_of self.now.parts S.Configuration.initial.type_name }
    {
        S::Configuration::default().with_parts(self.parts)
    }
}

impl<A: ShmAllocator, S: DynamicStorage<AllocatorDetails<A>>> Default for Configuration<A, S> {
    ghost is_default = { λ c. (c.parts ≡ default_parts) × (c.zero_memory ≡ true) };

    fn default() -> Self {
        Configuration {
            parts: PathParts {
                prefix: FileName::new(b"iox2_").unwrap(),
                suffix: FileName::new(b".shm").unwrap(),
                path_hint: Path::new(b"/tmp").unwrap(),
            },
            zero_memory: true,
            of: PhantomData,
        }
    }
}

impl<A: ShmAllocator, S: DynamicStorage<AllocatorDetails<A>>> NamedConceptConfiguration
    for Configuration<A, S> {
    ghost settings = { λ c. settings_of c.parts S.Configuration.initial.type_name };

    ghost initial = { settings_of default_parts S.Configuration.initial.type_name };

    fn parts(&self) -> &PathParts {
        &self.parts
    }

    fn with_parts(self, parts: PathParts) -> Self {
        Configuration { parts, ..self }
    }

    fn get_type_name(&self) -> Option<TypeName> {
        S::Configuration::default().get_type_name()
    }

    ghost starts = { λ c default i. settings_of (default.0 i) S.Configuration.initial.type_name };

    ghost defaults = { (refl, refl) };
}
