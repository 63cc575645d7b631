//! The builder of storages of both kinds.
ghost use Rattle.std.specs.Prelude.{◌≡◌, refl};
ghost use Rattle.cal_storage.specs.Plan.{default_options};

use crate::access_mode::AccessMode;
use crate::dynamic_storage::configuration::Configuration;
use crate::dynamic_storage::storage::{Kind, Storage};
use crate::dynamic_storage::{
    DynamicStorageBuilder, DynamicStorageCreateError, DynamicStorageOpenError,
    DynamicStorageOpenOrCreateError, StorageOptions,
};
use crate::handle::Handle;
use crate::registry::Registry;
use cal_alloc::BumpAllocator;
use cal_names::{FileName, NamedConceptBuilder, NamedConceptConfiguration, NamedType};
use std::fmt::Debug;
use std::marker::{Model, PhantomData};

/// A builder of storages of a type, of one kind.
#[derive_where(Debug)]
#[derive(Drop)]
pub struct Builder<T, K> {
    /// The name of the storage.
    pub(crate) name: FileName,
    /// What makes the path of the name.
    pub(crate) config: Configuration<T>,
    /// Whether a new storage owns its name, and the room of its initializer, at most 2^56 bytes.
    pub(crate) options: StorageOptions,
    /// What is stored, and the kind of storage.
    of: PhantomData<K>,
}

impl<T, K> Model for Builder<T, K> {
    ghost use Rattle.std.specs.Prelude.{◌≤◌, ◌^◌, Some};
    ghost use Rattle.cal_alloc.specs.Limits.{max_memory_size};
    ghost use Rattle.cal_names.specs.ConceptSettings.{settings_of};
    ghost use Rattle.cal_storage.specs.Plan.{StoragePlan};

    ghost Value = { StoragePlan };

    ghost view = { λ b. record {
      name = b.name;
      settings = settings_of b.config.parts (Some b.config.type_name);
      options = b.options;
    } };

    ghost invariant = { λ b. b.options.room ≤ max_memory_size };
}

impl<T: NamedType + Debug + Drop, K: Kind> NamedConceptBuilder<Storage<T, K>> for Builder<T, K> {
    type Options = StorageOptions;

    ghost plan = { λ b. b };

    ghost default_options = { default_options };

    fn new(name: &FileName) -> Self {
        Builder {
            name: *name,
            config: Configuration::default(),
            options: StorageOptions {
                is_owner: true,
                room: 0,
            },
            of: PhantomData,
        }
    }

    fn config(self, config: &Configuration<T>) -> Self {
        Builder {
            config: config.clone().unwrap(),
            ..self
        }
    }
}

impl<T: NamedType + Debug + Drop, K: Kind> DynamicStorageBuilder<T, Storage<T, K>>
    for Builder<T, K> {
    fn call_drop_on_destruction(self, _value: bool) -> Self {
        self
    }

    fn has_ownership(self, value: bool) -> Self {
        let options = StorageOptions {
            is_owner: value,
            room: self.options.room,
        };
        Builder { options, ..self }
    }

    fn supplementary_size(self, value: usize) -> Self {
        let options = StorageOptions {
            is_owner: self.options.is_owner,
            room: value,
        };
        Builder { options, ..self }
    }

    fn timeout(self, _turns: usize) -> Self {
        self
    }

    fn create<F: FnMut(&mut T, &mut BumpAllocator) -> bool + Drop>(
        self,
        reg: &mut Registry<T>,
        initial_value: T,
        initializer: F,
    ) -> Result<Storage<T, K>, DynamicStorageCreateError> {
        let Ok(path) = reg.path_for(&self.name, &self.config) else {
            return Err(DynamicStorageCreateError::PathTooLong);
        };
        let id = reg.create(&path, initial_value, self.options.room, initializer)?;
        Ok(Storage {
            name: self.name,
            handle: Handle {
                id,
                path,
                is_owner: self.options.is_owner,
            },
            of: PhantomData,
        })
    }

    fn open(
        self,
        reg: &mut Registry<T>,
        _access_mode: AccessMode,
    ) -> Result<Storage<T, K>, DynamicStorageOpenError> {
        let Ok(path) = reg.path_for(&self.name, &self.config) else {
            return Err(DynamicStorageOpenError::PathTooLong);
        };
        let id = reg.open(&path, K::checks_version())?;
        Ok(Storage {
            name: self.name,
            handle: Handle {
                id,
                path,
                is_owner: false,
            },
            of: PhantomData,
        })
    }

    fn peek<'r>(&self, reg: &'r Registry<T>) -> Result<&'r T, DynamicStorageOpenError> {
        let Ok(path) = reg.path_for(&self.name, &self.config) else {
            return Err(DynamicStorageOpenError::PathTooLong);
        };
        reg.peek(&path, K::checks_version())
    }

    fn open_or_create<F: FnMut(&mut T, &mut BumpAllocator) -> bool + Drop>(
        self,
        reg: &mut Registry<T>,
        initial_value: T,
        initializer: F,
    ) -> Result<Storage<T, K>, DynamicStorageOpenOrCreateError> {
        let Ok(path) = reg.path_for(&self.name, &self.config) else {
            return Err(DynamicStorageOpenOrCreateError::DynamicStorageOpenError(
                DynamicStorageOpenError::PathTooLong,
            ));
        };
        if !reg.contains(&path) {
            return match self.create(reg, initial_value, initializer) {
                Ok(storage) => Ok(storage),
                Err(error) => Err(DynamicStorageOpenOrCreateError::DynamicStorageCreateError(
                    error,
                )),
            };
        }
        match self.open(reg, AccessMode::ReadWrite) {
            Ok(storage) => Ok(storage),
            Err(error) => Err(DynamicStorageOpenOrCreateError::DynamicStorageOpenError(error)),
        }
    }

    ghost defaults = { refl };
}
