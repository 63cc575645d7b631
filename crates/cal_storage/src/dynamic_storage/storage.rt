//! The storage itself: one body for both kinds, which differ in whether an opening looks at the version of an entry.
ghost use Rattle.std.specs.Prelude.{◌≡◌, Bool, false, refl};
ghost use Rattle.std.specs.Map.{keys_of};
ghost use Rattle.cal_names.specs.NamedConceptMgmt.{is_name-same};
ghost use Rattle.cal_names.specs.ConceptSettings.{extracted_name_at};
ghost use Rattle.cal_storage.specs.Holding.{KeepsHandles};
ghost use Rattle.cal_storage.specs.Managing.{goes_with};
ghost use Rattle.cal_storage.specs.Refusals.{after_name_removal};

use crate::dynamic_storage::DynamicStorage;
use crate::dynamic_storage::builder::Builder;
use crate::dynamic_storage::configuration::Configuration;
use crate::handle::Handle;
use crate::registry::Registry;
use cal_names::{
    FileName, NamedConcept, NamedConceptConfiguration, NamedConceptDoesExistError,
    NamedConceptListError, NamedConceptMgmt, NamedConceptPathHintRemoveError,
    NamedConceptRemoveError, NamedType, Path,
};
use std::alloc::Global;
use std::fmt::Debug;
use std::marker::PhantomData;

/// A kind of storage.
pub trait Kind: Debug {
    // Whether an opening looks at the version of an entry.
    ghost checks_version: { Bool };

    /// Whether an opening looks at the version of an entry.
    fn checks_version() -> bool
        ensures value { result ≡ checks_version };
}

/// A storage of a type, of one kind.
#[derive_where(Debug)]
#[derive(Drop)]
pub struct Storage<T, K> {
    /// The name of the storage.
    pub(crate) name: FileName,
    /// The entry that the storage holds.
    pub(crate) handle: Handle,
    /// What is stored, and the kind of storage.
    pub(crate) of: PhantomData<(T, K)>,
}

impl<T: NamedType + Debug + Drop, K: Kind> NamedConcept for Storage<T, K> {
    ghost concept_name = { λ s. s.name };

    fn name(&self) -> &FileName {
        &self.name
    }
}

impl<T: NamedType + Debug + Drop, K: Kind> NamedConceptMgmt for Storage<T, K> {
    type Configuration = Configuration<T>;

    type Names = Registry<T>;

    ghost paths = { λ reg. keys_of reg.names };

    ghost shown_name = { extracted_name_at };

    ghost goes_with = { goes_with };

    ghost removed = { after_name_removal };

    ghost lists_first = { false };

    ghost KeepsOpen = { KeepsHandles };

    fn remove_cfg(
        _alloc: Global,
        reg: &mut Registry<T>,
        name: &FileName,
        cfg: &Configuration<T>,
    ) -> Result<bool, NamedConceptRemoveError> {
        Ok(reg.remove(name, cfg))
    }

    fn does_exist_cfg(
        reg: &Registry<T>,
        name: &FileName,
        cfg: &Configuration<T>,
    ) -> Result<bool, NamedConceptDoesExistError> {
        Ok(reg.has_name(name, cfg))
    }

    fn list_cfg(
        alloc: Global,
        reg: &Registry<T>,
        cfg: &Configuration<T>,
    ) -> Result<Vec<FileName>, NamedConceptListError> {
        reg.list(alloc, cfg)
            .map_err(|_| NamedConceptListError::NoMemory)
    }

    fn remove_path_hint(_value: &Path) -> Result<(), NamedConceptPathHintRemoveError> {
        Ok(())
    }

    ghost shown_goes = { λ settings path name shown. is_name-same name (extracted_name_at settings path) shown };
}

impl<T: NamedType + Debug + Drop, K: Kind> DynamicStorage<T> for Storage<T, K> {
    type Builder = Builder<T, K>;

    ghost handle = { λ s. s.handle };

    ghost checks_version = { K.checks_version };

    fn does_support_persistency() -> bool {
        true
    }

    fn has_ownership(&self) -> bool {
        self.handle.is_owner
    }

    fn acquire_ownership(&mut self) {
        self.handle.is_owner = true;
    }

    fn release_ownership(&mut self) {
        self.handle.is_owner = false;
    }

    fn get<'r>(&self, reg: &'r Registry<T>) -> &'r T {
        reg.get(&self.handle)
    }

    fn get_mut<'r>(reg: &'r mut Registry<T>, storage: &Self) -> &'r mut T {
        reg.get_mut(&storage.handle)
    }

    fn close(self, reg: &mut Registry<T>) {
        reg.close(&self.handle);
    }

    fn remove_name(reg: &mut Registry<T>, name: &FileName, cfg: &Configuration<T>) -> bool {
        reg.remove(name, cfg)
    }

    ghost paths_are_names = { refl };

    ghost shows = { refl };

    ghost goes = { refl };

    ghost removes = { refl };

    ghost keeps_open = { λ old new keeps. keeps };

    ghost lists_nothing_first = { refl };

    ghost suffix = { refl };

    ghost typed = { refl };
}
