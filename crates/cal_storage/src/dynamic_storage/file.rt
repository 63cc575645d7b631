//! The storage that is made as a file is: an entry may be begun and finished later, and an opening looks at its
//! version. Ported from `dynamic_storage/file.rs` of iceoryx2-cal 0.9.3.
ghost use Rattle.std.specs.Prelude.{◌≡◌, ◌⊎◌, true, Some, IfOk, IfErr, IfSome, OnOk, OnErr};
ghost use Rattle.cal_storage.specs.Plan.{path_of};
ghost use Rattle.cal_storage.specs.Contents.{new_handle, after_creation};
ghost use Rattle.cal_names.specs.FilePath.{IsFilePath};
ghost use Rattle.cal_storage.specs.Holding.{Holds, IsNamed, KeepsHandles};
ghost use Rattle.cal_storage.specs.Refusals.{create_refusal};
ghost use Rattle.cal_storage.specs.Soundness.{IsSound};

pub mod staged;

use crate::dynamic_storage::{DynamicStorageCreateError, builder, configuration, storage};
use crate::handle::Handle;
use crate::registry::Registry;
use cal_names::NamedType;
pub use staged::Staged;
use std::fmt::Debug;

/// The configuration of a file storage.
pub type Configuration<T> = configuration::Configuration<T>;

/// The builder of a file storage.
pub type Builder<T> = builder::Builder<T, File>;

/// A file storage.
pub type Storage<T> = storage::Storage<T, File>;

/// The kind of file storages.
#[derive(Debug)]
pub struct File;

impl storage::Kind for File {
    ghost checks_version = { true };

    fn checks_version() -> bool {
        true
    }
}

impl<T: NamedType + Debug + Drop> builder::Builder<T, File> {
    /// Begins the storage of this name: its entry is there, but isn't opened until it is finished. What is given back
    /// is its one holder.
    pub fn begin(
        self,
        reg: &mut Registry<T>,
        initial_value: T,
    ) -> Result<Staged<T>, DynamicStorageCreateError>
        ensures refused { IfSome (create_refusal reg.old self) (λ error. result ≡ Err error) }
        ensures error { IfErr result (λ error. (create_refusal reg.old self ≡ Some error)
            ⊎ (error ≡ DynamicStorageCreateError.NoMemory)) }
        ensures begun { OnOk result (reg.new ≡ after_creation reg.old (path_of self) initial_value 0) }
        ensures name { IfOk result (λ staged. staged.name ≡ self.name) }
        ensures handle { IfOk result (λ staged.
            staged.handle ≡ new_handle reg.old (path_of self) self.options.is_owner) }
        ensures room { IfOk result (λ staged. staged.room ≡ self.options.room) }
        ensures path { OnOk result (IsFilePath (path_of self)) }
        ensures holds { IfOk result (λ staged. Holds reg.new 1 staged.handle) }
        ensures named { IfOk result (λ staged. IsNamed reg.new staged.handle) }
        ensures keeps { KeepsHandles reg.old reg.new }
        ensures sound { IsSound reg.old }
        ensures unchanged { OnErr result (reg.new ≡ reg.old) }
    {
        let Ok(path) = reg.path_for(&self.name, &self.config) else {
            return Err(DynamicStorageCreateError::PathTooLong);
        };
        let id = reg.begin(&path, initial_value)?;
        let handle = Handle {
            id,
            path,
            is_owner: self.options.is_owner,
        };
        Ok(Staged::new(self.name, handle, self.options.room))
    }
}
