//! A dynamic storage holds a value of one type in a registry, under a name. Whoever creates it owns the name; whoever
//! knows the name can open it, and the value stays while anybody holds it, unless it is refused when its making is
//! finished.
//!
//! The layer above may rely on this: each call changes the name and the entry that it is about and no other, a refused
//! call leaves the registry as it was, and the value that is read is the one that was last written. Each call says
//! which open handles keep their entry: all of them, but for the one that closes, and for those on an entry that is
//! refused when its making is finished.
//!
//! Ported from `dynamic_storage/mod.rs` of iceoryx2-cal 0.9.3.
ghost use Rattle.std.specs.Prelude.{◌≡◌, ◌≤◌, ◌^◌, ℕ, Bool, true, false, List, Some, None, codes, length, IfSome, IfNone, IfOk, IfErr, OnOk, OnErr};
ghost use Rattle.std.specs.Borrow.{sem};
ghost use Rattle.std.specs.Result.{result_err};
ghost use Rattle.std.specs.Map.{keys_of};
ghost use Rattle.cal_alloc.specs.Limits.{max_memory_size};
ghost use Rattle.cal_names.specs.ConceptSettings.{extracted_name_at};
ghost use Rattle.cal_names.specs.FilePath.{IsFilePath};
ghost use Rattle.cal_storage.specs.Contents.{Contents, Handle, Has, id_at, value_of, value_at, new_handle, found_handle, after_opening, after_close};
ghost use Rattle.cal_storage.specs.Holding.{Holds, IsNamed, KeepsHandles, KeepsOtherHandles, LeavesSharers, JoinsHandles};
ghost use Rattle.cal_storage.specs.Initializer.{MayInitialize};
ghost use Rattle.cal_storage.specs.Managing.{goes_with};
ghost use Rattle.cal_storage.specs.Plan.{path_of, default_options};
ghost use Rattle.cal_storage.specs.Refusals.{open_refusal, create_refusal, open_or_create_refusal, has_name, after_name_removal};
ghost use Rattle.cal_storage.specs.RegistryCalls.{Creates, CreateFails, OpenOrCreateFails};
ghost use Rattle.cal_storage.specs.RegistryLends.{LendsValue};
ghost use Rattle.cal_storage.specs.Soundness.{IsSound};

pub mod builder;
pub mod configuration;
mod errors;
pub mod file;
mod options;
pub mod process_local;
pub mod storage;

use crate::access_mode::AccessMode;
use crate::registry::Registry;
use cal_alloc::BumpAllocator;
use cal_names::{FileName, NamedConcept, NamedConceptBuilder, NamedConceptMgmt, NamedType};
pub use errors::{
    DynamicStorageCreateError, DynamicStorageOpenError, DynamicStorageOpenOrCreateError,
};
pub use options::StorageOptions;
use std::fmt::Debug;

/// A builder of storages: their name and configuration, whether a new one owns its name, and the room in bytes that its
/// initializer has beside the value.
pub trait DynamicStorageBuilder<T: NamedType, D: DynamicStorage<T>>: Debug
    + Drop
    + NamedConceptBuilder<D, Options = StorageOptions> {
    /// Has no effect: a value ends with its entry, and is dropped then.
    fn call_drop_on_destruction(self, value: bool) -> Self
        ensures plan { Self.plan result ≡ Self.plan self };

    /// Whether the storage that is created owns its name; true by default.
    fn has_ownership(self, value: bool) -> Self
        ensures plan { Self.plan result ≡ record (Self.plan self) {
          options = record (Self.plan self).options { is_owner = value };
        } };

    /// The room in bytes that the initializer's allocator has; 0 by default.
    fn supplementary_size(self, value: usize) -> Self
        requires { value ≤ max_memory_size }
        ensures plan { Self.plan result ≡ record (Self.plan self) {
          options = record (Self.plan self).options { room = value };
        } };

    /// Has no effect: an opening looks once, since nobody else acts on the registry while it is lent.
    fn timeout(self, turns: usize) -> Self
        ensures plan { Self.plan result ≡ Self.plan self };

    /// Creates the storage of this name. The initializer may be called only where the creation isn't refused for its
    /// path, on the value and an allocator over the room; the storage has the value that it leaves. Where it answers
    /// false the value is dropped.
    fn create<F: FnMut(&mut T, &mut BumpAllocator) -> bool + Drop>(
        self,
        reg: &mut Registry<T>,
        initial_value: T,
        initializer: F,
    ) -> Result<D, DynamicStorageCreateError>
        requires { create_refusal reg.old (Self.plan self) ≡ None →
            MayInitialize F.FnMut initializer initial_value (Self.plan self).options.room }
        ensures refused { IfSome (create_refusal reg.old (Self.plan self)) (λ error. result ≡ Err error) }
        ensures error { IfErr result (CreateFails F.FnMut (create_refusal reg.old (Self.plan self))
            initializer initial_value (Self.plan self).options.room) }
        ensures created { OnOk result (Creates F.FnMut initializer initial_value (Self.plan self).options.room
            reg.old (path_of (Self.plan self)) reg.new) }
        ensures path { OnOk result (IsFilePath (path_of (Self.plan self))) }
        ensures handle { IfOk result (λ storage. D.handle storage
            ≡ new_handle reg.old (path_of (Self.plan self)) (Self.plan self).options.is_owner) }
        ensures name { IfOk result (λ storage. D.concept_name storage ≡ (Self.plan self).name) }
        ensures holds { IfOk result (λ storage. Holds reg.new 1 (D.handle storage)) }
        ensures named { IfOk result (λ storage. IsNamed reg.new (D.handle storage)) }
        ensures keeps { KeepsHandles reg.old reg.new }
        ensures sound { IsSound reg.old }
        ensures unchanged { OnErr result (reg.new ≡ reg.old) };

    /// Opens the storage of this name, which is held once more then. What is opened doesn't own the name. Takes no
    /// memory.
    fn open(
        self,
        reg: &mut Registry<T>,
        access_mode: AccessMode,
    ) -> Result<D, DynamicStorageOpenError>
        ensures refused { result_err result ≡ open_refusal D.checks_version reg.old (Self.plan self) }
        ensures found { IfOk result (λ storage. id_at reg.old (path_of (Self.plan self)) ≡ Some (D.handle storage).id) }
        ensures handle { IfOk result (λ storage.
            D.handle storage ≡ found_handle (path_of (Self.plan self)) (D.handle storage).id) }
        ensures opened { IfOk result (λ storage. reg.new ≡ after_opening reg.old (D.handle storage).id) }
        ensures name { IfOk result (λ storage. D.concept_name storage ≡ (Self.plan self).name) }
        ensures holds { IfOk result (λ storage. Holds reg.new 1 (D.handle storage)) }
        ensures joins { IfOk result (λ storage. JoinsHandles reg.old reg.new (D.handle storage)) }
        ensures keeps { KeepsHandles reg.old reg.new }
        ensures sound { IsSound reg.old }
        ensures unchanged { OnErr result (reg.new ≡ reg.old) };

    /// The value that `open` would open, or why it would be refused. Nothing is opened.
    fn peek<'r>(&self, reg: &'r Registry<T>) -> Result<&'r T, DynamicStorageOpenError>
        ensures refused { result_err result ≡ open_refusal D.checks_version reg.now (Self.plan self.now) }
        ensures value { IfOk result (λ value. Some value.now ≡ value_at reg.now (path_of (Self.plan self.now))) };

    /// Opens the storage of this name, and creates it where its path stands for nothing. The initializer may be called
    /// only then.
    fn open_or_create<F: FnMut(&mut T, &mut BumpAllocator) -> bool + Drop>(
        self,
        reg: &mut Registry<T>,
        initial_value: T,
        initializer: F,
    ) -> Result<D, DynamicStorageOpenOrCreateError>
        requires { create_refusal reg.old (Self.plan self) ≡ None →
            MayInitialize F.FnMut initializer initial_value (Self.plan self).options.room }
        ensures refused { IfSome (open_or_create_refusal D.checks_version reg.old (Self.plan self))
            (λ error. result ≡ Err (DynamicStorageOpenOrCreateError.DynamicStorageOpenError error)) }
        ensures error { IfErr result (OpenOrCreateFails F.FnMut
            (open_or_create_refusal D.checks_version reg.old (Self.plan self))
            (id_at reg.old (path_of (Self.plan self)))
            initializer initial_value (Self.plan self).options.room) }
        ensures opened { IfOk result (λ storage. IfSome (id_at reg.old (path_of (Self.plan self))) (λ id.
            (reg.new ≡ after_opening reg.old id) × (D.handle storage ≡ found_handle (path_of (Self.plan self)) id))) }
        ensures created { IfOk result (λ storage. IfNone (id_at reg.old (path_of (Self.plan self)))
            (Creates F.FnMut initializer initial_value (Self.plan self).options.room
            reg.old (path_of (Self.plan self)) reg.new
            × (D.handle storage
            ≡ new_handle reg.old (path_of (Self.plan self)) (Self.plan self).options.is_owner))) }
        ensures name { IfOk result (λ storage. D.concept_name storage ≡ (Self.plan self).name) }
        ensures holds { IfOk result (λ storage. Holds reg.new 1 (D.handle storage)) }
        ensures named { IfOk result (λ storage. IsNamed reg.new (D.handle storage)) }
        ensures joins { IfOk result (λ storage. JoinsHandles reg.old reg.new (D.handle storage)) }
        ensures keeps { KeepsHandles reg.old reg.new }
        ensures sound { IsSound reg.old }
        ensures unchanged { OnErr result (reg.new ≡ reg.old) };

    // What a new builder has been told.
    ghost defaults: { Self.default_options ≡ default_options };
}

/// A storage: it holds the entry of its name.
pub trait DynamicStorage<T: NamedType>: Debug
    + Drop
    + NamedConcept
    + NamedConceptMgmt<Names = Registry<T>> {
    type Builder: DynamicStorageBuilder<T, Self>;

    // The entry that the storage holds, and whether it owns its name.
    ghost handle: { Self → Handle };

    // Whether an opening looks at the version of an entry.
    ghost checks_version: { Bool };

    /// Whether a value can stay without a storage that holds it.
    fn does_support_persistency() -> bool
        ensures always { result ≡ true };

    /// The suffix of a storage's path.
    fn default_suffix() -> FileName
        ensures suffix { result ≡ codes ".dyn" }
    {
        FileName::new(b".dyn").unwrap()
    }

    /// Whether closing the storage takes the name away.
    fn has_ownership(&self) -> bool
        ensures owner { result ≡ (handle self.now).is_owner };

    /// From now on closing the storage takes the name away.
    fn acquire_ownership(&mut self)
        ensures handle { handle self.new ≡ record (handle self.old) { is_owner = true } }
        ensures name { Self.concept_name self.new ≡ Self.concept_name self.old };

    /// From now on closing the storage leaves the name.
    fn release_ownership(&mut self)
        ensures handle { handle self.new ≡ record (handle self.old) { is_owner = false } }
        ensures name { Self.concept_name self.new ≡ Self.concept_name self.old };

    /// The value.
    fn get<'r>(&self, reg: &'r Registry<T>) -> &'r T
        requires { Has reg.now (handle self.now) }
        ensures value { Some result.now ≡ value_of reg.now (handle self.now).id };

    /// The value, to be written. The registry comes first, since it is what lends.
    fn get_mut<'r>(reg: &'r mut Registry<T>, storage: &Self) -> &'r mut T
        requires { Has reg.old (handle storage.now) }
        ensures* writes_back { sem 𝓛 (LendsValue T.row reg.entry (handle storage.now).id result) }
        ensures value { Some result.now ≡ value_of reg.old (handle storage.now).id };

    /// Ends the storage: the entry is held once less, and the name goes where the storage owns it and it still stands
    /// for the entry. The value is dropped where neither a holder nor a name is left.
    fn close(self, reg: &mut Registry<T>)
        requires { Has reg.old (handle self) }
        ensures closed { reg.new ≡ after_close reg.old (handle self) }
        ensures keeps_others { KeepsOtherHandles reg.old reg.new (handle self).id }
        ensures leaves_sharers { LeavesSharers reg.old reg.new (handle self).id }
        ensures sound { IsSound reg.old };

    /// Removes the storage of this name, as `remove_cfg` does, and answers whether it was there. Since nothing is
    /// listed first, it takes no memory.
    fn remove_name(reg: &mut Registry<T>, name: &FileName, cfg: &Self::Configuration) -> bool
        ensures found { result ≡ has_name (Self.Configuration.settings cfg.now) name.now reg.old }
        ensures removed { reg.new ≡ after_name_removal (Self.Configuration.settings cfg.now) name.now reg.old }
        ensures keeps { KeepsHandles reg.old reg.new }
        ensures sound { IsSound reg.old };

    // How the management of named concepts is meant: the paths are the registry's names, a path stands for the storage
    // whose name is extracted from it, and a removal takes this path alone.
    ghost paths_are_names: { Self.paths ≡ (λ (reg : Contents T). keys_of reg.names) };

    ghost shows: { Self.shown_name ≡ extracted_name_at };

    ghost goes: { Self.goes_with ≡ goes_with };

    ghost removes: { Self.removed ≡ after_name_removal };

    ghost keeps_open: { (old new : Contents T) → Self.KeepsOpen old new → KeepsHandles old new };

    ghost lists_nothing_first: { Self.lists_first ≡ false };

    // The suffix and the type name of the default configuration.
    ghost suffix: { Self.Configuration.initial.suffix ≡ codes ".dyn" };

    ghost typed: { Self.Configuration.initial.type_name ≡ Some T.name };
}
