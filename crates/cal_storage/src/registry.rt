//! The registry of all stored values of one type: names, which are paths that stand for entries, and the entries by
//! their ids. An id is an index in a vector that only grows, so it is never used again. The layer above may rely on
//! each call changing the name and the entry that it is about, and no other, and on an entry staying while somebody
//! holds it.
ghost use Rattle.std.specs.Prelude.{◌≡◌, ◌<◌, ◌≤◌, ◌^◌, ℕ, Bool, List, not, Some, None, length, vec_len, vec_capacity, is_some, IsSomeAnd, IfSome, IsSome, IsOk, IfOk, IfErr, OnOk, OnErr, IsErrOf, ◌↔◌, ◌⊎◌, slice_index_or, if◌then◌else◌};
ghost use Rattle.std.specs.Borrow.{sem};
ghost use Rattle.std.specs.Option.{option_copied};
ghost use Rattle.std.specs.Result.{result_err};
ghost use Rattle.std.specs.List.{filter, filter_map, list_any};
ghost use Rattle.std.specs.Map.{lookup, keys_of, remove_entry};
ghost use Rattle.std.specs.Ordering.{nat_cmp};
ghost use Rattle.std.specs.BTreeMap.{insert_entry};
ghost use Rattle.std.specs.Cmp.Lexicographic.{slice_cmp};
ghost use Rattle.cal_names.specs.FilePath.{IsFilePath};
ghost use Rattle.cal_names.specs.ConceptSettings.{file_name_for, file_path_for, extracted_name_at};
ghost use Rattle.cal_alloc.specs.Limits.{max_memory_size};
ghost use Rattle.cal_storage.specs.Contents.{is_id, is_path, Has, nothing_registered, id_at, entry_at, entry_of, value_of, value_at, after_creation, after_opening, after_close, with_version};
ghost use Rattle.cal_storage.specs.Holding.{KeepsHandles};
ghost use Rattle.cal_storage.specs.Managing.{goes_with};
ghost use Rattle.cal_storage.specs.Soundness.{IsSound};
ghost use Rattle.cal_storage.specs.Initializer.{MayInitialize, Initializes};
ghost use Rattle.cal_storage.specs.Refusals.{entry_refusal, has_name, after_name_removal};
ghost use Rattle.cal_storage.specs.RegistryCalls.{Creates, CreateFails, FinishesEntry};
ghost use Rattle.cal_storage.specs.RegistryLends.{LendsValue};
ghost use Rattle.cal_storage.specs.SlotsLend.{LendsSlot};
ghost use Rattle.cal_storage.specs.declared.entry.Slot.TheVariants.{Ended};
ghost use Rattle.cal_storage.specs.declared.dynamic_storage.errors.DynamicStorageCreateError.TheVariants.{AlreadyExists, NoMemory};

use crate::dynamic_storage::{DynamicStorageCreateError, DynamicStorageOpenError};
use crate::entry::{Entry, FINISHED_VERSION, Slot};
use crate::handle::Handle;
use crate::initialize::initialize;
use cal_alloc::BumpAllocator;
use cal_names::{FileName, FilePath, NamedConceptConfiguration, PathTooLong};
use std::alloc::{AllocError, Global};
use std::collections::BTreeMap;
use std::marker::Model;

/// A finite map from paths to ids, and from ids to entries.
#[derive(Debug, Drop)]
pub struct Registry<T> {
    /// What all memory is taken from.
    alloc: Global,
    /// The ids for which the paths stand, each below the number of slots.
    names: BTreeMap<FilePath, usize>,
    /// A slot for each id that was ever made, at the id.
    slots: Vec<Slot<T>>,
}

impl<T> Model for Registry<T> {
    ghost use Rattle.cal_storage.specs.Contents.{Contents};
    ghost use Rattle.cal_storage.specs.Soundness.{IsSound};

    ghost Value = { Contents T };

    ghost view = { λ r. record { names = r.names.entries; slots = r.slots.items } };

    ghost invariant = { λ r. IsSound {T = T} (record { names = r.names.entries; slots = r.slots.items }) };
}

impl<T> Registry<T> {
    /// A registry without names and ids.
    pub fn new(alloc: Global) -> Self
        ensures empty { result ≡ nothing_registered }
    {
        Registry {
            alloc,
            names: BTreeMap::new(alloc),
            slots: Vec::new(alloc),
        }
    }

    /// The number of names.
    pub fn len(&self) -> usize
        ensures count { result ≡ length self.now.names }
        ensures sound { IsSound self.now }
    {
        self.names.len()
    }

    /// Whether a path stands for an entry.
    pub fn contains(&self, path: &FilePath) -> bool
        ensures found { result ≡ is_some (id_at self.now path.now) }
    {
        self.names.contains_key(path)
    }

    /// Gives the entry for which a path stands another version, and answers whether there is one. For tests of entries
    /// that are half made, and of such that another version of this crate made.
    pub fn set_version(&mut self, path: &FilePath, version: u64) -> bool
        ensures found { result ≡ is_some (id_at self.old path.now) }
        ensures set { self.new ≡ with_version self.old path.now version }
        ensures keeps { KeepsHandles self.old self.new }
    {
        match self.id_at(path) {
            None => false,
            Some(id) => {
                slot_mut(&mut self.slots, id).set_version(version);
                true
            }
        }
    }

    /// The path of a name.
    pub(crate) fn path_for<C: NamedConceptConfiguration>(
        &self,
        name: &FileName,
        config: &C,
    ) -> Result<FilePath, PathTooLong>
        ensures fits { IsOk result ↔ (length (file_name_for (C.settings config.now) name.now) ≤ 255) }
        ensures rule { IfOk result IsFilePath }
        ensures path { IfOk result (λ path. path ≡ file_path_for (C.settings config.now) name.now) }
        ensures sound { IsSound self.now }
    {
        let _names = &self.names;
        config.path_for(name)
    }

    /// Whether a name is there: whether a path is listed that goes with it, which is whether its path fits and stands
    /// for an entry.
    pub fn has_name<C: NamedConceptConfiguration>(&self, name: &FileName, config: &C) -> bool
        ensures found { result ≡ list_any (goes_with (C.settings config.now) name.now) (keys_of self.now.names) }
        ensures named { result ≡ has_name (C.settings config.now) name.now self.now }
    {
        let names = &self.names;
        match config.path_for(name) {
            Ok(path) => names.contains_key(&path),
            Err(_) => false,
        }
    }

    /// The names that a configuration extracts from the paths, in the order of the paths' bytes.
    pub(crate) fn list<C: NamedConceptConfiguration>(
        &self,
        alloc: Global,
        config: &C,
    ) -> Result<Vec<FileName>, AllocError>
        ensures names { IfOk result (λ list.
            list.items ≡ filter_map (extracted_name_at (C.settings config.now)) (keys_of self.now.names)) }
        ensures sound { IsSound self.now }
    {
        self.names
            .keys()
            .filter_map(|path| config.extract_name_from_path(path))
            .collect(alloc)
    }

    /// The value for which a path stands, where it can be opened.
    pub(crate) fn peek(
        &self,
        path: &FilePath,
        checks_version: bool,
    ) -> Result<&T, DynamicStorageOpenError>
        ensures refused { result_err result ≡ entry_refusal checks_version (entry_at self.now path.now) }
        ensures value { IfOk result (λ value. Some value.now ≡ value_at self.now path.now) }
    {
        let id = self
            .id_at(path)
            .ok_or(DynamicStorageOpenError::DoesNotExist)?;
        let slot = &self.slots[id];
        if checks_version {
            slot.check_version()?;
        }
        Ok(slot.value())
    }

    /// The value of an entry.
    pub(crate) fn get(&self, handle: &Handle) -> &T
        requires { Has self.now handle.now }
        ensures { Some result.now ≡ value_of self.now handle.now.id }
    {
        self.slots[handle.id].value()
    }

    /// The value of an entry, to be written.
    pub(crate) fn get_mut(&mut self, handle: &Handle) -> &mut T
        requires { Has self.old handle.now }
        ensures* writes_back { sem 𝓛 (LendsValue T.row self.entry handle.now.id result) }
        ensures value { Some result.now ≡ value_of self.old handle.now.id }
    {
        slot_mut(&mut self.slots, handle.id).value_mut()
    }

    /// The id for which a path stands. Its entry is there, and was made under the path.
    fn id_at(&self, path: &FilePath) -> Option<usize>
        ensures id { result ≡ id_at self.now path.now }
        ensures there { IfSome result (λ id. id < length self.now.slots) }
        ensures made { IfSome result (λ id. IsSomeAnd (entry_of self.now id) (λ entry. entry.path ≡ path.now)) }
    {
        self.names.get(path).copied()
    }

    /// Opens the entry for which a path stands: it has one holder more.
    pub(crate) fn open(
        &mut self,
        path: &FilePath,
        checks_version: bool,
    ) -> Result<usize, DynamicStorageOpenError>
        ensures refused { result_err result ≡ entry_refusal checks_version (entry_at self.old path.now) }
        ensures id { IfOk result (λ id. id_at self.old path.now ≡ Some id) }
        ensures opened { IfOk result (λ id. self.new ≡ after_opening self.old id) }
        ensures sound { IsSound self.old }
        ensures unchanged { OnErr result (self.new ≡ self.old) }
    {
        let id = self
            .id_at(path)
            .ok_or(DynamicStorageOpenError::DoesNotExist)?;
        let slot = slot_mut(&mut self.slots, id);
        if checks_version {
            slot.check_version()?;
        }
        slot.hold();
        Ok(id)
    }
}

impl<T: Drop> Registry<T> {
    /// Enters a path with a value that the initializer was called on. Where it answers false, the value is dropped and
    /// nothing is entered.
    pub(crate) fn create<F: FnMut(&mut T, &mut BumpAllocator) -> bool + Drop>(
        &mut self,
        path: &FilePath,
        initial_value: T,
        room: usize,
        initializer: F,
    ) -> Result<usize, DynamicStorageCreateError>
        requires path { IsFilePath path.now }
        requires callable { id_at self.old path.now ≡ None → MayInitialize F.FnMut initializer initial_value room }
        requires room { room ≤ max_memory_size }
        ensures exists { IsErrOf result AlreadyExists ↔ IsSome (id_at self.old path.now) }
        ensures error { IfErr result (CreateFails F.FnMut (Some AlreadyExists) initializer initial_value room) }
        ensures id { IfOk result (λ id. id ≡ length self.old.slots) }
        ensures created { OnOk result (Creates F.FnMut initializer initial_value room self.old path.now self.new) }
        ensures sound { IsSound self.old }
        ensures unchanged { OnErr result (self.new ≡ self.old) }
    {
        let mut value = initial_value;
        let id = enter_name(&mut self.names, &mut self.slots, path)?;
        if !initialize(self.alloc, &mut value, room, initializer) {
            self.names.remove(path);
            return Err(DynamicStorageCreateError::InitializationFailed);
        }
        self.slots.push_reserved(Slot::Kept(Entry {
            path: *path,
            value,
            version: FINISHED_VERSION,
            holders: 1,
        }));
        Ok(id)
    }

    /// Enters a path with a value that is still being made.
    pub(crate) fn begin(
        &mut self,
        path: &FilePath,
        value: T,
    ) -> Result<usize, DynamicStorageCreateError>
        requires { IsFilePath path.now }
        ensures exists { IsErrOf result AlreadyExists ↔ IsSome (id_at self.old path.now) }
        ensures error { IfErr result (λ error. (error ≡ AlreadyExists) ⊎ (error ≡ NoMemory)) }
        ensures id { IfOk result (λ id. id ≡ length self.old.slots) }
        ensures begun { OnOk result (self.new ≡ after_creation self.old path.now value 0) }
        ensures sound { IsSound self.old }
        ensures unchanged { OnErr result (self.new ≡ self.old) }
    {
        let id = enter_name(&mut self.names, &mut self.slots, path)?;
        self.slots.push_reserved(Slot::Kept(Entry {
            path: *path,
            value,
            version: 0,
            holders: 1,
        }));
        Ok(id)
    }

    /// Finishes an entry: calls the initializer on its value. Where it answers false, the entry ends, and its name goes
    /// where it still stands for it. Takes no memory.
    pub(crate) fn finish<F: FnMut(&mut T, &mut BumpAllocator) -> bool + Drop>(
        &mut self,
        handle: &Handle,
        room: usize,
        initializer: F,
    ) -> bool
        requires there { Has self.old handle.now }
        requires callable { IfSome (value_of self.old handle.now.id)
            (λ value. MayInitialize F.FnMut initializer value room) }
        requires room { room ≤ max_memory_size }
        ensures finished { FinishesEntry F.FnMut initializer room self.old handle.now result self.new }
        ensures sound { IsSound self.old }
    {
        let alloc = self.alloc;
        let slot = slot_mut(&mut self.slots, handle.id);
        if slot.finish(alloc, room, initializer) {
            return true;
        }
        *slot = Slot::Ended;
        let is_named = is_id(self.names.get(&handle.path).copied(), handle.id);
        take_name(&mut self.names, &handle.path, is_named);
        false
    }

    /// Takes a name away, and answers whether it was there; not where its path would be too long. Its entry stays while
    /// somebody holds it.
    pub(crate) fn remove<C: NamedConceptConfiguration>(
        &mut self,
        name: &FileName,
        config: &C,
    ) -> bool
        ensures found { result ≡ list_any (goes_with (C.settings config.now) name.now) (keys_of self.old.names) }
        ensures named { result ≡ has_name (C.settings config.now) name.now self.old }
        ensures gone { let goes : List ℕ → Bool = goes_with (C.settings config.now) name.now in
            keys_of self.new.names ≡ filter (λ path. not (goes path)) (keys_of self.old.names) }
        ensures removed { self.new ≡ after_name_removal (C.settings config.now) name.now self.old }
        ensures keeps { KeepsHandles self.old self.new }
        ensures sound { IsSound self.old }
    {
        let names = &mut self.names;
        let Ok(path) = config.path_for(name) else {
            return false;
        };
        match names.remove(&path) {
            None => false,
            Some(id) => {
                slot_mut(&mut self.slots, id).end_if_left(false);
                true
            }
        }
    }

    /// Closes an entry: it has one holder less, and the name of an owner goes where it still stands for the entry. The
    /// entry stays while a holder or a name is left.
    pub(crate) fn close(&mut self, handle: &Handle)
        requires { Has self.old handle.now }
        ensures closed { self.new ≡ after_close self.old handle.now }
        ensures sound { IsSound self.old }
    {
        let is_named = is_id(self.id_at(&handle.path), handle.id);
        take_name(&mut self.names, &handle.path, is_named && handle.is_owner);
        let slot = slot_mut(&mut self.slots, handle.id);
        slot.let_go();
        slot.end_if_left(is_named && !handle.is_owner);
    }
}

/// Whether there is an id, and it is this one.
fn is_id(found: Option<usize>, id: usize) -> bool
    ensures { result ≡ is_id found id }
{
    match found {
        None => false,
        Some(other) => other == id,
    }
}

/// Takes a path away, if it is to go.
fn take_name(names: &mut BTreeMap<FilePath, usize>, path: &FilePath, goes: bool)
    ensures { names.new.entries ≡
        (if goes then remove_entry (is_path path.now) names.old.entries else names.old.entries) }
{
    if goes {
        names.remove(path);
    }
}

/// The slot of an id, to be changed.
fn slot_mut<T>(slots: &mut Vec<Slot<T>>, id: usize) -> &mut Slot<T>
    requires { id < length slots.old.items }
    ensures* writes_back { sem 𝓛 (LendsSlot T.row slots.entry id result) }
    ensures value { result.now ≡ slice_index_or slots.old.items id Ended }
{
    &mut slots[id]
}

/// Takes the room for one more entry, and lets the path stand for its id.
fn enter_name<T>(
    names: &mut BTreeMap<FilePath, usize>,
    slots: &mut Vec<Slot<T>>,
    path: &FilePath,
) -> Result<usize, DynamicStorageCreateError>
    ensures exists { IsErrOf result AlreadyExists ↔ IsSome (lookup (is_path path.now) names.old.entries) }
    ensures error { IfErr result (λ error. (error ≡ AlreadyExists) ⊎ (error ≡ NoMemory)) }
    ensures id { IfOk result (λ id. id ≡ length slots.old.items) }
    ensures free { OnOk result (lookup (is_path path.now) names.old.entries ≡ None) }
    ensures entered { OnOk result (names.new.entries
        ≡ insert_entry (slice_cmp nat_cmp) names.old.entries path.now (length slots.old.items)) }
    ensures room { OnOk result (vec_len slots.new < vec_capacity slots.new) }
    ensures slots { slots.new.items ≡ slots.old.items }
    ensures unchanged { OnErr result (names.new.entries ≡ names.old.entries) }
{
    if names.contains_key(path) {
        return Err(DynamicStorageCreateError::AlreadyExists);
    }
    let id = slots.len();
    slots
        .reserve(1)
        .map_err(|_| DynamicStorageCreateError::NoMemory)?;
    names
        .insert(*path, id)
        .map_err(|_| DynamicStorageCreateError::NoMemory)?;
    Ok(id)
}
