//! Named concepts: what has a file name as its name and stands under a path. A configuration makes
//! the path of a name and extracts the name again, and the registry holds the paths. Everything
//! that is stored or connected implements these traits.
//!
//! Ported from `named_concept.rs` of iceoryx2-cal 0.9.3.
ghost use Rattle.std.specs.Prelude.{◌≡◌, ◌≤◌, ◌↔◌, ℕ, Bool, not, List, Option, Some, true, length, codes, IsOk, IfOk, IfErr, OnOk, OnErr, IfSome, IsTrue};
ghost use Rattle.std.specs.List.{list_any, filter, filter_map};
ghost use Rattle.std.specs.List.Sorted.{IsStrictlySortedBy};
ghost use Rattle.std.specs.Cmp.Lexicographic.{slice_cmp};
ghost use Rattle.std.specs.Ordering.{nat_cmp};
ghost use Rattle.cal_names.specs.FileName.{IsFileName};
ghost use Rattle.cal_names.specs.FilePath.{IsFilePath, path_part, file_name_part};
ghost use Rattle.cal_names.specs.ConceptSettings.{ConceptSettings, parts_of, with_parts, file_name_for, file_path_for, extracted_name, extracted_name_at};
ghost use Rattle.cal_names.specs.Plan.{Plan};
ghost use Rattle.cal_names.specs.NamedConceptMgmt.{is_name};

use crate::file_name::FileName;
use crate::file_path::FilePath;
use crate::name_paths::{name_of_file, path_of_name};
use crate::path::Path;
use crate::path_parts::PathParts;
use crate::path_too_long::PathTooLong;
use crate::type_name::TypeName;
use std::alloc::Global;
use std::fmt::Debug;
use thiserror::Error;

/// Why it isn't known whether a concept exists. No call answers any of these; the crate's names are
/// kept.
#[derive(Debug, Clone, Copy, PartialEq, Eq, Hash, Error)]
pub enum NamedConceptDoesExistError {
    #[error("NamedConceptDoesExistError::InsufficientPermissions")]
    InsufficientPermissions,
    #[error("NamedConceptDoesExistError::UnderlyingResourcesBeingSetUp")]
    UnderlyingResourcesBeingSetUp,
    #[error("NamedConceptDoesExistError::UnderlyingResourcesCorrupted")]
    UnderlyingResourcesCorrupted,
    #[error("NamedConceptDoesExistError::InternalError")]
    InternalError,
}

/// Why a concept wasn't removed.
#[derive(Debug, Clone, Copy, PartialEq, Eq, Hash, Error)]
pub enum NamedConceptRemoveError {
    /// Kept by name, and never answered.
    #[error("NamedConceptRemoveError::InsufficientPermissions")]
    InsufficientPermissions,
    /// Kept by name, and never answered.
    #[error("NamedConceptRemoveError::InternalError")]
    InternalError,
    /// There was no memory for the list of the paths, which one kind of concept makes first.
    /// Nothing has changed.
    #[error("NamedConceptRemoveError::NoMemory")]
    NoMemory,
}

/// Why concepts weren't listed.
#[derive(Debug, Clone, Copy, PartialEq, Eq, Hash, Error)]
pub enum NamedConceptListError {
    /// Kept by name, and never answered.
    #[error("NamedConceptListError::InsufficientPermissions")]
    InsufficientPermissions,
    /// Kept by name, and never answered.
    #[error("NamedConceptListError::InternalError")]
    InternalError,
    /// There was no memory for the list.
    #[error("NamedConceptListError::NoMemory")]
    NoMemory,
}

/// Why a path hint wasn't removed. No call answers any of these; the crate's names are kept.
#[derive(Debug, Clone, Copy, PartialEq, Eq, Hash, Error)]
pub enum NamedConceptPathHintRemoveError {
    #[error("NamedConceptPathHintRemoveError::InsufficientPermissions")]
    InsufficientPermissions,
    #[error("NamedConceptPathHintRemoveError::InternalError")]
    InternalError,
}

/// What a configuration of a concept holds: prefix, suffix and path hint, from which it makes the
/// path of a name.
pub trait NamedConceptConfiguration: Default + Clone + Copy + Debug {
    // What the configuration holds.
    ghost settings: { Self → ConceptSettings };

    // What the default configuration holds.
    ghost initial: { ConceptSettings };

    /// Prefix, suffix and path hint.
    fn parts(&self) -> &PathParts
        ensures parts { result.now ≡ parts_of (settings self.now) };

    /// The configuration with this prefix, suffix and path hint.
    fn with_parts(self, parts: PathParts) -> Self
        ensures settings { settings result ≡ with_parts (settings self) parts };

    /// The configuration with this prefix.
    fn prefix(self, value: &FileName) -> Self
        ensures settings { settings result ≡ record (settings self) { prefix = value.now } }
    {
        let parts = *self.parts();
        self.with_parts(PathParts {
            prefix: *value,
            ..parts
        })
    }

    /// The prefix.
    fn get_prefix(&self) -> &FileName
        ensures prefix { result.now ≡ (settings self.now).prefix }
    {
        &self.parts().prefix
    }

    /// The configuration with this suffix.
    fn suffix(self, value: &FileName) -> Self
        ensures settings { settings result ≡ record (settings self) { suffix = value.now } }
    {
        let parts = *self.parts();
        self.with_parts(PathParts {
            suffix: *value,
            ..parts
        })
    }

    /// The configuration with this path hint.
    fn path_hint(self, value: &Path) -> Self
        ensures settings { settings result ≡ record (settings self) { path_hint = value.now } }
    {
        let parts = *self.parts();
        self.with_parts(PathParts {
            path_hint: *value,
            ..parts
        })
    }

    /// The suffix.
    fn get_suffix(&self) -> &FileName
        ensures suffix { result.now ≡ (settings self.now).suffix }
    {
        &self.parts().suffix
    }

    /// The path hint.
    fn get_path_hint(&self) -> &Path
        ensures path_hint { result.now ≡ (settings self.now).path_hint }
    {
        &self.parts().path_hint
    }

    /// The type name whose hash stands between the prefix and the name: that of the stored type, or
    /// none where nothing is stored.
    fn get_type_name(&self) -> Option<TypeName>
        ensures type_name { result ≡ (settings self.now).type_name };

    /// The path that stands for a name.
    fn path_for(&self, value: &FileName) -> Result<FilePath, PathTooLong>
        ensures fits { IsOk result ↔ (length (file_name_for (settings self.now) value.now) ≤ 255) }
        ensures rule { IfOk result IsFilePath }
        ensures path { IfOk result (λ path. path ≡ file_path_for (settings self.now) value.now) }
        ensures inverse { (other : List ℕ) → IsFilePath other →
            (extracted_name_at (settings self.now) other ≡ Some value.now) ↔ (result ≡ Ok other) }
    {
        path_of_name(self.parts(), self.get_type_name(), value)
    }

    /// The name that a path stands for.
    fn extract_name_from_path(&self, value: &FilePath) -> Option<FileName>
        ensures value { result ≡ extracted_name_at (settings self.now) value.now }
        ensures exact { (name : List ℕ) → (result ≡ Some name)
            ↔ (IsFileName name × (path_part value.now ≡ (settings self.now).path_hint)
            × (file_name_part value.now ≡ file_name_for (settings self.now) name)) }
        ensures back { IfSome result (λ name. file_path_for (settings self.now) name ≡ value.now) }
    {
        if *self.get_path_hint() != value.path() {
            return None;
        }
        self.extract_name_from_file(&value.file_name())
    }

    /// The name that a file name stands for.
    fn extract_name_from_file(&self, value: &FileName) -> Option<FileName>
        ensures value { result ≡ extracted_name (settings self.now) value.now }
        ensures exact { (name : List ℕ) → (result ≡ Some name)
            ↔ (IsFileName name × (value.now ≡ file_name_for (settings self.now) name)) }
    {
        name_of_file(self.parts(), self.get_type_name(), value)
    }

    // A default configuration holds this.
    ghost starts: { (configuration : Self) → Self.is_default configuration → settings configuration ≡ initial };

    // The prefix and the path hint are the same for each kind of concept.
    ghost defaults: { (initial.prefix ≡ codes "iox2_") × (initial.path_hint ≡ codes "/tmp") };
}

/// A builder of a concept.
pub trait NamedConceptBuilder<T: NamedConceptMgmt> {
    /// What a builder of this kind is told beside the name and the configuration.
    type Options;

    // All that decides what is built.
    ghost plan: { Self → Plan Self.Options };

    // What a new builder has been told.
    ghost default_options: { Self.Options };

    /// A builder of the concept of this name, with the default configuration.
    fn new(name: &FileName) -> Self
        ensures plan { plan result ≡ record {
          name = name.now;
          settings = T.Configuration.initial;
          options = default_options;
        } };

    /// The builder with this configuration. All else that it was told stays.
    fn config(self, config: &T::Configuration) -> Self
        ensures plan { plan result ≡ record (plan self) { settings = T.Configuration.settings config.now } };
}

/// What has a file name as its name.
pub trait NamedConcept: Debug {
    // The name.
    ghost concept_name: { Self → List ℕ };

    /// The name of the concept.
    fn name(&self) -> &FileName
        ensures name { result.now ≡ concept_name self.now };
}

/// The management of all concepts of one kind, over the paths of a registry.
pub trait NamedConceptMgmt: Debug {
    type Configuration: NamedConceptConfiguration;
    /// The registry, which has the paths of the concepts.
    type Names;

    // The paths that a registry has.
    ghost paths: { Self.Names → List (List ℕ) };

    // The name of the concept for whose existence a path stands under a configuration, if any.
    ghost shown_name: { ConceptSettings → List ℕ → Option (List ℕ) };

    // Whether a path goes away when the concept of this name is removed under a configuration.
    ghost goes_with: { ConceptSettings → List ℕ → List ℕ → Bool };

    // The registry after the concept of this name was removed under a configuration.
    ghost removed: { ConceptSettings → List ℕ → Self.Names → Self.Names };

    // Whether a removal lists the paths first, which takes memory.
    ghost lists_first: { Bool };

    // What a registry has for each open concept, it has later.
    ghost KeepsOpen: { Self.Names → Self.Names → Type 0 };

    /// `remove_cfg` under the default configuration.
    fn remove(
        alloc: Global,
        reg: &mut Self::Names,
        name: &FileName,
    ) -> Result<bool, NamedConceptRemoveError>
        ensures found { IfOk result (λ found.
            found ≡ list_any (goes_with Self.Configuration.initial name.now) (paths reg.old)) }
        ensures gone { let goes : List ℕ → Bool = goes_with Self.Configuration.initial name.now in
            OnOk result (paths reg.new ≡ filter (λ path. not (goes path)) (paths reg.old)) }
        ensures registry { OnOk result (reg.new ≡ removed Self.Configuration.initial name.now reg.old) }
        ensures no_memory { IfErr result (λ error.
            IsTrue lists_first × (error ≡ NamedConceptRemoveError.NoMemory)) }
        ensures keeps { KeepsOpen reg.old reg.new }
        ensures unchanged { OnErr result (reg.new ≡ reg.old) }
    {
        Self::remove_cfg(alloc, reg, name, &Self::Configuration::default())
    }

    /// `does_exist_cfg` under the default configuration.
    fn does_exist(reg: &Self::Names, name: &FileName) -> Result<bool, NamedConceptDoesExistError>
        ensures found { let shown : List ℕ → Option (List ℕ) = shown_name Self.Configuration.initial in
            result ≡ Ok (list_any (λ path. is_name name.now (shown path)) (paths reg.now)) }
    {
        Self::does_exist_cfg(reg, name, &Self::Configuration::default())
    }

    /// `list_cfg` under the default configuration.
    fn list(alloc: Global, reg: &Self::Names) -> Result<Vec<FileName>, NamedConceptListError>
        ensures names { IfOk result (λ list.
            list.items ≡ filter_map (shown_name Self.Configuration.initial) (paths reg.now)) }
        ensures ordered { IsStrictlySortedBy (slice_cmp nat_cmp) (paths reg.now) }
        ensures no_memory { IfErr result (λ error. error ≡ NamedConceptListError.NoMemory) }
    {
        Self::list_cfg(alloc, reg, &Self::Configuration::default())
    }

    /// Removes the concept of this name: its paths are gone. Answers whether any was there, so
    /// `false` also where the path of the name would be too long. On `NoMemory`, which comes only
    /// of a kind that lists first, nothing has changed.
    fn remove_cfg(
        alloc: Global,
        reg: &mut Self::Names,
        name: &FileName,
        cfg: &Self::Configuration,
    ) -> Result<bool, NamedConceptRemoveError>
        ensures found { IfOk result (λ found.
            found ≡ list_any (goes_with (Self.Configuration.settings cfg.now) name.now) (paths reg.old)) }
        ensures gone { let goes : List ℕ → Bool = goes_with (Self.Configuration.settings cfg.now) name.now in
            OnOk result (paths reg.new ≡ filter (λ path. not (goes path)) (paths reg.old)) }
        ensures registry { OnOk result (reg.new ≡ removed (Self.Configuration.settings cfg.now) name.now reg.old) }
        ensures no_memory { IfErr result (λ error.
            IsTrue lists_first × (error ≡ NamedConceptRemoveError.NoMemory)) }
        ensures keeps { KeepsOpen reg.old reg.new }
        ensures unchanged { OnErr result (reg.new ≡ reg.old) };

    /// Whether the concept of this name is there, so `false` also where the path of the name would
    /// be too long.
    fn does_exist_cfg(
        reg: &Self::Names,
        name: &FileName,
        cfg: &Self::Configuration,
    ) -> Result<bool, NamedConceptDoesExistError>
        ensures found { let shown : List ℕ → Option (List ℕ) = shown_name (Self.Configuration.settings cfg.now) in
            result ≡ Ok (list_any (λ path. is_name name.now (shown path)) (paths reg.now)) };

    /// The names of all concepts, in the order of the bytes of their paths.
    fn list_cfg(
        alloc: Global,
        reg: &Self::Names,
        cfg: &Self::Configuration,
    ) -> Result<Vec<FileName>, NamedConceptListError>
        ensures names { IfOk result (λ list.
            list.items ≡ filter_map (shown_name (Self.Configuration.settings cfg.now)) (paths reg.now)) }
        ensures ordered { IsStrictlySortedBy (slice_cmp nat_cmp) (paths reg.now) }
        ensures no_memory { IfErr result (λ error. error ≡ NamedConceptListError.NoMemory) };

    /// The default prefix.
    fn default_prefix() -> FileName
        ensures prefix { result ≡ codes "iox2_" }
    {
        FileName::new(b"iox2_").unwrap()
    }

    /// The default path hint.
    fn default_path_hint() -> Path
        ensures path_hint { result ≡ codes "/tmp" }
    {
        Path::new(b"/tmp").unwrap()
    }

    /// Removes the directory of a path hint. There is none here: nothing changes.
    fn remove_path_hint(value: &Path) -> Result<(), NamedConceptPathHintRemoveError>
        ensures done { result ≡ Ok tt };

    // Where a path shows a concept, it goes with this concept.
    ghost shown_goes: { (settings : ConceptSettings) (path name : List ℕ) →
        shown_name settings path ≡ Some name → goes_with settings name path ≡ true };
}
