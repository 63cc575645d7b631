//! The configuration of a dynamic storage: the hash of the stored type's name stands in the path of
//! a name. Ported from `dynamic_storage/dynamic_storage_configuration.rs` of iceoryx2-cal 0.9.3.
ghost use Rattle.std.specs.Prelude.{◌≡◌, ◌≤◌, ◌↔◌, ℕ, List, Some, length, IsOk, IfOk};
ghost use Rattle.cal_names.specs.FileName.{IsFileName};
ghost use Rattle.cal_names.specs.FilePath.{IsFilePath};
ghost use Rattle.cal_names.specs.ConceptSettings.{file_name_for, file_path_for, extracted_name, extracted_name_at};

use crate::file_name::FileName;
use crate::file_path::FilePath;
use crate::name_paths::{name_of_file, path_of_name};
use crate::named_concept::NamedConceptConfiguration;
use crate::path_too_long::PathTooLong;
use crate::type_name::TypeName;

/// A configuration with the name of the stored type. `path_for` and `extract_name_from_file` answer
/// what the calls here answer.
pub trait DynamicStorageConfiguration: NamedConceptConfiguration {
    /// The name of the stored type.
    fn type_name(&self) -> &TypeName
        ensures type_name { (Self.settings self.now).type_name ≡ Some result.now };

    /// The path that stands for a name.
    fn path_for_with_type(&self, value: &FileName) -> Result<FilePath, PathTooLong>
        ensures fits { IsOk result ↔ (length (file_name_for (Self.settings self.now) value.now) ≤ 255) }
        ensures rule { IfOk result IsFilePath }
        ensures path { IfOk result (λ path. path ≡ file_path_for (Self.settings self.now) value.now) }
        ensures inverse { (other : List ℕ) → IsFilePath other →
            (extracted_name_at (Self.settings self.now) other ≡ Some value.now)
            ↔ (result ≡ Ok other) }
    {
        path_of_name(self.parts(), Some(*self.type_name()), value)
    }

    /// The name that a file name stands for.
    fn extract_name_from_file_with_type(&self, value: &FileName) -> Option<FileName>
        ensures value { result ≡ extracted_name (Self.settings self.now) value.now }
        ensures exact { (name : List ℕ) → (result ≡ Some name)
            ↔ (IsFileName name × (value.now ≡ file_name_for (Self.settings self.now) name)) }
    {
        name_of_file(self.parts(), Some(*self.type_name()), value)
    }
}
