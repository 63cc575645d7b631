//! The configuration of a storage: what stands around a name in the path of its file, and the stored type's name.
//! Ported from `dynamic_storage/dynamic_storage_configuration.rs` of iceoryx2-cal 0.9.3.
ghost use Rattle.std.specs.Prelude.{◌≡◌, Some, refl};
ghost use Rattle.cal_names.specs.ConceptSettings.{settings_of};
ghost use Rattle.cal_storage.specs.Configuration.{default_parts};

use cal_names::{
    DynamicStorageConfiguration, FileName, NamedConceptConfiguration, NamedType, Path, PathParts,
    TypeName,
};
use std::marker::PhantomData;

/// The configuration of a storage of a type.
#[derive_where(Clone, Copy, Debug, PartialEq, Eq)]
pub struct Configuration<T> {
    /// What stands around a name in its path.
    parts: PathParts,
    /// The name of the stored type, whose hash stands between the prefix and the name.
    type_name: TypeName,
    /// What is stored.
    of: PhantomData<T>,
}

impl<T: NamedType> Default for Configuration<T> {
    ghost is_default = { λ c. (c.parts ≡ default_parts) × (c.type_name ≡ T.name) };

    fn default() -> Self {
        Configuration {
            parts: PathParts {
                prefix: FileName::new(b"iox2_").unwrap(),
                suffix: FileName::new(b".dyn").unwrap(),
                path_hint: Path::new(b"/tmp").unwrap(),
            },
            type_name: T::type_name(),
            of: PhantomData,
        }
    }
}

impl<T: NamedType> NamedConceptConfiguration for Configuration<T> {
    ghost settings = { λ c. settings_of c.parts (Some c.type_name) };

    ghost initial = { settings_of default_parts (Some T.name) };

    fn parts(&self) -> &PathParts {
        &self.parts
    }

    fn with_parts(self, parts: PathParts) -> Self {
        Configuration { parts, ..self }
    }

    fn get_type_name(&self) -> Option<TypeName> {
        Some(self.type_name)
    }

    ghost starts = { λ c default i. settings_of (default.0 i) (Some (default.1 i)) };

    ghost defaults = { (refl, refl) };
}

impl<T: NamedType> DynamicStorageConfiguration for Configuration<T> {
    fn type_name(&self) -> &TypeName {
        &self.type_name
    }
}
