//! The configuration of a connection. Ported from `zero_copy_connection/common.rs` of iceoryx2-cal 0.9.3.
ghost use Rattle.std.specs.Prelude.{◌≡◌, Some, refl};
ghost use Rattle.cal_names.specs.ConceptSettings.{settings_of};
ghost use Rattle.cal_connection.specs.Configuration.{default_parts, stored_type};

use crate::shared_management_data::SharedManagementData;
use cal_names::{FileName, NamedConceptConfiguration, NamedType, Path, PathParts, TypeName};
use cal_storage::DynamicStorage;
use std::marker::PhantomData;

/// What makes the path of a connection over a storage: prefix, suffix and path hint.
#[derive_where(Clone, Copy, Debug)]
pub struct Configuration<S> {
    /// What stands around a name in its path.
    pub(crate) parts: PathParts,
    /// The storage that holds the connections.
    of: PhantomData<S>,
}

impl<S: DynamicStorage<SharedManagementData>> Configuration<S> {
    /// The configuration of the storage of a connection's entry.
    pub(crate) fn storage_configuration(&self) -> S::Configuration
        ensures settings { S.Configuration.settings result ≡ settings_of self.now.parts (Some stored_type) }
    {
        S::Configuration::default().with_parts(self.parts)
    }
}

impl<S: DynamicStorage<SharedManagementData>> Default for Configuration<S> {
    ghost is_default = { λ c. c.parts ≡ default_parts };

    fn default() -> Self {
        Configuration {
            parts: PathParts {
                prefix: FileName::new(b"iox2_").unwrap(),
                suffix: FileName::new(b".rx").unwrap(),
                path_hint: Path::new(b"/tmp").unwrap(),
            },
            of: PhantomData,
        }
    }
}

impl<S: DynamicStorage<SharedManagementData>> NamedConceptConfiguration for Configuration<S> {
    ghost settings = { λ c. settings_of c.parts (Some stored_type) };

    ghost initial = { settings_of default_parts (Some stored_type) };

    fn parts(&self) -> &PathParts {
        &self.parts
    }

    fn with_parts(self, parts: PathParts) -> Self {
        Configuration { parts, ..self }
    }

    fn get_type_name(&self) -> Option<TypeName> {
        Some(SharedManagementData::type_name())
    }

    ghost starts = { λ c default i. settings_of (default i) (Some stored_type) };

    ghost defaults = { (refl, refl) };
}
