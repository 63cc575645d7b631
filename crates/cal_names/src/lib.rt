//! Names of concepts, the configurations that make paths of them, and the hash of a type's name.
//!
//! A name, its path, and the name out of the path again, as a test does it:
//!
//! ```
//! let name = FileName::new(b"mem").ok_or("a file name")?;
//! let path = config.path_for(&name)?;
//! assert!(rt; path.as_bytes() == ABC_MEM);
//! assert!(rt; config.path_for_with_type(&name)? == path);
//! assert!(rt; config.extract_name_from_path(&path) == Some(name));
//! ```
#![tactic(auto)]

mod bounded_bytes;
pub mod dynamic_storage_configuration;
mod file_name;
mod file_path;
pub mod laws;
mod name_paths;
pub mod named_concept;
mod named_type;
mod path;
mod path_parts;
mod path_too_long;
pub mod type_hash;
mod type_name;

pub use dynamic_storage_configuration::DynamicStorageConfiguration;
pub use file_name::FileName;
pub use file_path::FilePath;
pub use named_concept::{
    NamedConcept, NamedConceptBuilder, NamedConceptConfiguration, NamedConceptDoesExistError,
    NamedConceptListError, NamedConceptMgmt, NamedConceptPathHintRemoveError,
    NamedConceptRemoveError,
};
pub use named_type::NamedType;
pub use path::Path;
pub use path_parts::PathParts;
pub use path_too_long::PathTooLong;
pub use type_name::TypeName;

#[cfg(test)]
mod tests;
