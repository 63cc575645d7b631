//! Storages: values of one type in a registry, under names.
//!
//! One end makes a storage, the other opens it, and both see what is written, as a test does it for any storage `S`:
//!
//! ```
//! let name = my_name()?;
//! let mut reg = Registry::new(alloc);
//! let first = create::<S>(&mut reg, &name, 444)?;
//! let second = open::<S>(&mut reg, &name)?;
//! assert!(rt; *second.get(&reg) == 444);
//! *S::get_mut(&mut reg, &second) = 456;
//! assert!(rt; *first.get(&reg) == 456);
//! assert!(rt; *second.get(&reg) == 456);
//! ```
#![tactic(auto)]

mod access_mode;
pub mod dynamic_storage;
mod entry;
pub mod examples;
mod handle;
mod initialize;
pub mod laws;
mod registry;
mod shared_registry;

pub use access_mode::AccessMode;
pub use dynamic_storage::{
    DynamicStorage, DynamicStorageBuilder, DynamicStorageCreateError, DynamicStorageOpenError,
    DynamicStorageOpenOrCreateError, StorageOptions,
};
pub use entry::{Entry, Slot};
pub use handle::Handle;
pub use registry::Registry;
pub use shared_registry::SharedRegistry;

#[cfg(test)]
mod tests;
