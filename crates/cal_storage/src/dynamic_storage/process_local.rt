//! The storage of one process: an opening doesn't look at the version of an entry, so it finds one that is being made
//! too. Ported from `dynamic_storage/process_local.rs` of iceoryx2-cal 0.9.3.
ghost use Rattle.std.specs.Prelude.{false};

use crate::dynamic_storage::{builder, configuration, storage};

/// The configuration of a process-local storage.
pub type Configuration<T> = configuration::Configuration<T>;

/// The builder of a process-local storage.
pub type Builder<T> = builder::Builder<T, ProcessLocal>;

/// A process-local storage.
pub type Storage<T> = storage::Storage<T, ProcessLocal>;

/// The kind of process-local storages.
#[derive(Debug)]
pub struct ProcessLocal;

impl storage::Kind for ProcessLocal {
    ghost checks_version = { false };

    fn checks_version() -> bool {
        false
    }
}
