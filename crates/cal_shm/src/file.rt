//! Memory segments in file storages. Ported from `shared_memory/file.rs` of iceoryx2-cal 0.9.3.
use crate::allocator_details::AllocatorDetails;
use crate::{builder, configuration, memory};
use cal_storage::dynamic_storage::file;

/// The storage of a segment.
pub type Storage<A> = file::Storage<AllocatorDetails<A>>;

/// The configuration of a file segment.
pub type Configuration<A> = configuration::Configuration<A, Storage<A>>;

/// The builder of a file segment.
pub type Builder<A> = builder::Builder<A, Storage<A>>;

/// A file segment.
pub type Memory<A> = memory::Memory<A, Storage<A>>;
