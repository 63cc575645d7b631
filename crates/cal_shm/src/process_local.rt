//! Memory segments in process-local storages. Ported from `shared_memory/process_local.rs` of iceoryx2-cal 0.9.3.
use crate::allocator_details::AllocatorDetails;
use crate::{builder, configuration, memory};
use cal_storage::dynamic_storage::process_local;

/// The storage of a segment.
pub type Storage<A> = process_local::Storage<AllocatorDetails<A>>;

/// The configuration of a process-local segment.
pub type Configuration<A> = configuration::Configuration<A, Storage<A>>;

/// The builder of a process-local segment.
pub type Builder<A> = builder::Builder<A, Storage<A>>;

/// A process-local segment.
pub type Memory<A> = memory::Memory<A, Storage<A>>;
