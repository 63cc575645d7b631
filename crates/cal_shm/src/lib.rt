//! Memory segments: an allocator and the bytes that it hands out, in a storage under a name. Whoever creates a segment
//! owns its name; whoever knows the name can open it, and both allocate there and see the same bytes.
//!
//! The layer above may rely on this: each call changes the segment that it is about and no other name or entry of the
//! registry, every open handle keeps its entry, what is handed out lies within the payload, and a write changes the
//! bytes that were lent and no others.
//!
//! A segment of 1,024 bytes, and who can open it, as a test does it for any segment `M`:
//!
//! ```
//! let name = my_name()?;
//! let mut reg = Registry::new(alloc);
//! let _first = create::<PoolAllocator, M>(alloc, &mut reg, &name, 1024, &pool_of(8, 8)?)?;
//! let refused = open::<PoolAllocator, M>(&mut reg, &name, 2048);
//! assert!(rt; matches!(refused.err(), Some(SharedMemoryOpenError::SizeDoesNotFit)));
//! let second = open::<PoolAllocator, M>(&mut reg, &name, 1024)?;
//! assert!(rt; !second.has_ownership());
//! let third = open::<PoolAllocator, M>(&mut reg, &name, 0)?;
//! assert!(rt; third.size(&reg) == 1024);
//! ```
#![tactic(auto)]

mod allocator_details;
pub mod builder;
pub mod configuration;
mod errors;
pub mod file;
pub mod memory;
mod options;
mod payload;
pub mod process_local;
pub mod shared_memory;
mod shm_pointer;

pub use allocator_details::AllocatorDetails;
pub use errors::{SharedMemoryCreateError, SharedMemoryOpenError};
pub use options::SharedMemoryOptions;
pub use payload::{Payload, PayloadHolder};
pub use shared_memory::{SharedMemory, SharedMemoryBuilder, SharedMemoryForPoolAllocator};
pub use shm_pointer::ShmPointer;

#[cfg(test)]
mod tests;
