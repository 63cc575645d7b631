//! Growing memory: segments under one name, of which the owner makes another where the one in use can't serve. Views
//! open a segment when the first offset of it arrives.
//!
//! The layer above may rely on this: the segments that are there are the current one and those with a chunk, their
//! numbers only grow, one growth serves the request that led to it, and each call leaves every entry that isn't one of
//! the memory's own.
//!
//! A memory grows by a segment, and a segment goes with its last chunk, as a test does it for any allocator `A`:
//!
//! ```
//! let mut reg = Registry::new(alloc);
//! let mut memory = memory::<A, Shm>(alloc, &mut reg, 1, AllocationStrategy::BestFit)?;
//! let small = bytes(8)?;
//! let large = bytes(16)?;
//! let first = memory.allocate(alloc, &mut reg, small)?;
//! let second = memory.allocate(alloc, &mut reg, large)?;
//! assert!(rt; second.offset.segment_id().value() == 1);
//! assert!(rt; memory.number_of_active_segments() == 2);
//! memory.deallocate(&mut reg, first.offset, small);
//! assert!(rt; memory.number_of_active_segments() == 1);
//! ```
#![tactic(auto)]

pub mod chunk_laws;
mod closing;
mod errors;
mod growth;
mod lending;
mod management;
mod memory;
mod memory_builder;
pub mod memory_laws;
pub mod name_laws;
pub mod names;
mod place;
mod slots;
pub mod together_laws;
pub mod view;
pub mod view_builder;
pub mod view_laws;

pub use errors::ResizableShmAllocationError;
pub use lending::SegmentsHolder;
pub use memory::DynamicMemory;
pub use memory_builder::DynamicMemoryBuilder;
pub use names::{
    extract_name_and_segment_id, extract_name_from_management_segment, management_segment_name,
    segment_name,
};
pub use place::Place;
pub use view::DynamicView;
pub use view_builder::DynamicViewBuilder;

#[cfg(test)]
mod tests;
