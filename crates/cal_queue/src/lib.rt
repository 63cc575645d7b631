//! The queues and used lists of a channel, and the words of a connection. Each takes all its memory
//! when it is made, so that no later call runs out of memory. Contracts see a queue for one thread
//! as a list of numbers with a capacity, and a used list as a set of numbers below its capacity. A
//! ring for two threads, or a table of words, is seen from each of its ends, by what that end has
//! done.
//!
//! A full queue gives its oldest value back, as a test does it:
//!
//! ```
//! let mut queue = SafelyOverflowingIndexQueue::new(rt.alloc(), 2)?;
//! assert_eq!(rt; queue.push(1), None);
//! assert_eq!(rt; queue.push(2), None);
//! assert_eq!(rt; queue.push(3), Some(1));
//! assert_eq!(rt; queue.pop(), Some(2));
//! assert_eq!(rt; queue.pop(), Some(3));
//! assert_eq!(rt; queue.pop(), None);
//! ```
#![tactic(auto)]

mod bit_set;
mod bounded_queue;
pub mod completion_ring;
pub mod fixed_size_used_chunk_list;
pub mod index_queue;
mod marks;
mod positions;
pub mod push_refusal;
pub mod reserve_refusal;
mod ring_words;
pub mod safely_overflowing_index_queue;
mod sided;
pub mod state_table;
pub mod submission_ring;
pub mod used_chunk_list;
