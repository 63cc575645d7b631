//! Tests that use the queues of a channel from two threads at once. What they need to know of a queue they take from
//! its public contracts alone, as any user would.
//!
//! A sender on its own thread, as `send_all` has it: it never waits, and what overflows comes back to it:
//!
//! ```
//! let mut returned = Vec::new(alloc);
//! for value in 0..count {
//!     let Ok(back) = send.push(value, true) else {
//!         unreachable!()
//!     };
//!     keep(&mut returned, back)?;
//! }
//! Ok((send, returned))
//! ```
#![tactic(auto)]

pub mod completion_ring;
mod reserve_refusal;
pub mod state_table;
pub mod submission_ring;
