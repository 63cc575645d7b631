//! The transport: commands and replies, the ledger that they are a run of, and the calls that serve them.
//!
//! A chunk goes its way and comes back, as a test runs it:
//!
//! ```
//! let mut commands = way_of_a_chunk(rt.alloc())?;
//! commands.push(Command::Reclaim { channel: 0 })?;
//! let mut end = None;
//! match run_transport(rt.alloc(), &SMALL, commands.as_slice(), &mut end) {
//!     Ok(replies) => {
//!         assert_eq!(rt; replies.len(), 9);
//!         assert_eq!(rt; replies.get(8), Some(&Reply::Reclaimed(Some(FIRST))));
//!     }
//!     Err(_) => return Err("the run is whole".into()),
//! }
//! let transport = end.ok_or("the run leaves its transport")?;
//! assert_eq!(rt; transport.in_transit(), 0);
//! assert_eq!(rt; transport.chunk(1), None);
//! ```
#![tactic(auto)]

mod bytes;
mod command;
pub mod examples;
mod fill_list;
pub mod laws;
mod replies;
mod reply;
mod run;
mod settings;
#[cfg(test)]
mod tests;
mod transport;

pub use bytes::Bytes;
pub use command::Command;
pub use fill_list::fill_commands;
pub use replies::Replies;
pub use reply::{Count, Refusal, Reply, Slot};
pub use run::{RunError, run_transport};
pub use settings::{CreateCause, Settings};
pub use transport::Transport;
pub use transport::access::ChunkRecord;
pub use transport::loaning::LoanError;
pub use transport::making::OpenError;
