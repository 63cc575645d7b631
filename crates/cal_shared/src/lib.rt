//! Ports for two threads: a sender and a receiver of one connection, without a lock. Each may go to its own thread.
//! Offsets of samples are sent, received, released and reclaimed over two rings a channel, and both ports read and
//! change the connection's words in single steps. Which samples are in use is known to the sender alone, and how many
//! offsets are borrowed to the receiver alone. Contracts say of each call which steps at which ring or word it took,
//! and what it answered by these.
//!
//! A sample goes to the receiver and comes back, as a test does it (`tests/calls.rt` has its calls, which look first
//! whether an offset may be sent):
//!
//! ```
//! let (mut sender, mut receiver) = pair(rt.alloc(), &settings(1, 1, 1, false))?;
//! let only = PointerOffset::new(0);
//! assert!(rt; send(&rt, &mut sender, only, 0) == Ok(None));
//! assert!(rt; receive(&rt, &mut receiver, 0) == Ok(Some(only)));
//! assert!(rt; reclaim(&rt, &mut sender, 0) == Ok(None));
//! assert!(rt; release(&rt, &mut receiver, only, 0) == Ok(()));
//! assert!(rt; reclaim(&rt, &mut sender, 0) == Ok(Some(only)));
//! assert!(rt; !is_in_use(&rt, &sender, only, 0));
//! ```
#![tactic(auto)]

mod acquisition;
mod backpressure;
mod blocking;
mod channel_states;
mod pairing;
mod port_settings;
mod receiving_end;
mod resting;
mod sending_end;
mod shared_port;
mod shared_receiver;
mod shared_sender;
mod used_samples;
mod words;

pub use pairing::shared_pair;
pub use port_settings::PortSettings;
pub use receiving_end::ReceivingEnd;
pub use resting::{PortRest, rest};
pub use sending_end::SendingEnd;
pub use shared_port::{PortEnd, SharedPort};
pub use shared_receiver::SharedReceiver;
pub use shared_sender::SharedSender;

#[cfg(test)]
mod tests;
