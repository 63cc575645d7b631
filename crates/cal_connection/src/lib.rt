//! Connections: a sender and a receiver over one entry of a registry, for one thread. The sender sends the offsets of
//! samples on channels, the receiver gives them back, and the sender reclaims them.
//!
//! A sender gets back what a full channel has no place for, as a test does it:
//!
//! ```
//! let mut reg = Registry::new(rt.alloc());
//! let mut ends = connect::<InProcess>(
//!     rt.alloc(),
//!     &mut reg,
//!     builder()?.buffer_size(1).enable_safe_overflow(true),
//!     builder()?.buffer_size(1).enable_safe_overflow(true),
//! )?;
//! let first = PointerOffset::new(0);
//! let second = PointerOffset::new(8);
//! assert!(rt; matches!(send(&rt, &mut reg, &mut ends, first, 8, 0), Ok(None)));
//! assert!(rt; send(&rt, &mut reg, &mut ends, second, 8, 0) == Ok(Some(first)));
//! assert!(rt; receive(&rt, &mut reg, &mut ends, 0) == Ok(Some(second)));
//! ```
#![tactic(auto)]

mod acquisition;
pub mod acquisition_laws;
mod backpressure;
mod blocking;
mod builder;
pub mod call_examples;
pub mod call_laws;
mod calls;
mod channel;
pub mod channel_id;
pub mod channel_state;
mod closing;
mod configuration;
mod connection;
mod connection_builder;
pub mod errors;
pub mod examples;
pub mod laws;
mod options;
mod port_call;
mod port_details;
mod port_reply;
mod receiver;
mod segment_details;
mod sender;
mod settings;
mod shared_management_data;
mod words;

pub use backpressure::{BackpressureToReceiverAction, Clock, FixedClock, Obstacle};
pub use builder::{
    Builder, DEFAULT_BUFFER_SIZE, DEFAULT_ENABLE_SAFE_OVERFLOW,
    DEFAULT_MAX_BORROWED_SAMPLES_PER_CHANNEL, DEFAULT_MAX_SUPPORTED_SHARED_MEMORY_SEGMENTS,
    DEFAULT_NUMBER_OF_CHANNELS, DEFAULT_NUMBER_OF_SAMPLES_PER_SEGMENT,
};
pub use calls::run_calls;
pub use channel::Channel;
pub use channel_id::ChannelId;
pub use channel_state::{
    CHANNEL_STATE_CLOSED, CHANNEL_STATE_DISCONNECT_HINT_BIT, CHANNEL_STATE_OPEN, ChannelState,
    ChannelStateNewError,
};
pub use configuration::Configuration;
pub use connection::{Connection, ZeroCopyConnection};
pub use connection_builder::ZeroCopyConnectionBuilder;
pub use errors::{
    ZeroCopyCreationError, ZeroCopyPortRemoveError, ZeroCopyReceiveError, ZeroCopyReclaimError,
    ZeroCopyReleaseError, ZeroCopySendError,
};
pub use options::ConnectionOptions;
pub use port_call::PortCall;
pub use port_details::ZeroCopyPortDetails;
pub use port_reply::PortReply;
pub use receiver::{Receiver, ZeroCopyReceiver};
pub use segment_details::SegmentDetails;
pub use sender::{Sender, ZeroCopySender};
pub use settings::ConnectionSettings;
pub use shared_management_data::SharedManagementData;

#[cfg(test)]
mod tests;
