//! What a builder of connections is told beside the name and the configuration.
use crate::channel_state::ChannelState;
use crate::settings::ConnectionSettings;

/// The options of a builder of connections.
#[derive(Debug, Clone, Copy, PartialEq, Eq)]
pub struct ConnectionOptions {
    /// What a new connection is made with, and what a connection that is found must have. No setting is zero.
    pub settings: ConnectionSettings,
    /// The state in which the channels of a new connection begin.
    pub initial_state: ChannelState,
}
