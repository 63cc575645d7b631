//! The states of a channel, which its word shows. Ported from `zero_copy_connection/mod.rs` of iceoryx2-cal 0.9.3.
ghost use Rattle.std.specs.Prelude.{◌≡◌, ◌^◌, ◌≤◌, ◌<◌, IfOk, IfErr};
ghost use Rattle.cal_connection.specs.Words.{greatest_state};
ghost use Rattle.cal_connection.specs.declared.channel_state.ChannelStateNewError.TheVariants.{ValueOutOfBounds};

use std::marker::Model;
use thiserror::Error;

/// Why no state was made of a number.
#[derive(Debug, Clone, Copy, PartialEq, Eq, Error)]
pub enum ChannelStateNewError {
    /// The number is above 2^62.
    #[error("ChannelStateNewError::ValueOutOfBounds")]
    ValueOutOfBounds,
}

/// A state that the word of a channel can show. Contracts see the number.
#[derive(Debug, Clone, Copy, PartialEq, Eq, Hash)]
pub struct ChannelState(u64);

/// The word of an open channel, in the state that a new connection has by default.
pub const CHANNEL_STATE_OPEN: ChannelState = ChannelState(0);

/// The word of a closed channel.
pub const CHANNEL_STATE_CLOSED: ChannelState = ChannelState(u64::MAX);

/// The bit that a word has beside its state while the other side is asked to disconnect.
pub const CHANNEL_STATE_DISCONNECT_HINT_BIT: u64 = 1 << 63;

impl Model for ChannelState {
    ghost use Rattle.std.specs.Prelude.{ℕ};

    ghost Value = { ℕ };

    ghost view = { λ state. state.0 };

    ghost inverse = { λ n. record { 0 = n } };
}

impl ChannelState {
    /// The state of this number.
    pub fn new(value: u64) -> Result<Self, ChannelStateNewError>
        ensures value { IfOk result (λ state. (state ≡ value) × (value ≤ greatest_state)) }
        ensures refused { IfErr result (λ error. (error ≡ ValueOutOfBounds) × (greatest_state < value)) }
    {
        if value > Self::max_value() {
            return Err(ChannelStateNewError::ValueOutOfBounds);
        }
        Ok(ChannelState(value))
    }

    /// The state's number.
    pub fn value(&self) -> u64
        ensures value { result ≡ self.now }
    {
        self.0
    }

    /// The greatest number of which a state can be made.
    pub fn max_value() -> u64
        ensures value { result ≡ greatest_state }
    {
        1 << 62
    }
}
