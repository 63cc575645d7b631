//! The number of a channel. Ported from `zero_copy_connection/mod.rs` of iceoryx2-cal 0.9.3.
ghost use Rattle.std.specs.Prelude.{◌≡◌};

use std::marker::Model;

/// The number of a channel of a connection, from 0. Contracts see the number.
#[derive(Debug, Clone, Copy, PartialEq, Eq, Hash)]
pub struct ChannelId(usize);

impl Model for ChannelId {
    ghost use Rattle.std.specs.Prelude.{ℕ};

    ghost Value = { ℕ };

    ghost view = { λ id. id.0 };

    ghost inverse = { λ n. record { 0 = n } };
}

impl ChannelId {
    /// The channel of this number.
    pub fn new(value: usize) -> Self
        ensures value { result ≡ value }
    {
        ChannelId(value)
    }

    /// The channel's number.
    pub fn value(&self) -> usize
        ensures value { result ≡ self.now }
    {
        self.0
    }
}
