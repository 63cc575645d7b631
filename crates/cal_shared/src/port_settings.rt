//! What a pair of ports is made with.
ghost use Rattle.std.specs.Prelude.{◌≡◌, ◌<◌, ◌≤◌, ◌^◌};
ghost use Rattle.cal_connection.specs.Settings.{IsClamped};
ghost use Rattle.cal_shared.specs.Settings.{connection_settings, is_pair_too_large};

use cal_connection::{ChannelState, ConnectionSettings};

/// What a pair of ports is made with. A zero counts as one.
#[derive(Debug, Clone, Copy, PartialEq, Eq)]
pub struct PortSettings {
    /// How many offsets wait in the queue of a channel at most.
    pub buffer: usize,
    /// How many offsets the receiver borrows from a channel at most.
    pub borrow: usize,
    /// How many samples of a segment can be in use. Their indices are below it.
    pub samples: usize,
    /// How many channels there are.
    pub channels: usize,
    /// Whether a send into a full queue takes the oldest offset out of it.
    pub overflow: bool,
    /// How many segments the offsets can be in. Their numbers are below it.
    pub segments: u8,
    /// The state in which every channel begins.
    pub initial: ChannelState,
}

impl PortSettings {
    /// The settings of the connection, none of which is zero.
    pub(crate) fn connection_settings(&self) -> ConnectionSettings
        ensures value { result ≡ connection_settings self.now }
        ensures clamped { IsClamped result }
    {
        ConnectionSettings {
            buffer_size: self.buffer.max(1),
            enable_safe_overflow: self.overflow,
            max_borrowed_samples: self.borrow.max(1),
            number_of_samples: self.samples.max(1),
            number_of_segments: self.segments.max(1),
            number_of_channels: self.channels.max(1),
        }
    }
}

/// Whether a completion ring would have room for 2^32 offsets or more, or the lists of used samples together for 2^63
/// samples or more.
pub(crate) fn is_pair_too_large(settings: &ConnectionSettings) -> bool
    requires clamped { IsClamped settings.now }
    ensures value { result ≡ is_pair_too_large settings.now }
{
    let completion = settings.buffer_size as u128 + settings.max_borrowed_samples as u128 + 1;
    if completion >= 1 << 32 {
        return true;
    }
    let samples = settings.number_of_samples as u128 * settings.number_of_segments as u128;
    samples >= 1 << 63 || samples * settings.number_of_channels as u128 >= 1 << 63
}
