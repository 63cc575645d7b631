//! The settings of a connection.
ghost use Rattle.std.specs.Prelude.{◌≡◌, ◌<◌, ◌^◌};
ghost use Rattle.cal_connection.specs.Settings.{completion_size, is_too_large, incompatibility};

use crate::errors::ZeroCopyCreationError;

/// What a connection is made with.
#[derive(Debug, Clone, Copy, PartialEq, Eq)]
pub struct ConnectionSettings {
    /// How many offsets wait in the queue of a channel at most, at least 1.
    pub buffer_size: usize,
    /// Whether a send into a full queue takes the oldest offset out of it.
    pub enable_safe_overflow: bool,
    /// How many offsets a receiver borrows from a channel at most, at least 1.
    pub max_borrowed_samples: usize,
    /// How many samples of a segment can be in use, at least 1. Their indices are below it.
    pub number_of_samples: usize,
    /// How many segments the offsets can be in, at least 1. Their numbers are below it.
    pub number_of_segments: u8,
    /// How many channels there are, at least 1.
    pub number_of_channels: usize,
}

impl ConnectionSettings {
    /// How many offsets wait in the completion queue of a channel at most: as many as can be queued and borrowed, and
    /// one more.
    pub(crate) fn completion_size(&self) -> usize
        requires { completion_size self.now < 2 ^ 63 }
        ensures value { result ≡ completion_size self.now }
    {
        self.buffer_size + self.max_borrowed_samples + 1
    }

    /// Whether the completion queue, or the lists of used entries together, would have 2^63 places or more.
    pub(crate) fn is_too_large(&self) -> bool
        requires { 0 < self.now.number_of_channels }
        ensures value { result ≡ is_too_large self.now }
    {
        if self.buffer_size as u128 + self.max_borrowed_samples as u128 + 1 >= 1 << 63 {
            return true;
        }
        let indices = self.number_of_samples as u128 * self.number_of_segments as u128;
        indices >= 1 << 63 || indices * self.number_of_channels as u128 >= 1 << 63
    }

    /// The first difference of these settings, which a connection has, from those that a builder asks for.
    pub(crate) fn incompatibility(
        &self,
        asked: &ConnectionSettings,
    ) -> Option<ZeroCopyCreationError>
        requires found { completion_size self.now < 2 ^ 63 }
        requires asked { completion_size asked.now < 2 ^ 63 }
        ensures value { result ≡ incompatibility self.now asked.now }
    {
        if self.buffer_size != asked.buffer_size {
            Some(ZeroCopyCreationError::IncompatibleBufferSize)
        } else if self.completion_size() != asked.completion_size() {
            Some(ZeroCopyCreationError::IncompatibleMaxBorrowedSamplesPerChannelSetting)
        } else if self.enable_safe_overflow != asked.enable_safe_overflow {
            Some(ZeroCopyCreationError::IncompatibleOverflowSetting)
        } else if self.number_of_samples != asked.number_of_samples {
            Some(ZeroCopyCreationError::IncompatibleNumberOfSamples)
        } else if self.number_of_segments != asked.number_of_segments {
            Some(ZeroCopyCreationError::IncompatibleNumberOfSegments)
        } else if self.number_of_channels != asked.number_of_channels {
            Some(ZeroCopyCreationError::IncompatibleNumberOfChannels)
        } else {
            None
        }
    }
}
