//! A port of a pair, and what both kinds of port have in common: the settings of the connection, and a seat at its
//! words.
ghost use Rattle.std.specs.Prelude.{◌≡◌, ℕ, ◌%◌, ◌<◌, ◌≤◌};
ghost use Rattle.cal_queue.specs.StateTable.{IsPortBit};
ghost use Rattle.cal_shared.specs.Channels.{Rings};
ghost use Rattle.cal_shared.specs.Port.{IsSoundPort};
ghost use Rattle.cal_connection.specs.declared.settings.ConnectionSettings.{ConnectionSettings};

use cal_alloc::SegmentId;
use cal_connection::ConnectionSettings;
use cal_queue::state_table::StateSeat;
use std::marker::Model;

/// What a port has of one channel, by which the two kinds of port differ.
pub trait PortEnd: Drop {
    // The channel has the room that these settings give it.
    ghost Fits: { ConnectionSettings → Self → Type 0 };

    // The bit of the port in the word that says which ports are there.
    ghost bit: { ℕ };

    // The rings of the channel.
    ghost rings: { Self → Rings };

    /// The bit of the port in the word that says which ports are there.
    fn port_bit() -> u8
        ensures value { result ≡ bit }
        ensures port { IsPortBit bit };
}

/// A port of a pair. It may go to a thread of its own.
#[derive(Drop)]
pub struct SharedPort<E: PortEnd> {
    /// What the connection was made with; no setting is zero.
    pub(crate) settings: ConnectionSettings,
    /// The port's seat at the words that both ports share.
    pub(crate) states: StateSeat,
    /// What the port has of each channel, by the channels' numbers.
    pub(crate) channels: Vec<E>,
}

impl<E: PortEnd> Model for SharedPort<E> {
    ghost use Rattle.cal_queue.specs.StateSeats.{pass};
    ghost use Rattle.cal_shared.specs.Port.{IsSoundPort, Port};

    ghost Value = { Port E };

    ghost view = { λ p. record {
      settings = p.settings;
      words = p.states.seat.table_id;
      states = pass p.states;
      channels = p.channels.items;
    } };

    ghost invariant = { λ p. IsSoundPort {E = E} E.Fits (record {
      settings = p.settings;
      words = p.states.seat.table_id;
      states = pass p.states;
      channels = p.channels.items;
    }) };
}

impl<E: PortEnd> SharedPort<E> {
    /// What the connection was made with. No setting is zero.
    pub fn settings(&self) -> &ConnectionSettings
        ensures value { result.now ≡ self.now.settings }
        ensures sound { IsSoundPort E.Fits self.now }
    {
        &self.settings
    }

    /// How many channels the connection has.
    pub fn number_of_channels(&self) -> usize
        ensures value { result ≡ self.now.settings.number_of_channels }
    {
        self.settings.number_of_channels
    }

    /// How many offsets wait in the queue of a channel at most.
    pub fn buffer_size(&self) -> usize
        ensures value { result ≡ self.now.settings.buffer_size }
    {
        self.settings.buffer_size
    }

    /// How many offsets the receiver borrows from a channel at most.
    pub fn max_borrowed_samples(&self) -> usize
        ensures value { result ≡ self.now.settings.max_borrowed_samples }
    {
        self.settings.max_borrowed_samples
    }

    /// Whether a send into a full queue takes the oldest offset out of it.
    pub fn has_enabled_safe_overflow(&self) -> bool
        ensures value { result ≡ self.now.settings.enable_safe_overflow }
    {
        self.settings.enable_safe_overflow
    }

    /// How many segments the offsets can be in.
    pub fn max_supported_shared_memory_segments(&self) -> u8
        ensures value { result ≡ self.now.settings.number_of_segments }
    {
        self.settings.number_of_segments
    }

    /// The segment of an index that counts the segments of one channel after another.
    pub fn segment_id_from_index(&self, index: usize) -> SegmentId
        ensures value { result ≡ index % self.now.settings.number_of_segments }
    {
        SegmentId::new((index % self.settings.number_of_segments as usize) as u8)
    }
}
