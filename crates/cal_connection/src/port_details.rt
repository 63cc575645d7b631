//! What both ports of a connection tell of it, and the states of its channels. Ported from
//! `zero_copy_connection/mod.rs` of iceoryx2-cal 0.9.3.
ghost use Rattle.std.specs.Prelude.{◌≡◌, ◌<◌, ℕ};
ghost use Rattle.std.specs.Borrow.{sem};
ghost use Rattle.cal_storage.specs.declared.handle.Handle.{Handle};
ghost use Rattle.cal_storage.specs.Contents.{Has};
ghost use Rattle.cal_storage.specs.Holding.{KeepsHandles, KeepsOtherHandles, LeavesSharers};
ghost use Rattle.cal_storage.specs.RegistryLends.{LendsValue};
ghost use Rattle.cal_connection.specs.contracts.shared_management_data.SharedManagementData.{the_row};
ghost use Rattle.cal_connection.specs.Closing.{after_end};
ghost use Rattle.cal_connection.specs.Port.{port_at, settings_at, channel_of, word_of, with_word_of};
ghost use Rattle.cal_connection.specs.Words.{is_connected, is_closed, has_hint, has_state, after_set, after_hint, after_close};

use crate::channel_id::ChannelId;
use crate::channel_state::ChannelState;
use crate::shared_management_data::SharedManagementData;
use crate::words;
use cal_names::NamedConcept;
use cal_storage::Registry;
use std::fmt::Debug;

/// What a port tells of its connection. Each call has the condition that the registry has the port's entry, and one
/// that names a channel that the entry has this channel. A call that changes something changes the word of that channel
/// alone.
pub trait ZeroCopyPortDetails: Debug + Drop + NamedConcept {
    // The handle of the connection's entry.
    ghost handle: { Self → Handle };

    // The bit of the port in the word that says which ports are there.
    ghost bit: { ℕ };

    /// What the ports of the connection share.
    fn management_data<'r>(
        &self,
        reg: &'r Registry<SharedManagementData>,
    ) -> &'r SharedManagementData
        requires { Has reg.now (handle self.now) }
        ensures port { result.now ≡ port_at reg.now (handle self.now) };

    /// What the ports of the connection share, to be changed. The registry comes first, since it is what lends.
    fn management_data_mut<'r>(
        reg: &'r mut Registry<SharedManagementData>,
        port: &Self,
    ) -> &'r mut SharedManagementData
        requires { Has reg.old (handle port.now) }
        ensures* writes_back { sem 𝓛 (LendsValue the_row reg.entry (handle port.now).id result) }
        ensures port { result.now ≡ port_at reg.old (handle port.now) };

    /// How many channels the connection has.
    fn number_of_channels(&self, reg: &Registry<SharedManagementData>) -> usize
        requires { Has reg.now (handle self.now) }
        ensures value { result ≡ (settings_at reg.now (handle self.now)).number_of_channels }
    {
        self.management_data(reg).settings().number_of_channels
    }

    /// How many offsets wait in the queue of a channel at most.
    fn buffer_size(&self, reg: &Registry<SharedManagementData>) -> usize
        requires { Has reg.now (handle self.now) }
        ensures value { result ≡ (settings_at reg.now (handle self.now)).buffer_size }
    {
        self.management_data(reg).settings().buffer_size
    }

    /// How many offsets a receiver borrows from a channel at most.
    fn max_borrowed_samples(&self, reg: &Registry<SharedManagementData>) -> usize
        requires { Has reg.now (handle self.now) }
        ensures value { result ≡ (settings_at reg.now (handle self.now)).max_borrowed_samples }
    {
        self.management_data(reg).settings().max_borrowed_samples
    }

    /// Whether a send into a full queue takes the oldest offset out of it.
    fn has_enabled_safe_overflow(&self, reg: &Registry<SharedManagementData>) -> bool
        requires { Has reg.now (handle self.now) }
        ensures value { result ≡ (settings_at reg.now (handle self.now)).enable_safe_overflow }
    {
        self.management_data(reg).settings().enable_safe_overflow
    }

    /// How many segments the offsets can be in.
    fn max_supported_shared_memory_segments(&self, reg: &Registry<SharedManagementData>) -> u8
        requires { Has reg.now (handle self.now) }
        ensures value { result ≡ (settings_at reg.now (handle self.now)).number_of_segments }
    {
        self.management_data(reg).settings().number_of_segments
    }

    /// Whether both ports are there.
    fn is_connected(&self, reg: &Registry<SharedManagementData>) -> bool
        requires { Has reg.now (handle self.now) }
        ensures value { result ≡ is_connected (port_at reg.now (handle self.now)).word }
    {
        self.management_data(reg).is_connected()
    }

    /// The word of a channel.
    fn channel_state(&self, reg: &Registry<SharedManagementData>, channel_id: ChannelId) -> u64
        requires there { Has reg.now (handle self.now) }
        requires channel { channel_id < (settings_at reg.now (handle self.now)).number_of_channels }
        ensures value { result ≡ word_of reg.now (handle self.now) channel_id }
    {
        self.management_data(reg).channel_word(channel_id.value())
    }

    /// Whether a channel is closed.
    fn is_channel_closed(&self, reg: &Registry<SharedManagementData>, channel_id: ChannelId) -> bool
        requires there { Has reg.now (handle self.now) }
        requires channel { channel_id < (settings_at reg.now (handle self.now)).number_of_channels }
        ensures value { result ≡ is_closed (word_of reg.now (handle self.now) channel_id) }
    {
        words::is_closed(self.channel_state(reg, channel_id))
    }

    /// Whether a channel is in this state and the other side is asked to disconnect.
    fn has_disconnect_hint(
        &self,
        reg: &Registry<SharedManagementData>,
        channel_id: ChannelId,
        state: ChannelState,
    ) -> bool
        requires there { Has reg.now (handle self.now) }
        requires channel { channel_id < (settings_at reg.now (handle self.now)).number_of_channels }
        ensures value { result ≡ has_hint (word_of reg.now (handle self.now) channel_id) state }
    {
        words::has_hint(self.channel_state(reg, channel_id), state.value())
    }

    /// Whether a channel is in this state, whether or not the other side is asked to disconnect. So it is false for the
    /// closed state on a closed channel, since the bit of that question is part of the closed word.
    fn has_channel_state(
        &self,
        reg: &Registry<SharedManagementData>,
        channel_id: ChannelId,
        state: ChannelState,
    ) -> bool
        requires there { Has reg.now (handle self.now) }
        requires channel { channel_id < (settings_at reg.now (handle self.now)).number_of_channels }
        ensures value { result ≡ has_state (word_of reg.now (handle self.now) channel_id) state }
    {
        words::has_state(self.channel_state(reg, channel_id), state.value())
    }

    /// Puts a closed channel into this state, and answers whether it was closed. Another channel stays as it is.
    #[tactic(auto, using(crate::proofs::Written::keeps_handles))]
    fn set_channel_state(
        &self,
        reg: &mut Registry<SharedManagementData>,
        channel_id: ChannelId,
        state: ChannelState,
    ) -> bool
        requires there { Has reg.old (handle self.now) }
        requires channel { channel_id < (settings_at reg.old (handle self.now)).number_of_channels }
        ensures acted { result ≡ is_closed (word_of reg.old (handle self.now) channel_id) }
        ensures set { reg.new ≡ with_word_of reg.old (handle self.now) channel_id
            (after_set (word_of reg.old (handle self.now) channel_id) state) }
        ensures keeps { KeepsHandles reg.old reg.new }
    {
        let word = self.channel_state(reg, channel_id);
        let next = words::after_set(word, state.value());
        Self::management_data_mut(reg, self).set_channel_word(channel_id.value(), next);
        words::is_closed(word)
    }

    /// Asks the other side to disconnect, where the channel is in this state and it isn't asked yet.
    #[tactic(auto, using(crate::proofs::Written::keeps_handles))]
    fn set_disconnect_hint(
        &self,
        reg: &mut Registry<SharedManagementData>,
        channel_id: ChannelId,
        state: ChannelState,
    )
        requires there { Has reg.old (handle self.now) }
        requires channel { channel_id < (settings_at reg.old (handle self.now)).number_of_channels }
        ensures set { reg.new ≡ with_word_of reg.old (handle self.now) channel_id
            (after_hint (word_of reg.old (handle self.now) channel_id) state) }
        ensures keeps { KeepsHandles reg.old reg.new }
    {
        let word = self.channel_state(reg, channel_id);
        let next = words::after_hint(word, state.value());
        Self::management_data_mut(reg, self).set_channel_word(channel_id.value(), next);
    }

    /// Closes a channel, where it is in this state, whether or not the other side is asked to disconnect.
    #[tactic(auto, using(crate::proofs::Written::keeps_handles))]
    fn close_channel(
        &self,
        reg: &mut Registry<SharedManagementData>,
        channel_id: ChannelId,
        state: ChannelState,
    )
        requires there { Has reg.old (handle self.now) }
        requires channel { channel_id < (settings_at reg.old (handle self.now)).number_of_channels }
        ensures closed { reg.new ≡ with_word_of reg.old (handle self.now) channel_id
            (after_close (word_of reg.old (handle self.now) channel_id) state) }
        ensures keeps { KeepsHandles reg.old reg.new }
    {
        let word = self.channel_state(reg, channel_id);
        let next = words::after_close(word, state.value());
        Self::management_data_mut(reg, self).set_channel_word(channel_id.value(), next);
    }

    /// Ends the port: its bit goes, or the connection is marked where it is the last one there. Its handle is closed,
    /// and the last port takes the name with it where this still stands for its entry.
    fn close(self, reg: &mut Registry<SharedManagementData>)
        requires { Has reg.old (handle self) }
        ensures closed { reg.new ≡ after_end reg.old (handle self) bit }
        ensures keeps_others { KeepsOtherHandles reg.old reg.new (handle self).id }
        ensures leaves_sharers { LeavesSharers reg.old reg.new (handle self).id };
}
