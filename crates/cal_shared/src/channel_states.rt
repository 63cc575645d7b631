//! The words that both ports share: which ports are there, and the states of the channels. Each call is one step at a
//! word or two, takes no memory, and waits for nobody, but for the end of a port.
ghost use Rattle.std.specs.Prelude.{◌≡◌, ◌<◌};
ghost use Rattle.cal_queue.specs.StateSeats.{ShareTable, pass};
ghost use Rattle.cal_queue.specs.StateTable.{IsPortWord, IsWitnessed, channel_index, port_index};
ghost use Rattle.cal_connection.specs.Words.{has_hint, has_state, is_closed, is_connected};
ghost use Rattle.cal_shared.specs.Port.{AtWords, pair_of};
ghost use Rattle.cal_shared.specs.Words.{ClosesChannel, Exchanged, Leaves, LoadsWord, SetsHint, SetsState};

use crate::shared_port::{PortEnd, SharedPort};
use crate::words;
use cal_connection::{ChannelId, ChannelState};
use cal_queue::state_table::StateSeat;
use std::sync::Wait;

// Puts another word in the place of a channel's, where that is the word expected, and answers whether it was.
fn exchange(states: &mut StateSeat, channel: usize, expected: u64, word: u64) -> bool
    requires channel { channel < (pass states.old).opening.channels }
    ensures same_table { ShareTable states.new states.old }
    ensures opening { (pass states.new).opening ≡ (pass states.old).opening }
    ensures exchanged { Exchanged (channel_index channel) expected word result (pass states.old) (pass states.new) }
    ensures witnessed { IsWitnessed (pass states.new) }
{
    states.exchange_channel(channel, expected, word).is_ok()
}

// Closes a channel, where it is in this state, whether or not the other side is asked to disconnect.
fn close(states: &mut StateSeat, channel: usize, state: u64)
    requires channel { channel < (pass states.old).opening.channels }
    ensures same_table { ShareTable states.new states.old }
    ensures opening { (pass states.new).opening ≡ (pass states.old).opening }
    ensures closed { ClosesChannel channel state (pass states.old) (pass states.new) }
    ensures witnessed { IsWitnessed (pass states.new) }
{
    let closed = exchange(states, channel, state, words::CLOSED);
    if closed {
        return;
    }
    let hinted = words::with_hint(state);
    let _closed_then = exchange(states, channel, hinted, words::CLOSED);
}

impl<E: PortEnd> SharedPort<E> {
    /// Whether both ports are there, by one load.
    pub fn is_connected(&mut self) -> bool
        ensures loaded { AtWords (LoadsWord port_index is_connected result) self.old self.new }
        ensures pair { pair_of E.rings self.new ≡ pair_of E.rings self.old }
        ensures witnessed { IsWitnessed self.new.states }
    {
        words::is_connected(self.states.load_port())
    }

    /// The word of a channel, by one load.
    pub fn channel_state(&mut self, channel_id: ChannelId) -> u64
        requires channel { channel_id < self.old.settings.number_of_channels }
        ensures loaded { AtWords (LoadsWord (channel_index channel_id) (λ word. word) result) self.old self.new }
        ensures pair { pair_of E.rings self.new ≡ pair_of E.rings self.old }
        ensures witnessed { IsWitnessed self.new.states }
    {
        self.states.load_channel(channel_id.value())
    }

    /// Whether a channel is closed, by one load.
    pub fn is_channel_closed(&mut self, channel_id: ChannelId) -> bool
        requires channel { channel_id < self.old.settings.number_of_channels }
        ensures loaded { AtWords (LoadsWord (channel_index channel_id) is_closed result) self.old self.new }
        ensures pair { pair_of E.rings self.new ≡ pair_of E.rings self.old }
        ensures witnessed { IsWitnessed self.new.states }
    {
        words::is_closed(self.channel_state(channel_id))
    }

    /// Whether a channel is in this state and the other side is asked to disconnect, by one load.
    pub fn has_disconnect_hint(&mut self, channel_id: ChannelId, state: ChannelState) -> bool
        requires channel { channel_id < self.old.settings.number_of_channels }
        ensures loaded { AtWords (LoadsWord (channel_index channel_id) (λ word. has_hint word state) result)
            self.old self.new }
        ensures pair { pair_of E.rings self.new ≡ pair_of E.rings self.old }
        ensures witnessed { IsWitnessed self.new.states }
    {
        words::has_hint(self.channel_state(channel_id), state.value())
    }

    /// Whether a channel is in this state, whether or not the other side is asked to disconnect, by one load. So it is
    /// false for the closed state on a closed channel, since the bit of that question is part of the closed word.
    pub fn has_channel_state(&mut self, channel_id: ChannelId, state: ChannelState) -> bool
        requires channel { channel_id < self.old.settings.number_of_channels }
        ensures loaded { AtWords (LoadsWord (channel_index channel_id) (λ word. has_state word state) result)
            self.old self.new }
        ensures pair { pair_of E.rings self.new ≡ pair_of E.rings self.old }
        ensures witnessed { IsWitnessed self.new.states }
    {
        words::has_state(self.channel_state(channel_id), state.value())
    }

    /// Puts a closed channel into this state by one exchange, and answers whether it was closed.
    pub fn set_channel_state(&mut self, channel_id: ChannelId, state: ChannelState) -> bool
        requires channel { channel_id < self.old.settings.number_of_channels }
        ensures exchanged { AtWords (SetsState channel_id state result) self.old self.new }
        ensures pair { pair_of E.rings self.new ≡ pair_of E.rings self.old }
        ensures witnessed { IsWitnessed self.new.states }
    {
        let channel = channel_id.value();
        let state = state.value();
        exchange(&mut self.states, channel, words::CLOSED, state)
    }

    /// Asks the other side to disconnect by one exchange, where the channel is in this state and it isn't asked yet.
    pub fn set_disconnect_hint(&mut self, channel_id: ChannelId, state: ChannelState)
        requires channel { channel_id < self.old.settings.number_of_channels }
        ensures exchanged { AtWords (SetsHint channel_id state) self.old self.new }
        ensures pair { pair_of E.rings self.new ≡ pair_of E.rings self.old }
        ensures witnessed { IsWitnessed self.new.states }
    {
        let channel = channel_id.value();
        let state = state.value();
        let hinted = words::with_hint(state);
        let _asked = exchange(&mut self.states, channel, state, hinted);
    }

    /// Closes a channel, where it is in this state, whether or not the other side is asked to disconnect. It tries the
    /// state first, and where the word is another one, the state with that question.
    pub fn close_channel(&mut self, channel_id: ChannelId, state: ChannelState)
        requires channel { channel_id < self.old.settings.number_of_channels }
        ensures exchanged { AtWords (ClosesChannel channel_id state) self.old self.new }
        ensures pair { pair_of E.rings self.new ≡ pair_of E.rings self.old }
        ensures witnessed { IsWitnessed self.new.states }
    {
        let channel = channel_id.value();
        let state = state.value();
        close(&mut self.states, channel, state);
    }

    /// Ends the port: its bit goes, or the connection is marked where it is the last one there, and the answer is
    /// whether it was. A port that has left already changes nothing. It tries again where the other port came between.
    pub fn leave<R: Wait>(&mut self, rt: &R) -> bool
        ensures left { AtWords (Leaves E.bit result) self.old self.new }
        ensures pair { pair_of E.rings self.new ≡ pair_of E.rings self.old }
        ensures witnessed { IsWitnessed self.new.states }
    {
        self.states.leave(rt, E::port_bit())
    }
}
