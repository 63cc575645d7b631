//! The entry of a connection, which both of its ports see. Ported from `zero_copy_connection/common.rs` of iceoryx2-cal
//! 0.9.3.
ghost use Rattle.std.specs.Prelude.{◌≡◌, ◌<◌, ◌≤◌, ◌^◌, Some, false, length, map, codes, IfOk, if◌then◌else◌};
ghost use Rattle.cal_alloc.specs.PointerOffset.{offset_of, segment_of};
ghost use Rattle.cal_queue.specs.FirstFrom.{IsFirstFrom};
ghost use Rattle.cal_queue.specs.Callback.{LeadsTo, MayRunOver};
ghost use Rattle.cal_connection.specs.Acquisition.{IsAcquirable, used_offsets, after_acquiring};
ghost use Rattle.cal_connection.specs.Backpressure.{obstacle};
ghost use Rattle.cal_connection.specs.Channel.{send_answer, after_send, receive_answer, after_receive, release_answer, after_release, reclaim_answer, after_reclaim, is_empty, is_full, is_used, with_word};
ghost use Rattle.cal_connection.specs.Closing.{without_bit, with_closed_channels, closed_channel};
ghost use Rattle.cal_connection.specs.Creation.{join_refusal, with_bit};
ghost use Rattle.cal_connection.specs.Port.{IsSoundPort, channel_at, with_channel, is_in_use, IsWithin, new_port};
ghost use Rattle.cal_connection.specs.PortLemmas.{length-channels};
ghost use Rattle.cal_connection.specs.Settings.{completion_size, IsClamped, incompatibility};
ghost use Rattle.cal_connection.specs.Words.{IsPortWord, IsPortBit, has_bit, mark, is_connected, leaves_mark, after_leave};

use crate::acquisition::{call_on_channels, empty_channels};
use crate::backpressure::Obstacle;
use crate::channel::Channel;
use crate::errors::{
    ZeroCopyCreationError, ZeroCopyReceiveError, ZeroCopyReclaimError, ZeroCopyReleaseError,
    ZeroCopySendError,
};
use crate::settings::ConnectionSettings;
use crate::words;
use cal_alloc::PointerOffset;
use cal_names::{NamedType, TypeName};
use std::alloc::{AllocError, Global};
use std::marker::Model;

/// What the ports of a connection share: the settings, the channels, and which ports are there.
#[derive(Debug, Drop)]
pub struct SharedManagementData {
    /// What the connection was made with; no setting is zero.
    settings: ConnectionSettings,
    /// The bits of the ports that are there, or the mark that the last one has left.
    word: u8,
    /// The channels by their numbers, as many as the settings say.
    channels: Vec<Channel>,
}

impl Model for SharedManagementData {
    ghost use Rattle.cal_connection.specs.Port.{PortEntry, IsSoundPort};

    ghost Value = { PortEntry };

    ghost view = { λ d. record { settings = d.settings; word = d.word; channels = d.channels.items } };

    ghost invariant = { λ d.
        IsSoundPort (record { settings = d.settings; word = d.word; channels = d.channels.items }) };
}

impl NamedType for SharedManagementData {
    ghost name = { codes "SharedManagementData" };

    fn type_name() -> TypeName {
        TypeName::new(b"SharedManagementData").unwrap()
    }
}

impl SharedManagementData {
    /// An entry with this port word, whose channels begin in this state. The error says that memory ran out.
    pub(crate) fn new(
        alloc: Global,
        settings: &ConnectionSettings,
        word: u8,
        state: u64,
    ) -> Result<Self, AllocError>
        requires clamped { IsClamped settings.now }
        requires fits { completion_size settings.now < 2 ^ 63 }
        requires word { IsPortWord word }
        ensures new { IfOk result (λ entry. entry ≡ new_port settings.now word state) }
    {
        let mut channels = Vec::with_capacity(alloc, settings.number_of_channels)?;
        for _ in 0..settings.number_of_channels {
            channels.push(Channel::new(alloc, settings, state)?)?;
        }
        Ok(SharedManagementData {
            settings: *settings,
            word,
            channels,
        })
    }

    /// Why the port of this bit, which asks for these settings, can't join: the first cause that holds.
    pub(crate) fn join_refusal(
        &self,
        asked: &ConnectionSettings,
        bit: u8,
    ) -> Option<ZeroCopyCreationError>
        requires bit { IsPortBit bit }
        requires fits { completion_size asked.now < 2 ^ 63 }
        ensures value { result ≡ join_refusal self.now asked.now bit }
    {
        if words::has_bit(self.word, bit) {
            Some(ZeroCopyCreationError::AnotherInstanceIsAlreadyConnected)
        } else if words::is_marked(self.word) {
            Some(ZeroCopyCreationError::IsBeingCleanedUp)
        } else {
            self.settings.incompatibility(asked)
        }
    }

    /// The port of this bit joins.
    pub(crate) fn join(&mut self, bit: u8)
        requires bit { IsPortBit bit }
        requires absent { has_bit self.old.word bit ≡ false }
        requires unmarked { has_bit self.old.word mark ≡ false }
        ensures joined { self.new ≡ with_bit self.old bit }
    {
        self.word = words::after_join(self.word, bit);
    }

    /// The port of this bit leaves, and answers whether it was the last.
    pub(crate) fn leave(&mut self, bit: u8) -> bool
        requires { IsPortBit bit }
        ensures last { result ≡ leaves_mark self.old.word bit }
        ensures left { self.new ≡ without_bit self.old bit }
    {
        let is_last = words::leaves_mark(self.word, bit);
        self.word = words::after_leave(self.word, bit);
        is_last
    }

    /// Closes all channels, whatever state they are in.
    pub(crate) fn close_all_channels(&mut self)
        ensures closed { self.new ≡ with_closed_channels self.old }
    {
        close_all(&mut self.channels);
    }

    /// Sends an offset, whose sample has that size in bytes, on a channel.
    pub(crate) fn try_send(
        &mut self,
        ptr: PointerOffset,
        sample_size: usize,
        channel: usize,
    ) -> Result<Option<PointerOffset>, ZeroCopySendError>
        requires { IsWithin self.old channel ptr sample_size }
        ensures answer { result ≡
            send_answer self.old.settings.enable_safe_overflow (channel_at self.old channel) ptr sample_size }
        ensures sent { self.new ≡ with_channel self.old channel
            (after_send self.old.settings.enable_safe_overflow (channel_at self.old channel) ptr sample_size) }
        ensures sound { IsSoundPort self.old }
    {
        let overflow = self.settings.enable_safe_overflow;
        self.channels[channel].try_send(overflow, ptr, sample_size)
    }

    /// Whether the sample of an offset is in use on a channel.
    pub(crate) fn is_in_use(&self, ptr: PointerOffset, sample_size: usize, channel: usize) -> bool
        requires { IsWithin self.now channel ptr sample_size }
        ensures value { result ≡ is_in_use self.now channel ptr sample_size }
    {
        let index = ptr.offset() / sample_size;
        self.channels[channel].is_used(ptr.segment_id().value() as usize, index)
    }

    /// The first sample of a segment, from this index on, that is in use on a channel.
    pub(crate) fn next_used(&self, channel: usize, segment: usize, from: usize) -> Option<usize>
        requires channel { channel < self.now.settings.number_of_channels }
        requires segment { segment < self.now.settings.number_of_segments }
        ensures first { IsFirstFrom (is_used (channel_at self.now channel).segments segment) from result }
    {
        self.channels[channel].next_used(segment, from)
    }

    /// Takes the oldest queued offset of a channel, where fewer are borrowed than may be.
    pub(crate) fn receive(
        &mut self,
        count: usize,
        channel: usize,
    ) -> Result<Option<PointerOffset>, ZeroCopyReceiveError>
        requires { channel < self.old.settings.number_of_channels }
        ensures answer { result ≡
            receive_answer self.old.settings.max_borrowed_samples count (channel_at self.old channel) }
        ensures received { self.new ≡ with_channel self.old channel
            (after_receive self.old.settings.max_borrowed_samples count (channel_at self.old channel)) }
        ensures below { IfOk result (λ _. count < 2 ^ 63) }
        ensures sound { IsSoundPort self.old }
    {
        let limit = self.settings.max_borrowed_samples;
        self.channels[channel].receive(limit, count)
    }

    /// Gives an offset back to the sender on a channel.
    pub(crate) fn release(
        &mut self,
        ptr: PointerOffset,
        channel: usize,
    ) -> Result<(), ZeroCopyReleaseError>
        requires { channel < self.old.settings.number_of_channels }
        ensures answer { result ≡ release_answer (channel_at self.old channel) }
        ensures released { self.new ≡ with_channel self.old channel (after_release (channel_at self.old channel) ptr) }
        ensures sound { IsSoundPort self.old }
    {
        self.channels[channel].release(ptr)
    }

    /// Takes the oldest offset of a channel that the receiver gave back.
    pub(crate) fn reclaim(
        &mut self,
        channel: usize,
    ) -> Result<Option<PointerOffset>, ZeroCopyReclaimError>
        requires { channel < self.old.settings.number_of_channels }
        ensures answer { result ≡ reclaim_answer (channel_at self.old channel) }
        ensures reclaimed { self.new ≡ with_channel self.old channel (after_reclaim (channel_at self.old channel)) }
        ensures sound { IsSoundPort self.old }
    {
        self.channels[channel].reclaim()
    }

    /// Calls a callback on the offset of each sample that is in use, and hands it back.
    pub(crate) fn call_on_used<F: FnMut(PointerOffset)>(&self, callback: F) -> F
        requires acquirable { IsAcquirable self.now }
        requires callable { MayRunOver F.FnMut callback (used_offsets self.now) }
        ensures called { LeadsTo F.FnMut callback (used_offsets self.now) result }
    {
        prove!(self.settings.number_of_segments <= u8::MAX);
        call_on_channels(&self.channels, callback)
    }

    /// Takes all samples out of use.
    pub(crate) fn empty_used(&mut self)
        ensures emptied { self.new ≡ after_acquiring self.old }
    {
        empty_channels(&mut self.channels);
    }

    /// Whether no offset is queued on a channel.
    pub(crate) fn is_empty(&self, channel: usize) -> bool
        requires { channel < self.now.settings.number_of_channels }
        ensures value { result ≡ is_empty (channel_at self.now channel).submission }
    {
        self.channels[channel].is_empty()
    }

    /// Whether as many offsets are queued on a channel as may be.
    pub(crate) fn is_full(&self, channel: usize) -> bool
        requires { channel < self.now.settings.number_of_channels }
        ensures value { result ≡ is_full (channel_at self.now channel).submission }
    {
        self.channels[channel].is_full()
    }

    /// What stands in the way of a send on a channel.
    pub(crate) fn obstacle(&self, channel: usize) -> Obstacle
        requires { channel < self.now.settings.number_of_channels }
        ensures value { result ≡ obstacle self.now channel }
    {
        if self.settings.enable_safe_overflow || !self.is_full(channel) {
            Obstacle::Nothing
        } else if !self.is_connected() {
            Obstacle::NoReceiver
        } else if words::is_closed(self.channel_word(channel)) {
            Obstacle::ClosedChannel
        } else {
            Obstacle::FullQueue
        }
    }

    /// The word of a channel.
    pub(crate) fn channel_word(&self, channel: usize) -> u64
        requires { channel < self.now.settings.number_of_channels }
        ensures value { result ≡ (channel_at self.now channel).word }
    {
        self.channels[channel].word()
    }

    /// Gives a channel another word.
    pub(crate) fn set_channel_word(&mut self, channel: usize, word: u64)
        requires { channel < self.old.settings.number_of_channels }
        ensures set { self.new ≡ with_channel self.old channel (with_word (channel_at self.old channel) word) }
        ensures sound { IsSoundPort self.old }
    {
        self.channels[channel].set_word(word);
    }

    /// Whether both ports are there.
    pub(crate) fn is_connected(&self) -> bool
        ensures value { result ≡ is_connected self.now.word }
    {
        words::is_connected(self.word)
    }

    /// The settings.
    pub(crate) fn settings(&self) -> &ConnectionSettings
        ensures value { result.now ≡ self.now.settings }
        ensures sound { IsSoundPort self.now }
    {
        &self.settings
    }
}

/// Closes channels, whatever state they are in.
fn close_all(channels: &mut Vec<Channel>)
    ensures closed { channels.new.items ≡ map closed_channel channels.old.items }
{
    for index in 0..channels.len() {
        channels[index].set_word(words::CLOSED);
    }
}
