//! The sending port of a pair.
ghost use Rattle.std.specs.Prelude.{◌≡◌, ◌<◌, ◌≤◌, ◌/◌, map, MatchBool};
ghost use Rattle.cal_queue.specs.Callback.{MayRunOver, RunsOver};
ghost use Rattle.cal_shared.specs.Acquiring.{IsAcquirable, after_acquiring, used_on_channels};
ghost use Rattle.cal_shared.specs.Channels.{SendingChannel};
ghost use Rattle.cal_shared.specs.Port.{OnChannel, pair_of_sender};
ghost use Rattle.cal_shared.specs.Sending.{IsSendable, IsWithin, Reclaims, SeesFull, SeesRoom, TriesToSend, is_in_use, used_samples};

use crate::acquisition::{call_on_channels, empty_channels};
use crate::sending_end::SendingEnd;
use crate::shared_port::SharedPort;
use cal_alloc::PointerOffset;
use cal_connection::{ChannelId, ZeroCopyReclaimError, ZeroCopySendError};

/// The port that sends offsets and takes them back. It may go to a thread of its own.
pub type SharedSender = SharedPort<SendingEnd>;

impl SharedPort<SendingEnd> {
    /// Sends an offset on a channel: its sample, of that size in bytes, is in use on the channel from now on. Where the
    /// queue is full and the connection overflows, the oldest offset leaves it, isn't in use any more, and is the
    /// answer, unless it is received meanwhile. After `ReceiveBufferFull` and `PositionsUsedUp` nothing was sent. After
    /// `ConnectionCorrupted` the new offset is in use and queued, and the oldest is gone.
    pub fn try_send(
        &mut self,
        ptr: PointerOffset,
        sample_size: usize,
        channel_id: ChannelId,
    ) -> Result<Option<PointerOffset>, ZeroCopySendError>
        requires sendable { IsSendable self.old channel_id ptr sample_size }
        ensures sent { OnChannel channel_id
            (TriesToSend self.old.settings.enable_safe_overflow ptr sample_size result) self.old self.new }
        ensures pair { pair_of_sender self.new ≡ pair_of_sender self.old }
    {
        let overflow = self.settings.enable_safe_overflow;
        self.channels[channel_id.value()].try_send(overflow, ptr, sample_size)
    }

    /// Whether the sample of an offset, of that size in bytes, is in use on a channel.
    pub fn is_in_use(&self, ptr: PointerOffset, sample_size: usize, channel_id: ChannelId) -> bool
        requires within { IsWithin self.now.settings channel_id ptr sample_size }
        ensures value { result ≡ is_in_use self.now channel_id ptr sample_size }
    {
        self.channels[channel_id.value()].is_used(ptr, sample_size)
    }

    /// Takes the oldest offset that the receiver released on a channel; it isn't in use any more. After
    /// `ReceiverReturnedCorruptedPointerOffset` what was released is gone, and nothing else has changed.
    pub fn reclaim(
        &mut self,
        channel_id: ChannelId,
    ) -> Result<Option<PointerOffset>, ZeroCopyReclaimError>
        requires channel { channel_id < self.old.settings.number_of_channels }
        ensures reclaimed { OnChannel channel_id (Reclaims result) self.old self.new }
        ensures pair { pair_of_sender self.new ≡ pair_of_sender self.old }
    {
        self.channels[channel_id.value()].reclaim()
    }

    /// Whether fewer offsets are queued on a channel than may be, by one look.
    pub(crate) fn has_room(&mut self, channel_id: ChannelId) -> bool
        requires channel { channel_id < self.old.settings.number_of_channels }
        ensures looked { MatchBool result (OnChannel channel_id SeesRoom self.old self.new)
            (OnChannel channel_id SeesFull self.old self.new) }
        ensures pair { pair_of_sender self.new ≡ pair_of_sender self.old }
        ensures samples { used_samples self.new ≡ used_samples self.old }
    {
        self.channels[channel_id.value()].has_room()
    }

    /// Takes all samples out of use, and calls the callback once on the offset of each, by channel, then by segment,
    /// then by index. The offset of a sample is its index times the size that the last send told of its segment on its
    /// channel, and has to be below 2^56. What is on its way stays in its ring. So this is for a sender that is about
    /// to end: an offset that comes back afterwards names no sample in use.
    pub fn acquire_used_offsets<F: FnMut(PointerOffset) + Drop>(&mut self, callback: F)
        requires acquirable { IsAcquirable self.old }
        requires callable { MayRunOver F.FnMut callback (used_on_channels self.old.channels) }
        ensures called { RunsOver F.FnMut callback (used_on_channels self.old.channels) }
        ensures acquired { self.new ≡ after_acquiring self.old }
        ensures pair { pair_of_sender self.new ≡ pair_of_sender self.old }
    {
        call_on_channels(&self.channels, callback);
        empty_channels(&mut self.channels);
    }
}
