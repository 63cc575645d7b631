//! The receiving port of a pair.
ghost use Rattle.std.specs.Prelude.{◌≡◌, ◌<◌};
ghost use Rattle.cal_shared.specs.Port.{OnChannel, pair_of_receiver};
ghost use Rattle.cal_shared.specs.Receiving.{LooksForData, Receives, Releases, borrow_count_at};

use crate::receiving_end::ReceivingEnd;
use crate::shared_port::SharedPort;
use cal_alloc::PointerOffset;
use cal_connection::{ChannelId, ZeroCopyReceiveError, ZeroCopyReleaseError};
use std::sync::Wait;

/// The port that receives offsets and gives them back. It may go to a thread of its own.
pub type SharedReceiver = SharedPort<ReceivingEnd>;

impl SharedPort<ReceivingEnd> {
    /// Takes the oldest offset that is queued on a channel, if there is one; it is borrowed from now on. It tries again
    /// where that offset overflowed meanwhile. Where as many are borrowed as may be it is refused, and takes no step.
    pub fn receive<R: Wait>(
        &mut self,
        rt: &R,
        channel_id: ChannelId,
    ) -> Result<Option<PointerOffset>, ZeroCopyReceiveError>
        requires channel { channel_id < self.old.settings.number_of_channels }
        ensures received { OnChannel channel_id
            (Receives self.old.settings.max_borrowed_samples result) self.old self.new }
        ensures pair { pair_of_receiver self.new ≡ pair_of_receiver self.old }
    {
        let limit = self.settings.max_borrowed_samples;
        self.channels[channel_id.value()].receive(rt, limit)
    }

    /// Gives an offset back to the sender on a channel, from which one is borrowed less then. A refused call leaves the
    /// number of borrowed offsets.
    pub fn release(
        &mut self,
        ptr: PointerOffset,
        channel_id: ChannelId,
    ) -> Result<(), ZeroCopyReleaseError>
        requires channel { channel_id < self.old.settings.number_of_channels }
        requires borrowed { 0 < borrow_count_at self.old channel_id }
        ensures released { OnChannel channel_id (Releases ptr result) self.old self.new }
        ensures pair { pair_of_receiver self.new ≡ pair_of_receiver self.old }
    {
        self.channels[channel_id.value()].release(ptr)
    }

    /// Whether an offset is queued on a channel, by one look. Only a value that overflows can make the answer `true`
    /// wrong before the next receive.
    pub fn has_data(&mut self, channel_id: ChannelId) -> bool
        requires channel { channel_id < self.old.settings.number_of_channels }
        ensures looked { OnChannel channel_id (LooksForData result) self.old self.new }
        ensures pair { pair_of_receiver self.new ≡ pair_of_receiver self.old }
    {
        self.channels[channel_id.value()].has_data()
    }

    /// How many offsets are borrowed from a channel.
    pub fn borrow_count(&self, channel_id: ChannelId) -> usize
        requires channel { channel_id < self.now.settings.number_of_channels }
        ensures value { result ≡ borrow_count_at self.now channel_id }
    {
        self.channels[channel_id.value()].borrow_count()
    }
}
