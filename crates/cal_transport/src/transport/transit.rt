//! The chunks that are in transit.

ghost use Rattle.std.specs.Prelude.{◌≡◌, ◌≤◌, ◌<◌, ◌+◌, ◌++◌, length};
ghost use Rattle.cal_transport.specs.Ledger.{Ledger};
ghost use Rattle.cal_transport.specs.Weights.{transits_in};
ghost use Rattle.cal_transport.specs.Run.{transit_list};
ghost use Rattle.cal_transport.specs.Standing.{StandsFor};
ghost use Rattle.cal_transport.specs.State.{Represents};
ghost use Rattle.cal_transport.specs.TransitLines.{lines_in, lines_on};

use crate::replies::Replies;
use crate::reply::{Reply, Slot};
use crate::transport::Transport;
use crate::transport::chunk_entry::entry_at;
use cal_alloc::SegmentId;
use cal_connection::ChannelId;

impl Transport {
    /// How many chunks are in transit, each counted once for each channel.
    pub fn in_transit(&self) -> usize
        ensures counted { (l : Ledger) → StandsFor self.now l → result ≡ transits_in l }
        ensures kept { result ≡ self.now.in_transit }
    {
        self.in_transit
    }

    /// Appends a reply for each chunk in transit, by channel, segment and place. It takes no memory. It looks at the
    /// used lists of the channels on which something is in transit, and at no others.
    pub fn transit(&self, into: &mut Replies<Reply>)
        requires room { self.now.in_transit ≤ into.old.spare }
        ensures listed { (l : Ledger) → StandsFor self.now l → into.new.items ≡ into.old.items ++ transit_list l }
    {
        if self.in_transit == 0 {
            return;
        }
        for channel in 0..self.settings.channels {
            if self.transits[channel] > 0 {
                self.channel_transit(channel, into);
            }
        }
    }

    /// Appends a reply for each chunk in transit on a channel, by segment and place.
    fn channel_transit(&self, channel: usize, into: &mut Replies<Reply>)
        requires channel { channel < self.now.settings.channels }
        requires room { (l : Ledger) → Represents self.now l → length (lines_on l channel) ≤ into.old.spare }
        ensures listed { (l : Ledger) → Represents self.now l → into.new.items ≡ into.old.items ++ lines_on l channel }
        ensures room { into.new.spare + length into.new.items ≡ into.old.spare + length into.old.items }
    {
        let segments = self.owners.len().min(self.settings.segments as usize);
        for segment in 0..segments {
            self.segment_transit(channel, SegmentId::new(segment as u8), into);
        }
    }

    /// Appends a reply for each chunk of a segment that is in transit on a channel, by place. It goes from one used
    /// bucket to the next, by the words of the list.
    fn segment_transit(&self, channel: usize, segment: SegmentId, into: &mut Replies<Reply>)
        requires channel { channel < self.now.settings.channels }
        requires segment { segment < self.now.settings.segments }
        requires room { (l : Ledger) → Represents self.now l → length (lines_in l channel segment) ≤ into.old.spare }
        ensures listed { (l : Ledger) → Represents self.now l →
            into.new.items ≡ into.old.items ++ lines_in l channel segment }
        ensures room { into.new.spare + length into.new.items ≡ into.old.spare + length into.old.items }
    {
        let channel_id = ChannelId::new(channel);
        let mut from = 0;
        while let Some(bucket) = self
            .sender
            .next_used(&self.connection_registry, channel_id, segment, from)
        {
            let size = self.memory.bucket_size(&self.memory_registry, segment);
            let found = entry_at(&self.entries, &self.owners, segment.value(), bucket);
            into.push(Reply::Transit {
                channel,
                slot: Slot {
                    chunk: found.entry.name,
                    segment: segment.value(),
                    place: bucket * size,
                },
            });
            from = bucket + 1;
        }
    }
}
