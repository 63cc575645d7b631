//! The sender's commands on chunks that it has loaned: send, reclaim and discard.

ghost use Rattle.std.specs.Prelude.{◌≡◌, ◌&&◌, nat_lt};
ghost use Rattle.cal_transport.specs.CommandsDo.{SendDoes, ReclaimDoes, DiscardDoes};
ghost use Rattle.cal_transport.specs.Room.{TakesRoomOfOne};
ghost use Rattle.cal_transport.specs.Sample.{AnswersSample};

use crate::reply::{Refusal, Slot};
use crate::transport::Transport;
use crate::transport::chunk_entry::{ChunkEntry, Found, find_entry};
use crate::transport::pointing::{pointed_entry, pointer_at};
use crate::transport::sharing::free_unless;
use crate::transport::taking_back::{
    count_less, count_more, end_loan, enter_channel, leave_channel, slot_at, take_place,
};
use cal_alloc::{PointerOffset, SegmentId};
use cal_connection::{ChannelId, ZeroCopySender};
use cal_resizable::SegmentsHolder;

/// A chunk that may be sent: its entry, its pointer, and the size in bytes of its bucket.
#[derive(Drop)]
pub(crate) struct Sample {
    /// The chunk's entry.
    pub(crate) found: Found,
    /// Where the chunk lies.
    pub(crate) pointer: PointerOffset,
    /// The size of the buckets of its segment.
    pub(crate) size: usize,
}

impl Transport {
    /// Queues a loaned chunk on a channel. Where as many chunks are queued as may be and chunks overflow, the oldest
    /// comes back.
    pub fn send(&mut self, channel: usize, chunk: usize) -> Result<Option<Slot>, Refusal>
        ensures step { SendDoes self.old channel chunk result self.new }
        ensures room { TakesRoomOfOne self.old self.new }
    {
        let sample = self.sample_to_send(channel, chunk)?;
        let answer = self.sender.try_send(
            &mut self.connection_registry,
            sample.pointer,
            sample.size,
            ChannelId::new(channel),
        );
        let back = match answer {
            Ok(back) => back,
            Err(_) => return Err(Refusal::ReceiveBufferFull),
        };
        let oldest = match back {
            Some(oldest) => oldest,
            None => {
                enter_channel(&mut self.entries, sample.found);
                count_more(&mut self.transits, channel);
                self.in_transit += 1;
                return Ok(None);
            }
        };
        let leaving = pointed_entry(
            &self.entries,
            &self.owners,
            &self.memory,
            &self.memory_registry,
            oldest,
        );
        let kept = take_place(&mut self.entries, sample.found, leaving);
        free_unless(
            kept,
            &mut self.memory,
            &self.view,
            &mut self.memory_registry,
            oldest,
        );
        Ok(Some(slot_at(leaving.entry, oldest)))
    }

    /// The chunk of that name, if it may be sent on a channel where there is room; else why not.
    fn sample_to_send(&self, channel: usize, chunk: usize) -> Result<Sample, Refusal>
        ensures sample { AnswersSample self.now channel chunk result }
    {
        let found = match find_entry(&self.entries, chunk) {
            Some(found) => found,
            None => return Err(Refusal::NotLoaned),
        };
        if !found.entry.loaned {
            return Err(Refusal::NotLoaned);
        }
        if channel >= self.settings.channels {
            return Err(Refusal::OutsideConnection);
        }
        if !is_within(found.entry, self.settings.segments, self.settings.samples) {
            return Err(Refusal::OutsideConnection);
        }
        let pointer = pointer_at(
            &self.memory,
            &self.memory_registry,
            found.entry.segment,
            found.entry.bucket,
        );
        let size = self
            .memory
            .bucket_size(&self.memory_registry, SegmentId::new(found.entry.segment));
        let sent_on = ChannelId::new(channel);
        if self
            .sender
            .is_in_use(&self.connection_registry, pointer, size, sent_on)
        {
            return Err(Refusal::AlreadyInTransit);
        }
        Ok(Sample {
            found,
            pointer,
            size,
        })
    }

    /// Takes back the oldest chunk that the receiver gave back on a channel, if there is one.
    pub fn reclaim(&mut self, channel: usize) -> Result<Option<Slot>, Refusal>
        ensures step { ReclaimDoes self.old channel result self.new }
        ensures room { TakesRoomOfOne self.old self.new }
    {
        if channel >= self.settings.channels {
            return Err(Refusal::OutsideConnection);
        }
        let answer = self
            .sender
            .reclaim(&mut self.connection_registry, ChannelId::new(channel));
        let taken = match answer {
            Ok(taken) => taken,
            Err(_) => unreachable!(),
        };
        let pointer = match taken {
            Some(pointer) => pointer,
            None => return Ok(None),
        };
        let found = pointed_entry(
            &self.entries,
            &self.owners,
            &self.memory,
            &self.memory_registry,
            pointer,
        );
        let kept = leave_channel(&mut self.entries, found);
        free_unless(
            kept,
            &mut self.memory,
            &self.view,
            &mut self.memory_registry,
            pointer,
        );
        count_less(&mut self.transits, channel);
        self.in_transit -= 1;
        Ok(Some(slot_at(found.entry, pointer)))
    }

    /// Ends the loan of a chunk.
    pub fn discard(&mut self, chunk: usize) -> Result<(), Refusal>
        ensures step { DiscardDoes self.old chunk result self.new }
        ensures room { TakesRoomOfOne self.old self.new }
    {
        let found = match find_entry(&self.entries, chunk) {
            Some(found) => found,
            None => return Err(Refusal::NotLoaned),
        };
        if !found.entry.loaned {
            return Err(Refusal::NotLoaned);
        }
        let pointer = pointer_at(
            &self.memory,
            &self.memory_registry,
            found.entry.segment,
            found.entry.bucket,
        );
        free_unless(
            found.entry.transits > 0,
            &mut self.memory,
            &self.view,
            &mut self.memory_registry,
            pointer,
        );
        end_loan(&mut self.entries, found);
        Ok(())
    }
}

/// Whether a connection of that many segments, and that many samples of each, can name the bucket of an entry.
pub(crate) fn is_within(entry: ChunkEntry, segments: u8, samples: usize) -> bool
    ensures within { result ≡ (nat_lt entry.segment segments && nat_lt entry.bucket samples) }
{
    entry.segment < segments && entry.bucket < samples
}
