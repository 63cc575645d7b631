//! The receiver's commands: receive, read and release.

ghost use Rattle.cal_transport.specs.CommandsDo.{ReceiveDoes, ReleaseDoes};
ghost use Rattle.cal_transport.specs.Room.{TakesRoomOfOne};

use crate::reply::{Refusal, Slot};
use crate::transport::Transport;
use crate::transport::chunk_entry::find_entry;
use crate::transport::pointing::{is_lent, lend, mark_of, pointed_entry, pointer_at, unlend};
use crate::transport::sharing::{arrive, go_back};
use cal_connection::{ChannelId, ZeroCopyReceiver};

impl Transport {
    /// Borrows the oldest queued chunk of a channel, if there is one.
    pub fn receive(&mut self, channel: usize) -> Result<Option<Slot>, Refusal>
        ensures step { ReceiveDoes self.old channel result self.new }
        ensures room { TakesRoomOfOne self.old self.new }
    {
        if channel >= self.settings.channels {
            return Err(Refusal::OutsideConnection);
        }
        let id = ChannelId::new(channel);
        let answer = self.receiver.receive(&mut self.connection_registry, id);
        let taken = match answer {
            Ok(taken) => taken,
            Err(_) => return Err(Refusal::ReceiveWouldExceedMaxBorrowValue),
        };
        let pointer = match taken {
            Some(pointer) => pointer,
            None => return Ok(None),
        };
        let found = pointed_entry(
            &self.entries,
            &self.owners,
            &self.memory,
            &self.memory_registry,
            pointer,
        );
        arrive(
            &self.memory,
            &mut self.view,
            &mut self.memory_registry,
            pointer,
        );
        let mark = mark_of(
            found.entry.segment,
            self.settings.samples,
            found.entry.bucket,
        );
        lend(&mut self.lent, channel, mark);
        Ok(Some(Slot {
            chunk: found.entry.name,
            segment: pointer.segment_id().value(),
            place: pointer.offset(),
        }))
    }

    /// Gives a chunk that is borrowed from a channel back there.
    pub fn release(&mut self, channel: usize, chunk: usize) -> Result<(), Refusal>
        ensures step { ReleaseDoes self.old channel chunk result self.new }
        ensures room { TakesRoomOfOne self.old self.new }
    {
        if channel >= self.settings.channels {
            return Err(Refusal::OutsideConnection);
        }
        let found = match find_entry(&self.entries, chunk) {
            Some(found) => found,
            None => return Err(Refusal::NotBorrowed),
        };
        if !is_lent(&self.lent, channel, found.entry, self.settings.samples) {
            return Err(Refusal::NotBorrowed);
        }
        let pointer = pointer_at(
            &self.memory,
            &self.memory_registry,
            found.entry.segment,
            found.entry.bucket,
        );
        let id = ChannelId::new(channel);
        let answer = self
            .receiver
            .release(&mut self.connection_registry, pointer, id);
        match answer {
            Ok(()) => {}
            Err(_) => return Err(Refusal::RetrieveBufferFull),
        }
        go_back(
            &self.memory,
            &mut self.view,
            &mut self.memory_registry,
            pointer,
        );
        let mark = mark_of(
            found.entry.segment,
            self.settings.samples,
            found.entry.bucket,
        );
        unlend(&mut self.lent, channel, mark);
        Ok(())
    }
}
