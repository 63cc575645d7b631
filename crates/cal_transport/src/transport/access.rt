//! What a transport tells of its parts and of a chunk.

ghost use Rattle.std.specs.Prelude.{◌≡◌, ◌||◌, nat_lt};
ghost use Rattle.cal_transport.specs.ChunkTold.{TellsChunk};

use crate::transport::Transport;
use crate::transport::chunk_entry::{ChunkEntry, find_entry};
use crate::transport::parts::{
    ConnectionRegistry, MemoryRegistry, TransportMemory, TransportReceiver, TransportSender,
    TransportView,
};
use crate::transport::writing::size_at;

/// What a transport tells of a chunk that is loaned or in transit.
#[derive(Debug, Clone, Copy, PartialEq, Eq)]
pub struct ChunkRecord {
    /// The number of the chunk's segment.
    pub segment: u8,
    /// The place of its bucket, in bytes from the segment's start.
    pub place: usize,
    /// Whether the sender has it still: it wasn't discarded.
    pub loaned: bool,
    /// Whether it was ever sent.
    pub sent: bool,
}

impl Transport {
    /// The memory from which chunks are loaned.
    pub fn memory(&self) -> &TransportMemory
        ensures memory { result.now ≡ self.now.memory }
    {
        &self.memory
    }

    /// The receiver's view of the memory.
    pub fn view(&self) -> &TransportView
        ensures view { result.now ≡ self.now.view }
    {
        &self.view
    }

    /// The port that sends.
    pub fn sender(&self) -> &TransportSender
        ensures sender { result.now ≡ self.now.sender }
    {
        &self.sender
    }

    /// The port that receives.
    pub fn receiver(&self) -> &TransportReceiver
        ensures receiver { result.now ≡ self.now.receiver }
    {
        &self.receiver
    }

    /// The registry of the memory's segments, which the view opens.
    pub fn memory_registry(&self) -> &MemoryRegistry
        ensures registry { result.now ≡ self.now.memory_registry }
    {
        &self.memory_registry
    }

    /// The registry of the connection that both ports have.
    pub fn connection_registry(&self) -> &ConnectionRegistry
        ensures registry { result.now ≡ self.now.connection_registry }
    {
        &self.connection_registry
    }

    /// What is known of the chunk of that name, where it is loaned or in transit.
    pub fn chunk(&self, chunk: usize) -> Option<ChunkRecord>
        ensures told { TellsChunk self.now chunk result }
    {
        let found = match find_entry(&self.entries, chunk) {
            Some(found) => found,
            None => return None,
        };
        if !lives(found.entry) {
            return None;
        }
        let size = size_at(&self.memory, &self.memory_registry, found.entry.segment);
        let place = found.entry.bucket * size;
        Some(ChunkRecord {
            segment: found.entry.segment,
            place,
            loaned: found.entry.loaned,
            sent: found.entry.sent,
        })
    }
}

/// Whether the chunk of an entry lives: it is loaned, or in transit on some channel.
fn lives(entry: ChunkEntry) -> bool
    ensures lives { result ≡ (entry.loaned || nat_lt 0 entry.transits) }
{
    entry.loaned || entry.transits > 0
}
