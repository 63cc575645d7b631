//! What the receiver reads of a chunk that is borrowed.

ghost use Rattle.std.specs.Prelude.{◌≡◌, Some, IsSome};
ghost use Rattle.cal_alloc.specs.Pool.{Pool};
ghost use Rattle.cal_alloc.specs.PointerOffset.{segment_of, offset_of};
ghost use Rattle.cal_shm.specs.Calls.{IsInPayload};
ghost use Rattle.cal_shm.specs.Segment.{Segment};
ghost use Rattle.cal_resizable.specs.Chunks.{segment_value};
ghost use Rattle.cal_resizable.specs.Growth.{OfSegment};
ghost use Rattle.cal_resizable.specs.Slots.{segment_at};
ghost use Rattle.cal_resizable.specs.Together.{AreTogether};
ghost use Rattle.cal_transport.specs.CommandsDo.{ReadDoes};
ghost use Rattle.cal_transport.specs.Shown.{bytes_at};

use crate::reply::Refusal;
use crate::transport::Transport;
use crate::transport::chunk_entry::find_entry;
use crate::transport::parts::{MemoryRegistry, TransportMemory, TransportView};
use crate::transport::pointing::{is_lent, pointer_at};
use crate::transport::writing::{exceeds_bucket, size_at};
use cal_alloc::{PointerOffset, PoolAllocator};
use cal_resizable::together_laws::an_arrival_of_what_is_out_is_not_refused;

impl Transport {
    /// The bytes of a chunk that is borrowed from a channel, from a place in the chunk on: the view's own. Takes no
    /// memory. The refusals are `OutsideConnection`, then `NotBorrowed`, then `OutsideChunk`.
    pub fn read(
        &self,
        channel: usize,
        chunk: usize,
        at: usize,
        length: usize,
    ) -> Result<&[u8], Refusal>
        ensures step { ReadDoes self.now channel chunk at length result }
    {
        if channel >= self.settings.channels {
            return Err(Refusal::OutsideConnection);
        }
        let found = match find_entry(&self.entries, chunk) {
            Some(found) => found,
            None => return Err(Refusal::NotBorrowed),
        };
        if !is_lent(&self.lent, channel, found.entry, self.settings.samples) {
            return Err(Refusal::NotBorrowed);
        }
        let size = size_at(&self.memory, &self.memory_registry, found.entry.segment);
        if exceeds_bucket(size, at, length) {
            return Err(Refusal::OutsideChunk);
        }
        let pointer = pointer_at(
            &self.memory,
            &self.memory_registry,
            found.entry.segment,
            found.entry.bucket,
        );
        let bytes = viewed_bytes(
            &self.memory,
            &self.view,
            &self.memory_registry,
            pointer,
            size,
        );
        Ok(&bytes[at..at + length])
    }
}

/// The bytes of a segment that the view has mapped, from a pointer on: they are the memory's.
fn viewed_bytes<'r>(
    memory: &TransportMemory,
    view: &TransportView,
    reg: &'r MemoryRegistry,
    pointer: PointerOffset,
    count: usize,
) -> &'r [u8]
    requires together { AreTogether reg.now memory.now view.now }
    requires mapped { IsSome (segment_at view.now.slots (segment_of pointer)) }
    requires within { OfSegment reg.now memory.now.slots (segment_of pointer)
        (λ segment. IsInPayload segment.payload (offset_of pointer) count) }
    ensures bytes { (segment : Segment Pool) →
        segment_value reg.now memory.now.slots (segment_of pointer) ≡ Some segment →
        result.now ≡ bytes_at segment.payload (offset_of pointer) count }
{
    an_arrival_of_what_is_out_is_not_refused::<PoolAllocator>();
    view.bytes(reg, pointer, count)
}
