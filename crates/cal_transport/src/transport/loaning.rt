//! How a chunk is loaned.

ghost use Rattle.std.specs.Prelude.{◌≡◌, ◌<◌, ◌≤◌, ◌+◌, ◌/◌, true, false, Some, OnOk, length, map, vec_items, vec_len, vec_capacity};
ghost use Rattle.cal_alloc.specs.Pool.{Pool};
ghost use Rattle.cal_alloc.specs.PointerOffset.{segment_of, offset_of};
ghost use Rattle.cal_shm.specs.Segment.{Segment};
ghost use Rattle.cal_resizable.specs.Chunks.{segment_value};
ghost use Rattle.cal_resizable.specs.Growth.{next_number_of_buckets};
ghost use Rattle.cal_resizable.specs.Memory.{HasAll};
ghost use Rattle.cal_transport.specs.ChunkEntry.{AreBelow};
ghost use Rattle.cal_transport.specs.CommandsDo.{LoanDoes};
ghost use Rattle.cal_transport.specs.LoanErrors.{CanCome, IsPoolError, loan_answer, pool_answer};
ghost use Rattle.cal_transport.specs.Owning.{IsTableFor, table_at, tables_in, with_owner, with_table};
ghost use Rattle.cal_transport.specs.Room.{TakesRoomOfOne};

use crate::reply::{Refusal, Slot};
use crate::transport::Transport;
use crate::transport::chunk_entry::{ChunkEntry, Owners};
use crate::transport::parts::{MemoryRegistry, TransportMemory};
use crate::transport::taking_back::slot_at;
use crate::transport::writing::{put_zeros, size_at};
use cal_alloc::{Layout, PointerOffset, PoolAllocator, ShmAllocationError};
use cal_resizable::ResizableShmAllocationError;
use cal_resizable::chunk_laws::a_call_changes_one_segment;
use cal_resizable::together_laws::a_memory_stays_with_its_view;
use cal_shm::SharedMemoryCreateError;
use std::alloc::{AllocError, Global};
use thiserror::Error;

/// Why no chunk was loaned. The transport stands for the ledger that it stood for.
#[derive(Debug, Clone, Copy, PartialEq, Eq, Error)]
pub enum LoanError {
    /// The loan was refused.
    #[error("LoanError::Refused")]
    Refused(Refusal),
    /// Memory ran out for a further segment.
    #[error("LoanError::NoMemory")]
    NoMemory,
}

impl Transport {
    /// Loans a chunk of zeros, in any free bucket of the current segment; where that doesn't serve it, another segment
    /// is made, unless the memory is static. The name is greater than all before it, and there is room for its entry.
    pub fn loan(
        &mut self,
        alloc: Global,
        chunk: usize,
        size: usize,
        alignment: usize,
    ) -> Result<Slot, LoanError>
        requires below { AreBelow self.old.entries chunk }
        requires room { 0 < self.old.spare }
        ensures step { LoanDoes self.old chunk size alignment result self.new }
        ensures room { TakesRoomOfOne self.old self.new }
        ensures below { OnOk result (AreBelow self.new.entries (chunk + 1)) }
    {
        a_call_changes_one_segment::<PoolAllocator>();
        a_memory_stays_with_its_view::<PoolAllocator>();
        let layout = match Layout::new(size, alignment) {
            Some(layout) => layout,
            None => return Err(LoanError::Refused(Refusal::BadLayout)),
        };
        // its memory is taken before the segment's, so that nothing has changed where there is none
        let table = match next_owners(alloc, &self.memory, &self.memory_registry, layout) {
            Ok(table) => table,
            Err(_) => return Err(LoanError::NoMemory),
        };
        let answer = self
            .memory
            .allocate(alloc, &mut self.memory_registry, layout);
        let pointer = match answer {
            Ok(pointer) => pointer.offset,
            Err(error) => return Err(loan_error(error)),
        };
        let segment = pointer.segment_id().value();
        let bucket_size = size_at(&self.memory, &self.memory_registry, segment);
        put_zeros(
            &mut self.memory_registry,
            &self.memory,
            &self.view,
            pointer,
            bucket_size,
        );
        let entry = new_entry(chunk, pointer, bucket_size);
        add_table(&mut self.owners, table);
        set_owner(&mut self.owners, entry, self.entries.len());
        self.entries.push_reserved(entry);
        Ok(slot_at(entry, pointer))
    }
}

/// The table of the buckets of the segment that a loan of this layout makes, if it makes one.
fn next_owners(
    alloc: Global,
    memory: &TransportMemory,
    reg: &MemoryRegistry,
    layout: Layout,
) -> Result<Option<Owners>, AllocError>
    requires has { HasAll reg.now memory.now }
    ensures table { (segment : Segment Pool) →
        segment_value reg.now memory.now.slots memory.now.current ≡ Some segment →
        IsTableFor (next_number_of_buckets memory.now.strategy memory.now.current layout segment.allocator) result }
{
    let count = match memory.next_number_of_buckets(reg, layout) {
        Some(count) => count,
        None => return Ok(None),
    };
    match vec![in alloc; 0; count] {
        Ok(table) => Ok(Some(table)),
        Err(error) => Err(error),
    }
}

/// The entry of a chunk that was just loaned, by its pointer and the size of the buckets there.
fn new_entry(chunk: usize, pointer: PointerOffset, bucket_size: usize) -> ChunkEntry
    requires some { 0 < bucket_size }
    ensures entry { result ≡ record {
      name = chunk;
      segment = segment_of pointer;
      bucket = offset_of pointer / bucket_size;
      loaned = true;
      sent = false;
      transits = 0;
    } }
{
    ChunkEntry {
        name: chunk,
        segment: pointer.segment_id().value(),
        bucket: pointer.offset() / bucket_size,
        loaned: true,
        sent: false,
        transits: 0,
    }
}

/// Adds the table of a new segment, if there is one.
fn add_table(owners: &mut Vec<Owners>, table: Option<Owners>)
    requires room { vec_len owners.old + tables_in table ≤ vec_capacity owners.old }
    ensures owners { map vec_items owners.new.items ≡ with_table (map vec_items owners.old.items) table }
    ensures len { vec_len owners.new ≡ vec_len owners.old + tables_in table }
    ensures capacity { vec_capacity owners.new ≡ vec_capacity owners.old }
{
    if let Some(table) = table {
        owners.push_reserved(table);
    }
}

/// The bucket of an entry leads to the entry's index.
fn set_owner(owners: &mut Vec<Owners>, entry: ChunkEntry, index: usize)
    requires place { entry.bucket < length (table_at (map vec_items owners.old.items) entry.segment) }
    ensures owners { map vec_items owners.new.items
        ≡ with_owner (map vec_items owners.old.items) entry.segment entry.bucket index }
    ensures len { vec_len owners.new ≡ vec_len owners.old }
    ensures capacity { vec_capacity owners.new ≡ vec_capacity owners.old }
{
    owners[entry.segment as usize][entry.bucket] = index;
}

/// The refusal of the same name as the memory's; only memory that grows runs out.
fn loan_error(error: ResizableShmAllocationError) -> LoanError
    requires comes { CanCome error }
    ensures answer { result ≡ loan_answer error }
{
    match error {
        ResizableShmAllocationError::ShmAllocationError(error) => {
            LoanError::Refused(static_refusal(error))
        }
        ResizableShmAllocationError::MaxReallocationsReached => {
            LoanError::Refused(Refusal::MaxReallocationsReached)
        }
        ResizableShmAllocationError::SizeOutOfRange => LoanError::Refused(Refusal::SizeOutOfRange),
        ResizableShmAllocationError::SharedMemoryCreateError(error) => match error {
            SharedMemoryCreateError::NoMemory => LoanError::NoMemory,
            SharedMemoryCreateError::InternalError => LoanError::Refused(Refusal::InternalError),
            _ => unreachable!(),
        },
    }
}

/// The refusal of the same name as the pool's.
fn static_refusal(error: ShmAllocationError) -> Refusal
    requires comes { IsPoolError error }
    ensures answer { result ≡ pool_answer error }
{
    match error {
        ShmAllocationError::ExceedsMaxSupportedAlignment => Refusal::ExceedsMaxSupportedAlignment,
        ShmAllocationError::SizeTooLarge => Refusal::SizeTooLarge,
        ShmAllocationError::OutOfMemory => Refusal::OutOfMemory,
        ShmAllocationError::SizeIsZero => unreachable!(),
    }
}
