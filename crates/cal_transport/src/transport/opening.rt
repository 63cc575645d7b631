//! What a transport is opened with: memory and a view under one name, both ports of a connection, and its tables.
ghost use Rattle.std.specs.Prelude.{◌≡◌, ◌≤◌, ◌-◌, ◌*◌, ◌∷◌, [], IfOk, map, replicate, vec_len, vec_capacity, vec_items, codes};
ghost use Rattle.cal_queue.specs.UsedChunks.{none_used};
ghost use Rattle.cal_storage.specs.Contents.{nothing_registered};
ghost use Rattle.cal_transport.specs.Settings.{CanMake};
ghost use Rattle.cal_transport.specs.Opening.{CanOpen, IsNewMemory, AreNewTogether, AreNewPorts, connection_plan, memory_plan, view_plan, transport_name};

use crate::settings::Settings;
use crate::transport::chunk_entry::Owners;
use crate::transport::parts::{
    ConnectionRegistry, ConnectionStorage, MemoryRegistry, Shm, TransportMemory, TransportReceiver,
    TransportSender, TransportView,
};
use cal_alloc::{Layout, PoolAllocator};
use cal_connection::{Builder, ZeroCopyConnectionBuilder, ZeroCopyCreationError};
use cal_names::{FileName, NamedConceptBuilder};
use cal_queue::used_chunk_list::UsedChunkList;
use cal_resizable::together_laws::{a_new_memory_stands_alone, a_view_opens_what_was_created};
use cal_resizable::{DynamicMemoryBuilder, DynamicViewBuilder};
use cal_shm::{SharedMemoryCreateError, SharedMemoryOpenError};
use cal_storage::AccessMode;
use std::alloc::{AllocError, Global};

/// How many segments there can be in turn.
const MAX_NUMBER_OF_SEGMENTS: usize = 256;

/// The name under which memory and connection stand in their registries.
fn transport_name() -> FileName
    ensures value { result ≡ transport_name }
{
    FileName::new(b"transport").unwrap()
}

/// A table of the buckets of the first segment, with room for one of each further segment.
pub(crate) fn owners_of_first(alloc: Global, count: usize) -> Result<Vec<Owners>, AllocError>
    ensures first { IfOk result (λ owners. map vec_items owners.items ≡ replicate count 0 ∷ []) }
    ensures room { IfOk result (λ owners. 255 ≤ vec_capacity owners - vec_len owners) }
{
    let mut owners = Vec::with_capacity(alloc, MAX_NUMBER_OF_SEGMENTS)?;
    owners.push_reserved(vec![in alloc; 0; count]?);
    Ok(owners)
}

/// An empty list of lent buckets for each channel.
pub(crate) fn lent_lists(
    alloc: Global,
    settings: &Settings,
) -> Result<Vec<UsedChunkList>, AllocError>
    requires can { CanOpen settings.now }
    ensures none { IfOk result (λ lists. lists.items ≡
        replicate settings.now.channels (none_used (settings.now.segments * settings.now.samples))) }
{
    let capacity = settings.segments as usize * settings.samples;
    let mut lists = Vec::with_capacity(alloc, settings.channels)?;
    for _ in 0..settings.channels {
        lists.push(UsedChunkList::new(alloc, capacity)?)?;
    }
    Ok(lists)
}

/// The builder of the memory.
fn memory_builder(settings: &Settings) -> DynamicMemoryBuilder<PoolAllocator, Shm>
    requires can { CanMake settings.now }
    ensures plan { result ≡ memory_plan settings.now }
{
    let layout = Layout::new(settings.size, settings.alignment).unwrap();
    let builder: DynamicMemoryBuilder<PoolAllocator, Shm> = DynamicMemoryBuilder::new(
        &transport_name(),
    );
    builder
        .max_chunk_layout_hint(layout)
        .max_number_of_chunks_hint(settings.count)
        .allocation_strategy(settings.strategy)
}

/// The memory of a new transport, in a new registry.
pub(crate) fn new_memory(
    alloc: Global,
    reg: &mut MemoryRegistry,
    settings: &Settings,
) -> Result<TransportMemory, AllocError>
    requires can { CanOpen settings.now }
    requires new { reg.old ≡ nothing_registered }
    ensures made { IfOk result (IsNewMemory settings.now reg.new) }
{
    a_new_memory_stands_alone::<PoolAllocator>();
    match memory_builder(settings).create(alloc, reg) {
        Ok(memory) => {
            let _sound = memory.number_of_active_segments();
            Ok(memory)
        }
        Err(error) => Err(memory_error(error)),
    }
}

/// The builder of the view.
fn view_builder() -> DynamicViewBuilder<PoolAllocator, Shm>
    ensures plan { result ≡ view_plan }
{
    DynamicViewBuilder::new(&transport_name())
}

/// The view of a new transport, over the registry that has its memory.
pub(crate) fn new_view(
    alloc: Global,
    reg: &mut MemoryRegistry,
    memory: &TransportMemory,
    settings: &Settings,
) -> Result<TransportView, AllocError>
    requires alone { IsNewMemory settings.now reg.old memory.now }
    ensures together { IfOk result (AreNewTogether settings.now reg.new memory.now) }
{
    a_view_opens_what_was_created::<PoolAllocator>();
    match view_builder().open(alloc, reg, AccessMode::ReadWrite) {
        Ok(view) => Ok(view),
        Err(error) => Err(view_error(error)),
    }
}

/// The builder of both ports.
fn port_builder(settings: &Settings) -> Builder<ConnectionStorage>
    requires can { CanOpen settings.now }
    ensures plan { result ≡ connection_plan settings.now }
{
    let builder: Builder<ConnectionStorage> = Builder::new(&transport_name());
    builder
        .buffer_size(settings.buffer)
        .enable_safe_overflow(settings.overflow)
        .receiver_max_borrowed_samples_per_channel(settings.borrow)
        .number_of_samples_per_segment(settings.samples)
        .max_supported_shared_memory_segments(settings.segments)
        .number_of_channels(settings.channels)
}

/// Both ports of a new transport, in a new registry.
pub(crate) fn new_ports(
    alloc: Global,
    reg: &mut ConnectionRegistry,
    settings: &Settings,
) -> Result<(TransportSender, TransportReceiver), AllocError>
    requires can { CanOpen settings.now }
    requires new { reg.old ≡ nothing_registered }
    ensures made { IfOk result (λ ports. AreNewPorts settings.now reg.new ports.0 ports.1) }
{
    let sender = match port_builder(settings).create_sender(alloc, reg) {
        Ok(sender) => sender,
        Err(error) => return Err(port_error(error)),
    };
    match port_builder(settings).create_receiver(alloc, reg) {
        Ok(receiver) => Ok((sender, receiver)),
        Err(error) => Err(port_error(error)),
    }
}

/// The want of memory that refused a memory.
fn memory_error(error: SharedMemoryCreateError) -> AllocError
    requires memory { error ≡ SharedMemoryCreateError.NoMemory }
{
    match error {
        SharedMemoryCreateError::NoMemory => AllocError,
        _ => unreachable!(),
    }
}

/// The want of memory that refused a view.
fn view_error(error: SharedMemoryOpenError) -> AllocError
    requires memory { error ≡ SharedMemoryOpenError.NoMemory }
{
    match error {
        SharedMemoryOpenError::NoMemory => AllocError,
        _ => unreachable!(),
    }
}

/// The want of memory that refused a port.
fn port_error(error: ZeroCopyCreationError) -> AllocError
    requires memory { error ≡ ZeroCopyCreationError.NoMemory }
{
    match error {
        ZeroCopyCreationError::NoMemory => AllocError,
        _ => unreachable!(),
    }
}
