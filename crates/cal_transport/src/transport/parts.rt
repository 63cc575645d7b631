//! The types of a transport's parts.

use cal_alloc::PoolAllocator;
use cal_connection::{Receiver, Sender, SharedManagementData};
use cal_resizable::{DynamicMemory, DynamicView};
use cal_shm::{AllocatorDetails, process_local};
use cal_storage::Registry;
use cal_storage::dynamic_storage::process_local::Storage;

/// A segment of the transport's memory.
pub type Shm = process_local::Memory<PoolAllocator>;

/// The registry of the segments.
pub type MemoryRegistry = Registry<AllocatorDetails<PoolAllocator>>;

/// The memory from which chunks are loaned.
pub type TransportMemory = DynamicMemory<PoolAllocator, Shm>;

/// The receiver's view of the memory.
pub type TransportView = DynamicView<PoolAllocator, Shm>;

/// The registry of the connection.
pub type ConnectionRegistry = Registry<SharedManagementData>;

/// The storage of the connection.
pub type ConnectionStorage = Storage<SharedManagementData>;

/// The port that sends.
pub type TransportSender = Sender<ConnectionStorage>;

/// The port that receives.
pub type TransportReceiver = Receiver<ConnectionStorage>;
