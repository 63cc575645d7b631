//! A transport: growing memory and a view of it over one registry, a sender and a receiver over another, and what ties
//! them to the names of chunks. Every command is a step of the ledger that the transport stands for, whichever free
//! bucket a loan took.

pub mod access;
mod chunk_entry;
mod count;
pub mod loaning;
pub mod making;
mod opening;
mod parts;
mod pointing;
mod reading;
mod receiver;
mod sender;
mod sharing;
mod taking_back;
#[cfg(test)]
mod tests;
mod transit;
mod writing;

use crate::settings::Settings;
use crate::transport::chunk_entry::{ChunkEntry, Owners};
use crate::transport::parts::{
    ConnectionRegistry, MemoryRegistry, TransportMemory, TransportReceiver, TransportSender,
    TransportView,
};
use cal_queue::used_chunk_list::UsedChunkList;
use std::marker::Model;

/// A sender with its memory and a receiver with its view, and the chunks that go between them.
#[derive(Debug, Drop)]
pub struct Transport {
    /// The settings, with zeros counted as ones.
    pub(crate) settings: Settings,
    /// The segments of the memory, which the view opens.
    pub(crate) memory_registry: MemoryRegistry,
    /// The memory from which chunks are loaned.
    pub(crate) memory: TransportMemory,
    /// The receiver's view of the memory. Each chunk that is borrowed is registered in it, once for each channel.
    pub(crate) view: TransportView,
    /// The connection of both ports.
    pub(crate) connection_registry: ConnectionRegistry,
    /// The port that sends.
    pub(crate) sender: TransportSender,
    /// The port that receives.
    pub(crate) receiver: TransportReceiver,
    /// For each channel, the buckets of the chunks that are borrowed from it: those of a segment stand from its number
    /// times the number of samples on.
    pub(crate) lent: Vec<UsedChunkList>,
    /// An entry for each accepted loan, in the order of their names; room for each loan that may come is reserved.
    pub(crate) entries: Vec<ChunkEntry>,
    /// For each segment that was ever made, for each bucket, the index of its chunk's entry.
    pub(crate) owners: Vec<Owners>,
    /// For each channel, how many chunks are in transit there.
    pub(crate) transits: Vec<usize>,
    /// How many chunks are in transit, each counted once for each channel.
    pub(crate) in_transit: usize,
}

impl Model for Transport {
    ghost use Rattle.cal_transport.specs.State.{TransportState};

    ghost Value = { TransportState };

    ghost use Rattle.cal_transport.specs.StateOf.{state_of, IsKept};

    ghost view = { state_of };

    ghost invariant = { IsKept };
}
