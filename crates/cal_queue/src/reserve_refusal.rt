//! The refusals of a side that wants to join a connection. Either leaves the table as it was.

use thiserror::Error;

/// Why a side did not join, with the port word that told so.
#[derive(Debug, Clone, Copy, PartialEq, Eq, Error)]
pub enum ReserveRefusal {
    /// The bit is set already: the side is there.
    #[error("ReserveRefusal::AlreadyConnected")]
    AlreadyConnected { seen: u64 },
    /// The word is the mark of a connection that is being cleaned up.
    #[error("ReserveRefusal::BeingCleanedUp")]
    BeingCleanedUp { seen: u64 },
}
