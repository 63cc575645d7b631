//! What each end of the ring knows of it, for the proofs alone. Only the end's own steps change its pass. No value of
//! these types is made, and their numbers have no upper bound.

use std::collections::LinkedList;

/// What the sending end knows.
pub struct SendPass {
    /// How many values may wait between two calls.
    pub buffer: u64,
    /// The values sent, the first one first: a value's index is its position.
    pub sent: LinkedList<u64>,
    /// The positions that overflowed, in rising order, each with the value that was sent there.
    pub overflowed: LinkedList<(u64, u64)>,
    /// The read position as it was last loaded; 0 before the first load.
    pub seen_read: u64,
    /// How often the read position was loaded.
    pub loads: u64,
    /// How many exchanges came too late.
    pub lost_exchanges: u64,
    /// The value whose slot is stored, and the write position not yet.
    pub to_send: Option<u64>,
    /// Whether an exchange of the read position has to follow, since the ring was seen full.
    pub exchange_due: bool,
}

/// What the taking end knows.
pub struct TakePass {
    /// How many values may wait between two calls.
    pub buffer: u64,
    /// The positions that were received, in rising order, each with the value that was sent there.
    pub received: LinkedList<(u64, u64)>,
    /// The read position as it was last loaded; 0 before the first load.
    pub seen_read: u64,
    /// The write position, if it was loaded after the read position.
    pub seen_write: Option<u64>,
    /// The value of the read position's slot, if it was loaded after both positions.
    pub seen_value: Option<u64>,
    /// How often the read position was loaded.
    pub read_loads: u64,
    /// How often the write position was loaded.
    pub write_loads: u64,
}
