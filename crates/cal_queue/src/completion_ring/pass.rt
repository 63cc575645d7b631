//! What each end of the ring knows of it, for the proofs alone. Only the end's own steps change its pass. No value of
//! these types is made, and their numbers have no upper bound.

use std::collections::LinkedList;

/// What the putting end knows.
pub struct PutPass {
    /// How many values may be put and not yet got.
    pub capacity: u64,
    /// The values put, the first one first: a value's index is its position.
    pub put: LinkedList<u64>,
    /// The read position as it was last loaded; 0 before the first load.
    pub seen_read: u64,
    /// How often the read position was loaded.
    pub loads: u64,
    /// The value whose slot is stored, and the write position not yet.
    pub to_put: Option<u64>,
}

/// What the getting end knows.
pub struct GetPass {
    /// How many values may be put and not yet got.
    pub capacity: u64,
    /// The values got, the first one first: they are the beginning of those put.
    pub got: LinkedList<u64>,
    /// The write position as it was last loaded; 0 before the first load.
    pub seen_write: u64,
    /// How often the write position was loaded.
    pub loads: u64,
    /// The value of the read position's slot, if it was loaded after the write position.
    pub seen_value: Option<u64>,
}
