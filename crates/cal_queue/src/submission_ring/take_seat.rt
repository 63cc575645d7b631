//! The taking end, and what it keeps between two calls.
ghost use Rattle.std.specs.Prelude.{◌≡◌, ◌+◌, ◌%◌, ◌^◌, ◌<◌, true, [], length};
ghost use Rattle.std.specs.Arc.{arc_value};

use super::rule::{RingSeat, RingTable};
use std::alloc::Global;
use std::sync::Arc;

/// The end of a submission ring that takes. It may go to another thread.
#[derive(Drop)]
pub struct TakeSeat {
    // The words, which this end shares with the other.
    pub(super) table: Arc<RingTable, Global>,
    // The seat at these words, which has the reading side.
    pub(super) seat: RingSeat,
    // How many values may wait between two calls: at least 1 and below 2^32.
    pub(super) buffer: u64,
    // How many values were received.
    pub(super) received: u64,
    // The position after the last one that was taken.
    pub(super) next: u64,
    // The index of that position's slot.
    pub(super) index: usize,
    ghost seated: { seat.table_id ≡ (arc_value table).shared.table_id },
    ghost sized: { ((arc_value table).shared.table_id.words ≡ buffer + 3)
        × ((arc_value table).shared.key ≡ buffer) × (buffer < 2 ^ 32) },
    ghost takes: { (seat.me.0.reads ≡ true) × (seat.me.0.reader.buffer ≡ buffer) },
    ghost empty_handed: { seat.me.1 ≡ [] },
    ghost counted: { received ≡ length seat.me.0.reader.received },
    ghost indexed: { index ≡ next % (buffer + 1) },
}
