//! The getting end, and what it keeps between two calls.
ghost use Rattle.std.specs.Prelude.{◌≡◌, ◌+◌, ◌%◌, ◌^◌, ◌<◌, ◌≤◌, true, [], length};
ghost use Rattle.std.specs.Arc.{arc_value};

use super::rule::{RingSeat, RingTable};
use std::alloc::Global;
use std::sync::Arc;

/// The end of a completion ring that gets values out. It may go to another thread.
#[derive(Drop)]
pub struct GetSeat {
    // The words, which this end shares with the other.
    pub(super) table: Arc<RingTable, Global>,
    // The seat at these words, which has the reading side.
    pub(super) seat: RingSeat,
    // How many values may be put and not yet got: at least 1 and below 2^32.
    pub(super) capacity: u64,
    // The read position, which only this end moves: how many values were got.
    pub(super) read: u64,
    // The index of that position's slot.
    pub(super) index: usize,
    ghost seated: { seat.table_id ≡ (arc_value table).shared.table_id },
    ghost sized: { ((arc_value table).shared.table_id.words ≡ capacity + 2)
        × ((arc_value table).shared.key ≡ capacity) },
    ghost some_room: { (1 ≤ capacity) × (capacity < 2 ^ 32) },
    ghost gets: { (seat.me.0.reads ≡ true) × (seat.me.0.reader.capacity ≡ capacity) },
    ghost empty_handed: { seat.me.1 ≡ [] },
    ghost counted: { read ≡ length seat.me.0.reader.got },
    ghost indexed: { index ≡ read % capacity },
}
