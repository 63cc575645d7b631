//! The putting end, and what it keeps between two calls.
ghost use Rattle.std.specs.Prelude.{◌≡◌, ◌+◌, ◌%◌, ◌^◌, ◌<◌, ◌≤◌, true, None, length};
ghost use Rattle.std.specs.Arc.{arc_value};
ghost use Rattle.std.proofs.Props.{props};

use super::rule::{RingSeat, RingTable};
use std::alloc::Global;
use std::sync::Arc;

/// The end of a completion ring that puts values in. It may go to another thread.
#[derive(Drop)]
pub struct PutSeat {
    // The words, which this end shares with the other.
    pub(super) table: Arc<RingTable, Global>,
    // The seat at these words, which has the writing side.
    pub(super) seat: RingSeat,
    // How many values may be put and not yet got: at least 1 and below 2^32.
    pub(super) capacity: u64,
    // The write position, which only this end moves: how many values were put.
    pub(super) written: u64,
    // The index of that position's slot.
    pub(super) index: usize,
    ghost seated: { seat.table_id ≡ (arc_value table).shared.table_id },
    ghost sized: { ((arc_value table).shared.table_id.words ≡ capacity + 2)
        × ((arc_value table).shared.key ≡ capacity) },
    ghost some_room: { (1 ≤ capacity) × (capacity < 2 ^ 32) },
    ghost puts: { (seat.me.0.writes ≡ true) × (seat.me.0.writer.capacity ≡ capacity) },
    ghost nothing_to_put: { seat.me.0.writer.to_put ≡ None } by { Prim.hlevel props },
    ghost counted: { written ≡ length seat.me.0.writer.put },
    ghost indexed: { index ≡ written % capacity },
}
