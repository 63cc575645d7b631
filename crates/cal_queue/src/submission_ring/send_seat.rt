//! The sending end, and what it keeps between two calls.
ghost use Rattle.std.specs.Prelude.{◌≡◌, ◌+◌, ◌%◌, ◌^◌, ◌<◌, true, false, None, length};
ghost use Rattle.std.specs.Arc.{arc_value};
ghost use Rattle.std.proofs.Props.{props};
ghost use Rattle.cal_queue.specs.SubmissionCopy.{KeepsLast};

use super::rule::{RingSeat, RingTable};
use std::alloc::Global;
use std::sync::Arc;

/// The end of a submission ring that sends. It may go to another thread.
#[derive(Drop)]
pub struct SendSeat {
    // The words, which this end shares with the other.
    pub(super) table: Arc<RingTable, Global>,
    // The seat at these words, which has the writing side.
    pub(super) seat: RingSeat,
    // How many values may wait between two calls: at least 1 and below 2^32.
    pub(super) buffer: u64,
    // The write position, which only this end moves: how many values were sent.
    pub(super) written: u64,
    // How many values overflowed.
    pub(super) overflowed: u64,
    // The index of the write position's slot, which is its index in the copy too.
    pub(super) index: usize,
    // The last values sent, one more than the buffer, each at the index of its slot, so that the oldest one comes back
    // without a load of that slot.
    pub(super) copy: Vec<u64>,
    ghost seated: { seat.table_id ≡ (arc_value table).shared.table_id },
    ghost sized: { ((arc_value table).shared.table_id.words ≡ buffer + 3)
        × ((arc_value table).shared.key ≡ buffer) × (buffer < 2 ^ 32) },
    ghost sends: { (seat.me.0.writes ≡ true) × (seat.me.0.writer.buffer ≡ buffer) },
    ghost nothing_due: { seat.me.0.writer.exchange_due ≡ false },
    ghost nothing_to_send: { seat.me.0.writer.to_send ≡ None } by { Prim.hlevel props },
    ghost counted: { (written ≡ length seat.me.0.writer.sent) × (overflowed ≡ length seat.me.0.writer.overflowed) },
    ghost indexed: { index ≡ written % (buffer + 1) },
    ghost copied: { KeepsLast buffer seat.me.0.writer.sent copy.items },
}
