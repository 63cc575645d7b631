//! The taker's steps on the table.
ghost use Rattle.std.specs.Prelude.{◌≡◌, ◌+◌, ◌-◌, ◌^◌, ◌<◌, ◌≤◌, true, false, length, Some, IfSome, IfNone};
ghost use Rattle.cal_queue.specs.Sides.{with_reader};
ghost use Rattle.cal_queue.specs.SubmissionPass.{after_read_look, after_write_look, after_slot_look, after_take, after_miss};
ghost use Rattle.cal_queue.specs.RingWords.{slot_of};

use super::plays::{ReaderExchangesRead, ReaderLoadsRead, ReaderLoadsSlot, ReaderLoadsWrite};
use super::rule::{RingSeat, RingTable};
use crate::ring_words::{READ_POSITION, WRITE_POSITION};

/// Loads the read position, and then the write position.
pub(super) fn load_positions(table: &RingTable, seat: &mut RingSeat) -> (u64, u64)
    requires seated { seat.old.table_id ≡ table.now.shared.table_id }
    requires sized { table.now.shared.table_id.words ≡ table.now.shared.key + 3 }
    requires takes { seat.old.me.0.reads ≡ true }
    ensures seated { seat.new.table_id ≡ seat.old.table_id }
    ensures looked { seat.new.me
        ≡ with_reader seat.old.me (after_write_look result.1 (after_read_look result.0 seat.old.me.0.reader)) }
    ensures within { result.0 ≤ result.1 }
{
    let read = table.shared.load::<ReaderLoadsRead>(seat, READ_POSITION);
    let written = table.shared.load::<ReaderLoadsWrite>(seat, WRITE_POSITION);
    (read, written)
}

/// Loads the slot of the read position, and tries to move that position on by one. Without an answer the sender was
/// faster.
pub(super) fn take(
    table: &RingTable,
    seat: &mut RingSeat,
    slot: usize,
    read: u64,
    written: u64,
) -> Option<u64>
    requires seated { seat.old.table_id ≡ table.now.shared.table_id }
    requires sized { table.now.shared.table_id.words ≡ table.now.shared.key + 3 }
    requires takes { seat.old.me.0.reads ≡ true }
    requires place { slot ≡ slot_of (table.now.shared.key + 1) read }
    requires loaded { (read ≡ seat.old.me.0.reader.seen_read) × (seat.old.me.0.reader.seen_write ≡ Some written) }
    requires queued_count { read < written }
    ensures seated { seat.new.table_id ≡ seat.old.table_id }
    ensures taken { IfSome result
        (λ value. seat.new.me ≡ with_reader seat.old.me (after_take (after_slot_look value seat.old.me.0.reader))) }
    ensures fewer { IfSome result (λ value. length seat.old.me.0.reader.received ≤ read) }
    ensures lost { IfNone result (seat.new.me ≡ with_reader seat.old.me (after_miss seat.old.me.0.reader)) }
{
    let value = table.shared.load::<ReaderLoadsSlot>(seat, slot);
    let found = table
        .shared
        .compare_exchange::<ReaderExchangesRead>(seat, READ_POSITION, read, read + 1);
    if found == read { Some(value) } else { None }
}
