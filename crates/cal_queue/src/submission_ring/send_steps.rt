//! The sender's steps on the table. They stand over the parts of its end, since what the end promises between two calls
//! doesn't hold between the store of the write position and the exchange.
ghost use Rattle.std.specs.Prelude.{◌≡◌, ◌+◌, ◌-◌, ◌^◌, ◌<◌, ◌≤◌, true, false, None, length};
ghost use Rattle.std.specs.Bool.{OnTrue, OnFalse};
ghost use Rattle.cal_queue.specs.Sides.{with_writer};
ghost use Rattle.cal_queue.specs.SubmissionPass.{after_read_load, after_slot_store, after_write_store, after_won_exchange, after_lost_exchange, IsIdle};
ghost use Rattle.cal_queue.specs.RingWords.{slot_of};

use super::plays::{WriterExchangesRead, WriterLoadsRead, WriterStoresSlot, WriterStoresWrite};
use super::rule::{RingSeat, RingTable};
use crate::ring_words::{READ_POSITION, WRITE_POSITION};

pub(super) fn load_read(table: &RingTable, seat: &mut RingSeat) -> u64
    requires seated { seat.old.table_id ≡ table.now.shared.table_id }
    requires sized { table.now.shared.table_id.words ≡ table.now.shared.key + 3 }
    requires sends { seat.old.me.0.writes ≡ true }
    requires idle { IsIdle seat.old.me.0.writer }
    ensures seated { seat.new.table_id ≡ seat.old.table_id }
    ensures loaded { seat.new.me ≡ with_writer seat.old.me (after_read_load result seat.old.me.0.writer) }
    ensures within { result ≤ length seat.old.me.0.writer.sent }
    ensures room { length seat.old.me.0.writer.sent ≤ result + seat.old.me.0.writer.buffer }
{
    table.shared.load::<WriterLoadsRead>(seat, READ_POSITION)
}

/// Stores the value into its slot, and then the write position after it.
pub(super) fn append(table: &RingTable, seat: &mut RingSeat, slot: usize, written: u64, value: u64)
    requires seated { seat.old.table_id ≡ table.now.shared.table_id }
    requires sized { table.now.shared.table_id.words ≡ table.now.shared.key + 3 }
    requires sends { seat.old.me.0.writes ≡ true }
    requires idle { IsIdle seat.old.me.0.writer }
    requires place { slot ≡ slot_of (table.now.shared.key + 1) written }
    requires next { written ≡ length seat.old.me.0.writer.sent }
    requires room { written ≤ seat.old.me.0.writer.seen_read + table.now.shared.key }
    requires counts { written < 2 ^ 64 - 1 }
    ensures seated { seat.new.table_id ≡ seat.old.table_id }
    ensures appended { seat.new.me
        ≡ with_writer seat.old.me (after_write_store (after_slot_store value seat.old.me.0.writer)) }
{
    table.shared.store::<WriterStoresSlot>(seat, slot, value);
    table
        .shared
        .store::<WriterStoresWrite>(seat, WRITE_POSITION, written + 1);
}

/// Tries to move the read position on by one, and answers whether it did.
pub(super) fn exchange_read(table: &RingTable, seat: &mut RingSeat, read: u64) -> bool
    requires seated { seat.old.table_id ≡ table.now.shared.table_id }
    requires sized { table.now.shared.table_id.words ≡ table.now.shared.key + 3 }
    requires sends { seat.old.me.0.writes ≡ true }
    requires due { seat.old.me.0.writer.exchange_due ≡ true }
    requires loaded { read ≡ seat.old.me.0.writer.seen_read }
    requires counts { read < 2 ^ 64 - 1 }
    ensures seated { seat.new.table_id ≡ seat.old.table_id }
    ensures won { OnTrue result (seat.new.me ≡ with_writer seat.old.me (after_won_exchange seat.old.me.0.writer)) }
    ensures fewer { OnTrue result (length seat.old.me.0.writer.overflowed < length seat.old.me.0.writer.sent) }
    ensures lost { OnFalse result (seat.new.me ≡ with_writer seat.old.me (after_lost_exchange seat.old.me.0.writer)) }
{
    let found = table
        .shared
        .compare_exchange::<WriterExchangesRead>(seat, READ_POSITION, read, read + 1);
    found == read
}
