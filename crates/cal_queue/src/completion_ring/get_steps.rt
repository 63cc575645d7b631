//! The getting end's steps on the table.
ghost use Rattle.std.specs.Prelude.{◌≡◌, ◌+◌, ◌-◌, ◌^◌, ◌<◌, ◌≤◌, true, length};
ghost use Rattle.cal_queue.specs.CompletionPass.{after_slot_look, after_write_look, after_read_store};
ghost use Rattle.cal_queue.specs.RingWords.{slot_of};
ghost use Rattle.cal_queue.specs.Sides.{with_reader};

use super::plays::{ReaderLoadsSlot, ReaderLoadsWrite, ReaderStoresRead};
use super::rule::{RingSeat, RingTable};
use crate::ring_words::{READ_POSITION, WRITE_POSITION};

pub(super) fn load_write(table: &RingTable, seat: &mut RingSeat) -> u64
    requires seated { seat.old.table_id ≡ table.now.shared.table_id }
    requires sized { table.now.shared.table_id.words ≡ table.now.shared.key + 2 }
    requires gets { seat.old.me.0.reads ≡ true }
    ensures seated { seat.new.table_id ≡ seat.old.table_id }
    ensures loaded { seat.new.me ≡ with_reader seat.old.me (after_write_look result seat.old.me.0.reader) }
    ensures within { length seat.old.me.0.reader.got ≤ result }
{
    table.shared.load::<ReaderLoadsWrite>(seat, WRITE_POSITION)
}

// Loads the slot of the read position, and then stores the next read position, which makes the slot free.
pub(super) fn take(table: &RingTable, seat: &mut RingSeat, slot: usize, read: u64) -> u64
    requires seated { seat.old.table_id ≡ table.now.shared.table_id }
    requires sized { table.now.shared.table_id.words ≡ table.now.shared.key + 2 }
    requires some_room { 1 ≤ table.now.shared.key }
    requires gets { seat.old.me.0.reads ≡ true }
    requires place { slot ≡ slot_of table.now.shared.key read }
    requires next { read ≡ length seat.old.me.0.reader.got }
    requires waits { read < seat.old.me.0.reader.seen_write }
    requires counts { read < 2 ^ 64 - 1 }
    ensures seated { seat.new.table_id ≡ seat.old.table_id }
    ensures taken { seat.new.me
        ≡ with_reader seat.old.me (after_read_store (after_slot_look result seat.old.me.0.reader)) }
{
    let words = &table.shared;
    let value = words.load::<ReaderLoadsSlot>(seat, slot);
    words.store::<ReaderStoresRead>(seat, READ_POSITION, read + 1);
    value
}
