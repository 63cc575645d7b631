//! The putting end's steps on the table.
ghost use Rattle.std.specs.Prelude.{◌≡◌, ◌+◌, ◌-◌, ◌^◌, ◌<◌, ◌≤◌, true, None, length};
ghost use Rattle.cal_queue.specs.CompletionPass.{after_read_load, after_slot_store, after_write_store};
ghost use Rattle.cal_queue.specs.RingWords.{slot_of};
ghost use Rattle.cal_queue.specs.Sides.{with_writer};

use super::plays::{WriterLoadsRead, WriterStoresSlot, WriterStoresWrite};
use super::rule::{RingSeat, RingTable};
use crate::ring_words::{READ_POSITION, WRITE_POSITION};

pub(super) fn load_read(table: &RingTable, seat: &mut RingSeat) -> u64
    requires seated { seat.old.table_id ≡ table.now.shared.table_id }
    requires sized { table.now.shared.table_id.words ≡ table.now.shared.key + 2 }
    requires puts { seat.old.me.0.writes ≡ true }
    requires idle { seat.old.me.0.writer.to_put ≡ None }
    ensures seated { seat.new.table_id ≡ seat.old.table_id }
    ensures loaded { seat.new.me ≡ with_writer seat.old.me (after_read_load result seat.old.me.0.writer) }
    ensures within { result ≤ length seat.old.me.0.writer.put }
    ensures room { length seat.old.me.0.writer.put ≤ result + seat.old.me.0.writer.capacity }
{
    table.shared.load::<WriterLoadsRead>(seat, READ_POSITION)
}

// Stores the value into its slot, and only then the write position after it.
pub(super) fn append(table: &RingTable, seat: &mut RingSeat, slot: usize, written: u64, value: u64)
    requires seated { seat.old.table_id ≡ table.now.shared.table_id }
    requires sized { table.now.shared.table_id.words ≡ table.now.shared.key + 2 }
    requires some_room { 1 ≤ table.now.shared.key }
    requires puts { seat.old.me.0.writes ≡ true }
    requires idle { seat.old.me.0.writer.to_put ≡ None }
    requires place { slot ≡ slot_of table.now.shared.key written }
    requires next { written ≡ length seat.old.me.0.writer.put }
    requires room { written < seat.old.me.0.writer.seen_read + table.now.shared.key }
    requires counts { written < 2 ^ 64 - 1 }
    ensures seated { seat.new.table_id ≡ seat.old.table_id }
    ensures appended { seat.new.me
        ≡ with_writer seat.old.me (after_write_store (after_slot_store value seat.old.me.0.writer)) }
{
    let words = &table.shared;
    words.store::<WriterStoresSlot>(seat, slot, value);
    words.store::<WriterStoresWrite>(seat, WRITE_POSITION, written + 1);
}
