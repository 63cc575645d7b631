//! The two kinds of step at a state table, a load and an exchange, and how the second seat is made.
ghost use Rattle.std.specs.Prelude.{◌≡◌, ◌+◌, ◌<◌};
ghost use Rattle.cal_queue.specs.StateTable.{IsPortWord, IsWitnessed, MayChange, exchange_step, new_pass, load_step, port_index, after_step};

use super::StatePass;
use super::rule::{Exchange, Load, SecondSeat, StateWords};
use atomic_table::Seat;

pub(super) fn split(table: &StateWords, seat: &mut Seat<(), StatePass>) -> Seat<(), StatePass>
    requires seated { seat.old.table_id ≡ table.now.shared.table_id }
    requires wide { 0 < table.now.shared.table_id.words }
    ensures kept { (seat.new.table_id ≡ seat.old.table_id) × (seat.new.me.0 ≡ seat.old.me.0) }
    ensures other { (result.table_id ≡ seat.old.table_id) × (result.me.0 ≡ new_pass seat.old.me.0.opening) }
{
    table.shared.split_seat::<SecondSeat>(seat)
}

pub(super) fn load(table: &StateWords, seat: &mut Seat<(), StatePass>, index: usize) -> u64
    requires seated { seat.old.table_id ≡ table.now.shared.table_id }
    requires wide { table.now.shared.table_id.words ≡ seat.old.me.0.opening.channels + 1 }
    requires within { index < table.now.shared.table_id.words }
    ensures seated { seat.new.table_id ≡ seat.old.table_id }
    ensures pass { seat.new.me.0 ≡ after_step seat.old.me.0 (load_step index result) }
    ensures witnessed { IsWitnessed seat.new.me.0 }
    ensures port { index ≡ port_index → IsPortWord result }
{
    table.shared.load::<Load>(seat, index)
}

pub(super) fn exchange(
    table: &StateWords,
    seat: &mut Seat<(), StatePass>,
    index: usize,
    expected: u64,
    new: u64,
) -> u64
    requires seated { seat.old.table_id ≡ table.now.shared.table_id }
    requires wide { table.now.shared.table_id.words ≡ seat.old.me.0.opening.channels + 1 }
    requires within { index < table.now.shared.table_id.words }
    requires change { index ≡ port_index → MayChange expected new }
    ensures seated { seat.new.table_id ≡ seat.old.table_id }
    ensures pass { seat.new.me.0 ≡ after_step seat.old.me.0 (exchange_step index expected new result) }
    ensures witnessed { IsWitnessed seat.new.me.0 }
    ensures port { index ≡ port_index → IsPortWord result }
{
    table
        .shared
        .compare_exchange::<Exchange>(seat, index, expected, new)
}
