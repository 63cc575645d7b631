//! One side of a state table.
ghost use Rattle.std.specs.Prelude.{◌≡◌, ◌+◌, ◌^◌, ◌<◌};
ghost use Rattle.std.specs.Arc.{arc_value};

use super::StatePass;
use super::rule::StateWords;
use atomic_table::Seat;
use std::alloc::Global;
use std::sync::Arc;

/// One side's seat at a state table. It may go to another thread.
#[derive(Drop)]
pub struct StateSeat {
    // The words, which both sides share.
    pub(super) table: Arc<StateWords, Global>,
    // This side's seat at them.
    pub(super) seat: Seat<(), StatePass>,
    ghost seated: { seat.table_id ≡ (arc_value table).shared.table_id },
    ghost wide: { (arc_value table).shared.table_id.words ≡ seat.me.0.opening.channels + 1 },
    ghost fits: { seat.me.0.opening.channels + 1 < 2 ^ 64 },
}
