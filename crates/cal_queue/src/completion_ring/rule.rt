//! The rule that every step of either end keeps.

use super::pass::{GetPass, PutPass};
use crate::sided::Sided;
use atomic_table::{Join, Seat, Table, TableRule};
use std::alloc::Global;

pub(crate) type RingView = Sided<PutPass, GetPass>;

pub(crate) type RingSeat = Seat<(), RingView>;

pub(crate) type RingTable = Table<(), RingView, u64, CompletionRule, Global>;

// The key is how many values may be put and not yet got.
pub(crate) struct CompletionRule;

impl TableRule<(), RingView, u64> for CompletionRule {
    ghost use Rattle.cal_queue.specs.CompletionRule.{IsSoundTable, new_view};

    ghost holds = { IsSoundTable };

    ghost first = { new_view };
}

// The putting end takes the other one in.
pub(crate) struct Meeting;

impl Join<RingView> for Meeting {
    ghost use Rattle.cal_queue.specs.Sides.{joined_sides};
    ghost use Rattle.cal_queue.specs.CompletionRule.{spent_view};

    ghost both = { joined_sides };

    ghost spent = { spent_view };
}
