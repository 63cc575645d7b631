//! The rule that every step of either end keeps.

use super::pass::{SendPass, TakePass};
use crate::sided::Sided;
use atomic_table::{Join, Seat, Table, TableRule};
use std::alloc::Global;

pub(crate) type RingView = Sided<SendPass, TakePass>;

pub(crate) type RingTable = Table<(), RingView, u64, SubmissionRule, Global>;

pub(crate) type RingSeat = Seat<(), RingView>;

// The key is how many values the ring keeps between two calls.
pub(crate) struct SubmissionRule;

impl TableRule<(), RingView, u64> for SubmissionRule {
    ghost use Rattle.cal_queue.specs.SubmissionRule.{IsSoundTable, new_view};

    ghost holds = { IsSoundTable };

    ghost first = { new_view };
}

// The sending end takes the other one in.
pub(crate) struct Meeting;

impl Join<RingView> for Meeting {
    ghost use Rattle.cal_queue.specs.Sides.{joined_sides};
    ghost use Rattle.cal_queue.specs.SubmissionRule.{spent_view};

    ghost both = { joined_sides };

    ghost spent = { spent_view };
}
