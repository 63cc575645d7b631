//! The rule that every step at a state table keeps, and what a step tells its seat.
ghost use Rattle.cal_queue.specs.StateRule.{IsSoundTable, Loads, Exchanges};
ghost use Rattle.cal_queue.specs.StateTable.{new_pass};

use super::{OpeningWords, StatePass};
use atomic_table::{Play, Split, Table, TableRule};
use std::alloc::Global;

pub(super) type StateWords = Table<(), StatePass, OpeningWords, StateRule, Global>;

/// The rule of a state table, for the proofs alone.
pub struct StateRule;

impl TableRule<(), StatePass, OpeningWords> for StateRule {
    ghost holds = { λ opening s. IsSoundTable opening s.words s.views };

    ghost first = { new_pass };
}

// The other side begins with no steps.
pub(super) struct SecondSeat;

impl Split<StatePass> for SecondSeat {
    ghost left = { λ p. p };

    ghost right = { λ p. new_pass p.opening };
}

pub(super) struct Load;

impl Play<(), StatePass> for Load {
    ghost then = { Loads };
}

pub(super) struct Exchange;

impl Play<(), StatePass> for Exchange {
    ghost then = { Exchanges };
}
