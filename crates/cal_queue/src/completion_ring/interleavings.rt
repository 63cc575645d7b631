//! What holds of every order in which the steps of the two ends can fall. The function has no body to run: its contract
//! is a theorem over the definitions that the ring's own contracts cite.
ghost use Rattle.std.specs.Prelude.{ℕ, ◌≤◌};
ghost use Rattle.cal_queue.specs.CompletionLaw.{Represents, completion_machine, new_ring};
ghost use Rattle.cal_queue.specs.RingMachine.{RunsAreSchedules, StepsAreEvents};
ghost use Rattle.cal_queue.specs.RingState.{Bounds, unused_state};

/// At every moment the words and what the two ends know represent a state of the channel's rings. The store of the
/// write position is a release, the store of the read position is a reclaim, and no other step is an event; so each run
/// of steps is a schedule.
pub fn every_interleaving_is_a_schedule()
    ensures start { (capacity : ℕ) → 1 ≤ capacity → Represents capacity (new_ring capacity) unused_state }
    ensures step { (b : Bounds) → StepsAreEvents (completion_machine b.completion) b }
    ensures run { (b : Bounds) → RunsAreSchedules (completion_machine b.completion) b }
{}
