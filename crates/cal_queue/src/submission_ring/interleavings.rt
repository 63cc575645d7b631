//! What holds of every order in which the steps of the two ends can fall. The function has no body to run: its contract
//! is a theorem over the definitions that the ring's own contracts cite.
ghost use Rattle.std.specs.Prelude.{ℕ};
ghost use Rattle.cal_queue.specs.RingMachine.{RunsAreSchedules, StepsAreEvents};
ghost use Rattle.cal_queue.specs.RingState.{Bounds, unused_state};
ghost use Rattle.cal_queue.specs.SubmissionLaw.{Represents, new_ring, submission_machine};

/// At every moment the words and what the two ends know represent a state of the channel's rings. The store of the
/// write position is a send, an exchange that the sender wins is an overflow, one that the taker wins is a receipt, and
/// no other step is an event; so each run of steps is a schedule.
pub fn every_interleaving_is_a_schedule()
    ensures start { (buffer : ℕ) → Represents buffer (new_ring buffer) unused_state }
    ensures step { (b : Bounds) → StepsAreEvents (submission_machine b.buffer) b }
    ensures run { (b : Bounds) → RunsAreSchedules (submission_machine b.buffer) b }
{}
